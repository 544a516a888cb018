// A list of calls run through the real calls, and the totals of a run in it: demand 3's claims hold of them.
#![tactic(auto)]

ghost use Rattle.std.specs.Prelude.{◌≡◌, min};
ghost use Rattle.store.specs.Held.{SameLent};
ghost use Rattle.wants.specs.Held.{SameArrays};
ghost use Rattle.fair_row.specs.Replay as replay;
ghost use Rattle.fair_replay.specs.Runs as runs;

use fair_row::{Call, Turned};
use flow::DIMS;
use head::Shedder;
use sender::Unit;
use store::Lent;
use wants::Histogram;

// Sums in each dimension, modulo 2^64.
#[tactic(auto, unfolding(fair_row::specs::Replay::sums))]
fn sums(xs: [u64; DIMS], ys: [u64; DIMS]) -> [u64; DIMS]
    ensures { result ≡ replay.sums xs ys }
{
    flow::per_dim(|d| xs[d].wrapping_add(ys[d]))
}

// What a list left, and the totals over the calls of the run, modulo 2^64.
#[derive(Clone, Copy)]
pub struct Replayed {
    pub head: Shedder,
    pub admitted: [u64; DIMS],
    // of that, on the watched record
    pub admitted_on: [u64; DIMS],
    pub handed: [u64; DIMS],
    pub taken: u64,
    // whether the last call of the run is a judgement answered over share
    pub over_share: bool,
}

// Whether a call is one of the run: its place is, and its number is 0, as of a call that was not refused; a number, as in the definition.
#[tactic(auto, unfolding(fair_row::specs::Replay::counts))]
fn counts(inside: bool, number: u64) -> bool
    ensures { result ≡ replay.counts inside number }
{
    inside && number == 0
}

// A call more.
fn after(run: Replayed, t: Turned, inside: bool) -> Replayed
    ensures { runs.Adds inside run t result }
{
    if !counts(inside, t.number) {
        return Replayed {
            head: t.head,
            ..run
        };
    }
    Replayed {
        head: t.head,
        admitted: sums(run.admitted, t.admitted),
        admitted_on: sums(run.admitted_on, t.admitted_on),
        handed: sums(run.handed, t.handed),
        taken: run.taken.wrapping_add(1),
        over_share: t.over_share,
    }
}

// The calls before call `to`, in order, all where there are fewer; those from call `from` on are the run. `watched` names the
// record that is watched, by its unit: overflow's by the unit overflow. out is the buffer of the reports.
pub fn replay(
    head: Shedder,
    lent: &mut Lent<'_>,
    histogram: &mut Histogram<'_>,
    watched: Unit,
    list: &[Call],
    from: usize,
    to: usize,
    out: &mut [u8],
) -> Replayed
    ensures totals { runs.Replays watched from to (replay.held_lent head lent.old histogram.old)
        out.old list.now result (replay.held_lent result.head lent.new histogram.new) out.new }
    ensures slices { SameLent lent.old lent.new }
    ensures arrays { SameArrays histogram.old histogram.new }
{
    let mut run = Replayed {
        head,
        admitted: [0; DIMS],
        admitted_on: [0; DIMS],
        handed: [0; DIMS],
        taken: 0,
        over_share: false,
    };
    let end = to.min(list.len());
    // By place: the run and the list's end are told by places; `enumerate` would need a `take` beside it.
    for i in 0..end {
        let turned = fair_row::turn(run.head, lent, histogram, watched, list[i], out);
        run = after(run, turned, from <= i);
    }
    run
}
