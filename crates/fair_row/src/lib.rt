// A call as a value, run through the real calls: what it leaves, and what it amounts to.
#![tactic(auto)]

mod own;
mod read;

ghost use Rattle.std.specs.Prelude.{◌≡◌};
ghost use Rattle.sender.specs.declared.Unit as sent;
ghost use Rattle.store.specs.Held.{SameLent};
ghost use Rattle.wants.specs.Wants.{Hist};
ghost use Rattle.wants.specs.Held.{SameArrays};
ghost use Rattle.fair.specs.Calls as calls;
ghost use Rattle.fair_row.specs.Replay as replay;

use codes::answer_number;
use flow::{DIMS, Dim};
use head::{Cause, Refusal, Shedder};
use own::on_watched;
use read::answer_reading;
use sender::Unit;
use store::{Lent, LentRead};
use verdict::Verdict;
use wants::Histogram;

// A call that only reads.
#[derive(Clone, Copy)]
pub enum Reading {
    // A report into the lent buffer, and the call beside it.
    Report,
    ReportBeside,
    // The batches cut for a cause, the tables visited, a level, a rate, whether the relay is bounded.
    Count(Cause),
    Visited,
    Level(Dim),
    Rate(Dim),
    IsBounded,
}

// What may be called of a shedder.
#[derive(Clone, Copy)]
pub enum Call {
    Judge {
        unit: Unit,
        cost: [u64; DIMS],
        stamp: u64,
    },
    Cut {
        unit: Unit,
        cause: Cause,
        cost: [u64; DIMS],
    },
    Rates {
        rate: [u64; DIMS],
        ceiling: [u64; DIMS],
        stamp: u64,
    },
    Read(Reading),
}

// Three questions, each the definition's word for one variant: `matches!` takes a pattern, so no one function asks them all.
#[tactic(auto, unfolding(crate::specs::Replay::is_admitted))]
fn is_admitted(answer: Result<Verdict, Refusal>) -> bool
    ensures { result ≡ replay.is_admitted answer }
{
    matches!(answer, Ok(Verdict::Admitted))
}

#[tactic(auto, unfolding(crate::specs::Replay::is_over_share))]
fn is_over_share(answer: Result<Verdict, Refusal>) -> bool
    ensures { result ≡ replay.is_over_share answer }
{
    matches!(answer, Ok(Verdict::OverShare))
}

#[tactic(auto, unfolding(crate::specs::Replay::is_hand_back))]
fn is_hand_back(cause: Cause) -> bool
    ensures { result ≡ replay.is_hand_back cause }
{
    matches!(cause, Cause::ReceiverCeiling)
}

// The cost, or nothing.
#[tactic(auto, unfolding(crate::specs::Replay::counted_if))]
fn counted_if(on: bool, cost: [u64; DIMS]) -> [u64; DIMS]
    ensures { result ≡ replay.counted_if on cost }
{
    if on { cost } else { [0; DIMS] }
}

// What a call leaves, the number of its refusal (0 for none; a number, as in the definition of the list, which counts the calls whose number is 0), what it admits, what of that on the watched record, what it hands back, and whether it is a judgement answered over share.
#[derive(Clone, Copy)]
pub struct Turned {
    pub head: Shedder,
    pub number: u64,
    pub admitted: [u64; DIMS],
    pub admitted_on: [u64; DIMS],
    pub handed: [u64; DIMS],
    pub over_share: bool,
}

impl Turned {
    // A call that amounts to nothing.
    fn empty(head: Shedder, number: u64) -> Turned
        ensures { result ≡ replay.empty head number }
    {
        Turned {
            head,
            number,
            admitted: [0; DIMS],
            admitted_on: [0; DIMS],
            handed: [0; DIMS],
            over_share: false,
        }
    }
}

fn judge_turn(
    head: Shedder,
    lent: &mut Lent<'_>,
    histogram: &mut Histogram<'_>,
    watched: Unit,
    unit: Unit,
    cost: [u64; DIMS],
    stamp: u64,
) -> Turned
    ensures turns { replay.Turns watched (replay.held_lent head lent.old histogram.old)
        (calls.Judge unit cost stamp) result (replay.held_lent result.head lent.new histogram.new) }
    ensures slices { SameLent lent.old lent.new }
    ensures arrays { SameArrays histogram.old histogram.new }
{
    let mine = on_watched(head, &lent.read(), watched, unit);
    let judged = judge::judge(head, lent, histogram, unit, cost, stamp);
    let admitted = counted_if(is_admitted(judged.answer), cost);
    let admitted_on = counted_if(mine, admitted);
    let over_share = is_over_share(judged.answer);
    let none = Turned::empty(judged.head, answer_number(judged.answer));
    Turned {
        admitted,
        admitted_on,
        over_share,
        ..none
    }
}

fn cut_turn(
    head: Shedder,
    lent: &mut Lent<'_>,
    unit: Unit,
    cause: Cause,
    cost: [u64; DIMS],
) -> Turned
    ensures turns { (watched : sent.Unit) (g : Hist) → replay.Turns watched (replay.held_rows g head lent.old)
        (calls.Cut unit cause cost) result (replay.held_rows g result.head lent.new) }
    ensures slices { SameLent lent.old lent.new }
{
    let cut = cut::cut(head, lent, unit, cause, cost);
    let handed = counted_if(is_hand_back(cause), cost);
    let none = Turned::empty(cut.head, answer_number(cut.answer));
    Turned { handed, ..none }
}

fn rates_turn(
    head: Shedder,
    lent: &LentRead<'_>,
    rate: [u64; DIMS],
    ceiling: [u64; DIMS],
    stamp: u64,
) -> Turned
    ensures { (watched : sent.Unit) (g : Hist) → replay.Turns watched (replay.held_read g head lent.now)
        (calls.Rates rate ceiling stamp) result (replay.held_read g result.head lent.now) }
{
    let changing = rates::set_rates(head, lent, rate, ceiling, stamp);
    Turned::empty(changing.head, answer_number(changing.answer))
}

// One call; out is the buffer of a report.
#[tactic(auto, unfolding(crate::specs::Replay::call_of))]
pub fn turn(
    head: Shedder,
    lent: &mut Lent<'_>,
    histogram: &mut Histogram<'_>,
    watched: Unit,
    call: Call,
    out: &mut [u8],
) -> Turned
    ensures turns { replay.Turns watched (replay.held_lent head lent.old histogram.old)
        (replay.call_of call out.old) result (replay.held_lent result.head lent.new histogram.new) }
    ensures out_after { out.new ≡ replay.page_after (replay.held_lent head lent.old histogram.old)
        (replay.call_of call out.old) out.old }
    ensures slices { SameLent lent.old lent.new }
    ensures arrays { SameArrays histogram.old histogram.new }
{
    match call {
        Call::Judge { unit, cost, stamp } => {
            judge_turn(head, lent, histogram, watched, unit, cost, stamp)
        }
        Call::Cut { unit, cause, cost } => cut_turn(head, lent, unit, cause, cost),
        Call::Rates {
            rate,
            ceiling,
            stamp,
        } => rates_turn(head, &lent.read(), rate, ceiling, stamp),
        Call::Read(reading) => {
            let number = answer_reading(head, &lent.read(), reading, out);
            Turned::empty(head, number)
        }
    }
}
