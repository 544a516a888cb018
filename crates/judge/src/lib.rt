// A judgement: the head by value, the records lent.
#![tactic(auto)]

ghost use Rattle.std.specs.Prelude.{◌≡◌, ℕ, ◌<◌, ◌≤◌, length};
ghost use Rattle.std.specs.Option.{IfSome, unwrap_or};
ghost use Rattle.parts.specs.Held.{held, SameParts, Sized};
ghost use Rattle.shifting.specs.Offsets.{Whole};
ghost use Rattle.store.specs.Held.{lent_rows, lent_sizes, SameLent};
ghost use Rattle.wants.specs.Held.{SameArrays};
ghost use Rattle.head.specs.Answers as answers;
ghost use Rattle.head.specs.Questions as asked;
ghost use Rattle.head.specs.Bits.{SameButNanBits};
ghost use Rattle.judge.specs.Judging as judging;
ghost use Rattle.judge.specs.Lending.{lent_memory};

use flow::{DIMS, Use};
use head::{Flow, Refusal, Shedder};
use parts::Parts;
use sender::{Named, Unit};
use store::Lent;
use verdict::{Outcome, Rule, Ruled, Verdict};
use wants::Histogram;

// What a judgement answers, the rule that decided it (none where it was refused), and the head after it.
#[derive(Clone, Copy)]
pub struct Judgement {
    pub answer: Result<Verdict, Refusal>,
    pub ruling: Option<Rule>,
    pub head: Shedder,
}

// What was admitted so far, and this cost.
#[tactic(auto, unfolding(crate::specs::Judging::raised))]
fn raised(xs: [f64; DIMS], cost: [f64; DIMS]) -> [f64; DIMS]
    ensures { result ≡ judging.raised xs cost }
{
    flow::per_dim(|d| xs[d] + cost[d])
}

// The rank of the record used: the unit's, by its hash, or overflow's. A match: each arm is a case of the definition.
#[tactic(auto, unfolding(crate::specs::Judging::rank_at))]
fn rank_at(hash: u64, at: Option<usize>) -> f64
    ensures { (room : ℕ) → IfSome at (λ i. i < room) → result ≡ judging.rank_at hash (unwrap_or at room) room }
{
    match at {
        Some(_) => sender::rank_of_hash(hash),
        None => sender::rank(Unit::Overflow),
    }
}

// Rule and verdict on a use, with the level as it stands before this call's scan.
fn ruled(f: Flow, level: [f64; DIMS], used: Use, rank: f64, cost: [f64; DIMS], clock: u64) -> Ruled
    ensures outcome_value { result.outcome ≡ judging.outcome f level used rank cost clock }
    ensures rule_value { result.rule ≡ judging.rule f level used rank cost clock }
{
    let fill = flow::fills(level, flow::numbers(f.rate));
    verdict::judged(
        f.buckets,
        used,
        clock,
        flow::since(clock, f.at_ms),
        cost,
        fill,
        level,
        rank,
    )
}

// Only an admission adds to what was admitted.
fn admitted_then(verdict: Verdict, admitted: [f64; DIMS], cost: [f64; DIMS]) -> [f64; DIMS]
    ensures { result ≡ judging.admitted_then verdict admitted cost }
{
    if verdict::is_admitted(verdict) {
        raised(admitted, cost)
    } else {
        admitted
    }
}

// Clock and buckets move also where the batch is cut.
fn flowed(f: Flow, o: Outcome, cost: [f64; DIMS], clock: u64) -> Flow
    ensures { result ≡ judging.flowed f o cost clock }
{
    let buckets = o.buckets;
    let admitted = admitted_then(o.verdict, f.admitted, cost);
    Flow {
        buckets,
        at_ms: clock,
        admitted,
        ..f
    }
}

// A verdict, its rule, and the head after it.
#[derive(Clone, Copy)]
pub struct Passed {
    pub verdict: Verdict,
    pub rule: Rule,
    pub head: Shedder,
}

// A judgement on the record that is found, added or overflow's.
fn judged(
    head: Shedder,
    parts: &mut Parts<'_>,
    named: Named,
    cost: [f64; DIMS],
    clock: u64,
) -> Passed
    requires sizes { Sized (held parts.old) }
    requires room { length parts.old.units.now ≡ head.unit_room }
    requires tracked_bound { head.tracked ≤ head.unit_room }
    requires whole { Whole parts.old.offsets.now head.tracked }
    ensures rows_after { judging.passed result (held parts.new)
        ≡ judging.judged head (held parts.old) named.unit cost clock }
    ensures whole_after { Whole parts.new.offsets.now result.head.tracked }
    ensures tracked_bound_2 { result.head.tracked ≤ head.unit_room }
    ensures counted_value { result.head.counted ≡ head.counted }
    ensures unit_room_value { result.head.unit_room ≡ head.unit_room }
    ensures scan_value { result.head.scan ≡ head.scan }
    ensures rule_value { result.rule ≡ judging.ruled head (held parts.old) named.unit cost clock }
    ensures slices { SameParts parts.old parts.new }
{
    let p = store_entry::entry(parts, head.tracked, named, clock);
    let used = store_entry::used_at(parts, head.overflow, p.at);
    let rank = rank_at(named.hash, p.at);
    let r = ruled(head.flow, head.level, used, rank, cost, clock);
    let overflow = store_entry::put_back(parts, head.overflow, p.at, r.outcome.used);
    let flow = flowed(head.flow, r.outcome, cost, clock);
    Passed {
        verdict: r.outcome.verdict,
        rule: r.rule,
        head: Shedder {
            flow,
            overflow,
            tracked: p.tracked,
            ..head
        },
    }
}

// A judgement of a bounded relay, once the questions are answered yes: verdict, count, scan.
fn bounded(
    head: Shedder,
    lent: &mut Lent<'_>,
    histogram: &mut Histogram<'_>,
    named: Named,
    cost: [u64; DIMS],
    stamp: u64,
) -> Judgement
    requires { asked.Ready head (lent_sizes lent.old) lent.old.offsets.now stamp }
    ensures memory_after { judging.judgement result (lent_memory lent.new histogram.new)
        ≡ judging.bounded head (lent_memory lent.old histogram.old) named.unit cost stamp }
    ensures answer_value { answers.judge_number result.answer ≡ 0 }
    ensures ruling_value { result.ruling ≡ judging.bounded_ruling head (lent_rows lent.old) named.unit cost stamp }
    ensures slices { SameLent lent.old lent.new }
    ensures arrays { SameArrays histogram.old histogram.new }
{
    let clock = flow::later(stamp, head.flow.at_ms);
    // Made here and again below: a method of `Lent` could not promise what the rows hold once they come back.
    let mut parts = Parts {
        tags: &mut *lent.tags,
        slots: &mut *lent.slots,
        offsets: &mut *lent.offsets,
        free: &mut *lent.free,
        units: &mut *lent.units,
        uses: &mut *lent.uses,
    };
    let p = judged(head, &mut parts, named, flow::numbers(cost), clock);
    let t = cut_counts::count_verdict(p.head, lent, named, p.verdict, cost);
    let mut parts = Parts {
        tags: &mut *lent.tags,
        slots: &mut *lent.slots,
        offsets: &mut *lent.offsets,
        free: &mut *lent.free,
        units: &mut *lent.units,
        uses: &mut *lent.uses,
    };
    let s = scan::scanned(t, &mut parts, histogram, clock);
    Judgement {
        answer: Ok(p.verdict),
        ruling: Some(p.rule),
        head: s,
    }
}

// Whether a unit's batch of this cost, stamped so, is admitted, and by which rule. A cut is counted. A refusal changes nothing.
pub fn judge(
    head: Shedder,
    lent: &mut Lent<'_>,
    histogram: &mut Histogram<'_>,
    unit: Unit,
    cost: [u64; DIMS],
    stamp: u64,
) -> Judgement
    ensures same_but_nan_bits { SameButNanBits
        (judging.judgement result (lent_memory lent.new histogram.new))
        (judging.judge head (lent_memory lent.old histogram.old) unit cost stamp) }
    ensures answer_value { answers.judge_number result.answer
        ≡ asked.judge_asked head (lent_sizes lent.old) lent.old.offsets.now cost stamp }
    ensures same_but_nan_bits_2 { SameButNanBits result.ruling
        (judging.ruling head (lent_memory lent.old histogram.old) unit cost stamp) }
    ensures slices { SameLent lent.old lent.new }
    ensures arrays { SameArrays histogram.old histogram.new }
{
    if let Err(refusal) = head::judge_asked(head, lent.sizes(), lent.offsets, cost, stamp) {
        return Judgement {
            answer: Err(refusal),
            ruling: None,
            head,
        };
    }
    if head::is_unbounded(head.flow.rate) {
        return Judgement {
            answer: Ok(Verdict::Admitted),
            ruling: Some(Rule::Admitted(0.0)),
            head,
        };
    }
    bounded(head, lent, histogram, Named::of(unit), cost, stamp)
}
