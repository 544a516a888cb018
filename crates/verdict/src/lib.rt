// What decides: a unit's want, the rule, the verdict, and a judgement on one record. Floats by value; no store is known here.
#![tactic(auto)]

ghost use Rattle.std.specs.Prelude.{◌≡◌};
ghost use Rattle.verdict.specs.Verdict as verdicts;
ghost use Rattle.verdict.specs.Rules as rules;

mod rules;

use flow::{
    Bucket, DIMS, Dim, Use, WINDOW_MS, WINDOW_SECS, is_fresh, refilled_all, since, spent_all,
};
use rules::{rule_of, verdict_of};

// The part of the bucket that only sources within their share may spend.
pub const RESERVE: f64 = 0.1;

// How far a rank raises the mark: it parts sources of equal want.
pub const RANK_WEIGHT: f64 = 0.000001;

#[derive(Clone, Copy)]
pub enum Verdict {
    Admitted,
    OverShare,
    RelayRate,
}

// Where the want lies: within the level or over it.
#[derive(Clone, Copy)]
pub enum Side {
    Within,
    Over,
}

// The rule that decided a batch: the first that lacked, and in which dimension.
#[derive(Clone, Copy)]
pub enum Rule {
    // none lacked; the want
    Admitted(f64),
    Credit(Side, Dim),
    Tokens(Side, Dim),
    // the mark required, and the part of the burst that would have been left
    Reserve { dim: Dim, mark: f64, part: f64 },
}

// ---- the want

// A batch counts half of itself once the unit has a history: the sums are read just after it came.
pub fn weight_of(fresh: bool, idle: u64) -> f64
    ensures { result ≡ verdicts.weight_of fresh idle }
{
    if fresh || WINDOW_MS <= idle { 1.0 } else { 0.5 }
}

// How many times the level the unit wants; this batch is in `attempted` already.
pub fn want_of(weight: f64, attempted: f64, cost: f64, level: f64) -> f64
    ensures { result ≡ verdicts.want_of weight attempted cost level }
{
    (attempted + (weight - 1.0) * cost) / WINDOW_SECS / level
}

// How many times the level a unit wants, in the dimension where that is most; 0 at least.
#[tactic(auto, using(flow::proofs::Parts::largest_none, flow::proofs::Parts::largest_next))]
pub fn want(weight: f64, attempted: [f64; DIMS], cost: [f64; DIMS], level: [f64; DIMS]) -> f64
    ensures { result ≡ verdicts.want weight attempted cost level }
{
    let mut times = 0.0;
    // By place: three arrays stand side by side.
    for d in 0..DIMS {
        times = ieee::max(times, want_of(weight, attempted[d], cost[d], level[d]));
    }
    times
}

// ---- a judgement on a record that was found or added

#[derive(Clone, Copy)]
pub struct Outcome {
    pub verdict: Verdict,
    pub buckets: [Bucket; DIMS],
    pub used: Use,
}

// Whether a verdict admits.
pub fn is_admitted(verdict: Verdict) -> bool
    ensures { result ≡ verdicts.is_admitted verdict }
{
    matches!(verdict, Verdict::Admitted)
}

fn settled(verdict: Verdict, buckets: [Bucket; DIMS], used: Use, cost: [f64; DIMS]) -> Outcome
    ensures { result ≡ verdicts.settled verdict buckets used cost }
{
    if is_admitted(verdict) {
        Outcome {
            verdict,
            buckets: spent_all(buckets, cost),
            used: used.charged(cost),
        }
    } else {
        Outcome {
            verdict,
            buckets,
            used,
        }
    }
}

// An outcome, and the rule that decided it.
#[derive(Clone, Copy)]
pub struct Ruled {
    pub rule: Rule,
    pub outcome: Outcome,
}

fn weighed(wants: f64, rank: f64, buckets: [Bucket; DIMS], used: Use, cost: [f64; DIMS]) -> Ruled
    ensures outcome_value { result.outcome ≡ verdicts.weighed wants rank buckets used cost }
    ensures rule_value { result.rule ≡ rules.rule_of wants rank used.credit buckets cost }
{
    let rule = rule_of(wants, rank, used.credit, buckets, cost);
    let outcome = settled(verdict_of(rule), buckets, used, cost);
    Ruled { rule, outcome }
}

// Eight parameters and no struct of them: its one caller makes each of them where it calls.
#[tactic(auto, unfolding(crate::specs::Rules::ruled))]
pub fn judged(
    buckets: [Bucket; DIMS],
    used: Use,
    clock: u64,
    elapsed: u64,
    cost: [f64; DIMS],
    fill: [f64; DIMS],
    level: [f64; DIMS],
    rank: f64,
) -> Ruled
    ensures outcome_value { result.outcome ≡ verdicts.judged buckets used clock elapsed cost fill level rank }
    ensures rule_value { result.rule ≡ rules.ruled buckets used clock elapsed cost fill level rank }
{
    let full = refilled_all(buckets, elapsed);
    let weight = weight_of(is_fresh(used.fresh), since(clock, used.at_ms));
    let next = used.credited(clock, fill).fade_to(clock).tried(cost);
    let wants = want(weight, next.attempted, cost, level);
    weighed(wants, rank, full, next, cost)
}
