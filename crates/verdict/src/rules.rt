// The rule that decides a batch: the first that lacks, and in which dimension. Within the level credit, then tokens; over it
// credit, tokens, then the reserve; each is asked of receptions, then of bytes. Want and rank stay two parameters: the side goes by
// the want alone, the mark by both.
ghost use Rattle.std.specs.Prelude.{◌≡◌, ℕ, ◌<◌, Bool, not};
ghost use Rattle.flow.specs.Flow.{dims};
ghost use Rattle.verdict.specs.Verdict as verdicts;
ghost use Rattle.verdict.specs.Rules as rules;

use crate::{RANK_WEIGHT, RESERVE, Rule, Side, Verdict};
use flow::{Bucket, DIMS, dim_at};

// ---- one dimension

fn credit_holds(credit: f64, cost: f64) -> bool
    ensures { result ≡ verdicts.credit_holds credit cost }
{
    cost <= credit
}

fn tokens_hold(b: Bucket, cost: f64) -> bool
    ensures { result ≡ verdicts.tokens_hold b cost }
{
    cost <= b.tokens
}

// The part of the burst that the batch would leave.
fn part_of(b: Bucket, cost: f64) -> f64
    ensures { result ≡ verdicts.part_of b cost }
{
    (b.tokens - cost) / b.burst
}

// The part that would be left reaches the mark.
fn reserve_holds(b: Bucket, cost: f64, mark: f64) -> bool
    ensures { result ≡ verdicts.reserve_holds b cost mark }
{
    mark <= part_of(b, cost)
}

// The mark rises with the want, and by a millionth with the rank: the furthest over is cut first.
fn mark_of(wants: f64, rank: f64) -> f64
    ensures { result ≡ verdicts.mark_of wants rank }
{
    RESERVE * (1.0 - 1.0 / (wants * (1.0 + rank * RANK_WEIGHT)))
}

// ---- the first dimension that lacks

// The first dimension that lacks, none where none does.
fn first_lacking<F: Fn(usize) -> bool>(lacks: F) -> Option<usize>
    requires callable { (d : ℕ) → d < dims → F.pre lacks d }
    ensures value { (holds : ℕ → Bool) → ((d : ℕ) (x : Bool) → d < dims → F.post lacks d x → x ≡ not (holds d)) → result ≡ rules.first (rules.lacking holds dims) }
{
    (0..DIMS).position(lacks)
}

// Three questions, each a line: their common part is `first_lacking`, and each has a definition of its own.
#[tactic(auto, unfolding(crate::specs::Rules::credit_lacks))]
fn credit_lacks(credit: [f64; DIMS], cost: [f64; DIMS]) -> Option<usize>
    ensures { result ≡ rules.first (rules.credit_lacks credit cost) }
{
    first_lacking(|d| !credit_holds(credit[d], cost[d]))
}

#[tactic(auto, unfolding(crate::specs::Rules::tokens_lack))]
fn tokens_lack(buckets: [Bucket; DIMS], cost: [f64; DIMS]) -> Option<usize>
    ensures { result ≡ rules.first (rules.tokens_lack buckets cost) }
{
    first_lacking(|d| !tokens_hold(buckets[d], cost[d]))
}

#[tactic(auto, unfolding(crate::specs::Rules::reserve_lacks))]
fn reserve_lacks(buckets: [Bucket; DIMS], cost: [f64; DIMS], mark: f64) -> Option<usize>
    ensures { result ≡ rules.first (rules.reserve_lacks buckets cost mark) }
{
    first_lacking(|d| !reserve_holds(buckets[d], cost[d], mark))
}

// ---- the rule

// 1.0 is the rule's bound and no reading of the double, so this is no `From`.
#[tactic(auto, unfolding(crate::specs::Rules::side_of))]
fn side_of(wants: f64) -> Side
    ensures { result ≡ rules.side_of wants }
{
    if wants <= 1.0 {
        Side::Within
    } else {
        Side::Over
    }
}

// Once credit and tokens hold.
#[tactic(auto, unfolding(crate::specs::Rules::reserved, crate::specs::Rules::side_of, crate::specs::Rules::first))]
fn reserved(wants: f64, rank: f64, buckets: [Bucket; DIMS], cost: [f64; DIMS]) -> Rule
    ensures { result ≡ rules.reserved wants (verdicts.mark_of wants rank) buckets cost }
{
    if matches!(side_of(wants), Side::Within) {
        return Rule::Admitted(wants);
    }
    let mark = mark_of(wants, rank);
    match reserve_lacks(buckets, cost, mark) {
        Some(d) => Rule::Reserve {
            dim: dim_at(d),
            mark,
            part: part_of(buckets[d], cost[d]),
        },
        None => Rule::Admitted(wants),
    }
}

#[tactic(auto, unfolding(crate::specs::Rules::rule_of, crate::specs::Rules::first))]
pub fn rule_of(
    wants: f64,
    rank: f64,
    credit: [f64; DIMS],
    buckets: [Bucket; DIMS],
    cost: [f64; DIMS],
) -> Rule
    ensures { result ≡ rules.rule_of wants rank credit buckets cost }
{
    if let Some(d) = credit_lacks(credit, cost) {
        return Rule::Credit(side_of(wants), dim_at(d));
    }
    if let Some(d) = tokens_lack(buckets, cost) {
        return Rule::Tokens(side_of(wants), dim_at(d));
    }
    reserved(wants, rank, buckets, cost)
}

// What the rule answers.
pub fn verdict_of(rule: Rule) -> Verdict
    ensures { result ≡ rules.verdict_of rule }
{
    match rule {
        Rule::Admitted(_) => Verdict::Admitted,
        Rule::Tokens(Side::Within, _) => Verdict::RelayRate,
        Rule::Credit(..) | Rule::Tokens(Side::Over, _) | Rule::Reserve { .. } => Verdict::OverShare,
    }
}
