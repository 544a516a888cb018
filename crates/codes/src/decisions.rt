// A judgement's answer and its rule as numbers: the refusal, the verdict, the rule and the dimension each in a field of its own.
// Matches and no casts: the numbers are C's, and stay where a variant moves.
ghost use Rattle.std.specs.Prelude.{◌≡◌};
ghost use Rattle.codes.specs.Decisions as decisions;

use crate::{
    DIM_BYTES, DIM_NONE, DIM_RECEPTIONS, Decision, RULE_ADMITTED, RULE_CREDIT_OVER,
    RULE_CREDIT_WITHIN, RULE_NONE, RULE_RESERVE, RULE_TOKENS_OVER, RULE_TOKENS_WITHIN,
    VERDICT_ADMITTED, VERDICT_NONE, VERDICT_OVER_SHARE, VERDICT_RELAY_RATE, answer_number,
};
use flow::Dim;
use head::Refusal;
use verdict::{Rule, Side, Verdict};

fn verdict_code(answer: Result<Verdict, Refusal>) -> u64
    ensures { result ≡ decisions.verdict_code answer }
{
    match answer {
        Ok(Verdict::Admitted) => VERDICT_ADMITTED,
        Ok(Verdict::OverShare) => VERDICT_OVER_SHARE,
        Ok(Verdict::RelayRate) => VERDICT_RELAY_RATE,
        Err(_) => VERDICT_NONE,
    }
}

#[tactic(auto, unfolding(flow::specs::Flow::dim_of))]
fn dim_code(dim: Dim) -> u64
    ensures { result ≡ decisions.dim_code dim }
{
    match dim {
        Dim::Receptions => DIM_RECEPTIONS,
        Dim::Bytes => DIM_BYTES,
    }
}

// Both numbers are given, since two rules have sides.
fn by_side(side: Side, within: u64, over: u64) -> u64
    ensures { result ≡ decisions.by_side side within over }
{
    match side {
        Side::Within => within,
        Side::Over => over,
    }
}

fn coded(
    answer: Result<Verdict, Refusal>,
    rule: u64,
    dim: u64,
    want_or_mark: f64,
    part: f64,
) -> Decision
    ensures { result ≡ decisions.coded answer rule dim want_or_mark part }
{
    Decision {
        refusal: answer_number(answer),
        verdict: verdict_code(answer),
        rule,
        dim,
        want_or_mark,
        part,
    }
}

#[tactic(auto, unfolding(crate::specs::Decisions::ruled))]
fn ruled(answer: Result<Verdict, Refusal>, rule: Rule) -> Decision
    ensures { result ≡ decisions.ruled answer rule }
{
    match rule {
        Rule::Admitted(want) => coded(answer, RULE_ADMITTED, DIM_NONE, want, 0.0),
        Rule::Credit(side, dim) => {
            let code = by_side(side, RULE_CREDIT_WITHIN, RULE_CREDIT_OVER);
            coded(answer, code, dim_code(dim), 0.0, 0.0)
        }
        Rule::Tokens(side, dim) => {
            let code = by_side(side, RULE_TOKENS_WITHIN, RULE_TOKENS_OVER);
            coded(answer, code, dim_code(dim), 0.0, 0.0)
        }
        Rule::Reserve { dim, mark, part } => coded(answer, RULE_RESERVE, dim_code(dim), mark, part),
    }
}

// A match: a judgement without a rule has codes of its own.
#[tactic(auto, unfolding(crate::specs::Decisions::decision_of))]
pub fn decision_of(answer: Result<Verdict, Refusal>, ruling: Option<Rule>) -> Decision
    ensures { result ≡ decisions.decision_of answer ruling }
{
    match ruling {
        None => coded(answer, RULE_NONE, DIM_NONE, 0.0, 0.0),
        Some(rule) => ruled(answer, rule),
    }
}
