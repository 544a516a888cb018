// Answers, causes and dimensions as numbers.
#![tactic(auto)]

mod answers;
mod decisions;
mod given;
mod reads;

pub use answers::answer_number;
pub use decisions::decision_of;
pub use given::{cause_of, dim_of};
pub use reads::{read_bounded, read_count, read_level, read_rate, read_written};

// A number read: the refusal's number, 0 where there was none; and the value, 0 on a refusal.
#[repr(C)]
#[derive(Clone, Copy)]
pub struct Count {
    pub refusal: u64,
    pub value: u64,
}

// A level read, in the same way.
#[repr(C)]
#[derive(Clone, Copy)]
pub struct Level {
    pub refusal: u64,
    pub value: f64,
}

// A judgement: the refusal's number, 0 where there was none; the verdict and the rule, none on a refusal; the dimension that
// lacked; the want of an admitted batch or the mark of the reserve; and the part of the burst that would have been left.
// A number that the rule does not have is DIM_NONE or 0.0.
#[repr(C)]
#[derive(Clone, Copy)]
pub struct Decision {
    pub refusal: u64,
    pub verdict: u64,
    pub rule: u64,
    pub dim: u64,
    pub want_or_mark: f64,
    pub part: f64,
}

// The codes of a decision: of the verdict, of the rule, of the dimension. They are numbers and no enum, since C reads them.
pub const VERDICT_NONE: u64 = 0;

pub const VERDICT_ADMITTED: u64 = 1;

pub const VERDICT_OVER_SHARE: u64 = 2;

pub const VERDICT_RELAY_RATE: u64 = 3;

pub const RULE_NONE: u64 = 0;

pub const RULE_ADMITTED: u64 = 1;

pub const RULE_CREDIT_WITHIN: u64 = 2;

pub const RULE_CREDIT_OVER: u64 = 3;

pub const RULE_TOKENS_WITHIN: u64 = 4;

pub const RULE_TOKENS_OVER: u64 = 5;

pub const RULE_RESERVE: u64 = 6;

pub const DIM_RECEPTIONS: u64 = 0;

pub const DIM_BYTES: u64 = 1;

pub const DIM_NONE: u64 = u64::MAX;
