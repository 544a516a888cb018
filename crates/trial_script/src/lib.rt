// The trial's language: a line of it to a call, and an answer to text.
#![tactic(auto)]

mod answers;
mod fields;
mod lines;

ghost use Rattle.std.specs.Prelude.{◌≡◌, ◌∷◌, [], MatchOption, false, true};
ghost use Rattle.trial_script.specs.Script as script;

pub use answers::{put_answer, put_begin, put_done, put_refused};
use fields::split;
pub use fields::{are_numbers, first, number_at, numbers, rest};
use flow::DIMS;
use head::Cause;
pub use lines::{FEED, LINE, front};
use sender::Unit;

// The longest line of the language, the line feed not counted.
pub const LINE_MOST: usize = 200;

// A number for each dimension.
#[derive(Clone, Copy)]
pub struct Amounts {
    pub receptions: u64,
    pub bytes: u64,
}

impl From<Amounts> for [u64; DIMS] {
    ghost from_gives = { λ a dims. dims ≡ a.receptions ∷ a.bytes ∷ [] };

    fn from(a: Amounts) -> [u64; DIMS] {
        [a.receptions, a.bytes]
    }
}

#[derive(Clone, Copy)]
pub struct StartLine {
    pub rate: Amounts,
    pub ceiling: Amounts,
}

#[derive(Clone, Copy)]
pub struct JudgeLine {
    pub unit: Unit,
    pub cost: Amounts,
    pub stamp: u64,
}

#[derive(Clone, Copy)]
pub struct CutLine {
    pub unit: Unit,
    pub cause: Cause,
    pub cost: Amounts,
}

// The call that a line is.
#[derive(Clone, Copy)]
pub enum Line {
    Start(StartLine),
    Judge(JudgeLine),
    Cut(CutLine),
    Report,
}

// The cause that s names.
#[tactic(auto, using(text::proofs::Orders::same_is), unfolding(crate::specs::Script::is_cause, crate::specs::Script::cause_in, crate::specs::Script::cause_name))]
fn cause_in(s: &[u8]) -> Option<Cause>
    ensures { MatchOption result (script.is_cause s.now ≡ false) (λ cause. (script.is_cause s.now ≡ true) × (cause ≡ script.cause_in s.now)) }
{
    // Not one `match` on the three texts: it compares them byte by byte, in more cases than the proof closes.
    if s == b"receiver-ceiling".as_slice() {
        Some(Cause::ReceiverCeiling)
    } else if s == b"over-share".as_slice() {
        Some(Cause::OverShare)
    } else if s == b"relay-rate".as_slice() {
        Some(Cause::RelayRate)
    } else {
        None
    }
}

// What stands behind `R `.
#[tactic(auto, unfolding(crate::specs::Script::start_in, crate::specs::Script::amounts_at, crate::specs::Fields::number_at, crate::specs::Fields::numbers))]
fn start_in(s: &[u8]) -> Option<Line>
    ensures { result ≡ script.start_in s.now }
{
    let [rate_receptions, rate_bytes, receptions, bytes] = numbers::<4>(s)?;
    let rate = Amounts {
        receptions: rate_receptions,
        bytes: rate_bytes,
    };
    let ceiling = Amounts { receptions, bytes };
    Some(Line::Start(StartLine { rate, ceiling }))
}

// What stands behind `J `.
#[tactic(auto, using(crate::proofs::Reading::label_some, crate::proofs::Reading::label_none), unfolding(crate::specs::Script::judge_in, crate::specs::Script::amounts_at, crate::specs::Fields::number_at, crate::specs::Fields::numbers))]
fn judge_in(s: &[u8]) -> Option<Line>
    ensures { result ≡ script.judge_in s.now }
{
    let (name, amounts) = split(s);
    let unit = label_parse::parse(name)?;
    let [receptions, bytes, stamp] = numbers::<3>(amounts)?;
    let cost = Amounts { receptions, bytes };
    Some(Line::Judge(JudgeLine { unit, cost, stamp }))
}

// What stands behind `C `.
#[tactic(auto, using(crate::proofs::Reading::label_some, crate::proofs::Reading::label_none), unfolding(crate::specs::Script::cut_in, crate::specs::Script::cut_of, crate::specs::Script::amounts_at, crate::specs::Fields::number_at, crate::specs::Fields::numbers))]
fn cut_in(s: &[u8]) -> Option<Line>
    ensures { result ≡ script.cut_in s.now }
{
    let (name, behind) = split(s);
    let unit = label_parse::parse(name)?;
    let (word, amounts) = split(behind);
    let cause = cause_in(word)?;
    let [receptions, bytes] = numbers::<2>(amounts)?;
    let cost = Amounts { receptions, bytes };
    Some(Line::Cut(CutLine { unit, cause, cost }))
}

// The call that the line s is.
#[tactic(auto, using(crate::proofs::Taking::exactly, crate::proofs::Taking::one_byte, text::proofs::Orders::same_is), unfolding(crate::specs::Script::line))]
pub fn read_line(s: &[u8]) -> Option<Line>
    ensures value { result ≡ script.line s.now }
    ensures exact { script.Exact s.now result }
{
    if s == b"P".as_slice() {
        return Some(Line::Report);
    }
    let (kind, behind) = split(s);
    match kind {
        b"R" => start_in(behind),
        b"J" => judge_in(behind),
        b"C" => cut_in(behind),
        _ => None,
    }
}
