// What was read as a refusal's number and a value. A function for each kind of value, since each becomes C's number in its own way.
ghost use Rattle.std.specs.Prelude.{◌≡◌};
ghost use Rattle.codes.specs.Numbers as numbers;

use crate::{Count, Level};
use head::Refusal;

fn count(refusal: u64, value: u64) -> Count
    ensures { result ≡ numbers.count refusal value }
{
    Count { refusal, value }
}

#[tactic(auto, unfolding(crate::specs::Numbers::read_count))]
pub fn read_count(answer: Result<u64, Refusal>) -> Count
    ensures { result ≡ numbers.read_count answer }
{
    match answer {
        Ok(x) => count(0, x),
        Err(refusal) => count(refusal.into(), 0),
    }
}

#[tactic(auto, unfolding(crate::specs::Numbers::read_level))]
pub fn read_level(answer: Result<f64, Refusal>) -> Level
    ensures { result ≡ numbers.read_level answer }
{
    match answer {
        Ok(value) => Level { refusal: 0, value },
        Err(refusal) => Level {
            refusal: refusal.into(),
            value: 0.0,
        },
    }
}

#[tactic(auto, unfolding(crate::specs::Numbers::read_rate))]
pub fn read_rate(answer: Result<Option<u64>, Refusal>) -> Count
    ensures { result ≡ numbers.read_rate answer }
{
    match answer {
        Ok(None) => count(0, flow::UNBOUNDED),
        Ok(Some(x)) => count(0, x),
        Err(refusal) => count(refusal.into(), 0),
    }
}

#[tactic(auto, unfolding(crate::specs::Numbers::read_bounded))]
pub fn read_bounded(answer: Result<bool, Refusal>) -> Count
    ensures { result ≡ numbers.read_bounded answer }
{
    match answer {
        Ok(true) => count(0, 1),
        Ok(false) => count(0, 0),
        Err(refusal) => count(refusal.into(), 0),
    }
}

#[tactic(auto, unfolding(crate::specs::Numbers::read_written))]
pub fn read_written(answer: Result<usize, Refusal>) -> Count
    ensures { result ≡ numbers.read_written answer }
{
    match answer {
        Ok(n) => count(0, n as u64),
        Err(refusal) => count(refusal.into(), 0),
    }
}
