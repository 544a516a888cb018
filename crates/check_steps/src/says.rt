// Numbers and outcomes as they are written to standard output.
use crate::Answer;
use std::fmt;
use verdict::Verdict;

// A level, which may be infinite, or another double.
#[derive(Clone, Copy)]
pub struct Level(pub f64);

// What a call answers; a refusal by its number.
#[derive(Clone, Copy)]
pub struct Outcome(pub Answer);

impl fmt::Display for Level {
    fn fmt<W: fmt::Write>(&self, f: &mut fmt::Formatter<W>) -> fmt::Result {
        let level = self.0;
        if level == f64::INFINITY {
            f.write_str("infinite")
        } else {
            write!(f, "{level}")
        }
    }
}

impl fmt::Display for Outcome {
    fn fmt<W: fmt::Write>(&self, f: &mut fmt::Formatter<W>) -> fmt::Result {
        match self.0 {
            Ok(None) => f.write_str("started"),
            Ok(Some(Verdict::Admitted)) => f.write_str("ok"),
            Ok(Some(Verdict::OverShare)) => f.write_str("over-share"),
            Ok(Some(Verdict::RelayRate)) => f.write_str("relay-rate"),
            Err(refusal) => write!(f, "refused {}", u64::from(refusal)),
        }
    }
}
