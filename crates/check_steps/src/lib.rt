// What the program `check_edges` runs, without the calls over lent memory: the cases that crate `check_cases` proves of the definitions, the
// other steps, the comparison of head and memory, and what is written.
#![tactic(auto)]

mod proved;
mod readers;
mod same;
mod says;
mod steps;
mod tells;

use flow::DIMS;
use head::{Refusal, Shedder};
pub use proved::run;
pub use readers::reading;
pub use same::{is_as_before, same_head};
pub use steps::{Call, Fault, Read, Step, Steps, all_steps, room};
use store::OFFSETS;
pub use tells::{line, tell};
use verdict::Verdict;
use wants::BUCKETS;

// Unit records, counted records, the tags of both, and the bytes of the report's buffer.
pub const UNITS: usize = 4;

pub const COUNTED: usize = 3;

pub const TAGS: usize = UNITS + COUNTED;

pub const OUT: usize = 4096;

// The shedder's memory.
pub type Memory = trial_memory::Memory<TAGS, UNITS, COUNTED>;

// Memory of which no word is 0: as `zeroed` of trial_memory, but each array has a filling of its own.
pub fn filled() -> Memory {
    Memory {
        tags: [0x0101; TAGS],
        slots: [0x03030303; UNITS],
        offsets: [0x04040404; OFFSETS],
        free: [0x05050505; UNITS],
        units: [[0x0202020202020202; 7]; UNITS],
        uses: [[0.3; 2 * DIMS]; UNITS],
        counts: [[4; BUCKETS]; DIMS],
        sums: [[0.5; BUCKETS]; DIMS],
        counted: [[0x0606060606060606; 8]; COUNTED],
    }
}

// What a call answers: the verdict of a judgement, nothing more of any other call, or why it was refused.
pub type Answer = Result<Option<Verdict>, Refusal>;

// What came of a call: its answer; the head after it; how many bytes of the buffer an answer took; and whether all else is
// as before.
#[derive(Clone, Copy)]
pub struct Tried {
    pub answer: Answer,
    pub head: Shedder,
    pub at: usize,
    pub unchanged: bool,
}

impl Tried {
    pub fn new(answer: Answer, head: Shedder) -> Tried {
        Tried {
            answer,
            head,
            at: 0,
            unchanged: true,
        }
    }
}
