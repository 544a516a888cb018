// The memory that a program lends its shedder, for sizes that the program chooses.
#![tactic(auto)]

ghost use Rattle.std.specs.Prelude.{◌≡◌, replicate};
ghost use Rattle.ieee.specs.Doubles.{nothing};

use flow::DIMS;
use store::{OFFSETS, SourceRow, UnitRow, UseRow};
use wants::{BUCKETS, Counts, Sums};

#[derive(Clone, Copy)]
pub struct Memory<const TAGS: usize, const UNITS: usize, const COUNTED: usize> {
    pub tags: [u16; TAGS],
    pub slots: [u32; UNITS],
    pub offsets: [u32; OFFSETS],
    pub free: [u32; UNITS],
    pub units: [UnitRow; UNITS],
    pub uses: [UseRow; UNITS],
    pub counts: Counts,
    pub sums: Sums,
    pub counted: [SourceRow; COUNTED],
}

impl<const TAGS: usize, const UNITS: usize, const COUNTED: usize> Memory<TAGS, UNITS, COUNTED> {
    // Memory of zero bits.
    pub fn zeroed() -> Memory<TAGS, UNITS, COUNTED>
        ensures tags { result.tags ≡ replicate TAGS 0 }
        ensures slots { result.slots ≡ replicate UNITS 0 }
        ensures offsets { result.offsets ≡ replicate 65 0 }
        ensures free { result.free ≡ replicate UNITS 0 }
        ensures units { result.units ≡ replicate UNITS (replicate 7 0) }
        ensures uses { result.uses ≡ replicate UNITS (replicate 4 nothing) }
        ensures counts { result.counts ≡ replicate 2 (replicate 768 0) }
        ensures sums { result.sums ≡ replicate 2 (replicate 768 nothing) }
        ensures counted { result.counted ≡ replicate COUNTED (replicate 8 0) }
    {
        Memory {
            tags: [0; TAGS],
            slots: [0; UNITS],
            offsets: [0; OFFSETS],
            free: [0; UNITS],
            units: [[0; 7]; UNITS],
            uses: [[0.0; 2 * DIMS]; UNITS],
            counts: [[0; BUCKETS]; DIMS],
            sums: [[0.0; BUCKETS]; DIMS],
            counted: [[0; 8]; COUNTED],
        }
    }
}
