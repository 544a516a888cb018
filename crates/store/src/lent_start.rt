// The rows lent to a start.
ghost use Rattle.std.specs.Prelude.{◌≡◌, length};

use super::{OFFSETS, Sizes, SourceRow, UnitRow, UseRow};

// Rows lent to a call that writes the offsets and the free slots, and of the others asks how many there are.
#[derive(Drop)]
pub struct LentStart<'a> {
    pub tags: &'a [u16],
    pub slots: &'a [u32],
    pub offsets: &'a mut [u32; OFFSETS],
    pub free: &'a mut [u32],
    pub units: &'a [UnitRow],
    pub uses: &'a [UseRow],
    pub counted: &'a [SourceRow],
}

impl LentStart<'_> {
    ghost use Rattle.store.specs.Held.{start_sizes};

    pub fn sizes(&self) -> Sizes
        ensures { result ≡ start_sizes self.now }
    {
        Sizes {
            tags: self.tags.len(),
            slots: self.slots.len(),
            free: self.free.len(),
            units: self.units.len(),
            uses: self.uses.len(),
            counted: self.counted.len(),
        }
    }
}
