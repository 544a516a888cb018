// The rows lent to a call, as they come from a relay: nothing is known of their sizes until the call has asked.
ghost use Rattle.std.specs.Prelude.{◌≡◌, length};

use super::{SourceRow, UnitRow, UseRow};

// The offsets at which the parts of the 64 tables begin, and the end of the last.
pub const OFFSETS: usize = 65;

// Rows that a call may write. Of the unit records: the index, an entry of a tag and a slot for each, the parts of which begin at the
// offsets; the slots that are free; and of each slot a row of words and a row of floats. The counted sources, whose tags stand behind
// those of the units.
#[derive(Drop)]
pub struct Lent<'a> {
    pub tags: &'a mut [u16],
    pub slots: &'a mut [u32],
    pub offsets: &'a mut [u32; OFFSETS],
    pub free: &'a mut [u32],
    pub units: &'a mut [UnitRow],
    pub uses: &'a mut [UseRow],
    pub counted: &'a mut [SourceRow],
}

// The same rows lent to a call that only reads them.
#[derive(Clone, Copy)]
pub struct LentRead<'a> {
    pub tags: &'a [u16],
    pub slots: &'a [u32],
    pub offsets: &'a [u32; OFFSETS],
    pub free: &'a [u32],
    pub units: &'a [UnitRow],
    pub uses: &'a [UseRow],
    pub counted: &'a [SourceRow],
}

// How many places each of the lent slices has.
#[derive(Clone, Copy)]
pub struct Sizes {
    pub tags: usize,
    pub slots: usize,
    pub free: usize,
    pub units: usize,
    pub uses: usize,
    pub counted: usize,
}

impl Lent<'_> {
    ghost use Rattle.store.specs.Held.{lent_sizes};

    pub fn sizes(&self) -> Sizes
        ensures { result ≡ lent_sizes self.now }
    {
        self.read().sizes()
    }

    // The rows lent on to a call that only reads them.
    pub fn read(&self) -> LentRead<'_>
        ensures tags_read { result.tags.now ≡ self.now.tags.now }
        ensures slots_read { result.slots.now ≡ self.now.slots.now }
        ensures offsets_read { result.offsets.now ≡ self.now.offsets.now }
        ensures free_read { result.free.now ≡ self.now.free.now }
        ensures units_read { result.units.now ≡ self.now.units.now }
        ensures uses_read { result.uses.now ≡ self.now.uses.now }
        ensures counted_read { result.counted.now ≡ self.now.counted.now }
    {
        LentRead {
            tags: &*self.tags,
            slots: &*self.slots,
            offsets: &*self.offsets,
            free: &*self.free,
            units: &*self.units,
            uses: &*self.uses,
            counted: &*self.counted,
        }
    }
}

impl LentRead<'_> {
    ghost use Rattle.store.specs.Held.{read_sizes};

    pub fn sizes(&self) -> Sizes
        ensures { result ≡ read_sizes self.now }
    {
        Sizes {
            tags: self.tags.len(),
            slots: self.slots.len(),
            free: self.free.len(),
            units: self.units.len(),
            uses: self.uses.len(),
            counted: self.counted.len(),
        }
    }
}
