// Dropping the stale records of one table.
ghost use Rattle.std.specs.Prelude.{◌≡◌, ◌<◌, ◌≤◌, ◌+◌, ◌-◌, true, length};
ghost use Rattle.std.specs.List.{SameFrom};
ghost use Rattle.parts.specs.Copies as copying;
ghost use Rattle.parts.specs.Held.{held, SameParts, Sized};
ghost use Rattle.parts.specs.Indexed.{SameIndex};
ghost use Rattle.parts.specs.Parts as parts;
ghost use Rattle.shifting.specs.Offsets.{Whole, «PARTS»};
ghost use Rattle.store.specs.Store as store;

use super::copies::{Copies, Index};
use super::{Parts, slot_of};
use flow::DIMS;
use std::marker::Brand;
use std::sync::ledger::{Blank, Ledger};
use store::UnitRow;

// How long a unit that sends nothing stays tracked.
pub const RETAIN_MS: u64 = 4 * flow::WINDOW_MS;

// Whether the record that an entry names is older than that.
#[tactic(auto, unfolding(crate::specs::Parts::is_stale, store::specs::Store::stamp_at))]
fn is_stale(units: &[UnitRow], entry: u32, at_ms: u64) -> bool
    requires some { 0 < length units.now }
    ensures { result ≡ parts.is_stale units.now at_ms entry }
{
    RETAIN_MS < flow::since(at_ms, units[slot_of(entry, units.len())][5])
}

// The entry at i: its slot goes to the free ones behind f where its record is stale, else it goes down to j, the end of those that stay.
#[tactic(auto, unfolding(crate::specs::Parts::sift_one))]
fn sift_one<L: Ledger>(
    index: &mut Index<'_, L>,
    free: &mut [u32],
    units: &[UnitRow],
    i: usize,
    j: usize,
    f: usize,
    at_ms: u64,
) -> usize
    requires some { 0 < length units.now }
    requires i_in_bounds { i < length index.old.tags.now }
    requires i_in_bounds_2 { i < length index.old.slots.now }
    requires j_le_i { j ≤ i }
    requires free_in_bounds { f + (i - j) < length free.old }
    ensures index_after { parts.sifting result index.new.tags.now index.new.slots.now free.new
        ≡ parts.sift_one (parts.sifting j index.old.tags.now index.old.slots.now free.old) units.now i f at_ms }
    ensures lower_bound { j ≤ result }
    ensures upper_bound { result ≤ j + 1 }
    ensures cost { index.new.copies.now + j ≡ index.old.copies.now + result }
    ensures slices { SameIndex index.old index.new }
{
    let slot = index.slot(i);
    if is_stale(units, slot, at_ms) {
        free[f + (i - j)] = slot;
        return j;
    }
    index.take_down(i, j);
    j + 1
}

// Of the entries from `from` up to `to` those stay whose records are not stale, in their order, and the slots of the others go to the
// free ones from f on. The records are read as they were, since none is written.
pub fn sift<L: Ledger>(
    index: &mut Index<'_, L>,
    free: &mut [u32],
    units: &[UnitRow],
    from: usize,
    to: usize,
    f: usize,
    at_ms: u64,
) -> usize
    requires some { 0 < length units.now }
    requires from_le_to { from ≤ to }
    requires to_in_bounds { to ≤ length index.old.tags.now }
    requires to_in_bounds_2 { to ≤ length index.old.slots.now }
    requires free_in_bounds { f + (to - from) ≤ length free.old }
    ensures index_after { parts.sifting result index.new.tags.now index.new.slots.now free.new
        ≡ parts.sifted index.old.tags.now index.old.slots.now free.old units.now from to f at_ms }
    ensures lower_bound { from ≤ result }
    ensures upper_bound { result ≤ to }
    ensures cost { index.new.copies.now + from ≡ index.old.copies.now + result }
    ensures slices { SameIndex index.old index.new }
{
    let mut j = from;
    for i in from..to {
        j = sift_one(index, free, units, i, j, f, at_ms);
    }
    j
}

impl Parts<'_> {
    // Whether the record of the entry at i is stale.
    #[tactic(auto, unfolding(crate::specs::Parts::goes))]
    fn is_stale_at(&self, i: usize, at_ms: u64) -> bool
        requires sizes { Sized (held self.now) }
        requires i_in_bounds { i < length self.now.slots.now }
        ensures { result ≡ parts.goes self.now.slots.now self.now.units.now at_ms i }
    {
        is_stale(self.units, self.slots[i], at_ms)
    }

    // The first entry from `from` up to `to` whose record is stale, else `to`.
    fn first_stale(&self, from: usize, to: usize, at_ms: u64) -> usize
        requires sizes { Sized (held self.now) }
        requires from_le_to { from ≤ to }
        requires to_in_bounds { to ≤ length self.now.slots.now }
        ensures lower_bound { from ≤ result }
        ensures upper_bound { result ≤ to }
        ensures none { store.None (parts.goes self.now.slots.now self.now.units.now at_ms) from result }
        ensures stale { result < to → parts.goes self.now.slots.now self.now.units.now at_ms result ≡ true }
    {
        for i in from..to {
            if self.is_stale_at(i, at_ms) {
                return i;
            }
        }
        to
    }

    // The rows in the slot that the free place k names become zero bits.
    fn clear_one(&mut self, k: usize)
        requires sizes { Sized (held self.old) }
        requires k_in_bounds { k < length self.old.units.now }
        ensures rows_after { held self.new ≡ parts.cleared_one (held self.old) k }
        ensures slices { SameParts self.old self.new }
    {
        let slot = slot_of(self.free[k], self.units.len());
        self.units[slot] = [0; 7];
        self.uses[slot] = [0.0; 2 * DIMS];
    }

    // The rows in the slots that the free places from a up to b name become zero bits.
    fn clear(&mut self, a: usize, b: usize)
        requires sizes { Sized (held self.old) }
        requires a_le_b { a ≤ b }
        requires b_in_bounds { b ≤ length self.old.units.now }
        ensures rows_after { held self.new ≡ parts.cleared_rows (held self.old) a b }
        ensures slices { SameParts self.old self.new }
    {
        for k in a..b {
            self.clear_one(k);
        }
    }

    // The stale records of a table's part are dropped, their slots free and zero bits; before `first` none is stale, and no entry is
    // written. The records are cleared last: none is written while entries are judged by them.
    fn drop_from<L: Ledger>(
        &mut self,
        first: usize,
        tracked: usize,
        table: usize,
        at_ms: u64,
        copies: &mut Copies<L>,
    ) -> usize
        requires sizes { Sized (held self.old) }
        requires tracked_fits { tracked ≤ length self.old.units.now }
        requires table_in_bounds { table < «PARTS» }
        requires whole { Whole self.old.offsets.now tracked }
        requires first_within { (parts.begin (held self.old) table ≤ first) × (first ≤ parts.end (held self.old) table) }
        requires none { store.None (parts.goes self.old.slots.now self.old.units.now at_ms) (parts.begin (held self.old) table) first }
        ensures value { result ≡ parts.left (held self.old) tracked table at_ms }
        ensures rows_after { held self.new ≡ parts.dropped (held self.old) tracked table at_ms }
        ensures whole_after { Whole self.new.offsets.now result }
        ensures cost { copies.new + first ≡ copies.old + result }
        ensures slices { SameParts self.old self.new }
    {
        let to = self.offsets[table + 1] as usize;
        let free = self.units.len() - tracked;
        let j = self.squeeze(first, to, tracked, at_ms, copies);
        self.clear(free, free + (to - j));
        shifting::lower(self.offsets, table + 1, (to - j) as u32);
        tracked - (to - j)
    }

    // The stale records of a table's part are dropped; how many are left. Each copy of an entry counts, and each entry is copied at most
    // once. Where none is stale nothing is written.
    pub fn drop_counted<L: Ledger>(
        &mut self,
        tracked: usize,
        table: usize,
        at_ms: u64,
        copies: &mut Copies<L>,
    ) -> usize
        requires sizes { Sized (held self.old) }
        requires tracked_fits { tracked ≤ length self.old.units.now }
        requires table_in_bounds { table < «PARTS» }
        requires whole { Whole self.old.offsets.now tracked }
        ensures value { result ≡ parts.left (held self.old) tracked table at_ms }
        ensures rows_after { held self.new ≡ parts.dropped (held self.old) tracked table at_ms }
        ensures whole_after { Whole self.new.offsets.now result }
        ensures tags_behind { SameFrom self.old.tags.now self.new.tags.now (length self.old.units.now) }
        ensures cost { copies.new ≡ copies.old + length (copying.copies (held self.old) tracked table at_ms) }
        ensures once { copying.Copied (held self.old) tracked table at_ms }
        ensures slices { SameParts self.old self.new }
    {
        let from = self.offsets[table] as usize;
        let to = self.offsets[table + 1] as usize;
        let first = self.first_stale(from, to, at_ms);
        if first == to {
            return tracked;
        }
        self.drop_from(first, tracked, table, at_ms, copies)
    }

    // The same, counted on a ledger that nobody reads.
    fn drop_with<L: Ledger>(
        &mut self,
        tracked: usize,
        table: usize,
        at_ms: u64,
        blank: Blank,
    ) -> usize
        requires name { blank.name ≡ L.name }
        requires shares { blank.parts ≡ L.parts }
        requires some { 0 < blank.parts }
        requires sizes { Sized (held self.old) }
        requires tracked_fits { tracked ≤ length self.old.units.now }
        requires table_in_bounds { table < «PARTS» }
        requires whole { Whole self.old.offsets.now tracked }
        ensures value { result ≡ parts.left (held self.old) tracked table at_ms }
        ensures rows_after { held self.new ≡ parts.dropped (held self.old) tracked table at_ms }
        ensures whole_after { Whole self.new.offsets.now result }
        ensures tags_behind { SameFrom self.old.tags.now self.new.tags.now (length self.old.units.now) }
        ensures slices { SameParts self.old self.new }
    {
        let mut copies = Copies::<L>::new(blank);
        self.drop_counted(tracked, table, at_ms, &mut copies)
    }

    // The stale records of a table's part are dropped; how many are left. Where none is stale nothing is written.
    pub fn drop_stale(&mut self, tracked: usize, table: usize, at_ms: u64) -> usize
        requires sizes { Sized (held self.old) }
        requires tracked_fits { tracked ≤ length self.old.units.now }
        requires table_in_bounds { table < «PARTS» }
        requires whole { Whole self.old.offsets.now tracked }
        ensures value { result ≡ parts.left (held self.old) tracked table at_ms }
        ensures rows_after { held self.new ≡ parts.dropped (held self.old) tracked table at_ms }
        ensures whole_after { Whole self.new.offsets.now result }
        ensures tags_behind { SameFrom self.old.tags.now self.new.tags.now (length self.old.units.now) }
        ensures slices { SameParts self.old self.new }
    {
        self.drop_with::<Brand>(tracked, table, at_ms, Blank::new(1))
    }
}
