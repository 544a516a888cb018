// The unit records table by table, in lent memory: found, put in, dropped.
#![tactic(auto)]

ghost use Rattle.std.specs.Prelude.{◌≡◌, ◌<◌, ◌≤◌, ◌+◌, ℕ, List, Float, length, get_or, slice_index, IfSome};
ghost use Rattle.std.specs.List.{SameFrom};
ghost use Rattle.parts.specs.Held.{held, Ready, SameParts, Sized};
ghost use Rattle.parts.specs.Parts as parts;
ghost use Rattle.parts.specs.Parts.{rows};
ghost use Rattle.sender.specs.Sender.{table_of_tag};
ghost use Rattle.shifting.specs.Offsets.{Whole, «PARTS»};
ghost use Rattle.shifting.specs.Shifting.{down};

mod copies;
mod drops;

pub use copies::Copies;
pub use drops::RETAIN_MS;
use flow::{DIMS, Use};
use sender::{Name, Words};
use shifting::PARTS;
use store::{UnitRow, UseRow, joined, part};

// The unit records in lent memory, table by table in order of arrival. The order is that of an index, the first entries of `tags` and
// `slots`; `offsets` says where each table's part of it begins, and where the last ends. A record's rows stay in its slot; `free` is the
// stack of the slots that no entry names. The tags of other records may stand behind the room.
#[derive(Drop)]
pub struct Parts<'a> {
    pub tags: &'a mut [u16],
    pub slots: &'a mut [u32],
    pub offsets: &'a mut [u32; PARTS + 1],
    pub free: &'a mut [u32],
    pub units: &'a mut [UnitRow],
    pub uses: &'a mut [UseRow],
}

// Every part is empty and every slot free, the lowest taken first. No record is written: what lies in a slot is not read until an
// entry names it.
pub fn start(offsets: &mut [u32; PARTS + 1], free: &mut [u32])
    requires { length free.old ≤ 131072 }
    ensures offsets_after { offsets.new ≡ parts.none_begun }
    ensures free_after { free.new ≡ down (length free.old) }
{
    *offsets = [0; PARTS + 1];
    shifting::count_down(free);
}

// The slot that an entry names, of so many; one that there is not reads as slot 0.
fn slot_of(entry: u32, room: usize) -> usize
    requires { 0 < room }
    ensures value { result ≡ parts.slot_of entry room }
    ensures upper_bound { result < room }
{
    let slot = entry as usize;
    if slot < room { slot } else { 0 }
}

// Whether the record of the entry at i has these words: raw words are compared, so that a row of any bits is only itself.
#[tactic(auto, unfolding(store::specs::Store::same))]
fn has_words(slots: &[u32], units: &[UnitRow], i: usize, words: Words) -> bool
    requires i_in_bounds { i < length slots.now }
    requires some { 0 < length units.now }
    ensures { result ≡ parts.has_words slots.now units.now words i }
{
    store::words_at(units, slot_of(slots[i], units.len())) == words
}

// Of entries that have these tags, and whose slots begin at `from`, the first that is the unit's.
fn find_among(
    tags: &[u16],
    slots: &[u32],
    units: &[UnitRow],
    from: usize,
    name: Name,
) -> Option<usize>
    requires in_bounds { from + length tags.now ≤ length slots.now }
    requires some { 0 < length units.now }
    ensures value { result ≡ parts.find_among tags.now slots.now units.now from name }
    ensures upper_bound { IfSome result (λ k. k < length tags.now) }
{
    store_search::find_tagged(
        tags,
        tags.len(),
        name.tag,
        |k| has_words(slots, units, from + k, name.words),
    )
}

// The first entry from `from` up to `to` that is the unit's. No other entry is read.
#[tactic(auto, using(crate::proofs::Finding::within_none, crate::proofs::Finding::within_some))]
fn find_within(
    tags: &[u16],
    slots: &[u32],
    units: &[UnitRow],
    from: usize,
    to: usize,
    name: Name,
) -> Option<usize>
    requires from_le_to { from ≤ to }
    requires to_in_bounds { to ≤ length tags.now }
    requires to_in_bounds_2 { to ≤ length slots.now }
    requires some { 0 < length units.now }
    ensures value { result ≡ parts.find_within tags.now slots.now units.now from to name }
    ensures upper_bound { IfSome result (λ i. i < to) }
{
    let k = find_among(&tags[from..to], slots, units, from, name)?;
    Some(from + k)
}

// The unit's record in the part of its table, in lists that are only read.
#[tactic(auto, unfolding(crate::specs::Parts::find))]
pub fn find_in(
    tags: &[u16],
    slots: &[u32],
    offsets: &[u32; PARTS + 1],
    units: &[UnitRow],
    name: Name,
) -> Option<usize>
    requires some { 0 < length units.now }
    requires whole { Whole offsets.now (get_or offsets.now «PARTS» 0) }
    requires tags_room { get_or offsets.now «PARTS» 0 ≤ length tags.now }
    requires slots_room { get_or offsets.now «PARTS» 0 ≤ length slots.now }
    ensures value { (free : List ℕ) (uses : List (List Float))
        → result ≡ parts.find (rows tags.now slots.now offsets.now free units.now uses) name }
    ensures upper_bound { IfSome result (λ i. i < slice_index offsets.now «PARTS») }
{
    let table = sender::table_of_tag(name.tag);
    find_within(
        tags,
        slots,
        units,
        offsets[table] as usize,
        offsets[table + 1] as usize,
        name,
    )
}

// The use of the record at i, in slices that are only read.
#[tactic(auto, unfolding(crate::specs::Parts::use_of, store::specs::Store::use_at))]
pub fn use_in(slots: &[u32], units: &[UnitRow], uses: &[UseRow], i: usize) -> Use
    requires i_in_bounds { i < length slots.now }
    requires some { 0 < length units.now }
    requires uses_room { length units.now ≤ length uses.now }
    ensures { (tags offsets free : List ℕ) → result ≡ parts.use_of (rows tags slots.now offsets free units.now uses.now) i }
{
    let slot = slot_of(slots[i], units.len());
    Use {
        attempted: part(uses[slot], 0),
        credit: part(uses[slot], DIMS),
        at_ms: units[slot][5],
        fresh: units[slot][6],
    }
}

// The stamp of the record at i, in slices that are only read.
#[tactic(auto, unfolding(crate::specs::Parts::stamp_of, store::specs::Store::stamp_at))]
pub fn stamp_in(slots: &[u32], units: &[UnitRow], i: usize) -> u64
    requires i_in_bounds { i < length slots.now }
    requires some { 0 < length units.now }
    ensures { (tags offsets free : List ℕ) (uses : List (List Float))
        → result ≡ parts.stamp_of (rows tags slots.now offsets free units.now uses) i }
{
    units[slot_of(slots[i], units.len())][5]
}

impl Parts<'_> {
    // The slot of the entry at i.
    fn slot_at(&self, i: usize) -> usize
        requires i_in_bounds { i < length self.now.slots.now }
        requires some { 0 < length self.now.units.now }
        ensures value { result ≡ parts.slot_at (held self.now) i }
        ensures upper_bound { result < length self.now.units.now }
    {
        slot_of(self.slots[i], self.units.len())
    }

    // The unit's record in the part of its table.
    pub fn find(&self, name: Name) -> Option<usize>
        requires ready { Ready (held self.now) }
        ensures value { result ≡ parts.find (held self.now) name }
        ensures upper_bound { IfSome result (λ i. i < slice_index self.now.offsets.now «PARTS») }
    {
        find_in(self.tags, self.slots, self.offsets, self.units, name)
    }

    // The use of the record at i.
    pub fn use_at(&self, i: usize) -> Use
        requires sizes { Sized (held self.now) }
        requires i_in_bounds { i < length self.now.slots.now }
        ensures { result ≡ parts.use_of (held self.now) i }
    {
        use_in(self.slots, self.units, self.uses, i)
    }

    pub fn stamp_at(&self, i: usize) -> u64
        requires sizes { Sized (held self.now) }
        requires i_in_bounds { i < length self.now.slots.now }
        ensures { result ≡ parts.stamp_of (held self.now) i }
    {
        stamp_in(self.slots, self.units, i)
    }

    // The use put into the record at i; its unit stays.
    #[tactic(auto, unfolding(crate::specs::Parts::put, store::specs::Store::units_put, store::specs::Store::uses_put))]
    pub fn put_use(&mut self, i: usize, used: Use)
        requires sizes { Sized (held self.old) }
        requires i_in_bounds { i < length self.old.slots.now }
        ensures rows_after { held self.new ≡ parts.put (held self.old) i used }
        ensures offsets_after { self.new.offsets.now ≡ self.old.offsets.now }
        ensures slices { SameParts self.old self.new }
    {
        let slot = self.slot_at(i);
        let row = &mut self.units[slot];
        row[5] = used.at_ms;
        row[6] = used.fresh;
        self.uses[slot] = joined(used.attempted, used.credit);
    }

    // The rows of a unit's record written to a slot.
    fn write(&mut self, slot: usize, name: Name, used: Use)
        requires slot_in_bounds { slot < length self.old.units.now }
        requires slot_in_bounds_2 { slot < length self.old.uses.now }
        ensures rows_after { held self.new ≡ parts.written (held self.old) slot name used }
        ensures slices { SameParts self.old self.new }
    {
        let Words { kind, a, b, c, d } = name.words;
        self.units[slot] = [kind, a, b, c, d, used.at_ms, used.fresh];
        self.uses[slot] = joined(used.attempted, used.credit);
    }

    // A unit's record comes in at the end of the part of its table, in the slot on top of the free ones: the place of its entry.
    pub fn insert(&mut self, tracked: usize, name: Name, used: Use) -> usize
        requires sizes { Sized (held self.old) }
        requires some_free { tracked < length self.old.units.now }
        requires whole { Whole self.old.offsets.now tracked }
        ensures place { result ≡ parts.end (held self.old) (table_of_tag name.tag) }
        ensures upper_bound { result ≤ tracked }
        ensures rows_after { held self.new ≡ parts.added (held self.old) tracked name used }
        ensures whole_after { Whole self.new.offsets.now (tracked + 1) }
        ensures tags_behind { SameFrom self.old.tags.now self.new.tags.now (length self.old.units.now) }
        ensures slices { SameParts self.old self.new }
    {
        let table = sender::table_of_tag(name.tag);
        let place = self.offsets[table + 1] as usize;
        let room = self.units.len();
        let slot = self.free[room - tracked - 1];
        shifting::insert(self.tags, place, tracked, name.tag);
        shifting::insert(self.slots, place, tracked, slot);
        shifting::raise(self.offsets, table + 1);
        self.write(slot_of(slot, room), name, used);
        place
    }
}
