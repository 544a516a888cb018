// The record that a call uses: found, added, or overflow's; read and put back. Over the unit records table by table.
#![tactic(auto)]

ghost use Rattle.std.specs.Prelude.{◌≡◌, ◌≤◌, ◌<◌, ℕ, List, length, IfSome, unwrap_or};
ghost use Rattle.std.specs.List.{SameFrom};
ghost use Rattle.parts.specs.Held.{held, SameParts, Sized};
ghost use Rattle.parts.specs.Parts.{rows};
ghost use Rattle.store_entry.specs.Entering as entering;
ghost use Rattle.shifting.specs.Offsets.{Whole};

use flow::Use;
use parts::Parts;
use sender::Named;
use store::{UnitRow, UseRow};

// Where a unit's record is, none for overflow's; and how many there are then.
#[derive(Clone, Copy)]
pub struct Place {
    pub at: Option<usize>,
    pub tracked: usize,
}

// The unit's record; a new one, stamped with the clock, at the end of its table's part where there is room; else overflow's.
#[tactic(auto, unfolding(crate::specs::Entering::entry))]
pub fn entry(parts: &mut Parts<'_>, tracked: usize, named: Named, clock: u64) -> Place
    requires sizes { Sized (held parts.old) }
    requires tracked_bound { tracked ≤ length parts.old.units.now }
    requires whole { Whole parts.old.offsets.now tracked }
    ensures rows_after { entering.entered (entering.placed (length parts.old.units.now) result) (held parts.new)
        ≡ entering.entry (held parts.old) tracked (length parts.old.units.now) named.unit clock }
    ensures at_in_bounds { IfSome result.at (λ i. i < length parts.old.units.now) }
    ensures tracked_le_room { result.tracked ≤ length parts.old.units.now }
    ensures whole_after { Whole parts.new.offsets.now result.tracked }
    ensures tags_behind { SameFrom parts.old.tags.now parts.new.tags.now (length parts.old.units.now) }
    ensures slices { SameParts parts.old parts.new }
{
    if sender::is_overflow(named.unit) {
        return Place { at: None, tracked };
    }
    if let Some(i) = parts.find(named.name) {
        return Place {
            at: Some(i),
            tracked,
        };
    }
    if tracked < parts.units.len() {
        let place = parts.insert(tracked, named.name, Use::new(clock));
        return Place {
            at: Some(place),
            tracked: tracked + 1,
        };
    }
    Place { at: None, tracked }
}

// The use at a place, in slices that are only read: a record's, or overflow's, which a place past the records reads too. A match here
// and below: each arm is a case of the definition.
#[tactic(auto, unfolding(crate::specs::Entering::used_at))]
pub fn used_in(
    slots: &[u32],
    units: &[UnitRow],
    uses: &[UseRow],
    overflow: Use,
    at: Option<usize>,
) -> Use
    requires slots_room { length units.now ≤ length slots.now }
    requires uses_room { length units.now ≤ length uses.now }
    ensures { (tags offsets free : List ℕ) → result
        ≡ entering.used_at (rows tags slots.now offsets free units.now uses.now) overflow (unwrap_or at (length units.now)) }
{
    match at {
        Some(i) if i < units.len() => parts::use_in(slots, units, uses, i),
        _ => overflow,
    }
}

// The use at a place of the records that are lent as one value.
pub fn used_at(parts: &Parts<'_>, overflow: Use, at: Option<usize>) -> Use
    requires { Sized (held parts.now) }
    ensures { result ≡ entering.used_at (held parts.now) overflow (unwrap_or at (length parts.now.units.now)) }
{
    used_in(parts.slots, parts.units, parts.uses, overflow, at)
}

// The record is put back, and overflow's is then the answer.
#[tactic(auto, unfolding(crate::specs::Entering::put_back))]
pub fn put_back(parts: &mut Parts<'_>, overflow: Use, at: Option<usize>, used: Use) -> Use
    requires { Sized (held parts.old) }
    ensures back { entering.back result (held parts.new)
        ≡ entering.put_back (held parts.old) overflow (unwrap_or at (length parts.old.units.now)) used }
    ensures offsets_after { parts.new.offsets.now ≡ parts.old.offsets.now }
    ensures slices { SameParts parts.old parts.new }
{
    match at {
        Some(i) if i < parts.units.len() => {
            parts.put_use(i, used);
            overflow
        }
        _ => used,
    }
}
