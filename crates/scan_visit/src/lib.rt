// A visit of a table by the scan: the stale records of its part are dropped, and the wants of the others are added to the histogram.
#![tactic(auto)]

ghost use Rattle.flow.specs.Flow.{dims};
ghost use Rattle.parts.specs.Held.{held, SameParts, Sized};
ghost use Rattle.parts.specs.Parts.{dropped, goes, left, use_of};
ghost use Rattle.scan_visit.specs.Visiting as visiting;
ghost use Rattle.scan_visit.specs.Walking as walking;
ghost use Rattle.shifting.specs.Offsets.{Whole, «PARTS»};
ghost use Rattle.std.specs.List.{SameFrom};
ghost use Rattle.std.specs.Prelude.{◌≡◌, ◌+◌, ◌-◌, ◌<◌, ◌≤◌, length};
ghost use Rattle.store.specs.Store as store;
ghost use Rattle.wants.specs.Held.{wants_held, SameArrays};

use flow::{DIMS, Use};
use parts::{Parts, RETAIN_MS};
use shifting::PARTS;
use wants::Histogram;

fn add_all(histogram: &mut Histogram<'_>, want: [f64; DIMS])
    ensures sums_after { wants_held histogram.new ≡ walking.adds want dims (wants_held histogram.old) }
    ensures arrays { SameArrays histogram.old histogram.new }
{
    // By place: `add` takes the dimension by it; `enumerate` would make a second name of what `want[d]` says.
    for d in 0..DIMS {
        histogram.add(d, want[d]);
    }
}

// Overflow's record is walked at table 0, once it has been judged.
#[tactic(auto, unfolding(crate::specs::Walking::walk_overflow, crate::specs::Walking::walk_use))]
fn walk_overflow(histogram: &mut Histogram<'_>, overflow: Use, table: usize, at_ms: u64)
    ensures sums_after { wants_held histogram.new ≡ walking.walk_overflow overflow table at_ms (wants_held histogram.old) }
    ensures arrays { SameArrays histogram.old histogram.new }
{
    if table == 0 && !flow::is_fresh(overflow.fresh) {
        add_all(histogram, overflow.rates(at_ms));
    }
}

// The record at i. Its rates are made here: a call that was handed the use would be handed all of it in memory.
#[tactic(auto, unfolding(crate::specs::Walking::walk_use))]
fn walk_one(parts: &Parts<'_>, histogram: &mut Histogram<'_>, i: usize, at_ms: u64)
    requires sizes { Sized (held parts.now) }
    requires i_in_bounds { i < length parts.now.slots.now }
    ensures sums_after { wants_held histogram.new
        ≡ walking.walk_use (use_of (held parts.now) i) at_ms (wants_held histogram.old) }
    ensures arrays { SameArrays histogram.old histogram.new }
{
    let used = parts.use_at(i);
    add_all(histogram, used.rates(at_ms));
}

// Whether the record at i is stale, as the drop asks.
#[tactic(auto, unfolding(parts::specs::Parts::goes, parts::specs::Parts::is_stale, parts::specs::Parts::stamp_of))]
fn is_stale(parts: &Parts<'_>, i: usize, at_ms: u64) -> bool
    requires sizes { Sized (held parts.now) }
    requires i_in_bounds { i < length parts.now.slots.now }
    ensures { result ≡ goes parts.now.slots.now parts.now.units.now at_ms i }
{
    RETAIN_MS < flow::since(at_ms, parts.stamp_at(i))
}

// The records from `from` on are walked up to the first that is stale: where it stands, else `to`. A visit that drops none reads
// each record in this pass alone.
fn walk_to_stale(
    parts: &Parts<'_>,
    histogram: &mut Histogram<'_>,
    from: usize,
    to: usize,
    at_ms: u64,
) -> usize
    requires sizes { Sized (held parts.now) }
    requires from_le_to { from ≤ to }
    requires to_in_bounds { to ≤ length parts.now.slots.now }
    ensures lower_bound { from ≤ result }
    ensures upper_bound { result ≤ to }
    ensures none { store.None (goes parts.now.slots.now parts.now.units.now at_ms) from result }
    ensures sums_after { wants_held histogram.new
        ≡ visiting.walk (held parts.now) at_ms from (result - from) (wants_held histogram.old) }
    ensures arrays { SameArrays histogram.old histogram.new }
{
    for i in from..to {
        if is_stale(parts, i, at_ms) {
            return i;
        }
        walk_one(parts, histogram, i, at_ms);
    }
    to
}

// The records from `from` up to `to` are walked.
fn walk_rest(parts: &Parts<'_>, histogram: &mut Histogram<'_>, from: usize, to: usize, at_ms: u64)
    requires sizes { Sized (held parts.now) }
    requires from_le_to { from ≤ to }
    requires to_in_bounds { to ≤ length parts.now.slots.now }
    ensures sums_after { wants_held histogram.new
        ≡ visiting.walk (held parts.now) at_ms from (to - from) (wants_held histogram.old) }
    ensures arrays { SameArrays histogram.old histogram.new }
{
    for i in from..to {
        walk_one(parts, histogram, i, at_ms);
    }
}

// Does nothing: it hands the caller's proof what the type says, an offset for each part and the end of the last.
fn tell_length(offsets: &[u32; PARTS + 1])
    ensures { length offsets.now ≡ «PARTS» + 1 }
{}

// A table's stale records are dropped, and the wants of the others in its part are added: how many records are left. The records
// before the first stale one are walked before the drop, which leaves them as they are.
fn walk_kept(
    parts: &mut Parts<'_>,
    histogram: &mut Histogram<'_>,
    tracked: usize,
    table: usize,
    at_ms: u64,
) -> usize
    requires sizes { Sized (held parts.old) }
    requires tracked_fits { tracked ≤ length parts.old.units.now }
    requires table_in_bounds { table < «PARTS» }
    requires whole { Whole parts.old.offsets.now tracked }
    ensures value { result ≡ left (held parts.old) tracked table at_ms }
    ensures rows_after { held parts.new ≡ dropped (held parts.old) tracked table at_ms }
    ensures sums_after { wants_held histogram.new ≡ visiting.walk_part (held parts.new) table at_ms (wants_held histogram.old) }
    ensures whole_after { Whole parts.new.offsets.now result }
    ensures tags_behind { SameFrom parts.old.tags.now parts.new.tags.now (length parts.old.units.now) }
    ensures slices { SameParts parts.old parts.new }
    ensures arrays { SameArrays histogram.old histogram.new }
{
    tell_length(parts.offsets);
    let from = parts.offsets[table] as usize;
    let to = parts.offsets[table + 1] as usize;
    let first = walk_to_stale(parts, histogram, from, to, at_ms);
    if first == to {
        return tracked;
    }
    let n = parts.drop_stale(tracked, table, at_ms);
    let end = parts.offsets[table + 1] as usize;
    walk_rest(parts, histogram, first, end, at_ms);
    n
}

// A visit: overflow's want first at table 0, then the table's stale records are dropped, and the wants of the others are added: how
// many records are left.
#[tactic(auto, unfolding(crate::specs::Visiting::visit_with))]
pub fn swept(
    parts: &mut Parts<'_>,
    histogram: &mut Histogram<'_>,
    overflow: Use,
    tracked: usize,
    table: usize,
    at_ms: u64,
) -> usize
    requires sizes { Sized (held parts.old) }
    requires tracked_fits { tracked ≤ length parts.old.units.now }
    requires table_in_bounds { table < «PARTS» }
    requires whole { Whole parts.old.offsets.now tracked }
    ensures value { result ≡ left (held parts.old) tracked table at_ms }
    ensures rows_after { held parts.new ≡ dropped (held parts.old) tracked table at_ms }
    ensures sums_after { wants_held histogram.new
        ≡ visiting.visit_with (held parts.new) overflow table at_ms (wants_held histogram.old) }
    ensures upper_bound { result ≤ tracked }
    ensures whole_after { Whole parts.new.offsets.now result }
    ensures tags_behind { SameFrom parts.old.tags.now parts.new.tags.now (length parts.old.units.now) }
    ensures slices { SameParts parts.old parts.new }
    ensures arrays { SameArrays histogram.old histogram.new }
{
    walk_overflow(histogram, overflow, table, at_ms);
    walk_kept(parts, histogram, tracked, table, at_ms)
}
