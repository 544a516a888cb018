// The scan that finds the level again, two tables with each judgement.
#![tactic(auto)]

ghost use Rattle.std.specs.Prelude.{◌≡◌, ◌+◌, ◌<◌, ◌≤◌, nat_le, length};
ghost use Rattle.sender.specs.Sender as sender;
ghost use Rattle.head.specs.Questions as asked;
ghost use Rattle.parts.specs.Held.{held, SameParts, Sized};
ghost use Rattle.shifting.specs.Offsets.{Whole};
ghost use Rattle.wants.specs.Held.{wants_held, wants_read, SameArrays};
ghost use Rattle.scan.specs.Scanning as scanning;

use head::Shedder;
use parts::Parts;
use sender::TABLES;
use wants::{Histogram, HistogramRead};

// How often the level is found again: a scan begins every quarter of this.
pub const ACTIVE_MS: u64 = 2000;

const SCAN_MS: u64 = ACTIVE_MS / 4;

// One table more is visited, and so many records are left.
#[tactic(auto, unfolding(crate::specs::Scanning::visited))]
fn visited(h: &mut Shedder, n: usize)
    requires le_remaining { 1 ≤ h.old.scan.remaining }
    requires next_bound { h.old.scan.remaining + h.old.scan.next ≤ sender.«TABLES» }
    ensures { h.new ≡ scanning.visited h.old n }
{
    h.scan.next += 1;
    h.scan.remaining -= 1;
    h.tracked = n;
    h.visits = h.visits.wrapping_add(1);
}

// The next table is visited.
fn visit(h: &mut Shedder, parts: &mut Parts<'_>, histogram: &mut Histogram<'_>)
    requires sizes { Sized (held parts.old) }
    requires tracked_fits { h.old.tracked ≤ length parts.old.units.now }
    requires whole { Whole parts.old.offsets.now h.old.tracked }
    requires le_remaining { 1 ≤ h.old.scan.remaining }
    requires next_bound { h.old.scan.remaining + h.old.scan.next ≤ sender.«TABLES» }
    ensures sums_after { scanning.scanning h.new (held parts.new) (wants_held histogram.new)
        ≡ scanning.visit (scanning.scanning h.old (held parts.old) (wants_held histogram.old)) }
    ensures tracked_le_tracked { h.new.tracked ≤ h.old.tracked }
    ensures whole_after { Whole parts.new.offsets.now h.new.tracked }
    ensures next_bound_2 { h.new.scan.remaining + h.new.scan.next ≤ sender.«TABLES» }
    ensures slices { SameParts parts.old parts.new }
    ensures arrays { SameArrays histogram.old histogram.new }
{
    let n = scan_visit::swept(
        parts,
        histogram,
        h.overflow,
        h.tracked,
        h.scan.next,
        h.scan.at_ms,
    );
    visited(h, n);
}

// A second visit, where a table remains.
fn again(h: &mut Shedder, parts: &mut Parts<'_>, histogram: &mut Histogram<'_>)
    requires sizes { Sized (held parts.old) }
    requires tracked_fits { h.old.tracked ≤ length parts.old.units.now }
    requires whole { Whole parts.old.offsets.now h.old.tracked }
    requires next_bound { h.old.scan.remaining + h.old.scan.next ≤ sender.«TABLES» }
    ensures sums_after { scanning.scanning h.new (held parts.new) (wants_held histogram.new)
        ≡ scanning.again (scanning.scanning h.old (held parts.old) (wants_held histogram.old)) }
    ensures whole_after { Whole parts.new.offsets.now h.new.tracked }
    ensures slices { SameParts parts.old parts.new }
    ensures arrays { SameArrays histogram.old histogram.new }
{
    if h.scan.remaining >= 1 {
        visit(h, parts, histogram);
    }
}

fn ended(h: Shedder, histogram: &HistogramRead<'_>) -> Shedder
    ensures { result ≡ scanning.ended h (wants_read histogram.now) }
{
    if h.scan.remaining == 0 {
        scan_trim::trimmed(h, histogram)
    } else {
        h
    }
}

#[tactic(auto, unfolding(crate::specs::Scanning::opened))]
fn open(h: &mut Shedder, clock: u64)
    ensures { h.new ≡ scanning.opened h.old clock }
{
    let scan = &mut h.scan;
    scan.remaining = TABLES;
    scan.next = 0;
    scan.at_ms = clock;
    scan.began_ms = clock;
}

// Whether a scan is under way, once one that is due has begun.
fn is_running(h: &mut Shedder, histogram: &mut Histogram<'_>, clock: u64) -> bool
    requires began_ms_bound { h.old.scan.began_ms < asked.STAMP_END }
    requires next_bound { h.old.scan.remaining + h.old.scan.next ≤ sender.«TABLES» }
    ensures value { result ≡ nat_le 1 h.new.scan.remaining }
    ensures sums_after { scanning.started h.new (wants_held histogram.new) ≡ scanning.begun h.old (wants_held histogram.old) clock }
    ensures tracked_value { h.new.tracked ≡ h.old.tracked }
    ensures next_bound_2 { h.new.scan.remaining + h.new.scan.next ≤ sender.«TABLES» }
    ensures arrays { SameArrays histogram.old histogram.new }
{
    if h.scan.remaining > 0 {
        return true;
    }
    if clock < h.scan.began_ms + SCAN_MS {
        return false;
    }
    histogram.clear();
    open(h, clock);
    true
}

// What a judgement does of a scan: it visits two tables. The head is lent to each step but the last, so that they copy none.
pub fn scanned(
    mut h: Shedder,
    parts: &mut Parts<'_>,
    histogram: &mut Histogram<'_>,
    clock: u64,
) -> Shedder
    requires sizes { Sized (held parts.old) }
    requires tracked_fits { h.tracked ≤ length parts.old.units.now }
    requires whole { Whole parts.old.offsets.now h.tracked }
    requires began_ms_bound { h.scan.began_ms < asked.STAMP_END }
    requires next_bound { h.scan.remaining + h.scan.next ≤ sender.«TABLES» }
    ensures sums_after { scanning.scanning result (held parts.new) (wants_held histogram.new)
        ≡ scanning.scanned (scanning.scanning h (held parts.old) (wants_held histogram.old)) clock }
    ensures slices { SameParts parts.old parts.new }
    ensures arrays { SameArrays histogram.old histogram.new }
{
    if !is_running(&mut h, histogram, clock) {
        return h;
    }
    visit(&mut h, parts, histogram);
    again(&mut h, parts, histogram);
    ended(h, &histogram.read())
}
