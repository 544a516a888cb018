// The exported starts, in memory of which no word is 0. What is wanted stands in docs/SPECIFICATION.md, Questions before any result and Start.
use super::*;
use flow::{Bucket, Use};
use head::{CAUSES, Flow, Scan};
use std::test::Fail;
use wants::BUCKETS;

const UNITS: usize = 3;

const COUNTED: usize = 2;

const TAGS: usize = UNITS + COUNTED;

fn blank() -> Shedder {
    let none = [0; DIMS];
    let nothing = [0.0; DIMS];
    let bucket = Bucket {
        tokens: 0.0,
        burst: 0.0,
        rate_per_ms: 0.0,
    };
    let flow = Flow {
        rate: none,
        ceiling: none,
        buckets: [bucket; DIMS],
        at_ms: 0,
        admitted: nothing,
    };
    let scan = Scan {
        remaining: 0,
        next: 0,
        at_ms: 0,
        began_ms: 0,
        trim: nothing,
        open: nothing,
        read_ms: 0,
        read_admitted: nothing,
    };
    Shedder {
        flow,
        overflow: Use::new(0),
        scan,
        visits: 0,
        level: nothing,
        batches: [0; CAUSES],
        receptions: [0; CAUSES],
        tracked: 0,
        counted: 0,
        unit_room: 0,
        counted_room: 0,
    }
}

#[derive(Clone, Copy)]
struct Memory {
    tags: [u16; TAGS],
    slots: [u32; UNITS],
    offsets: [u32; OFFSETS],
    free: [u32; UNITS],
    units: [UnitRow; UNITS],
    uses: [UseRow; UNITS],
    counts: Counts,
    sums: Sums,
    counted: [SourceRow; COUNTED],
}

fn filled() -> Memory {
    Memory {
        tags: [1; TAGS],
        slots: [3; UNITS],
        offsets: [4; OFFSETS],
        free: [5; UNITS],
        units: [[2; 7]; UNITS],
        uses: [[0.5; 2 * DIMS]; UNITS],
        counts: [[4; BUCKETS]; DIMS],
        sums: [[0.5; BUCKETS]; DIMS],
        counted: [[6; 8]; COUNTED],
    }
}

fn same(a: &Memory, b: &Memory) -> bool {
    a.tags == b.tags
        && a.slots == b.slots
        && a.offsets == b.offsets
        && a.free == b.free
        && a.units == b.units
        && a.uses == b.uses
        && a.counts == b.counts
        && a.sums == b.sums
        && a.counted == b.counted
}

// All memory is lent to be written.
fn started(head: Shedder, m: &mut Memory, rate: [u64; DIMS]) -> Answered {
    tankpost_start(
        head,
        &mut m.tags,
        &mut m.slots,
        &mut m.offsets,
        &mut m.free,
        &mut m.units,
        &mut m.uses,
        &mut m.counts,
        &mut m.sums,
        &mut m.counted,
        &rate,
        &[100, 0],
    )
}

// What a start does not write is lent to be read.
fn started_const(head: Shedder, m: &mut Memory, rate: [u64; DIMS]) -> Answered {
    tankpost_start_const(
        head,
        &m.tags,
        &m.slots,
        &mut m.offsets,
        &mut m.free,
        &m.units,
        &m.uses,
        &mut m.counts,
        &mut m.sums,
        &m.counted,
        &rate,
        &[100, 0],
    )
}

fn wanted(holds: bool, what: &'static str) -> Result<(), &'static str> {
    if holds { Ok(()) } else { Err(what) }
}

// What a start at the rates 10 and 1,000 leaves.
fn wanted_start(a: &Answered, m: &Memory) -> Result<(), &'static str> {
    let mut left = filled();
    left.offsets = [0; OFFSETS];
    left.free = [2, 1, 0];
    left.counts = [[0; BUCKETS]; DIMS];
    left.sums = [[0.0; BUCKETS]; DIMS];
    wanted(a.answer == 0, "the start is taken")?;
    wanted(a.head.flow.rate == [10, 1000], "its rates")?;
    wanted(a.head.flow.ceiling == [100, 0], "its ceilings")?;
    wanted(a.head.level == [10.0, 1000.0], "the level is the rate")?;
    wanted(a.head.unit_room == UNITS, "the room for units")?;
    wanted(a.head.counted_room == COUNTED, "the room for sources")?;
    wanted(same(m, &left), "the memory")
}

// A rate of 0 is out of range.
fn wanted_refusal(a: &Answered, m: &Memory) -> Result<(), &'static str> {
    wanted(a.answer == 1, "the start is refused")?;
    wanted(a.head.flow.rate == [0, 0], "the head's rates stay")?;
    wanted(a.head.level == [0.0, 0.0], "the head's level stays")?;
    wanted(a.head.unit_room == 0, "the head's room stays")?;
    wanted(same(m, &filled()), "the memory stays")
}

#[test]
fn starts() -> Result<(), Fail> {
    let mut m = filled();
    let a = started(blank(), &mut m, [10, 1000]);
    wanted_start(&a, &m)?;
    m = filled();
    let a = started_const(blank(), &mut m, [10, 1000]);
    wanted_start(&a, &m)?;
    Ok(())
}

#[test]
fn refuses() -> Result<(), Fail> {
    let mut m = filled();
    let a = started(blank(), &mut m, [0, 1000]);
    wanted_refusal(&a, &m)?;
    let a = started_const(blank(), &mut m, [0, 1000]);
    wanted_refusal(&a, &m)?;
    Ok(())
}
