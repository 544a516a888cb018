// Whether head and lent memory are as before, word by word. Any bits may stand in them, and no float is equal to itself where it is a
// not-a-number: so floats are compared by their bits, and no `==` is derived.
use crate::{Memory, OUT};
use flow::{Bucket, Use};
use head::{Flow, Scan, Shedder};

// A not-a-number's bits are not to be had: each counts as this word.
const NAN: u64 = 0xfff << 51;

fn bits_of(x: f64) -> u64 {
    if x.is_nan() { NAN } else { x.to_bits() }
}

fn same_floats<const N: usize>(a: &[f64; N], b: &[f64; N]) -> bool {
    a.iter().zip(b).all(|(x, y)| bits_of(*x) == bits_of(*y))
}

fn same_rows<const N: usize, const ROWS: usize>(
    a: &[[f64; N]; ROWS],
    b: &[[f64; N]; ROWS],
) -> bool {
    a.iter().zip(b).all(|(x, y)| same_floats(x, y))
}

fn same_bucket(a: &Bucket, b: &Bucket) -> bool {
    same_floats(
        &[a.tokens, a.burst, a.rate_per_ms],
        &[b.tokens, b.burst, b.rate_per_ms],
    )
}

fn same_flow(a: &Flow, b: &Flow) -> bool {
    a.at_ms == b.at_ms
        && a.rate == b.rate
        && a.ceiling == b.ceiling
        && a.buckets
            .iter()
            .zip(&b.buckets)
            .all(|(x, y)| same_bucket(x, y))
        && same_floats(&a.admitted, &b.admitted)
}

fn same_use(a: &Use, b: &Use) -> bool {
    a.at_ms == b.at_ms
        && a.fresh == b.fresh
        && same_floats(&a.attempted, &b.attempted)
        && same_floats(&a.credit, &b.credit)
}

fn same_scan(a: &Scan, b: &Scan) -> bool {
    a.remaining == b.remaining
        && a.next == b.next
        && a.at_ms == b.at_ms
        && a.began_ms == b.began_ms
        && a.read_ms == b.read_ms
        && same_floats(&a.trim, &b.trim)
        && same_floats(&a.open, &b.open)
        && same_floats(&a.read_admitted, &b.read_admitted)
}

pub fn same_head(a: &Shedder, b: &Shedder) -> bool {
    same_flow(&a.flow, &b.flow)
        && same_use(&a.overflow, &b.overflow)
        && same_scan(&a.scan, &b.scan)
        && same_floats(&a.level, &b.level)
        && a.visits == b.visits
        && a.tracked == b.tracked
        && a.counted == b.counted
        && a.unit_room == b.unit_room
        && a.counted_room == b.counted_room
        && a.batches == b.batches
        && a.receptions == b.receptions
}

fn same_memory(a: &Memory, b: &Memory) -> bool {
    a.tags == b.tags
        && a.slots == b.slots
        && a.offsets == b.offsets
        && a.free == b.free
        && a.units == b.units
        && same_rows(&a.uses, &b.uses)
        && a.counts == b.counts
        && same_rows(&a.sums, &b.sums)
        && a.counted == b.counted
}

// Whether memory is as it was, and the bytes of the buffer from `at` on are as they are before each call.
pub fn is_as_before(memory: &Memory, was: &Memory, out: &[u8; OUT], at: usize) -> bool {
    same_memory(memory, was) && out.iter().skip(at).all(|byte| *byte == b'.')
}
