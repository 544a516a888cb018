// A step: the call over so much of the memory as it lends, with head and memory compared before and after. Unfit offsets are made fit again behind it.
use crate::calls;
use check_steps::{Fault, Memory, OUT, Step, Tried};
use head::Shedder;
use std::io;
use store::Lent;
use wants::Histogram;

// The first n; all of them where there are fewer.
fn first<T>(items: &mut [T], n: usize) -> &mut [T] {
    let most = n.min(items.len());
    &mut items[..most]
}

// What came of a step, compared with what was before it.
pub fn tried(
    rt: &impl Print,
    step: &Step,
    head: Shedder,
    memory: &mut Memory,
) -> io::Result<Tried> {
    let offsets = memory.offsets;
    memory.offsets = step.fault.parted(offsets);
    let was = *memory;
    let mut out = [b'.'; OUT];
    let mut lent = Lent {
        tags: first(&mut memory.tags, step.lent.tags),
        slots: first(&mut memory.slots, step.lent.slots),
        offsets: &mut memory.offsets,
        free: first(&mut memory.free, step.lent.free),
        units: first(&mut memory.units, step.lent.units),
        uses: first(&mut memory.uses, step.lent.uses),
        counted: first(&mut memory.counted, step.lent.counted),
    };
    let mut histogram = Histogram {
        counts: &mut memory.counts,
        sums: &mut memory.sums,
    };
    let page = first(&mut out, step.lent.out);
    let mut tried = calls::answered(rt, step, head, &mut lent, &mut histogram, page)?;
    tried.unchanged = tried.unchanged
        && check_steps::is_as_before(memory, &was, &out, tried.at)
        && check_steps::same_head(&tried.head, &head);
    if step.fault != Fault::Fit {
        memory.offsets = offsets;
    }
    Ok(tried)
}
