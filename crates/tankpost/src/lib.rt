// The calls for relays in Rust or C. `rt lib` in this folder makes the archive that they link, out/libtankpost.a.
// The head goes in and comes back by value; all other memory is lent. In C a slice is a pointer and a count, a reference to
// an array (the offsets, the histogram) is a pointer: so the exported functions take each slice by itself, and lend them on as one. Any bits may stand in head and memory. Each contract cites the page of crate meaning.
#![tactic(auto)]

ghost use Rattle.std.specs.Prelude.{◌≡◌};
ghost use Rattle.sender.specs.Sender.{unit_of};
ghost use Rattle.wants.specs.Wants.{Hist};
ghost use Rattle.head.specs.Answers.{start_number, cut_number, rates_number};
ghost use Rattle.head.specs.Bits.{SameButNanBits};
ghost use Rattle.codes.specs.Numbers.{cause_of, dim_of, read_count, read_level, read_rate, read_bounded};
ghost use Rattle.codes.specs.Decisions.{decision_of};
ghost use Rattle.meaning.specs.State.{state, state_with, after, told_as};
ghost use Rattle.meaning.specs.Page as page;
ghost use Rattle.tankpost.specs.Calls.{judged_as, reported, report_told};

#[cfg(test)]
mod tests;

use codes::{Count, Decision, Level};
use flow::DIMS;
use head::Shedder;
use sender::{Unit, Words};
use store::{Lent, LentRead, LentStart, OFFSETS, SourceRow, UnitRow, UseRow};
use wants::{Counts, Histogram, Sums};

// A call's answer as a number (crate codes), and the head after it. C has no Result: a number tells the answer here and in each call.
#[repr(C)]
#[derive(Clone, Copy)]
pub struct Answered {
    pub answer: u64,
    pub head: Shedder,
}

// What a judgement answered, as numbers (crate codes), and the head after it.
#[repr(C)]
#[derive(Clone, Copy)]
pub struct Judged {
    pub decision: Decision,
    pub head: Shedder,
}

// head::start: 0, or the number of the refusal. Offsets, free slots and histogram are written, the rest is lent to be read; the head given, and the memory, are left by a refused start.
#[unsafe(no_mangle)]
pub extern "C" fn tankpost_start_const(
    head: Shedder,
    tags: &[u16],
    slots: &[u32],
    offsets: &mut [u32; OFFSETS],
    free: &mut [u32],
    units: &[UnitRow],
    uses: &[UseRow],
    counts: &mut Counts,
    sums: &mut Sums,
    counted: &[SourceRow],
    rate: &[u64; DIMS],
    ceiling: &[u64; DIMS],
) -> Answered
    ensures { SameButNanBits
        (after result.answer (state result.head tags.now slots.now offsets.new free.new units.now uses.now counts.new sums.new counted.now))
        (told_as start_number
        (page.start (state head tags.now slots.now offsets.old free.old units.now uses.now counts.old sums.old counted.now)
        rate.now ceiling.now)) }
{
    let mut lent = LentStart {
        tags,
        slots,
        offsets,
        free,
        units,
        uses,
        counted,
    };
    let mut histogram = Histogram { counts, sums };
    let s = head::start(head, &mut lent, &mut histogram, *rate, *ceiling);
    Answered {
        answer: codes::answer_number(s.answer),
        head: s.head,
    }
}

// tankpost_start_const, of memory that is all lent to be written: what a start does not write comes back as it was.
#[unsafe(no_mangle)]
pub extern "C" fn tankpost_start(
    head: Shedder,
    tags: &mut [u16],
    slots: &mut [u32],
    offsets: &mut [u32; OFFSETS],
    free: &mut [u32],
    units: &mut [UnitRow],
    uses: &mut [UseRow],
    counts: &mut Counts,
    sums: &mut Sums,
    counted: &mut [SourceRow],
    rate: &[u64; DIMS],
    ceiling: &[u64; DIMS],
) -> Answered
    ensures told { SameButNanBits
        (after result.answer (state result.head tags.new slots.new offsets.new free.new units.new uses.new counts.new sums.new counted.new))
        (told_as start_number
        (page.start (state head tags.old slots.old offsets.old free.old units.old uses.old counts.old sums.old counted.old)
        rate.now ceiling.now)) }
    ensures tags_stay { tags.new ≡ tags.old }
    ensures slots_stay { slots.new ≡ slots.old }
    ensures units_stay { units.new ≡ units.old }
    ensures uses_stay { uses.new ≡ uses.old }
    ensures counted_stay { counted.new ≡ counted.old }
{
    tankpost_start_const(
        head, tags, slots, offsets, free, units, uses, counts, sums, counted, rate, ceiling,
    )
}

// judge::judge of the unit that the words give: the number of the refusal, or the verdict and the rule that decided it.
#[unsafe(no_mangle)]
pub extern "C" fn tankpost_judge(
    head: Shedder,
    tags: &mut [u16],
    slots: &mut [u32],
    offsets: &mut [u32; OFFSETS],
    free: &mut [u32],
    units: &mut [UnitRow],
    uses: &mut [UseRow],
    counts: &mut Counts,
    sums: &mut Sums,
    counted: &mut [SourceRow],
    unit: Words,
    cost: &[u64; DIMS],
    stamp: u64,
) -> Judged
    ensures { SameButNanBits
        (after result.decision (state result.head tags.new slots.new offsets.new free.new units.new uses.new counts.new sums.new counted.new))
        (judged_as decision_of
        (state head tags.old slots.old offsets.old free.old units.old uses.old counts.old sums.old counted.old)
        (unit_of unit) cost.now stamp) }
{
    let mut lent = Lent {
        tags,
        slots,
        offsets,
        free,
        units,
        uses,
        counted,
    };
    let mut histogram = Histogram { counts, sums };
    let j = judge::judge(
        head,
        &mut lent,
        &mut histogram,
        Unit::from(unit),
        *cost,
        stamp,
    );
    Judged {
        decision: codes::decision_of(j.answer, j.ruling),
        head: j.head,
    }
}

// cut::cut for the cause of that number: 0 counted, or the number of the refusal.
#[unsafe(no_mangle)]
pub extern "C" fn tankpost_cut(
    head: Shedder,
    tags: &mut [u16],
    slots: &mut [u32],
    offsets: &mut [u32; OFFSETS],
    free: &mut [u32],
    units: &mut [UnitRow],
    uses: &mut [UseRow],
    counted: &mut [SourceRow],
    unit: Words,
    cause: u64,
    cost: &[u64; DIMS],
) -> Answered
    ensures { (g : Hist) → SameButNanBits
        (after result.answer (state_with g result.head tags.new slots.new offsets.new free.new units.new uses.new counted.new))
        (told_as cut_number
        (page.cut (state_with g head tags.old slots.old offsets.old free.old units.old uses.old counted.old)
        (unit_of unit) (cause_of cause) cost.now)) }
{
    let mut lent = Lent {
        tags,
        slots,
        offsets,
        free,
        units,
        uses,
        counted,
    };
    let c = cut::cut(
        head,
        &mut lent,
        Unit::from(unit),
        codes::cause_of(cause),
        *cost,
    );
    Answered {
        answer: codes::answer_number(c.answer),
        head: c.head,
    }
}

// rates::set_rates: 0, or the number of the refusal. No lent memory is written.
#[unsafe(no_mangle)]
pub extern "C" fn tankpost_set_rates(
    head: Shedder,
    tags: &[u16],
    slots: &[u32],
    offsets: &[u32; OFFSETS],
    free: &[u32],
    units: &[UnitRow],
    uses: &[UseRow],
    counted: &[SourceRow],
    rate: &[u64; DIMS],
    ceiling: &[u64; DIMS],
    stamp: u64,
) -> Answered
    ensures { (g : Hist) → SameButNanBits
        (after result.answer (state_with g result.head tags.now slots.now offsets.now free.now units.now uses.now counted.now))
        (told_as rates_number
        (page.set_rates (state_with g head tags.now slots.now offsets.now free.now units.now uses.now counted.now)
        rate.now ceiling.now stamp)) }
{
    let lent = LentRead {
        tags,
        slots,
        offsets,
        free,
        units,
        uses,
        counted,
    };
    let c = rates::set_rates(head, &lent, *rate, *ceiling, stamp);
    Answered {
        answer: codes::answer_number(c.answer),
        head: c.head,
    }
}

// report::write_report: the bytes written to the front of out, or the number of the refusal.
#[unsafe(no_mangle)]
pub extern "C" fn tankpost_report(
    head: Shedder,
    tags: &[u16],
    slots: &[u32],
    offsets: &[u32; OFFSETS],
    free: &[u32],
    units: &[UnitRow],
    uses: &[UseRow],
    counted: &[SourceRow],
    out: &mut [u8],
) -> Count
    ensures { (g : Hist) → reported result out.new
        ≡ report_told (page.report (state_with g head tags.now slots.now offsets.now free.now units.now uses.now counted.now) out.old) }
{
    let lent = LentRead {
        tags,
        slots,
        offsets,
        free,
        units,
        uses,
        counted,
    };
    codes::read_written(report::write_report(head, &lent, out))
}

// report::report_refusal: the number of the refusal, 0 where the report would be written.
#[unsafe(no_mangle)]
pub extern "C" fn tankpost_report_refusal(
    head: Shedder,
    tags: &[u16],
    slots: &[u32],
    offsets: &[u32; OFFSETS],
    free: &[u32],
    units: &[UnitRow],
    uses: &[UseRow],
    counted: &[SourceRow],
    out: &[u8],
) -> u64
    ensures { (g : Hist) → result ≡ page.report_refusal (state_with g head tags.now slots.now offsets.now free.now units.now uses.now counted.now) out.now }
{
    let lent = LentRead {
        tags,
        slots,
        offsets,
        free,
        units,
        uses,
        counted,
    };
    codes::answer_number(report::report_refusal(head, &lent, out))
}

// ---- the readings: one shape, each an exported call of its own

#[unsafe(no_mangle)]
pub extern "C" fn tankpost_visited(head: Shedder, offsets: &[u32; OFFSETS]) -> Count
    ensures { result ≡ read_count (page.visited head offsets.now) }
{
    codes::read_count(head_readings::visited(head, offsets))
}

#[unsafe(no_mangle)]
pub extern "C" fn tankpost_cut_batches(head: Shedder, offsets: &[u32; OFFSETS], cause: u64) -> Count
    ensures { result ≡ read_count (page.cut_batches head offsets.now (cause_of cause)) }
{
    codes::read_count(head_readings::cut_batches(head, offsets, codes::cause_of(cause)))
}

#[unsafe(no_mangle)]
pub extern "C" fn tankpost_level(head: Shedder, offsets: &[u32; OFFSETS], dim: u64) -> Level
    ensures { SameButNanBits result (read_level (page.level head offsets.now (dim_of dim))) }
{
    codes::read_level(head_readings::level(head, offsets, codes::dim_of(dim)))
}

// An unbounded relay's rate reads u64::MAX.
#[unsafe(no_mangle)]
pub extern "C" fn tankpost_rate(head: Shedder, offsets: &[u32; OFFSETS], dim: u64) -> Count
    ensures { result ≡ read_rate (page.rate head offsets.now (dim_of dim)) }
{
    codes::read_rate(head_readings::rate(head, offsets, codes::dim_of(dim)))
}

// 1 for a bounded relay, 0 for an unbounded one.
#[unsafe(no_mangle)]
pub extern "C" fn tankpost_is_bounded(head: Shedder, offsets: &[u32; OFFSETS]) -> Count
    ensures { result ≡ read_bounded (page.is_bounded head offsets.now) }
{
    codes::read_bounded(head_readings::is_bounded(head, offsets))
}
