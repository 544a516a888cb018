// The head of the Shedder: document 01's questions about it, and the start.
#![tactic(auto)]

ghost use Rattle.std.specs.Prelude.{◌≡◌};
ghost use Rattle.store.specs.Held.{SameStart, start_rows, start_sizes};
ghost use Rattle.wants.specs.Held.{wants_held, SameArrays};
ghost use Rattle.head.specs.Questions as asked;
ghost use Rattle.head.specs.Answers as answers;
ghost use Rattle.head.specs.Start as starts;
ghost use Rattle.head.specs.Bits.{SameButNanBits};

use flow::{Bucket, DIMS, RATE_MOST, UNBOUNDED, Use};
use sender::TABLES;
pub use store::{CAUSES, Cause};
use store::{LentStart, OFFSETS, Sizes};
use wants::Histogram;

// Units tracked at most. Every further one shares overflow's record.
pub const UNITS_TRACKED: usize = 1 << 17;

// Sources whose cuts are counted at most, and the records for them: one more is spare.
pub const SOURCES_COUNTED: usize = 4096;

pub const SOURCE_RECORDS: usize = SOURCES_COUNTED + 1;

// The highest cost.
pub const COST_MOST: u64 = 1 << 40;

// Stamps are below this: a double holds each of them.
pub const STAMP_END: u64 = 1 << 53;

// The highest level before the first scan, 10^15.
pub const LEVEL_MOST: f64 = 1000000000000000.0;

// The token buckets, which every judgement takes from in the order stamps come.
#[repr(C)]
#[derive(Clone, Copy)]
pub struct Flow {
    pub rate: [u64; DIMS],
    // told to feeders, reported only; a burst is at least so large
    pub ceiling: [u64; DIMS],
    pub buckets: [Bucket; DIMS],
    // the clock: the highest stamp so far
    pub at_ms: u64,
    // everything admitted so far, which the trim reads
    pub admitted: [f64; DIMS],
}

// The scan that finds the level again, a few tables at a time.
#[repr(C)]
#[derive(Clone, Copy)]
pub struct Scan {
    // tables still to visit, none between scans; and the next one
    pub remaining: usize,
    pub next: usize,
    // the stamp that this scan reads rates at, and the stamp at which the last one began
    pub at_ms: u64,
    pub began_ms: u64,
    // the part of the level found that the relay's own rate leaves; the level found; when and at what it was last read
    pub trim: [f64; DIMS],
    pub open: [f64; DIMS],
    pub read_ms: u64,
    pub read_admitted: [f64; DIMS],
}

// The head: all of the shedder that is not lent memory. A capacity is that of the memory lent at the start.
#[repr(C)]
#[derive(Clone, Copy)]
pub struct Shedder {
    pub flow: Flow,
    pub overflow: Use,
    pub scan: Scan,
    // tables visited, modulo 2^64
    pub visits: u64,
    pub level: [f64; DIMS],
    // cuts by cause, modulo 2^64
    pub batches: [u64; CAUSES],
    pub receptions: [u64; CAUSES],
    // unit records and counted records in use
    pub tracked: usize,
    pub counted: usize,
    pub unit_room: usize,
    pub counted_room: usize,
}

// Why a call was refused: the first of its questions that was answered no, by its number.
#[derive(Clone, Copy, PartialEq, Eq)]
pub enum Refusal {
    // a start: the rates; the sizes of the memory lent
    Rates = 1,
    Sizes = 2,
    // the head; the memory lent; the cost; the stamp
    Head = 3,
    Memory = 4,
    Cost = 5,
    Stamp = 6,
    // the report: the room in its buffer
    Buffer = 7,
    // new rates: that they and the running ones are bounded
    Unbounded = 10,
}

impl From<Refusal> for u64 {
    ghost from_gives = { λ refusal n. n ≡ answers.number_of refusal };

    #[tactic(auto, unfolding(crate::specs::Answers::number_of))]
    fn from(refusal: Refusal) -> u64 {
        refusal as u64
    }
}

#[derive(Clone, Copy)]
pub struct Starting {
    pub answer: Result<(), Refusal>,
    pub head: Shedder,
}

// ---- the questions

// Questions 1 and 2 are asked at a start, and the same of a head in question 3.
#[tactic(auto, unfolding(crate::specs::Questions::is_rate))]
fn is_rate(r: u64) -> bool
    ensures { result ≡ asked.is_rate r }
{
    1 <= r && r <= RATE_MOST
}

#[tactic(auto, unfolding(crate::specs::Questions::all_rates))]
fn all_rates(xs: [u64; DIMS]) -> bool
    ensures { result ≡ asked.all_rates xs }
{
    flow::each_passes(|d| is_rate(xs[d]))
}

#[tactic(auto, unfolding(crate::specs::Questions::is_unbounded, crate::specs::Questions::is_max))]
pub fn is_unbounded(xs: [u64; DIMS]) -> bool
    ensures { result ≡ asked.is_unbounded xs }
{
    flow::each_passes(|d| xs[d] == UNBOUNDED)
}

// A stamp of 53 bits; question 6.
#[tactic(auto, unfolding(crate::specs::Questions::is_stamp))]
fn is_stamp(t: u64) -> bool
    ensures { result ≡ asked.is_stamp t }
{
    t < STAMP_END
}

// Question 5.
#[tactic(auto, unfolding(crate::specs::Questions::costs_held))]
fn costs_held(xs: [u64; DIMS]) -> bool
    ensures { result ≡ asked.costs_held xs }
{
    flow::each_passes(|d| xs[d] <= COST_MOST)
}

#[tactic(auto, unfolding(crate::specs::Questions::tables_whole))]
fn tables_whole(remaining: usize, next: usize) -> bool
    ensures { result ≡ asked.tables_whole remaining next }
{
    remaining <= TABLES && next <= TABLES && (remaining + next == TABLES || remaining + next == 0)
}

#[tactic(auto, unfolding(crate::specs::Questions::rooms_whole))]
fn rooms_whole(unit_room: usize, counted_room: usize, tracked: usize, counted: usize) -> bool
    ensures { result ≡ asked.rooms_whole unit_room counted_room tracked counted }
{
    1 <= unit_room
        && unit_room <= UNITS_TRACKED
        && 2 <= counted_room
        && counted_room <= SOURCE_RECORDS
        && tracked <= unit_room
        && counted < counted_room
}

#[tactic(auto, unfolding(crate::specs::Questions::stamps_whole))]
fn stamps_whole(a: u64, b: u64, c: u64, d: u64) -> bool
    ensures { result ≡ asked.stamps_whole a b c d }
{
    is_stamp(a) && is_stamp(b) && is_stamp(c) && is_stamp(d)
}

// Question 1.
fn rates_whole(rate: [u64; DIMS]) -> bool
    ensures { result ≡ asked.rates_whole rate }
{
    is_unbounded(rate) || all_rates(rate)
}

// Question 3.
#[tactic(auto, unfolding(crate::specs::Questions::head_whole))]
pub fn head_whole(h: Shedder) -> bool
    ensures { result ≡ asked.head_whole h }
{
    rates_whole(h.flow.rate)
        && stamps_whole(h.flow.at_ms, h.scan.at_ms, h.scan.began_ms, h.scan.read_ms)
        && tables_whole(h.scan.remaining, h.scan.next)
        && rooms_whole(h.unit_room, h.counted_room, h.tracked, h.counted)
}

// Question 3 with the offsets, which are lent beside the head and count as its part.
#[tactic(auto, unfolding(crate::specs::Questions::whole_with))]
pub fn whole_with(h: Shedder, offsets: &[u32; OFFSETS]) -> bool
    ensures { result ≡ asked.whole_with h offsets.now }
{
    head_whole(h) && shifting::is_whole(offsets, h.tracked)
}

// A tag for each record, those of the counted records behind those of the unit records.
#[tactic(auto, unfolding(crate::specs::Questions::tags_whole))]
fn tags_whole(sizes: Sizes) -> bool
    ensures { result ≡ asked.tags_whole sizes }
{
    sizes.units <= sizes.tags && sizes.tags - sizes.units == sizes.counted
}

// Of the index, of the free slots and of both rows one for each record.
#[tactic(auto, unfolding(crate::specs::Questions::slots_whole))]
fn slots_whole(sizes: Sizes) -> bool
    ensures { result ≡ asked.slots_whole sizes }
{
    sizes.slots == sizes.units && sizes.free == sizes.units && sizes.uses == sizes.units
}

// Question 4.
#[tactic(auto, unfolding(crate::specs::Questions::memory_whole))]
pub fn memory_whole(h: Shedder, sizes: Sizes) -> bool
    ensures { result ≡ asked.memory_whole h sizes }
{
    tags_whole(sizes)
        && slots_whole(sizes)
        && sizes.units == h.unit_room
        && sizes.counted == h.counted_room
}

// Question 2.
#[tactic(auto, unfolding(crate::specs::Questions::sizes_whole))]
fn sizes_whole(sizes: Sizes) -> bool
    ensures { result ≡ asked.sizes_whole sizes }
{
    tags_whole(sizes) && slots_whole(sizes) && rooms_whole(sizes.units, sizes.counted, 0, 0)
}

// The questions of a call in their order; the first answered no refuses it.
#[tactic(auto, unfolding(crate::specs::Questions::start_asked, crate::specs::Answers::answer_number, crate::specs::Answers::number_of))]
fn start_asked(rate: [u64; DIMS], sizes: Sizes) -> Result<(), Refusal>
    ensures { answers.answer_number result ≡ asked.start_asked rate sizes }
{
    if !rates_whole(rate) {
        return Err(Refusal::Rates);
    }
    if !sizes_whole(sizes) {
        return Err(Refusal::Sizes);
    }
    Ok(())
}

#[tactic(auto, unfolding(crate::specs::Questions::stamp_asked, crate::specs::Answers::answer_number, crate::specs::Answers::number_of))]
fn stamp_asked(stamp: u64) -> Result<(), Refusal>
    ensures { answers.answer_number result ≡ asked.stamp_asked stamp }
{
    if !is_stamp(stamp) {
        return Err(Refusal::Stamp);
    }
    Ok(())
}

#[tactic(auto, unfolding(crate::specs::Questions::judge_asked, crate::specs::Questions::stamp_asked, crate::specs::Questions::cut_asked, crate::specs::Answers::answer_number, crate::specs::Answers::number_of))]
pub fn judge_asked(
    h: Shedder,
    sizes: Sizes,
    offsets: &[u32; OFFSETS],
    cost: [u64; DIMS],
    stamp: u64,
) -> Result<(), Refusal>
    ensures { answers.answer_number result ≡ asked.judge_asked h sizes offsets.now cost stamp }
{
    cut_asked(h, sizes, offsets, cost)?;
    stamp_asked(stamp)
}

#[tactic(auto, unfolding(crate::specs::Questions::cut_asked, crate::specs::Questions::read_asked, crate::specs::Answers::answer_number, crate::specs::Answers::number_of))]
pub fn cut_asked(
    h: Shedder,
    sizes: Sizes,
    offsets: &[u32; OFFSETS],
    cost: [u64; DIMS],
) -> Result<(), Refusal>
    ensures { answers.answer_number result ≡ asked.cut_asked h sizes offsets.now cost }
{
    read_asked(h, offsets)?;
    if !memory_whole(h, sizes) {
        return Err(Refusal::Memory);
    }
    if !costs_held(cost) {
        return Err(Refusal::Cost);
    }
    Ok(())
}

// Question 10: a relay with no bound gets none, and none loses its bound.
#[tactic(auto, unfolding(crate::specs::Questions::both_bounded))]
fn both_bounded(running: [u64; DIMS], rate: [u64; DIMS]) -> bool
    ensures { result ≡ asked.both_bounded running rate }
{
    !is_unbounded(running) && !is_unbounded(rate)
}

#[tactic(auto, unfolding(crate::specs::Questions::rates_asked, crate::specs::Questions::read_asked, crate::specs::Questions::stamp_asked, crate::specs::Answers::answer_number, crate::specs::Answers::number_of))]
pub fn rates_asked(
    h: Shedder,
    sizes: Sizes,
    offsets: &[u32; OFFSETS],
    to: [u64; DIMS],
    stamp: u64,
) -> Result<(), Refusal>
    ensures { answers.answer_number result ≡ asked.rates_asked h sizes offsets.now to stamp }
{
    read_asked(h, offsets)?;
    if !memory_whole(h, sizes) {
        return Err(Refusal::Memory);
    }
    if !rates_whole(to) {
        return Err(Refusal::Rates);
    }
    stamp_asked(stamp)?;
    if !both_bounded(h.flow.rate, to) {
        return Err(Refusal::Unbounded);
    }
    Ok(())
}

#[tactic(auto, unfolding(crate::specs::Questions::read_asked, crate::specs::Answers::answer_number, crate::specs::Answers::number_of))]
pub fn read_asked(h: Shedder, offsets: &[u32; OFFSETS]) -> Result<(), Refusal>
    ensures { answers.answer_number result ≡ asked.read_asked h offsets.now }
{
    if !whole_with(h, offsets) {
        return Err(Refusal::Head);
    }
    Ok(())
}

// ---- the start

#[tactic(auto, unfolding(crate::specs::Start::buckets))]
fn buckets(rate: [u64; DIMS], ceiling: [u64; DIMS]) -> [Bucket; DIMS]
    ensures { result ≡ starts.buckets rate ceiling }
{
    flow::per_dim(|d| Bucket::new(rate[d], ceiling[d]))
}

// Before the first scan the level is the rate.
#[tactic(auto, unfolding(crate::specs::Start::first_levels))]
fn first_levels(rate: [f64; DIMS]) -> [f64; DIMS]
    ensures { result ≡ starts.first_levels rate }
{
    flow::per_dim(|d| ieee::min(rate[d], LEVEL_MOST))
}

// The head at a start.
#[tactic(auto, unfolding(crate::specs::Start::opening))]
fn opening(rate: [u64; DIMS], ceiling: [u64; DIMS], units: usize, counted: usize) -> Shedder
    ensures { result ≡ starts.opening rate ceiling units counted }
{
    Shedder {
        flow: Flow {
            rate,
            ceiling,
            buckets: buckets(rate, ceiling),
            at_ms: 0,
            admitted: [0.0; DIMS],
        },
        overflow: Use::new(0),
        scan: Scan {
            remaining: 0,
            next: 0,
            at_ms: 0,
            began_ms: 0,
            trim: [1.0; DIMS],
            open: [f64::INFINITY; DIMS],
            read_ms: 0,
            read_admitted: [0.0; DIMS],
        },
        visits: 0,
        level: first_levels(flow::numbers(rate)),
        batches: [0; CAUSES],
        receptions: [0; CAUSES],
        tracked: 0,
        counted: 0,
        unit_room: units,
        counted_room: counted,
    }
}

// A head for the rates and the ceiling, over the memory lent: every part is empty, every slot free, no record is written. A refused
// start leaves the head given and the memory.
pub fn start(
    head: Shedder,
    lent: &mut LentStart<'_>,
    histogram: &mut Histogram<'_>,
    rate: [u64; DIMS],
    ceiling: [u64; DIMS],
) -> Starting
    ensures same_but_nan_bits { SameButNanBits
        (starts.beginning result (start_rows lent.new) (wants_held histogram.new))
        (starts.start head (start_rows lent.old) lent.old.counted.now (wants_held histogram.old) rate ceiling) }
    ensures counted_after { lent.new.counted.now ≡ lent.old.counted.now }
    ensures answer_value { answers.start_number result.answer
        ≡ asked.start_asked rate (start_sizes lent.old) }
    ensures slices { SameStart lent.old lent.new }
    ensures arrays { SameArrays histogram.old histogram.new }
{
    if let Err(refusal) = start_asked(rate, lent.sizes()) {
        return Starting {
            answer: Err(refusal),
            head,
        };
    }
    histogram.clear();
    parts::start(lent.offsets, lent.free);
    Starting {
        answer: Ok(()),
        head: opening(rate, ceiling, lent.units.len(), lent.counted.len()),
    }
}
