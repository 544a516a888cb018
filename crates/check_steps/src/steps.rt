// The steps of the program behind the proved cases: the cases that are run, what makes the memory ready, and the refused
// calls, of each of which one thing or more is made unfit.
use crate::{COUNTED, UNITS};
use flow::{DIMS, RATE_MOST};
use head::{STAMP_END, Shedder};
use sender::{Group, Unit};
use store::OFFSETS;
use trial_script::LINE_MOST;

// A reading of the head.
#[derive(Clone, Copy)]
pub enum Read {
    Visited,
    CutBatches,
    Level,
    Rate,
    IsBounded,
}

#[derive(Clone, Copy)]
pub enum Call {
    Start,
    Judge,
    Cut,
    Rates,
    Report,
    WriteReport,
    ReportRefusal,
    Reading(Read),
    // No call: the whole histogram is written.
    Fill,
    // A line of the trial's language, before or after a start.
    Line {
        line: &'static [u8],
        is_started: bool,
    },
}

// The part of the head, or of the offsets, that is made unfit. Fit is one of them and no None: a step is printed with its fault's number, 0 for Fit.
#[derive(Clone, Copy, PartialEq)]
pub enum Fault {
    Fit,
    RateZero,
    RateAbove,
    Clock,
    ScanClock,
    ScanBegan,
    ScanRead,
    TablesRemaining,
    NextTable,
    UnitRoomAbove,
    NoUnitRoom,
    CountedRoomAbove,
    OneCountedRoom,
    TrackedAbove,
    CountedAbove,
    OffsetsBegin,
    OffsetsFall,
    OffsetsEnd,
}

// How much is lent: records, and bytes of the report's buffer.
#[derive(Clone, Copy)]
pub struct Lengths {
    pub tags: usize,
    pub slots: usize,
    pub free: usize,
    pub units: usize,
    pub uses: usize,
    pub counted: usize,
    pub out: usize,
}

// What is written of a step. Nothing is one of them and no None: one match tells them all.
#[derive(Clone, Copy)]
pub enum Says {
    Nothing,
    FreshVerdict,
    OfRate,
    OfIdle,
    Active,
    Visits,
    Refused,
    Written,
    Line,
}

// A call: the sender, the head's fault, what is lent, the amounts (rates of a start or of a call of new ones, else a cost) and the stamp.
#[derive(Clone, Copy)]
pub struct Step {
    pub call: Call,
    pub unit: Unit,
    pub fault: Fault,
    pub lent: Lengths,
    pub amounts: [u64; DIMS],
    pub stamp: u64,
    pub says: Says,
}

// The steps are at most so many.
pub const STEPS_MOST: usize = 300;

impl Fault {
    // The head with that part made unfit.
    pub fn made(self, mut head: Shedder) -> Shedder {
        match self {
            Fault::Fit | Fault::OffsetsBegin | Fault::OffsetsFall | Fault::OffsetsEnd => {}
            Fault::RateZero => head.flow.rate[0] = 0,
            Fault::RateAbove => head.flow.rate[DIMS - 1] = RATE_MOST + 1,
            Fault::Clock => head.flow.at_ms = STAMP_END,
            Fault::ScanClock => head.scan.at_ms = STAMP_END,
            Fault::ScanBegan => head.scan.began_ms = STAMP_END,
            Fault::ScanRead => head.scan.read_ms = STAMP_END,
            Fault::TablesRemaining => head.scan.remaining = 65,
            Fault::NextTable => head.scan.next = 63,
            Fault::UnitRoomAbove => head.unit_room = 131073,
            Fault::NoUnitRoom => head.unit_room = 0,
            Fault::CountedRoomAbove => head.counted_room = 4098,
            Fault::OneCountedRoom => head.counted_room = 1,
            Fault::TrackedAbove => head.tracked = UNITS + 1,
            Fault::CountedAbove => head.counted = COUNTED,
        }
        head
    }

    // The offsets with that part made unfit.
    pub fn parted(self, mut offsets: [u32; OFFSETS]) -> [u32; OFFSETS] {
        match self {
            Fault::OffsetsBegin => {
                for offset in &mut offsets {
                    *offset = (*offset).max(1);
                }
            }
            Fault::OffsetsFall => offsets[32] = 3,
            Fault::OffsetsEnd => offsets[64] = 3,
            _ => {}
        }
        offsets
    }
}

const FAULTS: [Fault; 17] = [
    Fault::RateZero,
    Fault::RateAbove,
    Fault::Clock,
    Fault::ScanClock,
    Fault::ScanBegan,
    Fault::ScanRead,
    Fault::TablesRemaining,
    Fault::NextTable,
    Fault::UnitRoomAbove,
    Fault::NoUnitRoom,
    Fault::CountedRoomAbove,
    Fault::OneCountedRoom,
    Fault::TrackedAbove,
    Fault::CountedAbove,
    Fault::OffsetsBegin,
    Fault::OffsetsFall,
    Fault::OffsetsEnd,
];

const READS: [Read; 5] = [
    Read::Visited,
    Read::CutBatches,
    Read::Level,
    Read::Rate,
    Read::IsBounded,
];

// Lines that question 8 refuses: the first two before any start; the fifth is empty, and the last is one byte longer than a
// line may be.
const LINES: [Call; 6] = [
    Call::Line {
        line: b"J no-address 1 1 2000",
        is_started: false,
    },
    Call::Line {
        line: b"P",
        is_started: false,
    },
    Call::Line {
        line: b"J no-address 1 1",
        is_started: true,
    },
    Call::Line {
        line: b"J no-address 01 1 2000",
        is_started: true,
    },
    Call::Line {
        line: b"",
        is_started: true,
    },
    Call::Line {
        line: &[b'P'; LINE_MOST + 1],
        is_started: true,
    },
];

// A group's unit; the others are of the one with no address.
const GROUP: Unit = Unit::Group(Group::V4(258));

impl Step {
    // With no fault, all of the memory, and 200 bytes of the buffer.
    fn new(call: Call, amounts: [u64; DIMS], stamp: u64) -> Step {
        Step {
            call,
            unit: Unit::NoAddress,
            fault: Fault::Fit,
            lent: Lengths {
                tags: 7,
                slots: 4,
                free: 4,
                units: 4,
                uses: 4,
                counted: 3,
                out: 200,
            },
            amounts,
            stamp,
            says: Says::Nothing,
        }
    }

    // Shapes of `new` for two calls: what differs is what each line of the list says.
    fn start(rate: u64) -> Step {
        Step::new(Call::Start, [rate; DIMS], 2000)
    }

    fn judge(cost: u64, stamp: u64) -> Step {
        Step::new(Call::Judge, [cost; DIMS], stamp)
    }

    // Of amounts of 1, to be refused.
    fn refused(call: Call) -> Step {
        Step::new(call, [1; DIMS], 2000).says(Says::Refused)
    }

    fn says(mut self, says: Says) -> Step {
        self.says = says;
        self
    }

    fn of_group(mut self) -> Step {
        self.unit = GROUP;
        self
    }

    fn fault(mut self, fault: Fault) -> Step {
        self.fault = fault;
        self
    }

    // Of the index and the free slots as many as of the unit records.
    fn lent(mut self, tags: usize, units: usize, uses: usize, counted: usize) -> Step {
        self.lent = Lengths {
            tags,
            slots: units,
            free: units,
            units,
            uses,
            counted,
            out: self.lent.out,
        };
        self
    }

    fn slots(mut self, slots: usize, free: usize) -> Step {
        self.lent.slots = slots;
        self.lent.free = free;
        self
    }

    fn buffer(mut self, out: usize) -> Step {
        self.lent.out = out;
        self
    }

    fn amounts(mut self, first: u64, second: u64) -> Step {
        self.amounts = [first, second];
        self
    }

    fn stamp(mut self, stamp: u64) -> Step {
        self.stamp = stamp;
        self
    }
}

// Room for all steps, in the program's own memory: it takes none of the heap.
pub fn room() -> [Step; STEPS_MOST] {
    [Step::start(0); STEPS_MOST]
}

// The steps, in order, at the front of lent memory.
#[derive(Drop)]
pub struct Steps<'a> {
    steps: &'a mut [Step],
    count: usize,
}

impl Steps<'_> {
    fn extend_from_slice(&mut self, steps: &[Step]) {
        for step in steps {
            if self.count < self.steps.len() {
                self.steps[self.count] = *step;
                self.count += 1;
            }
        }
    }

    pub fn as_slice(&self) -> &[Step] {
        self.steps.get(..self.count).unwrap_or(&[])
    }
}

// A whole scan is a judgement made 32 times: what is said is said of the last.
fn scan(steps: &mut Steps<'_>, stamp: u64, says: Says) {
    let judge = Step::judge(0, stamp);
    steps.extend_from_slice(&[judge; 31]);
    steps.extend_from_slice(&[judge.says(says)]);
}

// The cases that are run: the fresh verdict, the rates, idle, age, scans.
fn cases(steps: &mut Steps<'_>) {
    let start = Step::start(10);
    steps.extend_from_slice(&[
        start,
        Step::judge(20, 1000).says(Says::FreshVerdict),
        Step::start(0).says(Says::OfRate),
        Step::start(RATE_MOST + 1).says(Says::OfRate),
        Step::start(1).says(Says::OfRate),
        Step::start(RATE_MOST).says(Says::OfRate),
        start,
        Step::judge(0, 0),
        Step::judge(30, 1999).says(Says::OfIdle),
        start,
        Step::judge(0, 0),
        Step::judge(30, 2000).says(Says::OfIdle),
        start,
        Step::judge(0, 0).of_group(),
    ]);
    scan(steps, 8000, Says::Active);
    steps.extend_from_slice(&[start, Step::judge(0, 0).of_group()]);
    scan(steps, 8001, Says::Active);
    steps.extend_from_slice(&[start]);
    scan(steps, 1000, Says::Visits);
    steps.extend_from_slice(&[
        Step::judge(0, 1499).says(Says::Visits),
        Step::judge(0, 1500).says(Says::Visits),
    ]);
}

// Two judgements, a cut and a histogram with no word 0, for the calls refused.
fn ready(steps: &mut Steps<'_>) {
    steps.extend_from_slice(&[
        Step::start(10),
        Step::judge(5, 1000),
        Step::judge(30, 1200).of_group(),
        Step::new(Call::Cut, [5; DIMS], 2000),
        Step::new(Call::Fill, [1; DIMS], 2000),
    ])
}

// Too little or too uneven memory, for question 4.
fn lent_unfit(steps: &mut Steps<'_>, call: Call) {
    let step = Step::refused(call);
    steps.extend_from_slice(&[
        step.lent(6, 4, 4, 3),
        step.lent(6, 3, 4, 3),
        step.lent(7, 4, 3, 3),
        step.lent(6, 4, 4, 2),
        step.slots(3, 4),
        step.slots(4, 3),
    ]);
}

// Costs too high, for question 5.
fn cost_unfit(steps: &mut Steps<'_>, call: Call) {
    let step = Step::refused(call);
    steps.extend_from_slice(&[
        step.amounts(RATE_MOST + 1, 1),
        step.amounts(1, RATE_MOST + 1),
    ]);
}

// Questions 1 and 2.
fn starts_refused(steps: &mut Steps<'_>) {
    let start = Step::refused(Call::Start);
    steps.extend_from_slice(&[
        start.amounts(0, 1),
        start.amounts(1, 0),
        start.amounts(RATE_MOST + 1, 1),
        start.amounts(1, RATE_MOST + 1),
        start.amounts(u64::MAX, 1),
        start.lent(6, 4, 4, 3),
        start.lent(6, 3, 4, 3),
        start.lent(7, 4, 3, 3),
        start.slots(3, 4),
        start.slots(4, 3),
        start.lent(3, 0, 0, 3),
        start.lent(5, 4, 4, 1),
        start.lent(0, 0, 0, 0).amounts(0, 0),
    ]);
}

// Questions 3 to 6. Where a step is unfit in more than one way, the first question gives the number.
fn judgements_refused(steps: &mut Steps<'_>) {
    let judge = Step::refused(Call::Judge);
    for fault in FAULTS {
        steps.extend_from_slice(&[judge.fault(fault)]);
    }
    lent_unfit(steps, Call::Judge);
    cost_unfit(steps, Call::Judge);
    let above = judge.amounts(RATE_MOST + 1, RATE_MOST + 1).stamp(STAMP_END);
    steps.extend_from_slice(&[
        judge.stamp(STAMP_END),
        above.lent(6, 4, 4, 3).fault(Fault::RateZero),
        above.lent(6, 4, 4, 3),
        above,
    ]);
}

// Questions 3 to 5.
fn cuts_refused(steps: &mut Steps<'_>) {
    let cut = Step::refused(Call::Cut);
    steps.extend_from_slice(&[cut.fault(Fault::RateZero), cut.fault(Fault::OffsetsFall)]);
    lent_unfit(steps, Call::Cut);
    cost_unfit(steps, Call::Cut);
}

// Questions 3, 4 and 7, by each of the report's calls: the report has 135 bytes here.
fn reports_refused(steps: &mut Steps<'_>) {
    for call in [Call::Report, Call::WriteReport, Call::ReportRefusal] {
        let step = Step::refused(call);
        steps.extend_from_slice(&[step.fault(Fault::RateZero), step.fault(Fault::OffsetsFall)]);
        lent_unfit(steps, call);
        let short = step.buffer(134);
        steps.extend_from_slice(&[short, short.lent(6, 4, 4, 3).fault(Fault::RateZero)]);
    }
}

// Question 3.
fn readings_refused(steps: &mut Steps<'_>) {
    for read in READS {
        let step = Step::refused(Call::Reading(read));
        steps.extend_from_slice(&[step.fault(Fault::RateZero), step.fault(Fault::OffsetsFall)]);
    }
}

// Questions 3, 4, 1, 6 and 10, the last also of a relay that is not bounded.
fn rates_refused(steps: &mut Steps<'_>) {
    let rates = Step::refused(Call::Rates);
    steps.extend_from_slice(&[
        rates.fault(Fault::RateZero),
        rates.fault(Fault::OffsetsFall),
    ]);
    lent_unfit(steps, Call::Rates);
    let above = rates.amounts(0, 1).stamp(STAMP_END).lent(6, 4, 4, 3);
    steps.extend_from_slice(&[
        above.fault(Fault::RateZero),
        above,
        rates.amounts(0, 1).stamp(STAMP_END),
        rates.amounts(1, RATE_MOST + 1),
        rates.amounts(u64::MAX, 1),
        rates.amounts(u64::MAX, u64::MAX).stamp(STAMP_END),
        rates.amounts(u64::MAX, u64::MAX),
        Step::start(u64::MAX),
        rates.stamp(STAMP_END),
        rates,
    ]);
}

// The report into a buffer of just its bytes, of one more and of 4,096.
fn reports_written(steps: &mut Steps<'_>) {
    for call in [Call::Report, Call::WriteReport] {
        let step = Step::refused(call).says(Says::Written);
        steps.extend_from_slice(&[step.buffer(135), step.buffer(136), step.buffer(4096)]);
    }
}

fn lines_refused(steps: &mut Steps<'_>) {
    for line in LINES {
        steps.extend_from_slice(&[Step::refused(line).buffer(40).says(Says::Line)]);
    }
}

// All of them, in order.
pub fn all_steps(room: &mut [Step]) -> Steps<'_> {
    let mut steps = Steps {
        steps: room,
        count: 0,
    };
    cases(&mut steps);
    ready(&mut steps);
    starts_refused(&mut steps);
    judgements_refused(&mut steps);
    cuts_refused(&mut steps);
    reports_refused(&mut steps);
    readings_refused(&mut steps);
    reports_written(&mut steps);
    lines_refused(&mut steps);
    rates_refused(&mut steps);
    steps
}
