// The trial: one line answered by the shedder, over the memory that it is lent, and the text of the answer put into a page.
#![tactic(auto)]

ghost use Rattle.std.specs.Prelude.{◌≡◌, true, false};
ghost use Rattle.store.specs.Held.{lent_rows, SameLent};
ghost use Rattle.wants.specs.Wants.{Hist};
ghost use Rattle.wants.specs.Held.{SameArrays};
ghost use Rattle.head.specs.Bits.{SameButNanBits};
ghost use Rattle.judge.specs.Judging.{Memory, memory};
ghost use Rattle.judge.specs.Lending.{lent_memory};
ghost use Rattle.text.specs.Pages.{seen};
ghost use Rattle.trial.specs.Trial as trial;

use flow::{Bucket, DIMS, Use};
use head::{CAUSES, Flow, Refusal, Scan, Shedder};
use store::{Lent, LentStart};
use text::Page;
use trial_script::{CutLine, JudgeLine, LINE_MOST, Line, StartLine};
use wants::Histogram;

// The trial's sizes: unit records, counted records, the report's buffer.
pub const UNITS: usize = 256;

pub const COUNTED: usize = 65;

pub const TAGS: usize = UNITS + COUNTED;

pub const REPORT: usize = 4096;

// The number of a line that has no form, or stands before any start that was taken.
const NO_FORM: u64 = 8;

// The shedder and whether it was started. No Option: each call is given the head and leaves it, and the definition's state has both.
#[derive(Clone, Copy)]
pub struct Trial {
    pub head: Shedder,
    pub is_started: bool,
}

// Whether a shedder is there after a start: the new one, or the one that was.
#[tactic(auto, unfolding(crate::specs::Trial::has_begun))]
fn has_begun(was: bool, answer: Result<(), Refusal>) -> bool
    ensures { result ≡ trial.has_begun was answer }
{
    was || answer.is_ok()
}

// No shedder yet: a head of zeros, which is not whole.
pub fn unstarted() -> Trial
    ensures { result ≡ trial.unstarted }
{
    let none = [0u64; DIMS];
    let nothing = [0.0; DIMS];
    let bucket = Bucket {
        tokens: 0.0,
        burst: 0.0,
        rate_per_ms: 0.0,
    };
    let buckets = [bucket; DIMS];
    let flow = Flow {
        rate: none,
        ceiling: none,
        buckets,
        at_ms: 0,
        admitted: nothing,
    };
    let scan = Scan {
        remaining: 0,
        next: 0,
        at_ms: 0,
        began_ms: 0,
        trim: nothing,
        open: nothing,
        read_ms: 0,
        read_admitted: nothing,
    };
    let overflow = Use::new(0);
    let counts = [0u64; CAUSES];
    let head = Shedder {
        flow,
        overflow,
        scan,
        visits: 0,
        level: nothing,
        batches: counts,
        receptions: counts,
        tracked: 0,
        counted: 0,
        unit_room: 0,
        counted_room: 0,
    };
    Trial {
        head,
        is_started: false,
    }
}

#[tactic(auto, using(crate::proofs::Steps::refused_step))]
fn refused(t: Trial, page: &mut Page<'_>, n: u64) -> Trial
    ensures same_reference { page.new.out.ghost_name ≡ page.old.out.ghost_name }
    ensures value { (m : Memory) → trial.state result m (seen page.new) ≡ trial.refused (trial.state t m (seen page.old)) n }
{
    trial_script::put_refused(page, n);
    t
}

fn start(
    t: Trial,
    lent: &mut Lent<'_>,
    histogram: &mut Histogram<'_>,
    l: StartLine,
    page: &mut Page<'_>,
) -> Trial
    ensures same_reference { page.new.out.ghost_name ≡ page.old.out.ghost_name }
    ensures slices { SameLent lent.old lent.new }
    ensures arrays { SameArrays histogram.old histogram.new }
    ensures value { trial.state result (lent_memory lent.new histogram.new) (seen page.new)
        ≡ trial.start (trial.state t (lent_memory lent.old histogram.old) (seen page.old)) l }
{
    let mut rows = LentStart {
        tags: &mut *lent.tags,
        slots: &mut *lent.slots,
        offsets: &mut *lent.offsets,
        free: &mut *lent.free,
        units: &mut *lent.units,
        uses: &mut *lent.uses,
        counted: &mut *lent.counted,
    };
    let s = head::start(
        t.head,
        &mut rows,
        histogram,
        l.rate.into(),
        l.ceiling.into(),
    );
    trial_script::put_begin(page, s.answer);
    Trial {
        head: s.head,
        is_started: has_begun(t.is_started, s.answer),
    }
}

#[tactic(auto, using(crate::proofs::Steps::judge_refused))]
fn judge(
    t: Trial,
    lent: &mut Lent<'_>,
    histogram: &mut Histogram<'_>,
    l: JudgeLine,
    page: &mut Page<'_>,
) -> Trial
    ensures same_reference { page.new.out.ghost_name ≡ page.old.out.ghost_name }
    ensures slices { SameLent lent.old lent.new }
    ensures arrays { SameArrays histogram.old histogram.new }
    ensures value { trial.state result (lent_memory lent.new histogram.new) (seen page.new)
        ≡ trial.judge (trial.state t (lent_memory lent.old histogram.old) (seen page.old)) l }
{
    if !t.is_started {
        return refused(t, page, NO_FORM);
    }
    let j = judge::judge(t.head, lent, histogram, l.unit, l.cost.into(), l.stamp);
    trial_script::put_answer(page, j.answer);
    Trial {
        head: j.head,
        is_started: true,
    }
}

#[tactic(auto, using(crate::proofs::Steps::cut_refused))]
fn cut(t: Trial, lent: &mut Lent<'_>, l: CutLine, page: &mut Page<'_>) -> Trial
    ensures same_reference { page.new.out.ghost_name ≡ page.old.out.ghost_name }
    ensures slices { SameLent lent.old lent.new }
    ensures value { (g : Hist) → trial.state result (memory (lent_rows lent.new) g lent.new.counted.now) (seen page.new)
        ≡ trial.cut (trial.state t (memory (lent_rows lent.old) g lent.old.counted.now) (seen page.old)) l }
{
    if !t.is_started {
        return refused(t, page, NO_FORM);
    }
    let c = cut::cut(t.head, lent, l.unit, l.cause, l.cost.into());
    trial_script::put_done(page, c.answer);
    Trial {
        head: c.head,
        is_started: true,
    }
}

#[tactic(auto, using(crate::proofs::Steps::report_unstarted))]
fn report(t: Trial, lent: &Lent<'_>, page: &mut Page<'_>) -> Trial
    ensures same_reference { page.new.out.ghost_name ≡ page.old.out.ghost_name }
    ensures value { (g : Hist) → trial.state result (memory (lent_rows lent.now) g lent.now.counted.now) (seen page.new)
        ≡ trial.report (trial.state t (memory (lent_rows lent.now) g lent.now.counted.now) (seen page.old)) }
{
    if !t.is_started {
        return refused(t, page, NO_FORM);
    }
    let rows = lent.read();
    let mut own = [0u8; REPORT];
    if let Err(refusal) = report::report_refusal(t.head, &rows, &own) {
        return refused(t, page, u64::from(refusal));
    }
    let front = report::report(t.head, &rows, &mut own);
    page.put(front);
    t
}

// Answers one line: the text goes to the page.
#[tactic(auto, using(crate::proofs::Steps::answer_long, crate::proofs::Steps::answer_line), unfolding(crate::specs::Trial::call))]
pub fn answer(
    t: Trial,
    lent: &mut Lent<'_>,
    histogram: &mut Histogram<'_>,
    line: &[u8],
    page: &mut Page<'_>,
) -> Trial
    ensures same_reference { page.new.out.ghost_name ≡ page.old.out.ghost_name }
    ensures slices { SameLent lent.old lent.new }
    ensures arrays { SameArrays histogram.old histogram.new }
    ensures value { SameButNanBits
        (trial.state result (lent_memory lent.new histogram.new) (seen page.new))
        (trial.answer (trial.state t (lent_memory lent.old histogram.old) (seen page.old)) line.now) }
{
    if line.len() > LINE_MOST {
        return refused(t, page, NO_FORM);
    }
    match trial_script::read_line(line) {
        Some(Line::Start(s)) => start(t, lent, histogram, s, page),
        Some(Line::Judge(j)) => judge(t, lent, histogram, j, page),
        Some(Line::Cut(c)) => cut(t, lent, c, page),
        Some(Line::Report) => report(t, lent, page),
        None => refused(t, page, NO_FORM),
    }
}
