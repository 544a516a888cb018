// The call of a step, over the slices lent.
use check_steps::{Answer, Call, Step, Tried};
use flow::DIMS;
use head::{Cause, Shedder};
use std::io;
use store::{Lent, LentStart};
use text::Page;
use trial::Trial;
use wants::{BUCKETS, Histogram};

fn start(step: &Step, head: Shedder, lent: &mut Lent<'_>, histogram: &mut Histogram<'_>) -> Tried {
    let mut rows = LentStart {
        tags: &mut *lent.tags,
        slots: &mut *lent.slots,
        offsets: &mut *lent.offsets,
        free: &mut *lent.free,
        units: &mut *lent.units,
        uses: &mut *lent.uses,
        counted: &mut *lent.counted,
    };
    let s = head::start(head, &mut rows, histogram, step.amounts, [0; DIMS]);
    Tried::new(s.answer.map(|()| None), s.head)
}

fn judge(step: &Step, head: Shedder, lent: &mut Lent<'_>, histogram: &mut Histogram<'_>) -> Tried {
    let j = judge::judge(head, lent, histogram, step.unit, step.amounts, step.stamp);
    Tried::new(j.answer.map(Some), j.head)
}

fn cut(step: &Step, head: Shedder, lent: &mut Lent<'_>) -> Tried {
    let d = cut::cut(head, lent, step.unit, Cause::ReceiverCeiling, step.amounts);
    Tried::new(d.answer.map(|()| None), d.head)
}

fn set_rates(step: &Step, head: Shedder, lent: &Lent<'_>) -> Tried {
    let c = rates::set_rates(head, &lent.read(), step.amounts, [0; DIMS], step.stamp);
    Tried::new(c.answer.map(|()| None), c.head)
}

fn refusal(head: Shedder, lent: &Lent<'_>, out: &[u8]) -> Answer {
    report::report_refusal(head, &lent.read(), out).map(|()| None)
}

// The report as the front part of the buffer. Its answer is that of the call beside it.
fn report(rt: &impl Print, head: Shedder, lent: &Lent<'_>, out: &mut [u8]) -> io::Result<Tried> {
    let answer = refusal(head, lent, out);
    let front = report::report(head, &lent.read(), out);
    rt.write_all(front)?;
    Ok(written(answer, head, front.len()))
}

// The report as the call under it writes it.
fn write_report(
    rt: &impl Print,
    head: Shedder,
    lent: &Lent<'_>,
    out: &mut [u8],
) -> io::Result<Tried> {
    let bytes = report::write_report(head, &lent.read(), out);
    let n = bytes.unwrap_or(0);
    rt.write_all(trial_script::front(out, n))?;
    Ok(written(bytes.map(|_| None), head, n))
}

// A call that took so many bytes of the buffer.
fn written(answer: Answer, head: Shedder, at: usize) -> Tried {
    let mut tried = Tried::new(answer, head);
    tried.at = at;
    tried
}

// A line of the trial's language, which is answered at the front of the buffer.
fn line(
    rt: &impl Print,
    line: &[u8],
    is_started: bool,
    head: Shedder,
    lent: &mut Lent<'_>,
    histogram: &mut Histogram<'_>,
    out: &mut [u8],
) -> io::Result<Tried> {
    let t = Trial { head, is_started };
    let mut page = Page::at_front(out);
    let a = trial::answer(t, lent, histogram, line, &mut page);
    let at = page.at;
    check_steps::line(rt, line, trial_script::front(page.out, at))?;
    let mut tried = written(Ok(None), a.head, at);
    tried.unchanged = a.is_started == is_started;
    Ok(tried)
}

// The call of a step.
pub fn answered(
    rt: &impl Print,
    step: &Step,
    head: Shedder,
    lent: &mut Lent<'_>,
    histogram: &mut Histogram<'_>,
    out: &mut [u8],
) -> io::Result<Tried> {
    match step.call {
        Call::Start => Ok(start(step, head, lent, histogram)),
        Call::Judge => Ok(judge(step, head, lent, histogram)),
        Call::Cut => Ok(cut(step, head, lent)),
        Call::Rates => Ok(set_rates(step, head, lent)),
        Call::Report => report(rt, head, lent, out),
        Call::WriteReport => write_report(rt, head, lent, out),
        Call::ReportRefusal => Ok(Tried::new(refusal(head, lent, out), head)),
        Call::Reading(read) => Ok(Tried::new(
            check_steps::reading(read, head, &*lent.offsets),
            head,
        )),
        Call::Fill => {
            *histogram.counts = [[4; BUCKETS]; DIMS];
            *histogram.sums = [[0.5; BUCKETS]; DIMS];
            Ok(Tried::new(Ok(None), head))
        }
        Call::Line {
            line: text,
            is_started,
        } => line(rt, text, is_started, head, lent, histogram, out),
    }
}
