// What is written of a step.
use crate::Tried;
use crate::says::Outcome;
use crate::steps::{Call, Fault, Read, Says, Step};
use head::{Scan, Shedder};
use std::{fmt, io};
use trial_script::front;

impl Call {
    fn name(self) -> &'static str {
        match self {
            Call::Start => "start",
            Call::Judge => "judge",
            Call::Cut => "cut",
            Call::Rates => "rates",
            Call::Report => "report",
            Call::WriteReport => "write_report",
            Call::ReportRefusal => "report_refusal",
            Call::Reading(Read::Visited) => "visited",
            Call::Reading(Read::CutBatches) => "cut_batches",
            Call::Reading(Read::Level) => "level",
            Call::Reading(Read::Rate) => "rate",
            Call::Reading(Read::IsBounded) => "is_bounded",
            Call::Fill => "fill",
            Call::Line { .. } => "line",
        }
    }
}

// The call, the head's fault, the records and bytes lent, the amounts and the stamp.
impl fmt::Display for Step {
    fn fmt<W: fmt::Write>(&self, f: &mut fmt::Formatter<W>) -> fmt::Result {
        let name = self.call.name();
        let fault = self.fault as u64;
        let lent = self.lent;
        let [first, second] = self.amounts;
        write!(f, "{name} fault {fault} lent {} {} ", lent.tags, lent.slots)?;
        write!(f, "{} {} {} ", lent.free, lent.units, lent.uses)?;
        write!(f, "{} {} ", lent.counted, lent.out)?;
        write!(f, "amounts {first} {second} stamp {}", self.stamp)
    }
}

fn or_changed(unchanged: bool, what: &'static str) -> &'static str {
    if unchanged { what } else { " CHANGED" }
}

fn outcome(rt: &impl Print, what: &str, of: u64, outcome: Outcome) -> io::Result<()> {
    println!(rt; "{what} {of}: {outcome}")
}

fn active(rt: &impl Print, stamp: u64, tracked: usize) -> io::Result<()> {
    println!(rt; "age {stamp}: active {tracked}")
}

// Where the scan stands.
fn visits(rt: &impl Print, stamp: u64, visited: u64, scan: Scan) -> io::Result<()> {
    print!(rt; "judged at {stamp}: visited {visited}, ")?;
    println!(rt; "begun at {}, remaining {}", scan.began_ms, scan.remaining)
}

fn refused(rt: &impl Print, step: &Step, outcome: Outcome, changed: &str) -> io::Result<()> {
    println!(rt; "{step}: {outcome}{changed}")
}

// How many bytes the report took; its text stands before.
fn written(rt: &impl Print, step: &Step, at: usize, changed: &str) -> io::Result<()> {
    println!(rt; "{step}: {at}{changed}")
}

fn told(rt: &impl Print, step: &Step, t: &Tried) -> io::Result<()> {
    let stamp = step.stamp;
    let answer = Outcome(t.answer);
    match step.says {
        Says::Nothing => Ok(()),
        // Behind its want.
        Says::FreshVerdict => println!(rt; ", {answer}"),
        Says::OfRate => outcome(rt, "rate", step.amounts[0], answer),
        Says::OfIdle => outcome(rt, "idle", stamp, answer),
        Says::Active => active(rt, stamp, t.head.tracked),
        Says::Visits => visits(rt, stamp, t.head.visits, t.head.scan),
        Says::Refused => refused(
            rt,
            step,
            answer,
            or_changed(t.unchanged, ", nothing changed"),
        ),
        Says::Written => written(
            rt,
            step,
            t.at,
            or_changed(t.unchanged, " bytes written, nothing else changed"),
        ),
        Says::Line => rt.println(or_changed(t.unchanged, "nothing else changed")),
    }
}

// Writes what the step says; the answer is the head to go on with, which a call on an unfit head leaves as it was.
pub fn tell(rt: &impl Print, step: &Step, head: Shedder, t: &Tried) -> io::Result<Shedder> {
    told(rt, step, t)?;
    Ok(if step.fault == Fault::Fit {
        t.head
    } else {
        head
    })
}

// A line and its answer, which has its own line end.
pub fn line(rt: &impl Print, line: &[u8], answer: &[u8]) -> io::Result<()> {
    rt.print("answer to `")?;
    rt.write_all(front(line, 30))?;
    rt.print("`: ")?;
    rt.write_all(answer)
}
