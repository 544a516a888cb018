// A list through `fair_replay::replay`, from a start over memory of zero bits; what is said of it.
use fair_replay::Replayed;
use fair_row::Call;
use flow::DIMS;
use head::Shedder;
use sender::Unit;
use std::io;
use store::{Lent, LentRead, LentStart};
use trial::{COUNTED, REPORT, TAGS, UNITS};
use trial_memory::Memory;
use trial_script::{StartLine, front};
use wants::Histogram;

fn say_amounts(rt: &impl Print, word: &str, [receptions, bytes]: [u64; DIMS]) -> io::Result<()> {
    println!(rt; "{word} {receptions} {bytes}")
}

fn say(rt: &impl Print, r: &Replayed) -> io::Result<()> {
    say_amounts(rt, "admitted", r.admitted)?;
    say_amounts(rt, "on-watched", r.admitted_on)?;
    say_amounts(rt, "handed-back", r.handed)?;
    println!(rt; "taken {}", r.taken)?;
    rt.println(if r.over_share {
        "over-share yes"
    } else {
        "over-share no"
    })
}

// What the reports have written of the page: a page begins as zeros, and no report has one. std's `split` answers an iterator of
// parts, of which this is the first.
fn written(page: &[u8]) -> &[u8] {
    match page.iter().position(|byte| *byte == 0) {
        Some(n) => front(page, n),
        None => page,
    }
}

// The report of the state that a list left.
fn say_state(rt: &impl Print, r: &Replayed, m: &Memory<TAGS, UNITS, COUNTED>) -> io::Result<()> {
    let mut own = [0; REPORT];
    let rows = LentRead {
        tags: &m.tags,
        slots: &m.slots,
        offsets: &m.offsets,
        free: &m.free,
        units: &m.units,
        uses: &m.uses,
        counted: &m.counted,
    };
    let text = report::report(r.head, &rows, &mut own);
    rt.println("state")?;
    rt.write_all(text)
}

// The head after a start over the memory.
fn begun(m: &mut Memory<TAGS, UNITS, COUNTED>, start: StartLine) -> Shedder {
    let mut rows = LentStart {
        tags: &mut m.tags,
        slots: &mut m.slots,
        offsets: &mut m.offsets,
        free: &mut m.free,
        units: &mut m.units,
        uses: &mut m.uses,
        counted: &mut m.counted,
    };
    let mut histogram = Histogram {
        counts: &mut m.counts,
        sums: &mut m.sums,
    };
    let s = head::start(
        trial::unstarted().head,
        &mut rows,
        &mut histogram,
        start.rate.into(),
        start.ceiling.into(),
    );
    s.head
}

// The shedder's memory, a start, and the list.
pub fn run(
    rt: &impl Print,
    start: StartLine,
    list: &[Call],
    watched: Unit,
    from: usize,
    to: usize,
) -> io::Result<()> {
    let mut m = Memory::<TAGS, UNITS, COUNTED>::zeroed();
    let mut page = [0; REPORT];
    let head = begun(&mut m, start);
    // Made here and in shedtrial: a method of `Memory` could not promise what the rows hold once they come back. (check_edges lends
    // parts of them.)
    let mut lent = Lent {
        tags: &mut m.tags,
        slots: &mut m.slots,
        offsets: &mut m.offsets,
        free: &mut m.free,
        units: &mut m.units,
        uses: &mut m.uses,
        counted: &mut m.counted,
    };
    let mut histogram = Histogram {
        counts: &mut m.counts,
        sums: &mut m.sums,
    };
    let replayed = fair_replay::replay(
        head,
        &mut lent,
        &mut histogram,
        watched,
        list,
        from,
        to,
        &mut page,
    );
    say(rt, &replayed)?;
    rt.println("page")?;
    rt.write_all(written(&page))?;
    say_state(rt, &replayed, &m)
}
