// Standard input as lists of calls: each line of the trial's language as calls of `replay`. An R line begins a list, and each
// W line behind it runs it.
use crate::runs;
use codes::{cause_of, dim_of};
use fair_row::{Call, Reading};
use std::io::{self, Read};
use text::Page;
use trial_script::{
    Amounts, CutLine, FEED, JudgeLine, LINE, LINE_MOST, Line, StartLine, first, front, numbers,
    rest,
};

// The bytes read at once.
const BLOCK: usize = 65536;

// The calls that a list may have.
const CALLS: usize = 4096;

// The last R line; the calls since, at the front of lent memory, and whether one more found no room.
#[derive(Drop)]
struct List<'a> {
    start: StartLine,
    calls: &'a mut [Call],
    count: usize,
    is_too_long: bool,
}

impl<'a> List<'a> {
    fn new(calls: &'a mut [Call]) -> List<'a> {
        let none = Amounts {
            receptions: 0,
            bytes: 0,
        };
        List {
            start: StartLine {
                rate: none,
                ceiling: none,
            },
            calls,
            count: 0,
            is_too_long: false,
        }
    }

    fn begin(&mut self, start: StartLine) {
        self.start = start;
        self.count = 0;
        self.is_too_long = false;
    }

    fn push(&mut self, call: Call) {
        if self.count < self.calls.len() {
            self.calls[self.count] = call;
            self.count += 1;
        } else {
            self.is_too_long = true;
        }
    }

    fn judge(&mut self, j: JudgeLine) {
        self.push(Call::Judge {
            unit: j.unit,
            cost: j.cost.into(),
            stamp: j.stamp,
        });
    }

    fn cut(&mut self, c: CutLine) {
        self.push(Call::Cut {
            unit: c.unit,
            cause: c.cause,
            cost: c.cost.into(),
        });
    }

    // A P line is a report, the call beside it, and each reading of the head; which cause or dimension is read changes with
    // the place in the list.
    fn read_all(&mut self) {
        let place = self.count as u64 % 3;
        let readings = [
            Reading::Report,
            Reading::ReportBeside,
            Reading::Count(cause_of((place + 2) % 3)),
            Reading::Visited,
            Reading::Level(dim_of((place + 4) % 3)),
            Reading::Rate(dim_of((place + 5) % 3)),
            Reading::IsBounded,
        ];
        for reading in readings {
            self.push(Call::Read(reading));
        }
    }

    // `N receptions bytes receptions bytes stamp`: new rates, a new ceiling and the stamp. The trial has no such line.
    fn change(&mut self, line: &[u8]) {
        let Some(fields) = numbers::<5>(rest(line)) else {
            return;
        };
        let [receptions, bytes, most_receptions, most_bytes, stamp] = fields;
        self.push(Call::Rates {
            rate: [receptions, bytes],
            ceiling: [most_receptions, most_bytes],
            stamp,
        });
    }

    // `W label from to`: the list is run with that record watched, the run being the calls from `from` to before `to`. The line
    // is said again, so that what it gives stands below it. Any other line that has no form is no call.
    fn watch(&self, rt: &impl Print, line: &[u8]) -> io::Result<()> {
        if first(line) != b"W".as_slice() {
            return Ok(());
        }
        rt.write_all(line)?;
        rt.println("")?;
        if self.is_too_long {
            return rt.println("the list is too long");
        }
        let fields = rest(line);
        let Some(watched) = label_parse::parse(first(fields)) else {
            return Ok(());
        };
        let Some(places) = numbers::<2>(rest(fields)) else {
            return Ok(());
        };
        let [from, to] = places;
        runs::run(
            rt,
            self.start,
            self.calls.get(..self.count).unwrap_or(&[]),
            watched,
            from as usize,
            to as usize,
        )
    }

    // The line that is kept.
    fn take(&mut self, rt: &impl Print, kept: &Page<'_>) -> io::Result<()> {
        let line = front(kept.out, kept.at);
        if line.len() > LINE_MOST {
            return Ok(());
        }
        match trial_script::read_line(line) {
            Some(Line::Start(start)) => self.begin(start),
            Some(Line::Judge(judge)) => self.judge(judge),
            Some(Line::Cut(cut)) => self.cut(cut),
            Some(Line::Report) => self.read_all(),
            None if first(line) == b"N".as_slice() => self.change(line),
            None => self.watch(rt, line)?,
        }
        Ok(())
    }
}

// The whole input; a last line without a line end is not taken. A byte more of a line is kept than a line may have, and no further
// one: a line may be of any length.
pub fn run_all(rt: &impl Print, reader: &mut impl Read) -> io::Result<()> {
    let mut calls = [Call::Read(Reading::Visited); CALLS];
    let mut list = List::new(&mut calls);
    let mut kept = [0; LINE];
    let mut line = Page::at_front(&mut kept);
    let mut block = [0; BLOCK];
    // A loop must end, and nothing says that an input does: so the reads are counted up to a number that no run reaches. std's
    // `forever` would need a handle to wait, which this program does not take. Each of the three programs that read lists has this
    // loop: a function over what is done with a byte would ask that it may be called again after each call.
    for _ in 0..u64::MAX {
        let n = reader.read(&mut block)?;
        if n == 0 {
            break;
        }
        for &byte in &block[..n] {
            if byte == FEED {
                list.take(rt, &line)?;
                line.at = 0;
            } else {
                line.put(&[byte]);
            }
        }
    }
    Ok(())
}
