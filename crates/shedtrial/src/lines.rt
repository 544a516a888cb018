// Standard input cut into lines, and the answers written to standard output.
use std::fmt;
use std::io::Read;
use store::Lent;
use text::Page;
use trial::{COUNTED, TAGS, Trial, UNITS};
use trial_memory::Memory;
use trial_script::{FEED, LINE, front};
use wants::Histogram;

// The bytes read at once, and those kept before they are written.
const BLOCK: usize = 65536;

// From here on the page is written before the next answer: what is left of it holds any answer.
const FULL: usize = 61336;

// Why the program stops before its input ends.
#[derive(Clone, Copy)]
enum Stop {
    InputFails,
    OutputFails,
}

impl fmt::Display for Stop {
    fn fmt<W: fmt::Write>(&self, f: &mut fmt::Formatter<W>) -> fmt::Result {
        f.write_str(match self {
            Stop::InputFails => "shedtrial: standard input cannot be read",
            Stop::OutputFails => "shedtrial: standard output cannot be written, answers are lost",
        })
    }
}

// The trial after the line that is kept, over all of its memory.
fn answered(
    t: Trial,
    memory: &mut Memory<TAGS, UNITS, COUNTED>,
    line: &Page<'_>,
    page: &mut Page<'_>,
) -> Trial {
    // A method of `Memory` could not promise what the rows hold once they come back.
    let mut lent = Lent {
        tags: &mut memory.tags,
        slots: &mut memory.slots,
        offsets: &mut memory.offsets,
        free: &mut memory.free,
        units: &mut memory.units,
        uses: &mut memory.uses,
        counted: &mut memory.counted,
    };
    let mut histogram = Histogram {
        counts: &mut memory.counts,
        sums: &mut memory.sums,
    };
    let whole = front(line.out, line.at);
    trial::answer(t, &mut lent, &mut histogram, whole, page)
}

// The trial and its memory; the line that is being read, of which a byte more is kept than a line may have, and no further one;
// the answers not yet written.
#[derive(Drop)]
struct Session<'a> {
    trial: Trial,
    memory: Memory<TAGS, UNITS, COUNTED>,
    line: Page<'a>,
    page: Page<'a>,
}

impl<'a> Session<'a> {
    fn new(line: &'a mut [u8], page: &'a mut [u8]) -> Session<'a> {
        Session {
            trial: trial::unstarted(),
            memory: Memory::zeroed(),
            line: Page::at_front(line),
            page: Page::at_front(page),
        }
    }

    // Writes the answers that stand on the page, and empties it.
    fn write(&mut self, rt: &impl Print) -> Result<(), Stop> {
        let n = self.page.at;
        self.page.at = 0;
        if rt.write_all(front(self.page.out, n)).is_err() {
            return Err(Stop::OutputFails);
        }
        Ok(())
    }

    // Answers the line that is kept.
    fn answer(&mut self, rt: &impl Print) -> Result<(), Stop> {
        let t = self.trial;
        self.trial = answered(t, &mut self.memory, &self.line, &mut self.page);
        self.line.at = 0;
        if self.page.at < FULL {
            return Ok(());
        }
        self.write(rt)
    }

    // Answers each line that ends in a block of the input, and keeps what stands behind the last: whoever waits for the answers
    // has them before the next read.
    fn take(&mut self, rt: &impl Print, input: &[u8]) -> Result<(), Stop> {
        for &byte in input {
            if byte == FEED {
                self.answer(rt)?;
            } else {
                self.line.put(&[byte]);
            }
        }
        self.write(rt)
    }

    // Answers a last line that has no line end.
    fn finish(&mut self, rt: &impl Print) -> Result<(), Stop> {
        if self.line.at == 0 {
            return Ok(());
        }
        self.answer(rt)?;
        self.write(rt)
    }
}

// A loop must end, and nothing says that an input does: so the reads are counted up to a number that no run reaches. std's
// `forever` would need a handle to wait, which the program does not take.
fn serve_all(rt: &impl Print, reader: &mut impl Read) -> Result<(), Stop> {
    let mut line = [0; LINE];
    let mut page = [0; BLOCK];
    let mut session = Session::new(&mut line, &mut page);
    let mut input = [0; BLOCK];
    for _ in 0..u64::MAX {
        let Ok(n) = reader.read(&mut input) else {
            return Err(Stop::InputFails);
        };
        if n == 0 {
            break;
        }
        session.take(rt, &input[..n])?;
    }
    session.finish(rt)
}

// The whole input; says on standard error why the program stops before.
pub fn serve(rt: &(impl Print + Eprint), reader: &mut impl Read) {
    if let Err(stop) = serve_all(rt, reader) {
        let _ = rt.eprintln(stop);
    }
}
