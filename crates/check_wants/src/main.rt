// Replays the list on standard input, which tools/make_wants_list.py makes with the Rust oracle, and says how many buckets and levels agree, or which line is the first that does not.
// A line is a letter and decimal numbers, a double as its bit pattern:
// B want bucket · C (clear) · A dim want (add) · S dim bucket count sum (set) · L dim rate level
#![tactic(auto)]

ghost use Rattle.std.specs.Prelude.{◌<◌};

use flow::DIMS;
use std::io::{self, Read};
use wants::{BUCKETS, Counts, Histogram, Sums};

// The bytes read at once.
const BLOCK: usize = 16384;

// The largest number that has room for one decimal digit more.
const ROOM: u64 = u64::MAX / 10 - 1;

// The line so far: its letter, which field the next digit belongs to (the first stands behind the first space), and the fields. Its
// bytes are not kept, since a line may be of any length.
#[derive(Clone, Copy)]
struct Line {
    letter: u8,
    at: usize,
    fields: [u64; 4],
}

// A line that has its form.
#[derive(Drop)]
enum Entry {
    Bucket {
        want: f64,
        bucket: u64,
    },
    Clear,
    Add {
        dim: usize,
        want: f64,
    },
    Set {
        dim: usize,
        bucket: usize,
        count: u32,
        sum: f64,
    },
    Level {
        dim: usize,
        rate: f64,
        level: u64,
    },
}

// The line that is read, and what the lines before it came to: the histogram, how many buckets and levels agree, and the number of the
// first line that does not.
#[derive(Drop)]
struct Replay {
    line: Line,
    number: u64,
    counts: Counts,
    sums: Sums,
    buckets: u64,
    levels: u64,
    differs: Option<u64>,
}

const SIGN: u64 = 1 << 63;

// The bit pattern of f64::INFINITY; those above it, the sign aside, are of not-a-numbers.
const INFINITE: u64 = 0x7ff << 52;

const NAN: u64 = 0xfff << 51;

// `from_bits` asks for bits of no not-a-number: all those are read as one.
fn double_of(bits: u64) -> f64 {
    if bits % SIGN <= INFINITE {
        return f64::from_bits(bits);
    }
    f64::NAN
}

// As in check_steps, which is another program's: a crate for two lines would be no plainer.
fn bits_of(x: f64) -> u64 {
    if x.is_nan() { NAN } else { x.to_bits() }
}

impl Line {
    fn blank() -> Line {
        Line {
            letter: 0,
            at: 0,
            fields: [0; 4],
        }
    }

    // A digit more of a field; whether it has one that has room.
    fn digit(&mut self, value: u8) -> bool
        requires { value < 10 }
    {
        let Some(place) = self.at.checked_sub(1) else {
            return false;
        };
        if place >= self.fields.len() || self.fields[place] > ROOM {
            return false;
        }
        self.fields[place] = 10 * self.fields[place] + u64::from(value);
        true
    }

    // A byte that does not end the line; whether it may stand there. Of several letters the last counts.
    fn take(&mut self, byte: u8) -> bool {
        match byte {
            b' ' => self.at = self.at.wrapping_add(1),
            b'0'..=b'9' => return self.digit(byte - b'0'),
            _ => self.letter = byte,
        }
        true
    }

    // A field that is missing is 0, and one too many is passed over.
    fn entry(&self) -> Option<Entry> {
        let [first, second, third, fourth] = self.fields;
        Some(match self.letter {
            b'B' => Entry::Bucket {
                want: double_of(first),
                bucket: second,
            },
            b'C' => Entry::Clear,
            b'A' => Entry::Add {
                dim: first as usize,
                want: double_of(second),
            },
            b'S' => Entry::Set {
                dim: first as usize,
                bucket: second as usize,
                count: u32::try_from(third).ok()?,
                sum: double_of(fourth),
            },
            b'L' => Entry::Level {
                dim: first as usize,
                rate: double_of(second),
                level: third,
            },
            _ => return None,
        })
    }
}

impl Replay {
    fn new() -> Self {
        Self {
            line: Line::blank(),
            number: 1,
            counts: [[0; BUCKETS]; DIMS],
            sums: [[0.0; BUCKETS]; DIMS],
            buckets: 0,
            levels: 0,
            differs: None,
        }
    }

    // Whether the entry could be done, and agrees.
    fn done(&mut self, entry: Entry) -> bool {
        let mut histogram = Histogram {
            counts: &mut self.counts,
            sums: &mut self.sums,
        };
        match entry {
            Entry::Bucket { want, bucket } => {
                let agrees = wants::bucket::bucket_of(want) as u64 == bucket;
                self.buckets = self.buckets.wrapping_add(u64::from(agrees));
                agrees
            }
            Entry::Clear => {
                histogram.clear();
                true
            }
            Entry::Add { dim, want } if dim < DIMS => {
                histogram.add(dim, want);
                true
            }
            Entry::Set {
                dim,
                bucket,
                count,
                sum,
            } if dim < DIMS && bucket < BUCKETS => {
                histogram.counts[dim][bucket] = count;
                histogram.sums[dim][bucket] = sum;
                true
            }
            Entry::Level { dim, rate, level } if dim < DIMS => {
                let agrees = bits_of(histogram.level(dim, rate)) == level;
                self.levels = self.levels.wrapping_add(u64::from(agrees));
                agrees
            }
            _ => false,
        }
    }

    // A line that has no form does not agree, nor one with a byte that may not stand there, even where it has no line end.
    fn take(&mut self, byte: u8) {
        let agrees = if byte == b'\n' {
            self.line.entry().is_some_and(|entry| self.done(entry))
        } else {
            self.line.take(byte)
        };
        if !agrees {
            self.differs = self.differs.or(Some(self.number));
        }
        if byte == b'\n' {
            self.line = Line::blank();
            self.number = self.number.wrapping_add(1);
        }
    }
}

// A loop must end, and nothing says that an input does: so the reads are counted up to a number that no run reaches, as in the other
// programs that read lists.
fn replayed(reader: &mut impl Read) -> io::Result<Replay> {
    let mut replay = Replay::new();
    let mut block = [0; BLOCK];
    for _ in 0..u64::MAX {
        let n = reader.read(&mut block)?;
        if n == 0 {
            break;
        }
        for &byte in &block[..n] {
            replay.take(byte);
        }
    }
    Ok(replay)
}

fn report(rt: &impl Print, replay: &Replay) -> io::Result<()> {
    match replay.differs {
        None => {
            println!(rt; "{} buckets agree", replay.buckets)?;
            println!(rt; "{} levels agree", replay.levels)
        }
        Some(line) => println!(rt; "line {line} differs"),
    }
}

fn main(rt: HostRuntime) -> io::Result<()> {
    report(&rt, &replayed(&mut rt.stdin())?)
}
