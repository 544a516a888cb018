// Compares the sender's hash and label with outside values: published FNV-1a vectors, and a list of units on standard input.
// A line of the list has seven hexadecimal numbers and a text: the unit's five words, its table, its hash without the lowest
// 11 bits, and its label, which is read back too.
#![tactic(auto)]

use label::{LABEL_MOST, Label};
use sender::{Unit, Words};
use std::io::{self, Read};
use text::Page;

// The numbers in front of a line's label.
const NUMBERS: usize = 7;

// The bytes read at once.
const BLOCK: usize = 4096;

// How many were compared, how many agreed, and the number of the first that did not.
#[derive(Drop)]
struct Tally {
    seen: u64,
    agreed: u64,
    first: Option<u64>,
}

impl Tally {
    fn new() -> Tally {
        Tally {
            seen: 0,
            agreed: 0,
            first: None,
        }
    }

    fn count(&mut self, agrees: bool) {
        self.seen = self.seen.wrapping_add(1);
        if agrees {
            self.agreed = self.agreed.wrapping_add(1);
        } else {
            self.first = self.first.or(Some(self.seen));
        }
    }
}

// The line so far: its numbers, its label, and which of the eight the next byte belongs to. Of the label a byte more is kept than a
// label may have, and no further one: a line may be of any length.
#[derive(Drop)]
struct Line<'a> {
    numbers: [u64; NUMBERS],
    label: Page<'a>,
    at: usize,
}

// The value of a hexadecimal digit in lower case; any other byte counts as 0.
fn digit(byte: u8) -> u64 {
    u64::from(match byte {
        b'0'..=b'9' => byte - b'0',
        b'a'..=b'f' => byte - b'a' + 10,
        _ => 0,
    })
}

impl<'a> Line<'a> {
    fn new(label: &'a mut [u8]) -> Line<'a> {
        Line {
            numbers: [0; NUMBERS],
            label: Page::at_front(label),
            at: 0,
        }
    }

    fn clear(&mut self) {
        self.numbers = [0; NUMBERS];
        self.label.at = 0;
        self.at = 0;
    }

    // A byte that does not end the line. A number is kept modulo 2^64.
    fn take(&mut self, byte: u8) {
        let at = self.at;
        if byte == b' ' {
            if at <= NUMBERS {
                self.at = at + 1;
            }
        } else if at < NUMBERS {
            self.numbers[at] = self.numbers[at].wrapping_mul(16).wrapping_add(digit(byte));
        } else if at == NUMBERS {
            self.label.put(&[byte]);
        }
    }

    // Whether the unit has the table, the hash and the label that the line says, and the label is read as the unit.
    fn agrees(&self) -> bool {
        let [kind, a, b, c, d, table, hash] = self.numbers;
        let unit = Unit::from(Words { kind, a, b, c, d });
        let label = self.label.out.get(..self.label.at).unwrap_or(&[]);
        self.at == NUMBERS
            && sender::table_of(unit) as u64 == table
            && sender::hash_of(unit) >> 11 == hash
            && Label::of(unit).as_bytes() == label
            && label_parse::parse(label) == Some(unit)
    }
}

// The lines of the list; a last one that has no line end is not taken.
fn read_list(reader: &mut impl Read) -> io::Result<Tally> {
    let mut tally = Tally::new();
    let mut label = [0; LABEL_MOST + 1];
    let mut line = Line::new(&mut label);
    let mut block = [0; BLOCK];
    // A loop must end, and nothing says that an input does: so the reads are counted up to a number that no run reaches, as in the
    // other programs that read lists.
    for _ in 0..u64::MAX {
        let n = reader.read(&mut block)?;
        if n == 0 {
            break;
        }
        for &byte in &block[..n] {
            if byte == b'\n' {
                tally.count(line.agrees());
                line.clear();
            } else {
                line.take(byte);
            }
        }
    }
    Ok(tally)
}

const VECTORS: [(&str, u64); 12] = [
    ("", 0xcbf2_9ce4_8422_2325),
    ("a", 0xaf63_dc4c_8601_ec8c),
    ("b", 0xaf63_df4c_8601_f1a5),
    ("c", 0xaf63_de4c_8601_eff2),
    ("d", 0xaf63_d94c_8601_e773),
    ("e", 0xaf63_d84c_8601_e5c0),
    ("f", 0xaf63_db4c_8601_ead9),
    ("fo", 0x0898_5907_b541_d342),
    ("foo", 0xdcb2_7518_fed9_d577),
    ("foob", 0xdd12_0e79_0c25_12af),
    ("fooba", 0xcac1_65af_a2fe_f40a),
    ("foobar", 0x8594_4171_f739_67e8),
];

fn vectors() -> Tally {
    let mut tally = Tally::new();
    for (text, hash) in VECTORS {
        tally.count(fnv::fnv1a(text.as_bytes()) == hash);
    }
    tally
}

fn print(rt: &impl Print, t: &Tally, what: &str) -> io::Result<()> {
    println!(rt; "{} of {} {what} agree", t.agreed, t.seen)?;
    if let Some(first) = t.first {
        println!(rt; "the first that differs is number {first}")?;
    }
    Ok(())
}

fn main(rt: HostRuntime) -> io::Result<()> {
    print(&rt, &vectors(), "vectors")?;
    print(&rt, &read_list(&mut rt.stdin())?, "units")
}
