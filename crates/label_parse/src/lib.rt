// A label read back: the unit whose label a text is.
#![tactic(auto)]

ghost use Rattle.std.specs.Prelude.{◌≡◌, ◌+◌, ◌≤◌, ◌<◌, ◌^◌, MatchOption, get_or};
ghost use Rattle.label_parse.specs.Parse as parsing;

use label::Label;
use sender::{Group, PublicKey, Unit};

// A number read from a text, and the place behind it.
#[derive(Clone, Copy)]
pub struct Field {
    pub value: u64,
    pub at: usize,
}

// The value of a digit of the base. std's `char::to_digit` takes capital letters too, which no label has.
#[tactic(auto, unfolding(crate::specs::Parse::digit))]
fn digit(x: u8, base: u64) -> Option<u64>
    requires { base ≤ 16 }
    ensures { MatchOption result (base ≤ parsing.digit x) (λ d. (d ≡ parsing.digit x) × (d < base)) }
{
    let value = match x {
        b'0'..=b'9' => x - b'0',
        b'a'..=b'f' => x - b'a' + 10,
        _ => return None,
    };
    let d = u64::from(value);
    (d < base).then_some(d)
}

// The byte at a place, 0 behind the end.
fn byte_at(s: &[u8], at: usize) -> u8
    ensures { result ≡ get_or s.now at 0 }
{
    s.get(at).copied().unwrap_or(0)
}

// The number that at most `most` digits make.
fn field_at(s: &[u8], start: usize, base: u64, most: usize) -> Field
    requires base_nonzero { 0 < base }
    requires base_bound { base ≤ 16 }
    requires most_bound { base ^ most ≤ 2 ^ 64 }
    requires most_bound_2 { start + most < 2 ^ 64 }
    ensures value { result ≡ parsing.field base most s.now (parsing.from start) }
    ensures at_bound { (result.at ≤ start + most) × (result.value < base ^ most) }
{
    let end = start + most;
    let mut value = 0;
    for at in start..end {
        let Some(d) = digit(byte_at(s, at), base) else {
            return Field { value, at };
        };
        value = value * base + d;
    }
    Field { value, at: end }
}

#[tactic(auto, unfolding(crate::specs::Parse::word_at))]
fn word_at(s: &[u8], at: usize) -> u64
    requires { at < 256 }
    ensures { result ≡ parsing.word_at s.now at }
{
    field_at(s, at, 16, 16).value
}

#[tactic(auto, unfolding(crate::specs::Parse::key_of))]
fn key_of(s: &[u8]) -> PublicKey
    ensures { result ≡ parsing.key_of s.now }
{
    PublicKey {
        a: word_at(s, 4),
        b: word_at(s, 20),
        c: word_at(s, 36),
        d: word_at(s, 52),
    }
}

// The two fields behind `v4:` or `v6:`, with one byte between them.
#[tactic(auto, using(crate::proofs::Fields::second_is), unfolding(crate::specs::Parse::first_of))]
fn pair_of(s: &[u8], base: u64, most: usize) -> (u64, u64)
    requires base_nonzero { 0 < base }
    requires base_bound { base ≤ 16 }
    requires most_bound { base ^ most ≤ 2 ^ 64 }
    requires most_bound_2 { most < 256 }
    ensures first { result.0 ≡ (parsing.first_of base most s.now).value }
    ensures second { result.1 ≡ (parsing.second-of base most s.now).value }
    ensures first_bound { result.0 < base ^ most }
    ensures second_bound { result.1 < base ^ most }
{
    let first = field_at(s, 3, base, most);
    let second = field_at(s, first.at + 1, base, most);
    (first.value, second.value)
}

#[tactic(auto, unfolding(crate::specs::Parse::v4_of))]
fn v4_of(s: &[u8]) -> u16
    ensures { result ≡ parsing.v4_of s.now }
{
    let (first, second) = pair_of(s, 10, 3);
    (first % 256 * 256 + second % 256) as u16
}

#[tactic(auto, unfolding(crate::specs::Parse::v6_of))]
fn v6_of(s: &[u8]) -> u32
    ensures { result ≡ parsing.v6_of s.now }
{
    let (first, second) = pair_of(s, 16, 4);
    (first * 65536 + second) as u32
}

// The unit as the fields of s read; where s is a label, the unit whose label it is.
#[tactic(auto, unfolding(crate::specs::Parse::unit_in))]
pub fn unit_in(s: &[u8]) -> Unit
    ensures { result ≡ parsing.unit_in s.now }
{
    match s {
        [b'k', ..] => Unit::Corroborated(key_of(s)),
        [b'v', b'4', ..] => Unit::Group(Group::V4(v4_of(s))),
        [b'v', ..] => Unit::Group(Group::V6(v6_of(s))),
        [b'n', ..] => Unit::NoAddress,
        _ => Unit::Overflow,
    }
}

// The unit whose label s is.
#[tactic(auto, using(crate::proofs::Parsing::found, crate::proofs::Parsing::exact_of))]
pub fn parse(s: &[u8]) -> Option<Unit>
    ensures value { result ≡ parsing.parse s.now }
    ensures exact { parsing.Exact s.now result }
{
    let unit = unit_in(s);
    (Label::of(unit).as_bytes() == s).then_some(unit)
}
