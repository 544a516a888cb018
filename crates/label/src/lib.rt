// The label of a unit: the text that names it in a report and in a line of the trial.
#![tactic(auto)]

ghost use Rattle.std.specs.Prelude.{◌≡◌, ◌≤◌, length, take};
ghost use Rattle.io.specs.Counts.{IsPrefixLen};
ghost use Rattle.text.specs.Page.{page, placed, write, writes};
ghost use Rattle.text.specs.Pages.{seen};
ghost use Rattle.text.specs.Order.{less as before};
ghost use Rattle.label.specs.Label.{label, key_label, v4_label, v6_label};
ghost use Rattle.label.specs.Short.{shown};

use sender::{Group, PublicKey, Unit};
use std::marker::Model;
use text::Page;

// The longest label, that of a key.
pub const LABEL_MOST: usize = 68;

// Each of these answers the length of its text in the caller's array, since there is no heap; `Label` has both as one value. They put
// by the functions of text and not by `write!`, whose contract says what is written where it answers Ok, and not that it
// does: a label is written for each unit.
#[tactic(auto, using(crate::proofs::Labels::five_written, text::proofs::Numbers::length_word), unfolding(crate::specs::Label::key_label))]
fn key_text(key: PublicKey, out: &mut [u8; LABEL_MOST]) -> usize
    ensures { page out.new result ≡ write (page out.old 0) (key_label key) }
{
    let mut text = Page::at_front(out);
    text.put(b"key:");
    text.put_word(key.a);
    text.put_word(key.b);
    text.put_word(key.c);
    text.put_word(key.d);
    text.at
}

#[tactic(auto, using(crate::proofs::Labels::five_written, crate::proofs::Labels::decimal_short), unfolding(crate::specs::Label::v4_label))]
fn v4_text(prefix: u16, out: &mut [u8; LABEL_MOST]) -> usize
    ensures { page out.new result ≡ write (page out.old 0) (v4_label prefix) }
{
    let [high, low] = prefix.to_be_bytes();
    let mut text = Page::at_front(out);
    text.put(b"v4:");
    text.put_decimal(u64::from(high));
    text.put(b".");
    text.put_decimal(u64::from(low));
    text.put(b".0.0/16");
    text.at
}

// The fields in front of the zeros that `::` stands for.
#[tactic(auto, unfolding(crate::specs::Short::shown, text::specs::Page::writes))]
fn put_shown(high: u64, low: u64, out: &mut Page<'_>)
    ensures same_reference { out.new.out.ghost_name ≡ out.old.out.ghost_name }
    ensures value { seen out.new ≡ writes (seen out.old) (shown high low) }
{
    if low != 0 {
        out.put_hexadecimal(high);
        out.put(b":");
        out.put_hexadecimal(low);
    } else if high != 0 {
        out.put_hexadecimal(high);
    }
}

#[tactic(auto, using(crate::proofs::Labels::v6_written))]
fn v6_text(prefix: u32, out: &mut [u8; LABEL_MOST]) -> usize
    ensures { page out.new result ≡ write (page out.old 0) (v6_label prefix) }
{
    let mut text = Page::at_front(out);
    text.put(b"v6:");
    put_shown(
        u64::from(prefix >> 16),
        u64::from(prefix % (1 << 16)),
        &mut text,
    );
    text.put(b"::/32");
    text.at
}

fn plain_text(name: &[u8], out: &mut [u8; LABEL_MOST]) -> usize
    ensures { page out.new result ≡ write (page out.old 0) name.now }
{
    let mut text = Page::at_front(out);
    text.put(name);
    text.at
}

#[tactic(auto, unfolding(crate::specs::Label::label))]
fn put_at_front(unit: Unit, out: &mut [u8; LABEL_MOST]) -> usize
    ensures { page out.new result ≡ write (page out.old 0) (label unit) }
{
    match unit {
        Unit::Corroborated(key) => key_text(key, out),
        Unit::Group(Group::V4(prefix)) => v4_text(prefix, out),
        Unit::Group(Group::V6(prefix)) => v6_text(prefix, out),
        Unit::NoAddress => plain_text(b"no-address", out),
        Unit::Overflow => plain_text(b"overflow", out),
    }
}

// The label at the front of out, which has room for each; every byte behind it is as it was. The answer is its length. (The
// array is the caller's, since there is no heap; `Label` is array and length as one value.)
pub fn label_text(unit: Unit, out: &mut [u8; LABEL_MOST]) -> usize
    ensures prefix_len { IsPrefixLen result out.new }
    ensures out_after { take result out.new ≡ label unit }
    ensures result_after { page out.new result ≡ placed (page out.old 0) (label unit) }
{
    put_at_front(unit, out)
}

// A label by value.
#[derive(Drop)]
pub struct Label {
    bytes: [u8; LABEL_MOST],
    len: usize,
}

impl Model for Label {
    ghost use Rattle.std.specs.Prelude.{ℕ, List, take, ◌≤◌};

    ghost Value = { List ℕ };

    ghost view = { λ l. take l.len l.bytes };

    ghost invariant = { λ l. l.len ≤ 68 };
}

impl Label {
    pub fn of(unit: Unit) -> Label
        ensures { result ≡ label unit }
    {
        let mut bytes = [0; LABEL_MOST];
        let len = label_text(unit, &mut bytes);
        Label { bytes, len }
    }

    pub fn as_bytes(&self) -> &[u8]
        ensures { result.now ≡ self.now }
    {
        &self.bytes[..self.len]
    }
}

// Puts the label of unit into out. No label is empty.
pub fn write_label(unit: Unit, out: &mut Page<'_>)
    ensures same_reference { out.new.out.ghost_name ≡ out.old.out.ghost_name }
    ensures value { seen out.new ≡ write (seen out.old) (label unit) }
{
    out.put(Label::of(unit).as_bytes());
}

pub fn label_length(unit: Unit) -> usize
    ensures { result ≡ length (label unit) }
{
    Label::of(unit).as_bytes().len()
}

// Whether the label of a stands before that of b in the order of bytes.
pub fn label_less(a: Unit, b: Unit) -> bool
    ensures { result ≡ before (label a) (label b) }
{
    text::less(Label::of(a).as_bytes(), Label::of(b).as_bytes())
}
