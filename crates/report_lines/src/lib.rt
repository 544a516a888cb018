// The lines of a report, put one after the other into a buffer that has room for any of them.
#![tactic(auto)]

ghost use Rattle.std.specs.Prelude.{◌≡◌, ◌<◌, ◌≤◌, length, take};
ghost use Rattle.io.specs.Counts.{IsPrefixLen};
ghost use Rattle.text.specs.Page.{page, placed, writes, joined};
ghost use Rattle.store.specs.Causes.{index_of};
ghost use Rattle.report_ranking.specs.Sources as ranking;
ghost use Rattle.report_lines.specs.Lines as lines;
ghost use Rattle.text.specs.Pages.{seen};

use cut_sources::SourcesRead;
use flow::DIMS;
use head::Shedder;
use label::LABEL_MOST;
use report_ranking::{SOURCES_REPORTED, first_after};
use store::{CAUSES, Cause, SourceRow};
use text::Page;

// A number behind a space has at most 21 bytes.
const NUMBER_MOST: usize = 21;
// A text has at most so many bytes: the lines `rate` and `ceiling`, `active`, the causes, the sources; a word, its
// numbers and a line feed each.
pub const TEXT_MOST: usize = 2 * (8 + DIMS * NUMBER_MOST)
    + (7 + NUMBER_MOST)
    + (17 + 11 + 11 + 2 * CAUSES * NUMBER_MOST)
    + SOURCES_REPORTED * (7 + LABEL_MOST + CAUSES * NUMBER_MOST + 1);

// The rest of a line: each number behind a space, and the line feed.
#[tactic(auto, using(crate::proofs::Writing::numbers_next, crate::proofs::Writing::numbers_end))]
fn put_numbers(out: &mut Page<'_>, xs: &[u64])
    ensures same_reference { out.new.out.ghost_name ≡ out.old.out.ghost_name }
    ensures value { seen out.new ≡ writes (seen out.old) (lines.numbers xs.now) }
{
    for x in xs {
        out.put(b" ");
        out.put_decimal(*x);
    }
    out.put(b"\n");
}

#[tactic(auto, unfolding(crate::specs::Lines::line, text::specs::Page::writes))]
fn put_line(out: &mut Page<'_>, word: &[u8], xs: &[u64])
    ensures same_reference { out.new.out.ghost_name ≡ out.old.out.ghost_name }
    ensures value { seen out.new ≡ writes (seen out.old) (lines.line word.now xs.now) }
{
    out.put(word);
    put_numbers(out, xs);
}

// A flag beside the numbers, as in the head: an unbounded relay has numbers too, of which none is printed.
#[tactic(auto, unfolding(crate::specs::Lines::rates_line, text::specs::Page::writes))]
fn put_rates(out: &mut Page<'_>, word: &[u8], unbounded: bool, xs: &[u64])
    ensures same_reference { out.new.out.ghost_name ≡ out.old.out.ghost_name }
    ensures value { seen out.new ≡ writes (seen out.old) (lines.rates_line word.now unbounded xs.now) }
{
    if unbounded {
        out.put(word);
        out.put(b" ");
        out.put(b"none");
        out.put(b"\n");
    } else {
        put_line(out, word, xs);
    }
}

#[tactic(auto, unfolding(crate::specs::Lines::cause_line))]
fn put_cause(out: &mut Page<'_>, word: &[u8], head: Shedder, cause: Cause)
    ensures same_reference { out.new.out.ghost_name ≡ out.old.out.ghost_name }
    ensures value { seen out.new ≡ writes (seen out.old) (lines.cause_line word.now (index_of cause) head) }
{
    let i = usize::from(cause);
    put_line(out, word, &[head.batches[i], head.receptions[i]]);
}

// A line for each cause, as the definition has them: a loop would need a table of the three words, which stand nowhere else.
#[tactic(auto, using(crate::proofs::Writing::head_put, crate::proofs::Lengths::head_short), unfolding(store::specs::Causes::index_of))]
fn put_head(out: &mut Page<'_>, head: Shedder)
    ensures same_reference { out.new.out.ghost_name ≡ out.old.out.ghost_name }
    ensures value { seen out.new ≡ writes (seen out.old) (lines.head_lines head) }
    ensures head_len_bound { length (joined (lines.head_lines head)) ≤ lines.head_most }
{
    let unbounded = head::is_unbounded(head.flow.rate);
    put_rates(out, b"rate", unbounded, &head.flow.rate);
    put_rates(out, b"ceiling", unbounded, &head.flow.ceiling);
    put_line(out, b"active", &[head.tracked as u64]);
    put_cause(out, b"receiver-ceiling", head, Cause::ReceiverCeiling);
    put_cause(out, b"over-share", head, Cause::OverShare);
    put_cause(out, b"relay-rate", head, Cause::RelayRate);
}

#[tactic(auto, using(crate::proofs::Writing::source_put))]
fn put_source(out: &mut Page<'_>, sources: &SourcesRead<'_>, i: usize)
    requires i_in_bounds { i < length sources.now.tags.now }
    requires i_in_bounds_2 { i < length sources.now.counted.now }
    ensures same_reference { out.new.out.ghost_name ≡ out.old.out.ghost_name }
    ensures value { seen out.new ≡ writes (seen out.old) (lines.source_line sources.now.tags.now sources.now.counted.now i) }
{
    let counts = cut_sources::counts_at(sources.counted, i);
    out.put(b"source");
    out.put(b" ");
    label::write_label(sources.unit_at(i), out);
    put_numbers(out, &counts);
}

// The sources named, of the first n: each the first of those after the one before.
#[tactic(auto, using(crate::proofs::Writing::sources_next, crate::proofs::Writing::sources_none, crate::proofs::Writing::sources_end))]
fn put_sources(out: &mut Page<'_>, sources: &SourcesRead<'_>, n: usize)
    requires n_in_bounds { n ≤ length sources.now.tags.now }
    requires n_in_bounds_2 { n ≤ length sources.now.counted.now }
    ensures same_reference { out.new.out.ghost_name ≡ out.old.out.ghost_name }
    ensures value { seen out.new ≡ writes (seen out.old) (lines.source_lines sources.now.tags.now sources.now.counted.now (ranking.reported sources.now.tags.now sources.now.counted.now n)) }
{
    let mut last = None;
    // So many turns: each source is found from the one before.
    for _ in 0..SOURCES_REPORTED {
        let Some(next) = first_after(sources, n, last) else {
            return;
        };
        put_source(out, sources, next);
        last = Some(next);
    }
}

// The whole text at the front of own, an array of the caller's, since there is no heap; every byte behind it is as it was. The answer
// is its length. The slices are parameters: of a part of a slice that is put into a `SourcesRead` in one function the check loses the
// value.
pub fn write_text(
    head: Shedder,
    tags: &[u16],
    counted: &[SourceRow],
    own: &mut [u8; TEXT_MOST],
) -> usize
    requires counted_in_bounds { head.counted ≤ length tags.now }
    requires counted_in_bounds_2 { head.counted ≤ length counted.now }
    ensures prefix_len { IsPrefixLen result own.new }
    ensures own_after { take result own.new ≡ lines.text head tags.now counted.now }
    ensures result_after { page own.new result ≡ placed (page own.old 0) (lines.text head tags.now counted.now) }
{
    let mut out = Page::at_front(own);
    put_head(&mut out, head);
    put_sources(&mut out, &SourcesRead { tags, counted }, head.counted);
    out.at
}
