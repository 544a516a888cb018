// The report: the Shedder's counts as text in a lent buffer.
#![tactic(auto)]

ghost use Rattle.std.specs.Prelude.{◌≡◌, ◌≤◌, length, take, drop};
ghost use Rattle.io.specs.Counts.{IsPrefixLen};
ghost use Rattle.store.specs.Held.{read_rows};
ghost use Rattle.head.specs.Answers as answers;
ghost use Rattle.report.specs.Report as reports;

use head::{Refusal, Shedder};
use report_lines::{TEXT_MOST, write_text};
use store::LentRead;
use text::Page;

// The bytes written.
fn bytes(answer: Result<usize, Refusal>) -> usize
    ensures { result ≡ reports.bytes answer }
{
    answer.unwrap_or(0)
}

// The tags of the counted sources: those behind the unit records'.
fn source_tags(tags: &[u16], room: usize) -> &[u16]
    requires { room ≤ length tags.now }
    ensures { result.now ≡ drop room tags.now }
{
    &tags[room..]
}

// The questions in their order. The text is composed in `own`, so that it is known whether it fits the room before
// anything is written to the caller's buffer.
fn composed(
    head: Shedder,
    lent: &LentRead<'_>,
    room: usize,
    own: &mut [u8; TEXT_MOST],
) -> Result<usize, Refusal>
    ensures value { result ≡ reports.answer head (read_rows lent.now) lent.now.counted.now room }
    ensures prefix_len { IsPrefixLen (reports.bytes result) own.new }
    ensures own_after { take (reports.bytes result) own.new ≡ reports.front head (read_rows lent.now) lent.now.counted.now room }
{
    head::read_asked(head, lent.offsets)?;
    if !head::memory_whole(head, lent.sizes()) {
        return Err(Refusal::Memory);
    }
    let tags = source_tags(lent.tags, head.unit_room);
    let n = write_text(head, tags, lent.counted, own);
    if room < n {
        return Err(Refusal::Buffer);
    }
    Ok(n)
}

// Writes the report to the front of out. A refused one writes nothing.
pub fn write_report(head: Shedder, lent: &LentRead<'_>, out: &mut [u8]) -> Result<usize, Refusal>
    ensures out_after { reports.ends result out.new
        ≡ reports.report head (read_rows lent.now) lent.now.counted.now out.old }
    ensures result_value { answers.written_number result
        ≡ reports.report_asked head (read_rows lent.now) lent.now.counted.now (length out.old) }
{
    let mut own = [0u8; TEXT_MOST];
    let w = composed(head, lent, out.len(), &mut own);
    let n = bytes(w);
    let mut page = Page::at_front(out);
    page.put(&own[..n]);
    w
}

// The report as the written front part of out; that part is empty where the report is refused. What stands behind it is
// promised by write_report.
pub fn report<'a>(head: Shedder, lent: &LentRead<'_>, out: &'a mut [u8]) -> &'a mut [u8]
    ensures { result.now ≡ reports.front head (read_rows lent.now) lent.now.counted.now (length out.old) }
{
    let w = write_report(head, lent, &mut out[..]);
    let n = bytes(w);
    &mut out[..n]
}

// The refusal of a report into out, if it would not be written.
pub fn report_refusal(head: Shedder, lent: &LentRead<'_>, out: &[u8]) -> Result<(), Refusal>
    ensures { answers.answer_number result ≡ reports.report_asked head (read_rows lent.now) lent.now.counted.now (length out.now) }
{
    let mut own = [0u8; TEXT_MOST];
    composed(head, lent, out.len(), &mut own)?;
    Ok(())
}
