// A call that only reads: the number of its refusal, and what it leaves in the report's buffer.
ghost use Rattle.std.specs.Prelude.{◌≡◌};
ghost use Rattle.wants.specs.Wants.{Hist};
ghost use Rattle.fair.specs.Calls as calls;
ghost use Rattle.fair_row.specs.Replay as replay;

use crate::Reading;
use codes::answer_number;
use head::Shedder;
use store::LentRead;
use text::Page;

// The longest buffer that is written through `report`: the trial's.
const PAGE: usize = 4096;

// A report into out; the answer is the number of its refusal. A buffer that `report` is lent goes into its result, and has no
// value after it: so it gets one of its own, as long as out, and its part is put into out. A longer buffer than PAGE is
// written by the call that `report` makes itself.
fn put_report(head: Shedder, lent: &LentRead<'_>, out: &mut [u8]) -> u64
    ensures value { (g : Hist) → result ≡ calls.report_number
        (replay.held_read g head lent.now)
        out.old }
    ensures out_after { (g : Hist) → out.new ≡ replay.report_page
        (replay.held_read g head lent.now)
        out.old }
{
    let room = out.len();
    if room <= PAGE {
        let refusal = report::report_refusal(head, lent, out);
        let mut own = [0u8; PAGE];
        let part = report::report(head, lent, &mut own[..room]);
        let mut page = Page::at_front(out);
        page.put(part);
        return answer_number(refusal);
    }
    answer_number(report::write_report(head, lent, out))
}

// A report into out, the call beside it, or a reading of the head.
#[tactic(auto, unfolding(crate::specs::Replay::reading_of))]
pub fn answer_reading(head: Shedder, lent: &LentRead<'_>, reading: Reading, out: &mut [u8]) -> u64
    ensures value { (g : Hist) → result ≡ calls.read_number
        (replay.held_read g head lent.now)
        (replay.reading_of reading out.old) }
    ensures out_after { (g : Hist) → out.new ≡ replay.read_page
        (replay.held_read g head lent.now)
        (replay.reading_of reading out.old) out.old }
{
    let offsets = lent.offsets;
    match reading {
        Reading::Report => put_report(head, lent, out),
        Reading::ReportBeside => answer_number(report::report_refusal(head, lent, out)),
        Reading::Count(cause) => answer_number(head_readings::cut_batches(head, offsets, cause)),
        Reading::Visited => answer_number(head_readings::visited(head, offsets)),
        Reading::Level(dim) => answer_number(head_readings::level(head, offsets, dim)),
        Reading::Rate(dim) => answer_number(head_readings::rate(head, offsets, dim)),
        Reading::IsBounded => answer_number(head_readings::is_bounded(head, offsets)),
    }
}
