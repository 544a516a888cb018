// A cut made elsewhere: the head by value, the records lent.
#![tactic(auto)]

ghost use Rattle.std.specs.Prelude.{◌≡◌, ◌<◌, ◌≤◌, ◌+◌, length};
ghost use Rattle.parts.specs.Held.{held, SameParts, Sized};
ghost use Rattle.shifting.specs.Offsets.{Whole};
ghost use Rattle.store.specs.Held.{lent_rows, lent_sizes, SameLent};
ghost use Rattle.store.specs.Store.{with_tags};
ghost use Rattle.head.specs.Answers as answers;
ghost use Rattle.head.specs.Questions as asked;
ghost use Rattle.head.specs.Bits.{SameButNanBits};
ghost use Rattle.cut_counts.specs.Counting as counting;
ghost use Rattle.cut.specs.Cutting as cutting;

use flow::DIMS;
use head::{Cause, Flow, Refusal, Shedder};
use parts::Parts;
use sender::{Named, Unit};
use store::Lent;

// What a cut answers, and the head after it. As head's `Starting`: each definition speaks of its own call's answer by name.
#[derive(Clone, Copy)]
pub struct Cutting {
    pub answer: Result<(), Refusal>,
    pub head: Shedder,
}

// A bounded relay hands back a cut for the receiver's ceiling.
#[tactic(auto, unfolding(crate::specs::Cutting::hands_back, store::specs::Causes::index_of))]
fn hands_back(rate: [u64; DIMS], cause: Cause) -> bool
    ensures { result ≡ cutting.hands_back rate cause }
{
    !head::is_unbounded(rate) && matches!(cause, Cause::ReceiverCeiling)
}

// What was admitted, less this cost, down to 0.
#[tactic(auto, unfolding(crate::specs::Cutting::lowered))]
fn lowered(xs: [f64; DIMS], cost: [f64; DIMS]) -> [f64; DIMS]
    ensures { result ≡ cutting.lowered xs cost }
{
    flow::per_dim(|d| ieee::max(xs[d] - cost[d], 0.0))
}

// Tokens go back up to the burst; the clock stays.
fn flowed_back(f: Flow, cost: [f64; DIMS]) -> Flow
    ensures { result ≡ cutting.flowed_back f cost }
{
    let buckets = flow::returned_all(f.buckets, cost);
    let admitted = lowered(f.admitted, cost);
    Flow {
        buckets,
        admitted,
        ..f
    }
}

// All of a batch is handed back.
fn handed_back(head: Shedder, parts: &mut Parts<'_>, named: Named, cost: [f64; DIMS]) -> Shedder
    requires sizes { Sized (held parts.old) }
    requires room { length parts.old.units.now ≡ head.unit_room }
    requires tracked_bound { head.tracked ≤ head.unit_room }
    requires whole { Whole parts.old.offsets.now head.tracked }
    ensures rows_after { cutting.kept_by result (held parts.new)
        ≡ cutting.handed_back (cutting.kept_by head (held parts.old)) named.unit cost }
    ensures counted_value { result.counted ≡ head.counted }
    ensures unit_room_value { result.unit_room ≡ head.unit_room }
    ensures slices { SameParts parts.old parts.new }
{
    let p = store_entry::entry(parts, head.tracked, named, head.flow.at_ms);
    let used = store_entry::used_at(parts, head.overflow, p.at);
    let next = used.handed_back(cost);
    let overflow = store_entry::put_back(parts, head.overflow, p.at, next);
    let flow = flowed_back(head.flow, cost);
    Shedder {
        flow,
        overflow,
        tracked: p.tracked,
        ..head
    }
}

// The cut is counted, and is then done.
fn noted(
    head: Shedder,
    lent: &mut Lent<'_>,
    named: Named,
    cause: Cause,
    cost: [u64; DIMS],
) -> Cutting
    requires counted_in_bounds { head.unit_room + head.counted < length lent.old.tags.now }
    requires counted_in_bounds_2 { head.counted < length lent.old.counted.now }
    ensures counted_after { cutting.noting result lent.new.tags.now lent.new.counted.now
        ≡ cutting.noted (counting.tally head lent.old.tags.now lent.old.counted.now) named.name cause cost }
    ensures rows_after { lent_rows lent.new ≡ with_tags (lent_rows lent.old) lent.new.tags.now }
    ensures answer_value { answers.cut_number result.answer ≡ 0 }
    ensures slices { SameLent lent.old lent.new }
{
    let t = cut_counts::tallied(head, lent, named, cause, cost[0]);
    Cutting {
        answer: Ok(()),
        head: t,
    }
}

// A cut made elsewhere, counted with the rest; for the receiver's ceiling all of the batch is given back. A refusal changes nothing.
pub fn cut(
    head: Shedder,
    lent: &mut Lent<'_>,
    unit: Unit,
    cause: Cause,
    cost: [u64; DIMS],
) -> Cutting
    ensures same_but_nan_bits { SameButNanBits
        (cutting.cutting result (lent_rows lent.new) lent.new.counted.now)
        (cutting.cut head (lent_rows lent.old) lent.old.counted.now unit cause cost) }
    ensures answer_value { answers.cut_number result.answer
        ≡ asked.cut_asked head (lent_sizes lent.old) lent.old.offsets.now cost }
    ensures slices { SameLent lent.old lent.new }
{
    if let Err(refusal) = head::cut_asked(head, lent.sizes(), lent.offsets, cost) {
        return Cutting {
            answer: Err(refusal),
            head,
        };
    }
    let named = Named::of(unit);
    if hands_back(head.flow.rate, cause) {
        // Made here: a method of `Lent` could not promise what the rows hold once they come back.
        let mut parts = Parts {
            tags: &mut *lent.tags,
            slots: &mut *lent.slots,
            offsets: &mut *lent.offsets,
            free: &mut *lent.free,
            units: &mut *lent.units,
            uses: &mut *lent.uses,
        };
        let h = handed_back(head, &mut parts, named, flow::numbers(cost));
        return noted(h, lent, named, cause, cost);
    }
    noted(head, lent, named, cause, cost)
}
