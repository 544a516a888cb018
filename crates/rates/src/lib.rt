// New rates for a running relay: the head by value, the lent memory read.
#![tactic(auto)]

ghost use Rattle.std.specs.Prelude.{◌≡◌};
ghost use Rattle.store.specs.Held.{read_rows, read_sizes};
ghost use Rattle.head.specs.Answers as answers;
ghost use Rattle.head.specs.Questions as asked;
ghost use Rattle.head.specs.Bits.{SameButNanBits};
ghost use Rattle.rates.specs.Rates as rates;

use flow::DIMS;
use head::{Flow, Refusal, Shedder};
use store::LentRead;

// What a call of new rates answers, and the head after it. As head's `Starting`: each definition speaks of its own call's answer by
// name.
#[derive(Clone, Copy)]
pub struct Changing {
    pub answer: Result<(), Refusal>,
    pub head: Shedder,
}

// Refilled to the clock at the rates before, and turned to the new ones.
#[tactic(auto, unfolding(crate::specs::Rates::turned))]
fn turned(f: Flow, rate: [u64; DIMS], ceiling: [u64; DIMS], clock: u64) -> Flow
    ensures { result ≡ rates.turned f rate ceiling clock }
{
    let refilled = flow::refilled_all(f.buckets, flow::since(clock, f.at_ms));
    let buckets = flow::turned_all(refilled, rate, ceiling);
    Flow {
        rate,
        ceiling,
        buckets,
        at_ms: clock,
        ..f
    }
}

// New rates and a new ceiling at a stamp. Levels, records, counts and a scan under way stay as they are. A refusal changes nothing.
pub fn set_rates(
    head: Shedder,
    lent: &LentRead<'_>,
    rate: [u64; DIMS],
    ceiling: [u64; DIMS],
    stamp: u64,
) -> Changing
    ensures same_but_nan_bits { SameButNanBits
        (rates.changing result)
        (rates.set_rates head (read_rows lent.now) lent.now.counted.now rate ceiling stamp) }
    ensures answer_value { answers.rates_number result.answer
        ≡ asked.rates_asked head (read_sizes lent.now) lent.now.offsets.now rate stamp }
{
    if let Err(refusal) = head::rates_asked(head, lent.sizes(), lent.offsets, rate, stamp) {
        return Changing {
            answer: Err(refusal),
            head,
        };
    }
    let clock = flow::later(stamp, head.flow.at_ms);
    let flow = turned(head.flow, rate, ceiling, clock);
    Changing {
        answer: Ok(()),
        head: Shedder { flow, ..head },
    }
}
