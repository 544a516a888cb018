// The readings of a head, each through question 3, which asks of the offsets too: the tables visited, the batches cut for a cause, a level, a rate, whether the relay is bounded.
#![tactic(auto)]

ghost use Rattle.std.specs.Prelude.{◌≡◌};
ghost use Rattle.head.specs.Questions as asked;
ghost use Rattle.head.specs.Answers as answers;
ghost use Rattle.head.specs.Readings as readings;
ghost use Rattle.head.specs.Bits.{SameButNanBits};

use flow::Dim;
use head::{Cause, Refusal, Shedder, is_unbounded, read_asked};
use store::OFFSETS;

// They share their first line, and stay five functions: each reads another part of the head, by its own definition.

// Tables that all scans have visited.
#[tactic(auto, using(head::proofs::Reading::read_refused, head::proofs::Reading::read_answered), unfolding(head::specs::Readings::visited, head::specs::Answers::answer_number))]
pub fn visited(head: Shedder, offsets: &[u32; OFFSETS]) -> Result<u64, Refusal>
    ensures value { result ≡ readings.visited head offsets.now }
    ensures result_value { answers.reading_number result ≡ asked.read_asked head offsets.now }
{
    read_asked(head, offsets)?;
    Ok(head.visits)
}

// Batches cut for a cause so far.
#[tactic(auto, using(head::proofs::Reading::read_refused, head::proofs::Reading::read_answered), unfolding(head::specs::Readings::cut_batches, head::specs::Answers::answer_number))]
pub fn cut_batches(head: Shedder, offsets: &[u32; OFFSETS], cause: Cause) -> Result<u64, Refusal>
    ensures value { result ≡ readings.cut_batches head offsets.now cause }
    ensures result_value { answers.reading_number result ≡ asked.read_asked head offsets.now }
{
    read_asked(head, offsets)?;
    Ok(head.batches[usize::from(cause)])
}

// The level of a dimension, as the last scan left it.
#[tactic(auto, using(head::proofs::Reading::read_refused, head::proofs::Reading::read_answered), unfolding(head::specs::Readings::level_read, head::specs::Answers::answer_number))]
pub fn level(head: Shedder, offsets: &[u32; OFFSETS], dim: Dim) -> Result<f64, Refusal>
    ensures same_but_nan_bits { SameButNanBits result (readings.level_read head offsets.now dim) }
    ensures result_value { answers.level_number result ≡ asked.read_asked head offsets.now }
{
    read_asked(head, offsets)?;
    Ok(head.level[usize::from(dim)])
}

// The rate of a dimension, given at the start; none for an unbounded relay.
#[tactic(auto, using(head::proofs::Reading::read_refused, head::proofs::Reading::read_answered), unfolding(head::specs::Readings::rate_read, head::specs::Answers::answer_number))]
pub fn rate(head: Shedder, offsets: &[u32; OFFSETS], dim: Dim) -> Result<Option<u64>, Refusal>
    ensures value { result ≡ readings.rate_read head offsets.now dim }
    ensures result_value { answers.rate_number result ≡ asked.read_asked head offsets.now }
{
    read_asked(head, offsets)?;
    if is_unbounded(head.flow.rate) {
        return Ok(None);
    }
    Ok(Some(head.flow.rate[usize::from(dim)]))
}

// Whether the relay sheds for its rate at all.
#[tactic(auto, using(head::proofs::Reading::read_refused, head::proofs::Reading::read_answered), unfolding(head::specs::Readings::is_bounded, head::specs::Answers::answer_number))]
pub fn is_bounded(head: Shedder, offsets: &[u32; OFFSETS]) -> Result<bool, Refusal>
    ensures value { result ≡ readings.is_bounded head offsets.now }
    ensures result_value { answers.bounded_number result ≡ asked.read_asked head offsets.now }
{
    read_asked(head, offsets)?;
    Ok(!is_unbounded(head.flow.rate))
}
