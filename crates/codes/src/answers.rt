// The number of an answer: the refusal's, 0 where the call was not refused. C reads it, so it is a number and no Result.
ghost use Rattle.std.specs.Prelude.{◌≡◌};
ghost use Rattle.head.specs.Answers as answers;

use head::Refusal;

#[tactic(auto, unfolding(head::specs::Answers::answer_number))]
pub fn answer_number<A: Copy>(answer: Result<A, Refusal>) -> u64
    ensures { result ≡ answers.answer_number answer }
{
    match answer {
        Ok(_) => 0,
        Err(refusal) => refusal.into(),
    }
}
