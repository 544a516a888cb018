// A cause and a dimension by number, in their order. Any number may come from C, and none is refused: so no `TryFrom`.
ghost use Rattle.std.specs.Prelude.{◌≡◌};
ghost use Rattle.codes.specs.Numbers as numbers;

use flow::Dim;
use head::Cause;

#[tactic(auto, unfolding(crate::specs::Numbers::cause_of))]
pub fn cause_of(n: u64) -> Cause
    ensures { result ≡ numbers.cause_of n }
{
    match n {
        0 => Cause::ReceiverCeiling,
        1 => Cause::OverShare,
        _ => Cause::RelayRate,
    }
}

// No call of `flow::dim_at`, which takes a place: a cast would be no plainer than the match.
#[tactic(auto, unfolding(crate::specs::Numbers::dim_of, flow::specs::Flow::dim_at))]
pub fn dim_of(n: u64) -> Dim
    ensures { result ≡ numbers.dim_of n }
{
    match n {
        0 => Dim::Receptions,
        _ => Dim::Bytes,
    }
}
