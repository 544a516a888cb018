// The order of byte strings. It stays a function beside `<`, whose contract speaks of std's order: here it is the definition's.
ghost use Rattle.std.specs.Prelude.{◌≡◌};
ghost use Rattle.text.specs.Order as order;

// Whether a stands before b in the order of bytes.
#[tactic(auto, using(crate::proofs::Orders::less_is))]
pub fn less(a: &[u8], b: &[u8]) -> bool
    ensures { result ≡ order.less a.now b.now }
{
    a < b
}
