// Text in a lent buffer: bytes and numbers put at a place, and the order of byte strings (their equality is std's `==`; specs/Order has both).
#![tactic(auto)]

mod order;
mod page;

ghost use Rattle.std.specs.Prelude.{◌≡◌, length};
ghost use Rattle.text.specs.Number as number;

pub use order::less;
pub use page::Page;

// How many bytes Page::put_decimal writes.
#[tactic(auto, using(crate::proofs::Numbers::fewest_decimal))]
pub fn decimal_length(n: u64) -> usize
    ensures { result ≡ length (number.decimal n) }
{
    let mut digits = [0u8; 20];
    io::decimal(n, &mut digits)
}
