// A line as it is read, byte by byte.
ghost use Rattle.std.specs.Prelude.{◌≡◌, take};

use crate::LINE_MOST;

// One byte more of a line than a line may have is kept: enough to refuse it.
pub const LINE: usize = LINE_MOST + 1;

// The byte that ends a line.
pub const FEED: u8 = b'\n';

// The first n bytes of s; all of s where it has fewer.
pub fn front(s: &[u8], n: usize) -> &[u8]
    ensures { result.now ≡ take n s.now }
{
    s.get(..n).unwrap_or(s)
}
