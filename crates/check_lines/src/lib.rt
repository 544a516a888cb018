// The lines of the lists that the programs check_sender, check_wants and check_replay are given.
#![tactic(auto)]

ghost use Rattle.std.specs.Prelude.{◌≡◌, IfOk, IfSome, OnOk, MatchOption, ◌++◌, ◌∷◌, [], false};
ghost use Rattle.std.specs.Io.BufRead.{take_through, ends_with_byte, DropsThrough};

use std::io::{self, BufRead};

// The bytes in front of a line end, where the last is one.
fn without_end(bytes: &[u8]) -> Option<&[u8]>
    ensures { MatchOption result (ends_with_byte 10 bytes.now ≡ false) (λ line. bytes.now ≡ line.now ++ 10 ∷ []) }
{
    bytes.strip_suffix(b"\n")
}

// The next line that has a line end, without it, read over what `kept` holds; None where no line end follows.
pub fn whole_line<'a, R: BufRead>(
    reader: &mut R,
    kept: &'a mut Vec<u8>,
) -> io::Result<Option<&'a [u8]>>
    ensures first { IfOk result (λ line. IfSome (R.remaining reader.old) (λ xs. MatchOption line
        (ends_with_byte 10 (take_through 10 xs) ≡ false)
        (λ s. take_through 10 xs ≡ s.now ++ 10 ∷ []))) }
    ensures rest { OnOk result (DropsThrough (R.remaining reader.old) (R.remaining reader.new) 10) }
{
    kept.clear();
    reader.read_until(b'\n', kept)?;
    Ok(without_end(kept.as_slice()))
}
