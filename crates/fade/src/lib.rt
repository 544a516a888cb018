// The fade: exp(-d / WINDOW_MS) after d milliseconds, as the rounded product of two entries, one of each table. From the end of the tables on it is 0.
#![tactic(auto)]

ghost use Rattle.std.specs.Prelude.{◌≡◌, ◌<◌, length, slice_index};
ghost use Rattle.std.specs.Float.{NotNanBits, binary64};
ghost use Rattle.std.specs.Float.Ieee.{of_bits};
ghost use Rattle.fade.specs.Fade as spec;

mod tables;

// The span of stamps that a rate is measured over: a sum fades to 1 / e in it.
pub const WINDOW_MS: u64 = 2000;

// Entry p of a table.
fn entry(table: &[u64], p: u64) -> f64
    requires inside { p < length table.now }
    requires number { NotNanBits binary64 (slice_index table.now p) }
    ensures { result ≡ of_bits binary64 (slice_index table.now p) }
{
    f64::from_bits(table[p as usize])
}

// Entry r of A: the double nearest exp(-r / WINDOW_MS).
fn short(r: u64) -> f64
    requires { r < spec.WINDOW_MS }
    ensures { result ≡ spec.nearest r spec.WINDOW_MS }
{
    entry(&tables::A, r)
}

// Entry q of B: the double nearest exp(-q).
fn far(q: u64) -> f64
    requires { q < spec.long }
    ensures { result ≡ spec.nearest q 1 }
{
    entry(&tables::B, q)
}

pub fn fade(d: u64) -> f64
    ensures { result ≡ spec.fade d }
{
    if d < tables::END {
        short(d % WINDOW_MS) * far(d / WINDOW_MS)
    } else {
        0.0
    }
}
