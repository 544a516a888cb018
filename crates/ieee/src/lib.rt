// Rust's `min`, `max` and `clamp` of doubles. `specs/` and `proofs/` have the laws of binary64 arithmetic that crates above cite.
// They are functions of their own: std's `min` and `max` leave open which of -0 and +0 they give, and its `clamp` asks that low be at most high.
#![tactic(auto)]

ghost use Rattle.std.specs.Prelude.{◌≡◌};
ghost use Rattle.ieee.specs.Extremes.{least, most, clamped};

// The smaller: of two equal values the first, of a not-a-number the other.
pub fn min(x: f64, y: f64) -> f64
    ensures { result ≡ least x y }
{
    if x.is_nan() || y < x { y } else { x }
}

// The larger: of two equal values the first, of a not-a-number the other.
pub fn max(x: f64, y: f64) -> f64
    ensures { result ≡ most x y }
{
    if x.is_nan() || x < y { y } else { x }
}

// x raised to `low`, then lowered to `high`. A not-a-number stays one.
pub fn clamp(x: f64, low: f64, high: f64) -> f64
    ensures { result ≡ clamped x low high }
{
    let raised = if x < low { low } else { x };
    if high < raised { high } else { raised }
}
