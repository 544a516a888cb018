// The bucket of a want.
ghost use Rattle.std.specs.Prelude.{◌≡◌, ◌^◌, ◌<◌, ◌≤◌};
ghost use Rattle.wants.specs.Bucket as bucket;

// Buckets to an octave of wants, and octaves, from a want of 1 on.
const BUCKETS_PER_OCTAVE: usize = 16;

const OCTAVES: usize = 48;

// Buckets of the histogram, for each dimension.
pub const BUCKETS: usize = BUCKETS_PER_OCTAVE * OCTAVES;

// The last bucket, to which every larger want goes too.
const LAST: usize = BUCKETS - 1;

// 2^52: the weight of a double's exponent in its bit pattern, and of the leading digit in its significand.
const LEADING: u64 = 1 << 52;

// 2^48: of sixteen even steps of the significand through its octave, the size of one.
const EVEN: u64 = 1 << 48;

// For j = 0 to 15 the least double w from 1 on with w^16 ≥ 2^j, as its significand w × 2^52: 1, and the digits of its bit
// pattern. For 16 and 17 it is 2^53, which no significand reaches.
static LEAST: [u64; 18] = [
    0x10000000000000,
    0x10b5586cf98910,
    0x1172b83c7d517b,
    0x12387a6e756239,
    0x1306fe0a31b716,
    0x13dea64c123423,
    0x14bfdad5362a28,
    0x15ab07dd48542a,
    0x16a09e667f3bcd,
    0x17a11473eb0187,
    0x18ace5422aa0dc,
    0x19c49182a3f091,
    0x1ae89f995ad3ae,
    0x1c199bdd85529d,
    0x1d5818dcfba488,
    0x1ea4afa2a490da,
    0x20000000000000,
    0x20000000000000,
];

// One function reads for both comparisons, so that what an entry means is proved once.
fn least(j: u64) -> u64
    requires { j < 18 }
    ensures { bucket.Threshold j result }
{
    LEAST[j as usize]
}

// The part of its octave that a significand s stands in, of sixteen: the largest j with 2^j ≤ (s / 2^52)^16. It is m, m + 1
// or m + 2, with m the sixteenth by even steps, so two comparisons tell it, and no jump depends on s.
fn sixteenth(s: u64) -> usize
    requires { (2 ^ 52 ≤ s) × (s < 2 ^ 53) }
    ensures { bucket.Sixteenth s result }
{
    let m = (s - LEADING) / EVEN;
    // Each comparison is added as a number, so the compiler makes no jump of it.
    (m + u64::from(least(m + 1) <= s) + u64::from(least(m + 2) <= s)) as usize
}

// The want, or 1 where it is not above 1 or not-a-number. The compiler makes a maximum of it, with no jump.
#[tactic(auto, unfolding(crate::specs::Bucket::at_least_one))]
fn at_least_one(want: f64) -> f64
    ensures { result ≡ bucket.at_least_one want }
{
    if 1.0 < want { want } else { 1.0 }
}

// The bucket of a want, by its exponent and its significand. It takes no logarithm, whose last bits Rust leaves open.
pub fn bucket_of(want: f64) -> usize
    ensures value { result ≡ bucket.bucket_of want }
    ensures upper_bound { result < bucket.«BUCKETS» }
{
    let bits = f64::to_bits(at_least_one(want));
    let octave = (bits / LEADING - 1023) as usize;
    if octave < OCTAVES {
        return BUCKETS_PER_OCTAVE * octave + sixteenth(LEADING + bits % LEADING);
    }
    LAST
}
