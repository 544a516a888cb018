// FNV-1a with 64 bits, as RFC 9923 has it.
#![tactic(auto)]

ghost use Rattle.std.specs.Prelude.{◌≡◌, ◌*◌, ◌%◌, ◌^◌};
ghost use Rattle.fnv.specs.Fnv as spec;

pub const OFFSET_BASIS: u64 = 0xcbf2_9ce4_8422_2325;

// 2^40 + 0x1b3
const PRIME: u64 = 0x0000_0100_0000_01b3;

// x times the prime, modulo 2^64.
pub fn times_prime(x: u64) -> u64
    ensures { result ≡ x * spec.prime % 2 ^ 64 }
{
    x.wrapping_mul(PRIME)
}

// The hash after one more byte.
#[tactic(auto, unfolding(crate::specs::Fnv::fed))]
pub fn fed(hash: u64, byte: u64) -> u64
    ensures { result ≡ spec.fed hash byte }
{
    times_prime(hash ^ byte)
}

// The hash after more bytes, the first one first.
#[tactic(auto, using(crate::proofs::Feeding::feed_is_fold))]
fn feed(hash: u64, bytes: &[u8]) -> u64
    ensures { result ≡ spec.feed hash bytes.now }
{
    bytes
        .iter()
        .fold(hash, |hash, byte| fed(hash, u64::from(*byte)))
}

// The hash after the eight bytes of a word, the most significant first.
#[tactic(auto, using(crate::proofs::Feeding::big_endian_is))]
pub fn feed_word(hash: u64, word: u64) -> u64
    ensures { result ≡ spec.feed hash (spec.big_endian 8 word) }
{
    feed(hash, &word.to_be_bytes())
}

// The hash of a string of bytes.
#[tactic(auto, unfolding(crate::specs::Fnv::fnv1a))]
pub fn fnv1a(bytes: &[u8]) -> u64
    ensures { result ≡ spec.fnv1a bytes.now }
{
    feed(OFFSET_BASIS, bytes)
}
