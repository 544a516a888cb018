// The hash of a unit, and what follows from it: its rank and its table.
ghost use Rattle.std.specs.Prelude.{◌≡◌, ◌<◌};
ghost use Rattle.sender.specs.Sender as sender;

use super::{PublicKey, Unit};
use fnv::{OFFSET_BASIS, fed, feed_word};

// 2^53: the steps of the rank, what a double tells apart below 1.
const RANK_STEPS: f64 = (1u64 << 53) as f64;

// A table is the six highest bits of a hash of 64.
const TABLE_SHIFT: u32 = 58;

// A tag has the table in its six highest bits, and the ten lowest bits of the hash.
const TAG_LOWS: u64 = 1 << 10;

#[tactic(auto, using(crate::proofs::Feeding::hash_key, crate::proofs::Feeding::feed_key))]
fn hash_of_key(key: PublicKey) -> u64
    ensures { result ≡ sender.hash_of (Unit.Corroborated key) }
{
    let kind = fed(OFFSET_BASIS, 0);
    let a = feed_word(kind, key.a);
    let b = feed_word(a, key.b);
    let c = feed_word(b, key.c);
    feed_word(c, key.d)
}

#[tactic(auto, using(crate::proofs::Feeding::hash_group, crate::proofs::Feeding::hash_none, crate::proofs::Feeding::hash_overflow))]
pub fn hash_of(unit: Unit) -> u64
    ensures { result ≡ sender.hash_of unit }
{
    match unit {
        Unit::Corroborated(key) => hash_of_key(key),
        Unit::Group(group) => feed_word(fed(OFFSET_BASIS, 1), u64::from(group)),
        Unit::NoAddress => fed(OFFSET_BASIS, 2),
        Unit::Overflow => fed(OFFSET_BASIS, 3),
    }
}

// The hash has 2^11 values for each step of the rank.
#[tactic(auto, unfolding(crate::specs::Sender::rank_of_hash))]
pub fn rank_of_hash(hash: u64) -> f64
    ensures { result ≡ sender.rank_of_hash hash }
{
    (hash >> 11) as f64 / RANK_STEPS
}

#[tactic(auto, using(crate::proofs::Ranking::table_is))]
pub fn table_of_hash(hash: u64) -> usize
    ensures { (result ≡ sender.table_of_hash hash) × (result < sender.«TABLES») }
{
    (hash >> TABLE_SHIFT) as usize
}

// What a record keeps of the hash.
#[tactic(auto, using(crate::proofs::Ranking::table_is), unfolding(crate::specs::Sender::tag_of_hash))]
pub fn tag_of_hash(hash: u64) -> u16
    ensures { result ≡ sender.tag_of_hash hash }
{
    (TAG_LOWS * (hash >> TABLE_SHIFT) + hash % TAG_LOWS) as u16
}

#[tactic(auto, unfolding(crate::specs::Sender::table_of_tag))]
pub fn table_of_tag(tag: u16) -> usize
    ensures { (result ≡ sender.table_of_tag tag) × (result < sender.«TABLES») }
{
    usize::from(tag >> 10)
}

pub fn rank(unit: Unit) -> f64
    ensures { result ≡ sender.rank unit }
{
    rank_of_hash(hash_of(unit))
}

pub fn table_of(unit: Unit) -> usize
    ensures { (result ≡ sender.table_of unit) × (result < sender.«TABLES») }
{
    table_of_hash(hash_of(unit))
}
