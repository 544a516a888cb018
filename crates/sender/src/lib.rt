// A sender: the unit that a batch is judged under, its hash, rank and table, and its words in memory.
#![tactic(auto)]

ghost use Rattle.std.specs.Prelude.{◌≡◌};
ghost use Rattle.sender.specs.Sender as sender;

pub mod hash;
pub mod memory;
mod named;

// Tables that the tracked units are split into.
pub const TABLES: usize = 64;

pub use hash::{hash_of, rank, rank_of_hash, table_of, table_of_tag, tag_of_hash};
pub use memory::{is_overflow, name_by_hash, name_of};
pub use named::Named;

// 32 bytes, the most significant byte of `a` first and the least significant of `d` last.
#[derive(Clone, Copy, PartialEq, Eq, Debug)]
pub struct PublicKey {
    pub a: u64,
    pub b: u64,
    pub c: u64,
    pub d: u64,
}

// A network group: the first 16 bits of an IPv4 address, or the first 32 of an IPv6 address.
#[derive(Clone, Copy, PartialEq, Eq, Debug)]
pub enum Group {
    V4(u16),
    V6(u32),
}

#[derive(Clone, Copy, PartialEq, Eq, Debug)]
pub enum Unit {
    Corroborated(PublicKey),
    Group(Group),
    NoAddress,
    Overflow,
}

// A unit as words of memory: its kind, and a key's four words or a group's prefix in `a`.
#[repr(C)]
#[derive(Clone, Copy, PartialEq, Eq, Debug)]
pub struct Words {
    pub kind: u64,
    pub a: u64,
    pub b: u64,
    pub c: u64,
    pub d: u64,
}

// What a record keeps of its unit: the tag, which a search reads first, and the words.
#[derive(Clone, Copy, PartialEq, Eq, Debug)]
pub struct Name {
    pub tag: u16,
    pub words: Words,
}

// The group as one number, distinct for each group.
impl From<Group> for u64 {
    ghost from_gives = { λ group n. n ≡ sender.as_u64 group };

    #[tactic(auto, unfolding(crate::specs::Sender::as_u64))]
    fn from(group: Group) -> u64 {
        match group {
            Group::V4(prefix) => (1 << 32) + u64::from(prefix),
            Group::V6(prefix) => (1 << 33) + u64::from(prefix),
        }
    }
}
