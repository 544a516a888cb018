// A unit as words of memory, and the name that a record keeps.
ghost use Rattle.std.specs.Prelude.{◌≡◌};
ghost use Rattle.sender.specs.Sender as sender;

use super::hash::{hash_of, tag_of_hash};
use super::{Group, Name, PublicKey, Unit, Words};

// The words of a kind that has one number; no `From`, since the kind is given too.
fn number(kind: u64, a: u64) -> Words
    ensures { result ≡ sender.number kind a }
{
    Words {
        kind,
        a,
        b: 0,
        c: 0,
        d: 0,
    }
}

impl From<Unit> for Words {
    ghost from_gives = { λ unit words. words ≡ sender.words_of unit };

    #[tactic(auto, unfolding(crate::specs::Sender::words_of))]
    fn from(unit: Unit) -> Words {
        match unit {
            Unit::Corroborated(PublicKey { a, b, c, d }) => Words {
                kind: 0,
                a,
                b,
                c,
                d,
            },
            Unit::Group(Group::V4(prefix)) => number(1, u64::from(prefix)),
            Unit::Group(Group::V6(prefix)) => number(2, u64::from(prefix)),
            Unit::NoAddress => number(3, 0),
            Unit::Overflow => number(4, 0),
        }
    }
}

// Any other kind, and a number too large for its group, is overflow. The kinds are numbers, since any word may stand in lent memory.
impl From<Words> for Unit {
    ghost from_gives = { λ words unit. unit ≡ sender.unit_of words };

    #[tactic(auto, unfolding(crate::specs::Sender::unit_of))]
    fn from(words: Words) -> Unit {
        let Words { kind, a, b, c, d } = words;
        match kind {
            0 => Unit::Corroborated(PublicKey { a, b, c, d }),
            1 => u16::try_from(a).map_or(Unit::Overflow, |prefix| Unit::Group(Group::V4(prefix))),
            2 => u32::try_from(a).map_or(Unit::Overflow, |prefix| Unit::Group(Group::V6(prefix))),
            3 => Unit::NoAddress,
            _ => Unit::Overflow,
        }
    }
}

// That a group's number fits it is known by its type, where the group is matched. No code.
#[tactic(auto, unfolding(crate::specs::Sender::Ranged))]
pub fn in_range(unit: Unit)
    ensures { sender.Ranged unit }
{
    match unit {
        Unit::Group(Group::V4(_) | Group::V6(_)) => (),
        Unit::Corroborated(_) | Unit::NoAddress | Unit::Overflow => (),
    }
}

// The name of a unit whose hash is known.
#[tactic(auto, unfolding(crate::specs::Sender::name_by_hash))]
pub fn name_by_hash(unit: Unit, hash: u64) -> Name
    ensures { result ≡ sender.name_by_hash unit hash }
{
    Name {
        tag: tag_of_hash(hash),
        words: Words::from(unit),
    }
}

pub fn name_of(unit: Unit) -> Name
    ensures { result ≡ sender.name_of unit }
{
    name_by_hash(unit, hash_of(unit))
}

// What a record reads as: the unit whose record has exactly this tag and these words, else overflow.
impl From<Name> for Unit {
    ghost from_gives = { λ name unit. unit ≡ sender.reads name };

    #[tactic(auto, unfolding(crate::specs::Sender::reads, crate::specs::Sender::same_name, crate::specs::Sender::same))]
    fn from(name: Name) -> Unit {
        let unit = Unit::from(name.words);
        if name_of(unit) == name {
            unit
        } else {
            Unit::Overflow
        }
    }
}

// The word of a definition, in one place.
#[tactic(auto, unfolding(crate::specs::Sender::is_overflow))]
pub fn is_overflow(unit: Unit) -> bool
    ensures { result ≡ sender.is_overflow unit }
{
    matches!(unit, Unit::Overflow)
}
