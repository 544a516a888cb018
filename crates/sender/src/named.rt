// A unit, its hash made once, and the name that a record keeps of it.
ghost use Rattle.std.specs.Prelude.{◌≡◌};
ghost use Rattle.sender.specs.Sender as sender;

use super::hash::hash_of;
use super::memory::{in_range, name_by_hash};
use super::{Name, Unit};

#[derive(Clone, Copy)]
pub struct Named {
    pub unit: Unit,
    pub hash: u64,
    pub name: Name,
    pub ghost hash_is: { hash ≡ sender.hash_of unit },
    pub ghost name_is: { name ≡ sender.name_of unit },
    pub ghost read_is: { sender.reads name ≡ unit },
}

impl Named {
    #[tactic(auto, using(crate::proofs::Reading::read_own))]
    pub fn of(unit: Unit) -> Named
        ensures { result.unit ≡ unit }
    {
        let hash = hash_of(unit);
        in_range(unit);
        Named {
            unit,
            hash,
            name: name_by_hash(unit, hash),
        }
    }
}
