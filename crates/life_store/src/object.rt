// References to objects, and what is asked of them.
ghost use Rattle.std.specs.Prelude.{◌≡◌};
ghost use Rattle.life_store.specs.declared.object.BirthFault.TheVariants as birth_fault;

use life_types::{NoMemory, TyId};
use thiserror::Error;

/// A reference to an object of a store: the row in which the object lies while it lives, and the
/// number of its birth, which no other object ever has.
#[derive(Clone, Copy, Debug, PartialEq, Eq)]
pub struct ObjRef {
    pub row: u32,
    pub birth: u64,
}

/// The shape of an object. Its slots are numbered from 0 to below `length`; `capacity` is the most
/// that it can have.
#[derive(Clone, Copy, Debug, PartialEq, Eq)]
pub struct Shape {
    pub ty: TyId,
    pub length: u32,
    pub capacity: u32,
}

/// The object doesn't live.
#[derive(Clone, Copy, Debug, PartialEq, Eq, Error)]
#[error("the object has ended")]
pub struct Dead;

/// Why no object was born.
#[derive(Clone, Copy, Debug, PartialEq, Eq, Error)]
pub enum BirthFault {
    /// The live words would pass the limit.
    #[error("the live words would pass their limit")]
    Cells,
    /// Memory was wanted and not had.
    #[error("no memory")]
    NoMemory,
}

impl From<NoMemory> for BirthFault {
    ghost from_gives = { λ _ fault. fault ≡ birth_fault.NoMemory };

    fn from(_: NoMemory) -> Self {
        BirthFault::NoMemory
    }
}
