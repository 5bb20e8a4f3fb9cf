// Why a typed program has no core program.
ghost use Rattle.std.specs.Prelude.{◌≡◌};
ghost use Rattle.life_elab.specs.declared.fault.ElabFault.TheVariants as fault;

use life_tree::LimitFault;
use life_types::NoMemory;
use std::alloc::{AllocError, AllocFailed};
use thiserror::Error;

/// Why a typed program has no core program.
#[derive(Clone, Copy, Debug, PartialEq, Eq, Error)]
pub enum ElabFault {
    /// It passes a limit: the first one that it passes.
    #[error("{0}")]
    Limit(LimitFault),
    /// Memory was wanted and not had.
    #[error("no memory")]
    NoMemory,
}

impl From<NoMemory> for ElabFault {
    ghost from_gives = { λ _ e. e ≡ fault.NoMemory };

    fn from(_: NoMemory) -> Self {
        ElabFault::NoMemory
    }
}

impl From<AllocError> for ElabFault {
    ghost from_gives = { λ _ e. e ≡ fault.NoMemory };

    fn from(_: AllocError) -> Self {
        ElabFault::NoMemory
    }
}

impl<T: Drop> From<AllocFailed<T>> for ElabFault {
    ghost from_gives = { λ _ e. e ≡ fault.NoMemory };

    fn from(_: AllocFailed<T>) -> Self {
        ElabFault::NoMemory
    }
}
