// The one refusal that no contract ties to a cause.
ghost use Rattle.std.specs.Prelude.{◌≡◌};
ghost use Rattle.life_types.specs.Memory.{no_memory};

use std::alloc::{AllocError, AllocFailed};
use thiserror::Error;

/// Memory was wanted and not had. It is the one free answer: no contract says when it comes.
#[derive(Clone, Copy, Debug, PartialEq, Eq, Error)]
#[error("no memory")]
pub struct NoMemory;

impl From<AllocError> for NoMemory {
    ghost from_gives = { λ _ e. e ≡ no_memory };

    fn from(_: AllocError) -> Self {
        NoMemory
    }
}

impl<T: Drop> From<AllocFailed<T>> for NoMemory {
    ghost from_gives = { λ _ e. e ≡ no_memory };

    fn from(_: AllocFailed<T>) -> Self {
        NoMemory
    }
}
