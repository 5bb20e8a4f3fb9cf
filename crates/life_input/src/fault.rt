// Why a file has no list of numbers.
ghost use Rattle.std.specs.Prelude.{◌≡◌};
ghost use Rattle.life_input.specs.declared.fault.InputFault.TheVariants.{NoMemory};

use std::alloc::AllocFailed;
use thiserror::Error;

/// Why a file has no list of numbers.
#[derive(Clone, Copy, Debug, PartialEq, Eq, Error)]
pub enum InputFault {
    /// The word that begins at this offset, counted in bytes from 0, is no number that fits 64 bits with
    /// sign, or it is one word too many.
    #[error("offset {offset}: refused")]
    Refused {
        /// The bytes before the word.
        offset: usize,
    },
    /// Memory was wanted and not had.
    #[error("no memory")]
    NoMemory,
}

impl<T: Drop> From<AllocFailed<T>> for InputFault {
    ghost from_gives = { λ _ e. e ≡ NoMemory };

    fn from(_: AllocFailed<T>) -> Self {
        InputFault::NoMemory
    }
}
