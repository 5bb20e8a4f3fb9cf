// Why words ask for no job.
ghost use Rattle.std.specs.Prelude.{◌≡◌};
ghost use Rattle.life_job.specs.declared.fault.Refusal.TheVariants as refusal;

use std::alloc::{AllocError, AllocFailed};
use thiserror::Error;

/// What is wrong with words of which each option has its value.
#[derive(Clone, Copy, Debug, PartialEq, Eq)]
pub enum Wrong {
    /// A word is missing.
    Missing,
    /// There is one word too many.
    Second,
    /// There is no such command.
    Command,
    /// There is no such way to grow.
    Growth,
    /// The steps are no number, or too large.
    Steps,
    /// The cells are no number, or too large.
    Cells,
    /// The depth is no number, or not in its range.
    Depth,
    /// What is to be made has no number of 64 bits.
    Number,
    /// What is to be made has no size of 64 bits.
    Size,
}

/// Why words ask for no job.
#[derive(Debug, Drop, Error)]
pub enum Refusal {
    /// They ask for help.
    #[error("help")]
    Help,
    /// They ask for the version.
    #[error("version")]
    Version,
    /// A word is missing.
    #[error("a word is missing")]
    Missing,
    /// A word is wrong.
    #[error("{line}")]
    Wrong {
        /// A line that names it.
        line: String,
    },
    /// Memory was wanted and not had.
    #[error("no memory")]
    NoMemory,
}

impl From<AllocError> for Refusal {
    ghost from_gives = { λ _ e. e ≡ refusal.NoMemory };

    fn from(_: AllocError) -> Self {
        Refusal::NoMemory
    }
}

impl<T: Drop> From<AllocFailed<T>> for Refusal {
    ghost from_gives = { λ _ e. e ≡ refusal.NoMemory };

    fn from(_: AllocFailed<T>) -> Self {
        Refusal::NoMemory
    }
}
