//! What a file can have wrong before it is parsed.

ghost use Rattle.std.specs.Prelude.{◌≡◌};
ghost use Rattle.life_lex.specs.declared.fault.LexStop.TheVariants.{NoMemory};

use life_types::Place;
use std::alloc::{AllocError, AllocFailed};
use thiserror::Error;

/// What is wrong where neither a gap nor a token begins.
#[derive(Clone, Copy, Debug, PartialEq, Eq, Error)]
pub enum LexFaultKind {
    /// A byte that begins nothing, and none of the other three.
    #[error("bad byte")]
    BadByte,
    /// A `'` or `"` that begins no token.
    #[error("unclosed text")]
    UnclosedText,
    /// A `/*` without `*/`.
    #[error("unclosed comment")]
    UnclosedComment,
    /// A number past 2^63 - 1; no front of it is a token.
    #[error("number too large")]
    NumberTooLarge,
}

/// The first fault of a file.
#[derive(Clone, Copy, Debug, PartialEq, Eq, Error)]
#[error("{}:{}: {kind}", .place.line, .place.column)]
pub struct LexFault {
    /// What is wrong.
    pub kind: LexFaultKind,
    /// The offset in the source, from 0, of the byte that begins nothing.
    pub offset: usize,
    /// The place of that byte.
    pub place: Place,
}

/// Why there is no list of a file's tokens.
#[derive(Clone, Copy, Debug, PartialEq, Eq, Error)]
pub enum LexStop {
    /// The file has a fault, and this is the first.
    #[error("{0}")]
    Fault(LexFault),
    /// Memory was wanted and not had.
    #[error("no memory")]
    NoMemory,
}

impl From<AllocError> for LexStop {
    ghost from_gives = { λ _ e. e ≡ NoMemory };

    fn from(_: AllocError) -> Self {
        LexStop::NoMemory
    }
}

impl<T: Drop> From<AllocFailed<T>> for LexStop {
    ghost from_gives = { λ _ e. e ≡ NoMemory };

    fn from(_: AllocFailed<T>) -> Self {
        LexStop::NoMemory
    }
}
