// Why a file has no tree.
ghost use Rattle.std.specs.Prelude.{◌≡◌};
ghost use Rattle.life_parse.specs.declared.fault.ParseFault.TheVariants as fault;

use life_lex::LexFault;
use life_tree::LimitFault;
use life_types::{NoMemory, Place};
use std::alloc::{AllocError, AllocFailed};
use thiserror::Error;

/// Why a file has no tree.
#[derive(Clone, Copy, Debug, PartialEq, Eq, Error)]
pub enum ParseFault {
    /// It does not lex: its first fault.
    #[error("{0}")]
    Lex(LexFault),
    /// No program begins with the tokens up to the one with this number, counted from 0, and some
    /// program begins with those before it. The end of the file counts as a token.
    #[error("{}:{}: syntax", .place.line, .place.column)]
    Refused { at: usize, place: Place },
    /// More constructs are open at once than may be, from this token on.
    #[error("{0}")]
    Limit(LimitFault),
    /// Memory was wanted and not had.
    #[error("no memory")]
    NoMemory,
}

impl From<NoMemory> for ParseFault {
    ghost from_gives = { λ _ e. e ≡ fault.NoMemory };

    fn from(_: NoMemory) -> Self {
        ParseFault::NoMemory
    }
}

impl From<AllocError> for ParseFault {
    ghost from_gives = { λ _ e. e ≡ fault.NoMemory };

    fn from(_: AllocError) -> Self {
        ParseFault::NoMemory
    }
}

impl<T: Drop> From<AllocFailed<T>> for ParseFault {
    ghost from_gives = { λ _ e. e ≡ fault.NoMemory };

    fn from(_: AllocFailed<T>) -> Self {
        ParseFault::NoMemory
    }
}
