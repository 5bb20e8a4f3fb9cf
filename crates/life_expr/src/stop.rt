// Why a tree could not be read.
ghost use Rattle.std.specs.Prelude.{◌≡◌};
ghost use Rattle.life_expr.specs.declared.stop.Stop.TheVariants.{Memory};

use life_tree::TreeToken;
use life_types::Place;
use std::alloc::{AllocError, AllocFailed};
use thiserror::Error;

/// Reading stopped: memory ran out, or the first of these tokens is refused, or opens too much.
#[derive(Debug, Drop, Error)]
pub enum Stop<'a> {
    #[error("no memory")]
    Memory,
    #[error("a token is refused")]
    Refused(&'a [TreeToken]),
    #[error("too many constructs are open")]
    Deep(&'a [TreeToken]),
}

/// What was read, and the tokens behind it.
pub type Read<'a, T> = Result<(T, &'a [TreeToken]), Stop<'a>>;

/// Parts in their order, and the commas between them.
pub type Separated<T> = (Vec<T>, Vec<Place>);

impl<'a> From<AllocError> for Stop<'a> {
    ghost from_gives = { λ _ e. e ≡ Memory };

    fn from(_e: AllocError) -> Stop<'a> {
        Stop::Memory
    }
}

impl<'a, T: Drop> From<AllocFailed<T>> for Stop<'a> {
    ghost from_gives = { λ _ e. e ≡ Memory };

    fn from(_e: AllocFailed<T>) -> Stop<'a> {
        Stop::Memory
    }
}
