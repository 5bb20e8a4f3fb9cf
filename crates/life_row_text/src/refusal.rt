// Why a line is refused.
use life_types::NoMemory;
use std::alloc::{AllocError, AllocFailed};

/// Why a line is refused.
#[derive(Clone, Copy)]
pub enum Refusal {
    /// There is no memory for what it says.
    NoMemory,
    /// No form of a line begins and goes on so.
    NoForm,
    /// A word should be a number, a place `LINE:COLUMN` or points `FROM-TO`.
    NoNumber,
    /// No local, function or parameter has this name.
    NoName,
    /// No type is written so.
    NoType,
    /// A block is ended, gone on with or left open where it isn't so.
    NoBlock,
    /// A condition is wanted and isn't there, or is there and isn't wanted.
    NoCondition,
    /// The line belongs to a row, a function or a struct, and none has begun.
    NotBegun,
    /// Parameters come first, then the result, then the other locals.
    Misplaced,
    /// The function passes a limit.
    PastLimit,
}

impl From<NoMemory> for Refusal {
    fn from(_: NoMemory) -> Self {
        Refusal::NoMemory
    }
}

impl From<AllocError> for Refusal {
    fn from(_: AllocError) -> Self {
        Refusal::NoMemory
    }
}

impl<T: Drop> From<AllocFailed<T>> for Refusal {
    fn from(_: AllocFailed<T>) -> Self {
        Refusal::NoMemory
    }
}

impl Refusal {
    /// As it is printed.
    pub fn text(self) -> &'static str {
        match self {
            Refusal::NoMemory => "no memory",
            Refusal::NoForm => "no such line",
            Refusal::NoNumber => "not a number",
            Refusal::NoName => "no such name",
            Refusal::NoType => "no such type",
            Refusal::NoBlock => "no such block",
            Refusal::NoCondition => "conditions and blocks don't match",
            Refusal::NotBegun => "nothing has begun that this belongs to",
            Refusal::Misplaced => "parameters, the result, other locals: in this order",
            Refusal::PastLimit => "past a limit",
        }
    }
}
