// Why a tree isn't well formed.
ghost use Rattle.std.specs.Prelude.{◌≡◌};
ghost use Rattle.life_names.specs.declared.fault.IllFault.TheVariants as fault;

use life_types::{NoMemory, Place};
use std::alloc::{AllocError, AllocFailed};
use thiserror::Error;

/// The rules that a tree may break, in the order of their numbers, which begin at 1.
#[derive(Clone, Copy, Debug, PartialEq, Eq, PartialOrd, Ord, Error)]
pub enum IllKind {
    /// A name that isn't visible, or a member that there isn't (ISO/IEC 14882:2017 [basic.lookup]).
    #[error("unknown-name")]
    UnknownName,
    /// A name is declared where it is visible, or a function again in another way.
    #[error("redeclared")]
    Redeclared,
    /// Operands, a value or a construct of a type that doesn't fit there.
    #[error("wrong-type")]
    WrongType,
    /// What is pointed to, referred to or held holds a pointer or a `std::unique_ptr`.
    #[error("not-plain")]
    NotPlain,
    /// An assignment that there isn't, or a copy of what can't be copied.
    #[error("not-assignable")]
    NotAssignable,
    /// The arguments don't initialise the parameters ([expr.call]).
    #[error("wrong-arguments")]
    WrongArguments,
    /// A function with a result whose body runs past its end.
    #[error("missing-return")]
    MissingReturn,
    /// Something `const` would be changed ([dcl.type.cv]).
    #[error("const-broken")]
    ConstBroken,
    /// An attribute of the namespace `life` that isn't one, or stands where it can't.
    #[error("bad-attribute")]
    BadAttribute,
    /// A function that has no body in the file.
    #[error("no-body")]
    NoBody,
    /// A form that the language has and the checker doesn't serve.
    #[error("unsupported")]
    Unsupported,
}

/// Why a tree has no types.
#[derive(Clone, Copy, Debug, PartialEq, Eq, Error)]
pub enum IllFault {
    /// A rule is broken, and where.
    #[error("{}:{}: ill-formed: {kind}", .place.line, .place.column)]
    Ill { kind: IllKind, place: Place },
    /// Memory was wanted and not had.
    #[error("no memory")]
    NoMemory,
}

impl From<NoMemory> for IllFault {
    ghost from_gives = { λ _ e. e ≡ fault.NoMemory };

    fn from(_: NoMemory) -> Self {
        IllFault::NoMemory
    }
}

impl From<AllocError> for IllFault {
    ghost from_gives = { λ _ e. e ≡ fault.NoMemory };

    fn from(_: AllocError) -> Self {
        IllFault::NoMemory
    }
}

impl<T: Drop> From<AllocFailed<T>> for IllFault {
    ghost from_gives = { λ _ e. e ≡ fault.NoMemory };

    fn from(_: AllocFailed<T>) -> Self {
        IllFault::NoMemory
    }
}
