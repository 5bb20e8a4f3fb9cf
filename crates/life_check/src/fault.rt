// Why a text has no program that is checked.
ghost use Rattle.std.specs.Prelude.{◌≡◌};
ghost use Rattle.life_check.specs.Faults.{limit_fault, tree_fault, type_fault};
ghost use Rattle.life_check.specs.declared.fault.CheckFault.TheVariants as fault;

use life_elab::ElabFault;
use life_lex::LexFault;
use life_parse::ParseFault;
use life_tree::LimitFault;
use life_types::{NoMemory, Place};
use life_typing::{IllFault, IllKind};
use thiserror::Error;

/// Why a text has no program that is checked.
#[derive(Clone, Copy, Debug, PartialEq, Eq, Error)]
pub enum CheckFault {
    /// It does not lex: its first fault (ISO/IEC 14882:2017 [lex]).
    #[error("{0}")]
    Lex(LexFault),
    /// The first token at which no program goes on.
    #[error("{}:{}: syntax", .place.line, .place.column)]
    Syntax {
        /// Its number, counted from 0. The end of the file counts as a token.
        at: usize,
        /// Where it stands.
        place: Place,
    },
    /// The first rule of names and types that is broken.
    #[error("{}:{}: ill-formed: {kind}", .place.line, .place.column)]
    Ill {
        /// The rule.
        kind: IllKind,
        /// Where it is broken.
        place: Place,
    },
    /// The first limit that is passed.
    #[error("{0}")]
    Limit(LimitFault),
    /// Memory was wanted and not had. It says nothing of the text.
    #[error("no memory")]
    NoMemory,
}

impl From<ParseFault> for CheckFault {
    ghost from_gives = { λ reason gives. gives ≡ tree_fault reason };

    fn from(reason: ParseFault) -> Self {
        match reason {
            ParseFault::Lex(fault) => CheckFault::Lex(fault),
            ParseFault::Refused { at, place } => CheckFault::Syntax { at, place },
            ParseFault::Limit(fault) => CheckFault::Limit(fault),
            ParseFault::NoMemory => CheckFault::NoMemory,
        }
    }
}

impl From<IllFault> for CheckFault {
    ghost from_gives = { λ reason gives. gives ≡ type_fault reason };

    fn from(reason: IllFault) -> Self {
        match reason {
            IllFault::Ill { kind, place } => CheckFault::Ill { kind, place },
            IllFault::NoMemory => CheckFault::NoMemory,
        }
    }
}

impl From<ElabFault> for CheckFault {
    ghost from_gives = { λ reason gives. gives ≡ limit_fault reason };

    fn from(reason: ElabFault) -> Self {
        match reason {
            ElabFault::Limit(fault) => CheckFault::Limit(fault),
            ElabFault::NoMemory => CheckFault::NoMemory,
        }
    }
}

impl From<NoMemory> for CheckFault {
    ghost from_gives = { λ _ gives. gives ≡ fault.NoMemory };

    fn from(_: NoMemory) -> Self {
        CheckFault::NoMemory
    }
}
