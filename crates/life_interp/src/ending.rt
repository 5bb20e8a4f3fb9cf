// Why a step doesn't come to a next state.
ghost use Rattle.std.specs.Prelude.{◌≡◌};
ghost use Rattle.life_interp.specs.Walking.{halt_of};

use life_store::{FaultKind, TrapKind};
use life_types::Place;

/// Why the machine stops at a point.
#[derive(Clone, Copy, Debug)]
pub(crate) enum Ending {
    Trap(TrapKind),
    Fault(FaultKind),
    /// A step that no proper program takes.
    Stray,
    /// Memory was wanted and not had.
    NoMemory,
    /// The sink failed.
    WriteFault,
}

/// Why the machine stops.
#[derive(Clone, Copy, Debug)]
pub(crate) enum Halt {
    /// The entry returned: the value that is told of its result.
    Returned(i64),
    Trap(TrapKind, Place),
    Fault(FaultKind, Place),
    /// No step is left.
    OutOfSteps,
    /// A step that no proper program takes.
    Stray,
    /// The sink failed.
    WriteFault,
    /// Memory was wanted and not had.
    NoMemory,
}

/// Why the machine stops at this place.
pub(crate) fn halt_at(ending: Ending, place: Place) -> Halt
    ensures { result ≡ halt_of place ending }
{
    match ending {
        Ending::Trap(kind) => Halt::Trap(kind, place),
        Ending::Fault(kind) => Halt::Fault(kind, place),
        Ending::Stray => Halt::Stray,
        Ending::NoMemory => Halt::NoMemory,
        Ending::WriteFault => Halt::WriteFault,
    }
}
