// Why steps come to no next state.
ghost use Rattle.std.specs.Prelude.{◌≡◌};
ghost use Rattle.life_changes.specs.Failures.{unborn};

use life_pointers::Stop;
use life_store::{BirthFault, TrapKind};

/// Why a step came to no next state.
#[derive(Clone, Copy)]
pub enum Failure {
    /// The run is stopped there, or no proper program takes such a step.
    Stopped(Stop),
    /// Memory was wanted and not had.
    NoMemory,
}

/// Why nothing came to life.
pub(crate) fn unborn(fault: BirthFault) -> Failure
    ensures { result ≡ unborn fault }
{
    match fault {
        BirthFault::Cells => Failure::Stopped(Stop::Trap(TrapKind::Cells)),
        BirthFault::NoMemory => Failure::NoMemory,
    }
}
