// Why a part of an instruction has no answer.
use life_store::{FaultKind, TrapKind};

/// Why a part of an instruction has no answer.
#[derive(Clone, Copy)]
pub enum Stop {
    /// The run is stopped there.
    Trap(TrapKind),
    /// What may not be used was used.
    Fault(FaultKind),
    /// No proper program takes such a step.
    Lost,
}
