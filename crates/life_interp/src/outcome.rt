// How a run ends.
use life_store::{FaultKind, TrapKind};
use life_types::Place;

/// How a run ends.
#[derive(Clone, Copy, Debug, PartialEq, Eq)]
pub enum Outcome {
    /// The entry returned: its result, or 0 where it has none.
    Value(i64),
    /// The run was stopped at this place, though it used nothing null or dangling.
    Trap(TrapKind, Place),
    /// It used at this place what it may not use.
    Fault(FaultKind, Place),
    /// It took all its steps.
    OutOfSteps,
    /// The sink failed, and its count of faults rose. It took a front of the run's output.
    WriteFault,
    /// Memory was wanted and not had. The sink took a front of the run's output.
    NoMemory,
}
