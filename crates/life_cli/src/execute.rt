// The run of a program.
ghost use Rattle.std.specs.Prelude.{◌≡◌, ◌≤◌, ◌<◌, ◌++◌, IfSome, codes, length, slice_get};
ghost use Rattle.life_types.specs.Places.{position_text};
ghost use Rattle.life_core.specs.Function.{program_of};
ghost use Rattle.life_store.specs.Meaning.{IsAdmitted};
ghost use Rattle.life_core_served.specs.ProperPrograms.{IsProperProgram};
ghost use Rattle.life_cli.specs.Ends.{Serves, Tells};
ghost use Rattle.life_cli.specs.Entry.{entry_of};
ghost use Rattle.life_cli.specs.Runs.{fault_name, growth_of, trap_name, Ran, RanFrom};
ghost use Rattle.life_cli.specs.Told.{TellsRun};
ghost use Rattle.life_job.specs.Matched.{most_steps};

use crate::Status;
use crate::entry::{Entry, find_entry};
use crate::refusal::{refuse_entry, tell};
use crate::stop::{Ending, Stop};
use life_base::Sink;
use life_core::{CoreProgram, FnId};
use life_interp::{FaultKind, Growth, Limits, Machine, Outcome, TrapKind};
use life_job::{Growth as AskedGrowth, RunOptions};
use life_types::Place;
use std::alloc::Global;

/// Runs the program from the function of this name, with this input: what it writes goes to out, and
/// how it ended is told on err.
#[tactic(auto, using(crate::proofs::Machines::few_serve, crate::proofs::Machines::enough_serve, crate::proofs::Machines::is_within, crate::proofs::Machines::begins_admitted))]
pub fn execute<O: Sink>(
    alloc: Global,
    options: RunOptions,
    function: &str,
    program: &CoreProgram,
    input: &[i64],
    out: &mut O,
) -> Result<Ending, Stop>
    requires proper { IsProperProgram (program_of program.now) }
    requires few { options.steps ≤ most_steps }
    ensures { Serves (RanFrom options function.now (program_of program.now) input.now (entry_of (program_of program.now) function.now))
        (record { taken = O.taken out.old; faults = O.faults out.old })
        (record { taken = O.taken out.new; faults = O.faults out.new }) result }
{
    match find_entry(program, function) {
        Entry::Absent => refuse_entry(alloc, function, "absent"),
        Entry::NotValue => refuse_entry(alloc, function, "not a value"),
        Entry::Begins { number, parameters } => {
            if input.len() < parameters as usize {
                return tell(alloc, Status::Input, "input: too few numbers");
            }
            run_from(alloc, options, program, number, input, out)
        }
    }
}

// Runs the program from the function with this number.
fn run_from<O: Sink>(
    alloc: Global,
    options: RunOptions,
    program: &CoreProgram,
    number: FnId,
    input: &[i64],
    out: &mut O,
) -> Result<Ending, Stop>
    requires proper { IsProperProgram (program_of program.now) }
    requires few { options.steps ≤ most_steps }
    requires there { number.0 < length (program_of program.now).functions }
    requires admitted { IfSome (slice_get (program_of program.now).functions number.0) (λ f. IsAdmitted (program_of program.now) f input.now) }
    ensures { IfSome (slice_get (program_of program.now).functions number.0) (λ f.
        Serves (Ran options (program_of program.now) number.0 f input.now)
        (record { taken = O.taken out.old; faults = O.faults out.old })
        (record { taken = O.taken out.new; faults = O.faults out.new }) result) }
{
    let limits = Limits {
        cells: options.cells,
        depth: options.depth,
    };
    let growth = growth_of(options.growth);
    let mut machine = Machine::prepare(alloc, program, limits)?;
    let outcome = machine.run(number, input, growth, options.steps, out);
    tell_outcome(alloc, outcome, options.steps)
}

// The growth that is asked for, as the machine has it.
fn growth_of(growth: AskedGrowth) -> Growth
    ensures { result ≡ growth_of growth }
{
    match growth {
        AskedGrowth::Always => Growth::Always,
        AskedGrowth::Double => Growth::Double,
    }
}

// How the run ended.
fn tell_outcome(alloc: Global, outcome: Outcome, steps: u64) -> Result<Ending, Stop>
    ensures { TellsRun steps outcome result }
{
    match outcome {
        Outcome::Value(value) => {
            let text = format!(in alloc; "value {value}")?;
            tell(alloc, Status::Done, text.as_str())
        }
        Outcome::Trap(kind, place) => tell_stop(
            alloc,
            Status::Trap,
            "trap",
            trap_name(kind),
            place,
        ),
        Outcome::Fault(kind, place) => tell_stop(
            alloc,
            Status::Fault,
            "fault",
            fault_name(kind),
            place,
        ),
        Outcome::OutOfSteps => {
            let text = format!(in alloc; "steps {steps}")?;
            tell(alloc, Status::Steps, text.as_str())
        }
        Outcome::WriteFault => Err(Stop::WriteFault),
        Outcome::NoMemory => Err(Stop::NoMemory),
    }
}

// That the run was stopped, why and where.
fn tell_stop(
    alloc: Global,
    status: Status,
    what: &str,
    name: &str,
    place: Place,
) -> Result<Ending, Stop>
    ensures { Tells status (what.now ++ codes " " ++ name.now ++ codes " at " ++ position_text place) result }
{
    let line = place.line;
    let column = place.column;
    let text = format!(in alloc; "{what} {name} at {line}:{column}")?;
    tell(alloc, status, text.as_str())
}

fn trap_name(kind: TrapKind) -> &'static str
    ensures { result.now ≡ trap_name kind }
{
    match kind {
        TrapKind::Bounds => "bounds",
        TrapKind::Overflow => "overflow",
        TrapKind::ZeroDivisor => "zero-divisor",
        TrapKind::Assert => "assert",
        TrapKind::InputEnd => "input-end",
        TrapKind::Cells => "cells",
        TrapKind::Depth => "depth",
        TrapKind::ForeignIterator => "foreign-iterator",
    }
}

fn fault_name(kind: FaultKind) -> &'static str
    ensures { result.now ≡ fault_name kind }
{
    match kind {
        FaultKind::Null => "null",
        FaultKind::Dangling => "dangling",
        FaultKind::Moved => "moved",
    }
}
