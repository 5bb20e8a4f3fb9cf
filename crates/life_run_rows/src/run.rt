// Runs, and how they end.
ghost use Rattle.std.specs.Prelude.{◌≤◌, ◌<◌, IfSome, Some, length, slice_get};
ghost use Rattle.life_core.specs.Function.{program_of};
ghost use Rattle.life_core_served.specs.ProperPrograms.{IsProperProgram};
ghost use Rattle.life_store.specs.Meaning.{IsAdmitted};

use crate::ask::Asked;
use crate::entry::is_admitted;
use life_base::MemSink;
use life_core::{CoreProgram, FnId};
use life_interp::{FaultKind, Limits, MOST_STEPS, Machine, Outcome, TrapKind};
use life_row_text::Refusal;
use life_types::{NoMemory, Place};
use std::alloc::Global;

// The most that a run may write.
const MOST_OUTPUT: usize = 1000;

/// How the run ends, with what it writes.
pub fn ended(alloc: Global, program: &CoreProgram, asked: &Asked) -> Result<String, Refusal>
    requires { IsProperProgram (program_of program.now) }
{
    if asked.steps > MOST_STEPS {
        return Err(Refusal::PastLimit);
    }
    match program.functions.get(asked.entry as usize) {
        None => Err(Refusal::NoName),
        Some(f) => {
            if is_admitted(program, f, &asked.input) {
                run(alloc, program, asked)
            } else {
                Ok(String::from_str(alloc, "no entry")?)
            }
        }
    }
}

fn run(alloc: Global, program: &CoreProgram, asked: &Asked) -> Result<String, Refusal>
    requires proper { IsProperProgram (program_of program.now) }
    requires there { asked.now.entry < length (program_of program.now).functions }
    requires steps { asked.now.steps ≤ MOST_STEPS }
    requires admitted { IfSome (slice_get (program_of program.now).functions asked.now.entry) (λ f. IsAdmitted (program_of program.now) f asked.now.input.items) }
{
    let mut out = MemSink::new(alloc, MOST_OUTPUT, MOST_OUTPUT, Vec::new(alloc))?;
    let limits = Limits {
        cells: asked.cells,
        depth: asked.depth,
    };
    let mut machine = Machine::prepare(alloc, program, limits)?;
    let outcome = machine.run(
        FnId(asked.entry),
        &asked.input,
        asked.growth,
        asked.steps,
        &mut out,
    );
    told(alloc, outcome, out.held())
}

// ---- as it is told

fn told(alloc: Global, outcome: Outcome, output: &[u8]) -> Result<String, Refusal> {
    let mut text = outcome_text(alloc, outcome)?;
    if !output.is_empty() {
        text.push_str(" writes ")?;
        match std::str::from_utf8(output) {
            Ok(written) => text.push_str(written)?,
            Err(_) => text.push_str("no text")?,
        }
    }
    Ok(text)
}

fn outcome_text(alloc: Global, outcome: Outcome) -> Result<String, NoMemory> {
    match outcome {
        Outcome::Value(value) => Ok(format!(in alloc; "value {value}")?),
        Outcome::Trap(kind, place) => stopped(alloc, "trap", trap_name(kind), place),
        Outcome::Fault(kind, place) => stopped(alloc, "fault", fault_name(kind), place),
        Outcome::OutOfSteps => Ok(String::from_str(alloc, "out of steps")?),
        Outcome::WriteFault => Ok(String::from_str(alloc, "write fault")?),
        Outcome::NoMemory => Err(NoMemory),
    }
}

fn stopped(alloc: Global, what: &str, name: &str, place: Place) -> Result<String, NoMemory> {
    let line = place.line;
    let column = place.column;
    Ok(format!(in alloc; "{what} {name} at {line}:{column}")?)
}

fn trap_name(kind: TrapKind) -> &'static str {
    match kind {
        TrapKind::Bounds => "bounds",
        TrapKind::Overflow => "overflow",
        TrapKind::ZeroDivisor => "zero-divisor",
        TrapKind::Assert => "assert",
        TrapKind::InputEnd => "input-end",
        TrapKind::Cells => "cells",
        TrapKind::Depth => "depth",
        TrapKind::ForeignIterator => "foreign-iterator",
    }
}

fn fault_name(kind: FaultKind) -> &'static str {
    match kind {
        FaultKind::Null => "null",
        FaultKind::Dangling => "dangling",
        FaultKind::Moved => "moved",
    }
}
