// A run that is asked for, with its input.
ghost use Rattle.std.specs.Prelude.{◌≤◌, Some, length, option_map};
ghost use Rattle.life_core.specs.Function.{program_of};
ghost use Rattle.life_input.specs.Input.{numbers_in};
ghost use Rattle.life_store.specs.NoFault.{NoFault};
ghost use Rattle.life_core_served.specs.ProperPrograms.{IsProperProgram};
ghost use Rattle.life_cli.specs.Ends.{Serves, WorksOn};
ghost use Rattle.life_cli.specs.FileText.{most_bytes};
ghost use Rattle.life_cli.specs.InputFile.{numbers_or};
ghost use Rattle.life_cli.specs.Question.{run_asked, OfFiles};
ghost use Rattle.life_cli.specs.Runs.{RanWith};
ghost use Rattle.life_job.specs.Matched.{most_steps};

use crate::Status;
use crate::execute::execute;
use crate::fetch::{Fetched, fetch};
use crate::refusal::{refuse_name, refuse_word, tell};
use crate::stop::{Ending, Stop};
use life_base::{Files, Sink};
use life_core::CoreProgram;
use life_input::{InputFault, read_numbers};
use life_job::{RunJob, RunOptions};
use std::alloc::Global;

/// Runs the program as it is asked for: its input is that of the file, or empty.
pub fn run_job<F: Files, O: Sink>(
    alloc: Global,
    run: RunJob,
    program: &CoreProgram,
    files: &mut F,
    out: &mut O,
) -> Result<Ending, Stop>
    requires proper { IsProperProgram (program_of program.now) }
    requires few { run.options.steps ≤ most_steps }
    ensures { OfFiles (F.held files.old) (λ held. WorksOn (run_asked run.entry.options run.entry.function.now (program_of program.now) (option_map (λ s. s.now) run.entry.input) held)
        (NoFault (program_of program.now) → ⊥) (F.faults files.old) (F.faults files.new)
        (record { taken = O.taken out.old; faults = O.faults out.old })
        (record { taken = O.taken out.new; faults = O.faults out.new }) result) }
{
    match run.input {
        Some(name) => run_on_file(alloc, run.options, run.function, program, name, files, out),
        None => execute(alloc, run.options, run.function, program, &[], out),
    }
}

// Runs the program with the input of the file of this name.
fn run_on_file<F: Files, O: Sink>(
    alloc: Global,
    options: RunOptions,
    function: &str,
    program: &CoreProgram,
    name: &str,
    files: &mut F,
    out: &mut O,
) -> Result<Ending, Stop>
    requires proper { IsProperProgram (program_of program.now) }
    requires few { options.steps ≤ most_steps }
    ensures { OfFiles (F.held files.old) (λ held. WorksOn (run_asked options function.now (program_of program.now) (Some name.now) held)
        (NoFault (program_of program.now) → ⊥) (F.faults files.old) (F.faults files.new)
        (record { taken = O.taken out.old; faults = O.faults out.old })
        (record { taken = O.taken out.new; faults = O.faults out.new }) result) }
{
    match fetch(alloc, name, files) {
        Ok(Fetched::Absent) => refuse_name(alloc, name),
        Ok(Fetched::TooLong) => tell(alloc, Status::Limit, "limit: input"),
        Ok(Fetched::Bytes(bytes)) => run_on_bytes(alloc, options, function, program, &bytes, out),
        Err(stop) => Err(stop),
    }
}

// Runs the program with the numbers that these bytes write.
fn run_on_bytes<O: Sink>(
    alloc: Global,
    options: RunOptions,
    function: &str,
    program: &CoreProgram,
    bytes: &[u8],
    out: &mut O,
) -> Result<Ending, Stop>
    requires proper { IsProperProgram (program_of program.now) }
    requires few { options.steps ≤ most_steps }
    requires short { length bytes.now ≤ most_bytes }
    ensures { Serves (RanWith options function.now (program_of program.now) (numbers_or (numbers_in bytes.now)))
        (record { taken = O.taken out.old; faults = O.faults out.old })
        (record { taken = O.taken out.new; faults = O.faults out.new }) result }
{
    match read_numbers(alloc, bytes) {
        Ok(numbers) => execute(alloc, options, function, program, &numbers, out),
        Err(InputFault::Refused { offset }) => refuse_word(alloc, offset),
        Err(InputFault::NoMemory) => Err(Stop::NoMemory),
    }
}
