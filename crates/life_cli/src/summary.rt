// How the run of a file that was made goes.
ghost use Rattle.std.specs.Prelude.{◌≡◌, ◌++◌, IfOk, codes, decimal};
ghost use Rattle.life_core.specs.Function.{program_of};
ghost use Rattle.life_core_served.specs.ProperPrograms.{IsProperProgram};
ghost use Rattle.life_cli.specs.Answer.{answer_in};
ghost use Rattle.life_cli.specs.Ends.{Serves};
ghost use Rattle.life_cli.specs.Made.{default_options, IsHeard, SumsUp};

use crate::execute::execute;
use crate::reply::{Reply, hand_out};
use crate::stop::{Ending, Stop};
use crate::unheard::Unheard;
use life_base::Sink;
use life_core::CoreProgram;
use life_job::{Growth, RunOptions};
use life_types::NoMemory;
use std::alloc::Global;

/// Runs the program from `main`, without input, and writes three lines: of how many bytes and functions it
/// is, and how the run ended. What the run itself writes is not passed on.
pub fn sum_up<O: Sink>(
    alloc: Global,
    bytes: usize,
    program: &CoreProgram,
    out: &mut O,
) -> Result<Ending, Stop>
    requires { IsProperProgram (program_of program.now) }
    ensures { Serves (SumsUp bytes (program_of program.now))
        (record { taken = O.taken out.old; faults = O.faults out.old })
        (record { taken = O.taken out.new; faults = O.faults out.new }) result }
{
    let reply = summary(alloc, bytes, program)?;
    hand_out(reply, out)
}

#[tactic(auto, using(crate::proofs::Making::sums_up))]
fn summary(alloc: Global, bytes: usize, program: &CoreProgram) -> Result<Reply, NoMemory>
    requires { IsProperProgram (program_of program.now) }
    ensures { IfOk result (λ reply. SumsUp bytes (program_of program.now) (answer_in reply)) }
{
    let ran = run_main(alloc, program)?;
    let functions = program.functions.len();
    let mut out = counts(alloc, bytes, functions)?;
    out.extend_from_slice(&ran.err)?;
    Ok(Reply {
        status: ran.status,
        out,
        err: Vec::new(alloc),
    })
}

fn counts(alloc: Global, bytes: usize, functions: usize) -> Result<Vec<u8>, NoMemory>
    ensures { IfOk result (λ text. text.items ≡ codes "bytes " ++ decimal bytes ++ codes "\nfunctions " ++ decimal functions ++ codes "\n") }
{
    let text = format!(in alloc; "bytes {bytes}\nfunctions {functions}\n")?;
    Ok(text.into_bytes())
}

// Runs the program from `main`, where nobody reads what it writes.
#[tactic(auto, using(crate::proofs::Making::run_heard))]
fn run_main(alloc: Global, program: &CoreProgram) -> Result<Ending, NoMemory>
    requires { IsProperProgram (program_of program.now) }
    ensures { IfOk result (IsHeard (program_of program.now)) }
{
    let mut unheard = Unheard;
    match execute(alloc, default_options(), "main", program, &[], &mut unheard) {
        Ok(ending) => Ok(ending),
        Err(Stop::NoMemory) => Err(NoMemory),
        Err(Stop::ReadFault) => unreachable!(),
        Err(Stop::WriteFault) => unreachable!(),
    }
}

// How a program is run where nothing else is asked for.
fn default_options() -> RunOptions
    ensures { result ≡ default_options }
{
    RunOptions {
        unchecked: false,
        growth: Growth::Always,
        steps: 1_000_000,
        cells: 1_000_000,
        depth: 1000,
    }
}
