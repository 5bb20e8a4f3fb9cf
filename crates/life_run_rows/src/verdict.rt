// Whether a program is accepted.
ghost use Rattle.std.specs.Prelude.{◌≡◌, ◌<◌};
ghost use Rattle.life_core.specs.Function.{program_of};
ghost use Rattle.life_core_served.specs.ProperPrograms.{IsProperProgram, IsServedProgram};

use life_base::Steps;
use life_core::CoreProgram;
use life_fix::program_diagnostics;
use life_proper_check::is_slotless;
use life_sound::accept;
use life_types::NoMemory;
use std::alloc::Global;
use std::marker::Brand;
use std::sync::ledger::{Blank, Ledger};

/// Whether the program is accepted, and else in how many lines something is wrong; or that its verdict isn't proved yet.
pub fn verdict(alloc: Global, program: CoreProgram) -> Result<String, NoMemory>
    requires { IsProperProgram (program_of program) }
{
    if is_slotless(&program) {
        verdict_on::<Brand>(alloc, program, Blank::new(1))
    } else {
        Ok(String::from_str(alloc, "not proved")?)
    }
}

fn verdict_on<L: Ledger>(
    alloc: Global,
    program: CoreProgram,
    blank: Blank,
) -> Result<String, NoMemory>
    requires proper { IsProperProgram (program_of program) }
    requires served { IsServedProgram (program_of program) }
    requires name { blank.name ≡ L.name }
    requires parts { blank.parts ≡ L.parts }
    requires some { 0 < blank.parts }
{
    let mut steps = Steps::<L>::new(blank);
    let diagnostics = program_diagnostics(alloc, &program, &mut steps)?;
    match accept(program, diagnostics) {
        Ok(_) => Ok(String::from_str(alloc, "accepted")?),
        Err(rejected) => {
            let count = rejected.diagnostics.len();
            Ok(format!(in alloc; "rejected for {count}")?)
        }
    }
}
