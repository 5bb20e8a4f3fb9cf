// The table of sets of a program.
ghost use Rattle.std.specs.Prelude.{IfOk};
ghost use Rattle.life_core.specs.Function.{program_of};
ghost use Rattle.life_pset.specs.Limits.{IsProgramWithinLimits};
ghost use Rattle.life_cli.specs.Answer.{answer_in};
ghost use Rattle.life_cli.specs.Concluding.{IsTabled};
ghost use Rattle.life_cli.specs.Ends.{Serves};

use crate::Status;
use crate::counted::sets;
use crate::reply::{Reply, hand_out};
use crate::stop::{Ending, Stop};
use life_base::Sink;
use life_core::CoreProgram;
use life_psets::sets_report;
use life_types::NoMemory;
use std::alloc::Global;

/// Writes what each pointer of the program may point to, at each point.
pub fn tell_sets<O: Sink>(alloc: Global, program: &CoreProgram, out: &mut O) -> Result<Ending, Stop>
    requires { IsProgramWithinLimits (program_of program.now) }
    ensures { Serves (IsTabled (program_of program.now))
        (record { taken = O.taken out.old; faults = O.faults out.old })
        (record { taken = O.taken out.new; faults = O.faults out.new }) result }
{
    let reply = table_reply(alloc, program)?;
    hand_out(reply, out)
}

fn table_reply(alloc: Global, program: &CoreProgram) -> Result<Reply, NoMemory>
    requires { IsProgramWithinLimits (program_of program.now) }
    ensures { IfOk result (λ reply. IsTabled (program_of program.now) (answer_in reply)) }
{
    let lines = sets(alloc, program)?;
    let out = sets_report(alloc, program, &lines)?;
    Ok(Reply {
        status: Status::Done,
        out,
        err: Vec::new(alloc),
    })
}
