// Instructions by which values go from one place to another.
ghost use Rattle.std.specs.Prelude.{◌≡◌, ◌<◌, [], OnOk};
ghost use Rattle.life_core.specs.Function.{function_of, program_of};
ghost use Rattle.life_core.specs.Operands.{operand_of};
ghost use Rattle.life_core.specs.Step.{Copy, Move};
ghost use Rattle.life_cells.specs.Cells.{state_of};
ghost use Rattle.life_cells.specs.Fits.{meant, IsFit};
ghost use Rattle.life_changes.specs.Bounded.{IsBounded};
ghost use Rattle.life_interp.specs.Carried.{carried_as};
ghost use Rattle.life_interp.specs.Fits.{most_births, CanStep, Grows};
ghost use Rattle.life_interp.specs.Layouts.{AreReady};
ghost use Rattle.life_interp.specs.Sound.{IsAt};
ghost use Rattle.life_interp.specs.Steps.{IsSet, LeavesBoth};
ghost use Rattle.life_seen.specs.Housed.{Later};
ghost use Rattle.life_store.specs.Doing.{does, Setting};

use crate::ending::Ending;
use crate::layouts::Layouts;
use crate::reaching::settled;
use life_cells::{Cell, Scope};
use life_changes::Failure;
use life_core::{CoreFn, CoreProgram, Operand};
use life_store::Store;
use std::alloc::Global;

/// Copies a value to another place of its type.
pub(crate) fn copy<S: Store>(
    alloc: Global,
    program: &CoreProgram,
    layouts: &Layouts,
    f: &CoreFn,
    store: &mut S,
    cells: &[Cell],
    to: &Operand,
    from: &Operand,
) -> Result<(), Ending>
    requires layouts { AreReady (program_of program.now).types layouts.now }
    requires fits { IsFit (program_of program.now).types (S.content store.old) (S.rows store.old) cells.now }
    requires at { IsAt (program_of program.now) (function_of f.now) (Copy (operand_of to.now) (operand_of from.now)) (state_of (meant (program_of program.now).types (S.content store.old) (S.rows store.old)) cells.now [] []) }
    requires bounded { IsBounded (S.limit store.old) (meant (program_of program.now).types (S.content store.old) (S.rows store.old)) }
    requires countable { CanStep (S.content store.old) }
    requires room { S.limit store.old < most_births }
    ensures step { (s : Setting) → IsSet s (S.limit store.old) (program_of program.now).texts
        → LeavesBoth (does s (program_of program.now).types (function_of f.now) (Copy (operand_of to.now) (operand_of from.now))) (meant (program_of program.now).types (S.content store.old) (S.rows store.old)) cells.now (meant (program_of program.now).types (S.content store.new) (S.rows store.new)) cells.now result }
    ensures fits { OnOk result (IsFit (program_of program.now).types (S.content store.new) (S.rows store.new) cells.now) }
    ensures bounded { OnOk result (IsBounded (S.limit store.old) (meant (program_of program.now).types (S.content store.new) (S.rows store.new))) }
    ensures later { OnOk result (Later (S.content store.old) (S.content store.new) (S.rows store.old) (S.rows store.new)) }
    ensures grows { OnOk result (Grows most_births (S.content store.old) (S.content store.new)) }
    ensures limit { S.limit store.new ≡ S.limit store.old }
{
    let scope = Scope {
        types: &program.types,
        layouts: &layouts.all,
        texts: &program.texts,
        function: f,
    };
    carried(life_copies::copy(alloc, &scope, store, cells, to, from, layouts.depth))
}

/// Lets a local give what it has to a place of its type.
pub(crate) fn give<S: Store>(
    program: &CoreProgram,
    layouts: &Layouts,
    f: &CoreFn,
    store: &mut S,
    cells: &[Cell],
    to: &Operand,
    from: u32,
) -> Result<(), Ending>
    requires layouts { AreReady (program_of program.now).types layouts.now }
    requires fits { IsFit (program_of program.now).types (S.content store.old) (S.rows store.old) cells.now }
    requires at { IsAt (program_of program.now) (function_of f.now) (Move (operand_of to.now) from) (state_of (meant (program_of program.now).types (S.content store.old) (S.rows store.old)) cells.now [] []) }
    requires bounded { IsBounded (S.limit store.old) (meant (program_of program.now).types (S.content store.old) (S.rows store.old)) }
    requires countable { CanStep (S.content store.old) }
    requires room { S.limit store.old < most_births }
    ensures step { (s : Setting) → IsSet s (S.limit store.old) (program_of program.now).texts
        → LeavesBoth (does s (program_of program.now).types (function_of f.now) (Move (operand_of to.now) from)) (meant (program_of program.now).types (S.content store.old) (S.rows store.old)) cells.now (meant (program_of program.now).types (S.content store.new) (S.rows store.new)) cells.now result }
    ensures fits { OnOk result (IsFit (program_of program.now).types (S.content store.new) (S.rows store.new) cells.now) }
    ensures bounded { OnOk result (IsBounded (S.limit store.old) (meant (program_of program.now).types (S.content store.new) (S.rows store.new))) }
    ensures later { OnOk result (Later (S.content store.old) (S.content store.new) (S.rows store.old) (S.rows store.new)) }
    ensures grows { OnOk result (Grows most_births (S.content store.old) (S.content store.new)) }
    ensures limit { S.limit store.new ≡ S.limit store.old }
{
    let scope = Scope {
        types: &program.types,
        layouts: &layouts.all,
        texts: &program.texts,
        function: f,
    };
    carried(life_copies::give(&scope, store, cells, to, from, layouts.depth))
}

/// Why a value didn't come to its place.
pub(crate) fn carried(outcome: Result<(), Failure>) -> Result<(), Ending>
    ensures { result ≡ carried_as outcome }
{
    match outcome {
        Ok(()) => Ok(()),
        Err(Failure::Stopped(stop)) => settled(Err(stop)),
        Err(Failure::NoMemory) => Err(Ending::NoMemory),
    }
}
