// One instruction of any kind.
ghost use Rattle.std.specs.Prelude.{◌≡◌, ◌<◌, [], drop, OnOk};
ghost use Rattle.life_core.specs.Function.{function_of, program_of};
ghost use Rattle.life_core.specs.Step.{step_of};
ghost use Rattle.life_cells.specs.Cells.{state_of};
ghost use Rattle.life_cells.specs.Fits.{meant, IsFit};
ghost use Rattle.life_changes.specs.Bounded.{IsBounded};
ghost use Rattle.life_interp.specs.Fits.{most_births, CanStep, Grows};
ghost use Rattle.life_interp.specs.Layouts.{AreReady};
ghost use Rattle.life_interp.specs.Sound.{IsAt};
ghost use Rattle.life_interp.specs.Steps.{IsSet, LeavesBoth};
ghost use Rattle.life_interp.specs.Walking.{IsOwn, IsQuiet, Performs};
ghost use Rattle.life_seen.specs.Housed.{Later};
ghost use Rattle.life_store.specs.Doing.{does, Setting};

use crate::carrying::{copy, give};
use crate::changing::{change, make};
use crate::cursors::cursor;
use crate::ending::Ending;
use crate::layouts::Layouts;
use crate::locals::{end, live};
use crate::ports::pass;
use crate::reaching::{reach, settled};
use crate::values::evaluate;
use life_base::Sink;
use life_cells::{Cell, Scope};
use life_core::{CoreFn, CoreProgram, Instr};
use life_store::{Growth, Store};
use std::alloc::Global;

/// Does an instruction that is no call. The text that it writes out is handed to the sink by itself.
pub(crate) fn perform<S: Store, O: Sink>(
    alloc: Global,
    program: &CoreProgram,
    layouts: &Layouts,
    growth: Growth,
    f: &CoreFn,
    instr: &Instr,
    store: &mut S,
    cells: &mut Vec<Cell>,
    input: &[i64],
    taken: &mut usize,
    out: &mut O,
) -> Result<(), Ending>
    requires own { IsOwn (step_of instr.now) }
    requires layouts { AreReady (program_of program.now).types layouts.now }
    requires fits { IsFit (program_of program.now).types (S.content store.old) (S.rows store.old) cells.old.items }
    requires at { IsAt (program_of program.now) (function_of f.now) (step_of instr.now) (state_of (meant (program_of program.now).types (S.content store.old) (S.rows store.old)) cells.old.items [] []) }
    requires bounded { IsBounded (S.limit store.old) (meant (program_of program.now).types (S.content store.old) (S.rows store.old)) }
    requires countable { CanStep (S.content store.old) }
    requires room { S.limit store.old < most_births }
    ensures step { (s : Setting) → IsSet s (S.limit store.old) (program_of program.now).texts → s.given.growth ≡ growth
        → Performs (does s (program_of program.now).types (function_of f.now) (step_of instr.now))
        (meant (program_of program.now).types (S.content store.old) (S.rows store.old)) cells.old.items (drop taken.old input.now) (meant (program_of program.now).types (S.content store.new) (S.rows store.new)) cells.new.items (drop taken.new input.now)
        (record { old = O.taken out.old; new = O.taken out.new; faults = O.faults out.old; later = O.faults out.new }) result }
    ensures fits { OnOk result (IsFit (program_of program.now).types (S.content store.new) (S.rows store.new) cells.new.items) }
    ensures bounded { OnOk result (IsBounded (S.limit store.old) (meant (program_of program.now).types (S.content store.new) (S.rows store.new))) }
    ensures later { OnOk result (Later (S.content store.old) (S.content store.new) (S.rows store.old) (S.rows store.new)) }
    ensures grows { OnOk result (Grows most_births (S.content store.old) (S.content store.new)) }
    ensures limit { S.limit store.new ≡ S.limit store.old }
{
    match instr {
        Instr::Port(port) => pass(
            alloc, program, layouts, f, port, store, cells, input, taken, out,
        ),
        _ => act(alloc, program, layouts, growth, f, instr, store, cells),
    }
}

// An instruction by which nothing goes in or out.
fn act<S: Store>(
    alloc: Global,
    program: &CoreProgram,
    layouts: &Layouts,
    growth: Growth,
    f: &CoreFn,
    instr: &Instr,
    store: &mut S,
    cells: &mut Vec<Cell>,
) -> Result<(), Ending>
    requires quiet { IsQuiet (step_of instr.now) }
    requires own { IsOwn (step_of instr.now) }
    requires layouts { AreReady (program_of program.now).types layouts.now }
    requires fits { IsFit (program_of program.now).types (S.content store.old) (S.rows store.old) cells.old.items }
    requires at { IsAt (program_of program.now) (function_of f.now) (step_of instr.now) (state_of (meant (program_of program.now).types (S.content store.old) (S.rows store.old)) cells.old.items [] []) }
    requires bounded { IsBounded (S.limit store.old) (meant (program_of program.now).types (S.content store.old) (S.rows store.old)) }
    requires countable { CanStep (S.content store.old) }
    requires room { S.limit store.old < most_births }
    ensures step { (s : Setting) → IsSet s (S.limit store.old) (program_of program.now).texts → s.given.growth ≡ growth
        → LeavesBoth (does s (program_of program.now).types (function_of f.now) (step_of instr.now)) (meant (program_of program.now).types (S.content store.old) (S.rows store.old)) cells.old.items (meant (program_of program.now).types (S.content store.new) (S.rows store.new)) cells.new.items result }
    ensures fits { OnOk result (IsFit (program_of program.now).types (S.content store.new) (S.rows store.new) cells.new.items) }
    ensures bounded { OnOk result (IsBounded (S.limit store.old) (meant (program_of program.now).types (S.content store.new) (S.rows store.new))) }
    ensures later { OnOk result (Later (S.content store.old) (S.content store.new) (S.rows store.old) (S.rows store.new)) }
    ensures grows { OnOk result (Grows most_births (S.content store.old) (S.content store.new)) }
    ensures limit { S.limit store.new ≡ S.limit store.old }
{
    match instr {
        Instr::Live { local, form } => {
            live(&program.types, layouts, f, store, cells, *local, *form)
        }
        Instr::End { locals } => end(&program.types, layouts, store, cells, locals),
        Instr::Eval { into, operation } => evaluate(&program.types, f, *into, *operation, cells),
        Instr::Copy { to, from } => copy(alloc, program, layouts, f, store, cells, to, from),
        Instr::Move { to, from } => give(program, layouts, f, store, cells, to, *from),
        Instr::Cursor { pointer, base, end } => {
            cursor(program, layouts, f, store, cells, pointer, base, *end)
        }
        Instr::Change {
            place,
            change: changed,
        } => change(
            alloc, program, layouts, growth, f, store, cells, place, changed,
        ),
        Instr::Make { owner, made } => make(program, layouts, f, store, cells, owner, *made),
        Instr::Port(_) => unreachable!(),
        _ => {
            let scope = Scope {
                types: &program.types,
                layouts: &layouts.all,
                texts: &program.texts,
                function: f,
            };
            settled(reach(&scope, store, cells, instr))
        }
    }
}
