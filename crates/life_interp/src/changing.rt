// Instructions that change what owners own.
ghost use Rattle.std.specs.Prelude.{◌≡◌, ◌<◌, [], OnOk};
ghost use Rattle.life_core.specs.Function.{function_of, program_of};
ghost use Rattle.life_core.specs.Operands.{location_of, operand_of};
ghost use Rattle.life_core.specs.Step.{change_of, Changes, Make};
ghost use Rattle.life_cells.specs.Cells.{state_of};
ghost use Rattle.life_cells.specs.Fits.{meant, IsFit};
ghost use Rattle.life_changes.specs.Bounded.{IsBounded};
ghost use Rattle.life_interp.specs.Fits.{most_births, CanStep, Grows};
ghost use Rattle.life_interp.specs.Layouts.{AreReady};
ghost use Rattle.life_interp.specs.Sound.{IsAt};
ghost use Rattle.life_interp.specs.Steps.{IsSet, LeavesBoth};
ghost use Rattle.life_seen.specs.Housed.{Later};
ghost use Rattle.life_store.specs.Doing.{does, Setting};

use crate::carrying::carried;
use crate::ending::Ending;
use crate::layouts::Layouts;
use life_cells::{Cell, Scope};
use life_core::{Change, CoreFn, CoreProgram, Location, Made, Operand};
use life_store::{Growth, Store};
use std::alloc::Global;

/// Changes the owner that an operand names.
pub(crate) fn change<S: Store>(
    alloc: Global,
    program: &CoreProgram,
    layouts: &Layouts,
    growth: Growth,
    f: &CoreFn,
    store: &mut S,
    cells: &mut Vec<Cell>,
    place: &Operand,
    change: &Change,
) -> Result<(), Ending>
    requires layouts { AreReady (program_of program.now).types layouts.now }
    requires fits { IsFit (program_of program.now).types (S.content store.old) (S.rows store.old) cells.old.items }
    requires at { IsAt (program_of program.now) (function_of f.now) (Changes (operand_of place.now) (change_of change.now)) (state_of (meant (program_of program.now).types (S.content store.old) (S.rows store.old)) cells.old.items [] []) }
    requires bounded { IsBounded (S.limit store.old) (meant (program_of program.now).types (S.content store.old) (S.rows store.old)) }
    requires countable { CanStep (S.content store.old) }
    requires room { S.limit store.old < most_births }
    ensures step { (s : Setting) → IsSet s (S.limit store.old) (program_of program.now).texts → s.given.growth ≡ growth
        → LeavesBoth (does s (program_of program.now).types (function_of f.now) (Changes (operand_of place.now) (change_of change.now))) (meant (program_of program.now).types (S.content store.old) (S.rows store.old)) cells.old.items (meant (program_of program.now).types (S.content store.new) (S.rows store.new)) cells.new.items result }
    ensures fits { OnOk result (IsFit (program_of program.now).types (S.content store.new) (S.rows store.new) cells.new.items) }
    ensures bounded { OnOk result (IsBounded (S.limit store.old) (meant (program_of program.now).types (S.content store.new) (S.rows store.new))) }
    ensures later { OnOk result (Later (S.content store.old) (S.content store.new) (S.rows store.old) (S.rows store.new)) }
    ensures grows { OnOk result (Grows most_births (S.content store.old) (S.content store.new)) }
    ensures limit { S.limit store.new ≡ S.limit store.old }
{
    let scope = Scope {
        types: &program.types,
        layouts: &layouts.all,
        texts: &program.texts,
        function: f,
    };
    carried(life_changes::change(
        alloc,
        &scope,
        store,
        cells,
        place,
        change,
        growth,
        layouts.depth,
    ))
}

/// Gives a `std::unique_ptr` what it is made to own.
pub(crate) fn make<S: Store>(
    program: &CoreProgram,
    layouts: &Layouts,
    f: &CoreFn,
    store: &mut S,
    cells: &mut Vec<Cell>,
    owner: &Location,
    made: Made,
) -> Result<(), Ending>
    requires layouts { AreReady (program_of program.now).types layouts.now }
    requires fits { IsFit (program_of program.now).types (S.content store.old) (S.rows store.old) cells.old.items }
    requires at { IsAt (program_of program.now) (function_of f.now) (Make (location_of owner.now) made) (state_of (meant (program_of program.now).types (S.content store.old) (S.rows store.old)) cells.old.items [] []) }
    requires bounded { IsBounded (S.limit store.old) (meant (program_of program.now).types (S.content store.old) (S.rows store.old)) }
    requires countable { CanStep (S.content store.old) }
    requires room { S.limit store.old < most_births }
    ensures step { (s : Setting) → IsSet s (S.limit store.old) (program_of program.now).texts
        → LeavesBoth (does s (program_of program.now).types (function_of f.now) (Make (location_of owner.now) made)) (meant (program_of program.now).types (S.content store.old) (S.rows store.old)) cells.old.items (meant (program_of program.now).types (S.content store.new) (S.rows store.new)) cells.new.items result }
    ensures fits { OnOk result (IsFit (program_of program.now).types (S.content store.new) (S.rows store.new) cells.new.items) }
    ensures bounded { OnOk result (IsBounded (S.limit store.old) (meant (program_of program.now).types (S.content store.new) (S.rows store.new))) }
    ensures later { OnOk result (Later (S.content store.old) (S.content store.new) (S.rows store.old) (S.rows store.new)) }
    ensures grows { OnOk result (Grows most_births (S.content store.old) (S.content store.new)) }
    ensures limit { S.limit store.new ≡ S.limit store.old }
{
    let scope = Scope {
        types: &program.types,
        layouts: &layouts.all,
        texts: &program.texts,
        function: f,
    };
    carried(life_changes::make(&scope, store, cells, owner, made, layouts.depth))
}
