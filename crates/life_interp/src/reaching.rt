// Instructions that reach what lies in a store: values, and pointers with what they lead to.
ghost use Rattle.std.specs.Prelude.{◌≡◌, OnOk};
ghost use Rattle.life_core.specs.Step.{step_of};
ghost use Rattle.life_cells.specs.Cells.{state_in};
ghost use Rattle.life_cells.specs.Fits.{meant, IsFit, Keeps};
ghost use Rattle.life_cells.specs.Scopes.{function_in, texts_in, types_in};
ghost use Rattle.life_cells.specs.Steps.{Comes};
ghost use Rattle.life_interp.specs.Accessed.{HasPlaces, IsAccess};
ghost use Rattle.life_interp.specs.Steps.{settled_as};
ghost use Rattle.life_store.specs.Doing.{does, Setting};

use crate::ending::Ending;
use crate::values::{load, save};
use life_cells::{Cell, Scope, advance, aim, cut, element, repoint, same, size};
use life_core::Instr;
use life_pointers::Stop;
use life_store::Store;

/// Reads or writes a value, makes a pointer, counts what one sees, or compares two.
pub(crate) fn reach<S: Store>(
    scope: &Scope<'_>,
    store: &mut S,
    cells: &mut Vec<Cell>,
    instr: &Instr,
) -> Result<(), Stop>
    requires access { IsAccess (step_of instr.now) }
    requires fits { IsFit (types_in scope.now) (S.content store.old) (S.rows store.old) cells.old.items }
    requires places { HasPlaces (types_in scope.now) (function_in scope.now) (state_in (meant (types_in scope.now) (S.content store.old) (S.rows store.old)) cells.old.items) (step_of instr.now) }
    ensures step { (s : Setting) → s.texts ≡ texts_in scope.now
        → Comes (does s (types_in scope.now) (function_in scope.now) (step_of instr.now)) (meant (types_in scope.now) (S.content store.old) (S.rows store.old)) cells.old.items (meant (types_in scope.now) (S.content store.new) (S.rows store.new)) cells.new.items result }
    ensures fits { OnOk result (IsFit (types_in scope.now) (S.content store.new) (S.rows store.new) cells.new.items) }
    ensures keeps { Keeps (S.content store.old) (S.content store.new) (S.rows store.old) (S.rows store.new) }
    ensures limit { S.limit store.new ≡ S.limit store.old }
{
    match instr {
        Instr::Load { into, from } => load(scope, store, cells, *into, from),
        Instr::Save { to, from } => save(scope, store, cells, to, *from),
        Instr::Aim { pointer, source } => aim(scope, store, cells, pointer, source),
        Instr::Repoint { pointer, from } => repoint(scope, store, cells, pointer, from),
        Instr::Element {
            pointer,
            base,
            which,
        } => element(scope, store, cells, pointer, base, *which),
        Instr::Advance {
            pointer,
            from,
            count,
            direction,
        } => advance(scope, store, cells, pointer, from, *count, *direction),
        Instr::Cut {
            pointer,
            from,
            index,
            count,
        } => cut(scope, store, cells, pointer, from, *index, *count),
        Instr::Size { into, base } => size(scope, store, cells, *into, base),
        Instr::Same {
            into,
            left,
            right,
            equal,
        } => same(scope, store, cells, *into, left, right, *equal),
        // No other step reaches into a store.
        _ => Err(Stop::Lost),
    }
}

/// Why a step doesn't come to a next state.
pub(crate) fn settled(outcome: Result<(), Stop>) -> Result<(), Ending>
    ensures { result ≡ settled_as outcome }
{
    match outcome {
        Ok(()) => Ok(()),
        Err(Stop::Trap(kind)) => Err(Ending::Trap(kind)),
        Err(Stop::Fault(kind)) => Err(Ending::Fault(kind)),
        Err(Stop::Lost) => Err(Ending::Stray),
    }
}
