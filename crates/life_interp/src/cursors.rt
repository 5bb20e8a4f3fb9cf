// Iterators at the ends of ranges.
ghost use Rattle.std.specs.Prelude.{◌≡◌, true, OnOk};
ghost use Rattle.life_core.specs.Function.{function_of, program_of};
ghost use Rattle.life_core.specs.Operands.{base_of, location_of};
ghost use Rattle.life_core.specs.Step.{Cursor};
ghost use Rattle.life_cells.specs.Cells.{state_in};
ghost use Rattle.life_cells.specs.Fits.{meant, IsFit, Keeps};
ghost use Rattle.life_cells.specs.Scopes.{function_in, types_in};
ghost use Rattle.life_cells.specs.Typed.{IsBase, IsRange};
ghost use Rattle.life_interp.specs.Accessed.{HasPlaces};
ghost use Rattle.life_interp.specs.Layouts.{AreReady};
ghost use Rattle.life_interp.specs.Near.{EndNear, IsNear, IsNearIf};
ghost use Rattle.life_interp.specs.Steps.{LeavesBoth};
ghost use Rattle.life_store.specs.Doing.{does, Setting};

use crate::ending::Ending;
use crate::layouts::Layouts;
use crate::reaching::settled;
use life_cells::{Cell, Scope, pointer_at};
use life_core::{Base, CoreFn, CoreProgram, Location, RangeEnd};
use life_pointers::{Characters, Pointer};
use life_store::Store;

/// Makes an iterator of an end of a range. No text has so many characters that its end couldn't be
/// numbered: behind those memory is wanted.
pub(crate) fn cursor<S: Store>(
    program: &CoreProgram,
    layouts: &Layouts,
    f: &CoreFn,
    store: &mut S,
    cells: &mut Vec<Cell>,
    pointer: &Location,
    base: &Base,
    end: RangeEnd,
) -> Result<(), Ending>
    requires layouts { AreReady (program_of program.now).types layouts.now }
    requires fits { IsFit (program_of program.now).types (S.content store.old) (S.rows store.old) cells.old.items }
    requires places { HasPlaces (program_of program.now).types (function_of f.now) (state_in (meant (program_of program.now).types (S.content store.old) (S.rows store.old)) cells.old.items) (Cursor (location_of pointer.now) (base_of base.now) end) }
    ensures step { (s : Setting) → LeavesBoth (does s (program_of program.now).types (function_of f.now) (Cursor (location_of pointer.now) (base_of base.now) end)) (meant (program_of program.now).types (S.content store.old) (S.rows store.old)) cells.old.items (meant (program_of program.now).types (S.content store.new) (S.rows store.new)) cells.new.items result }
    ensures fits { OnOk result (IsFit (program_of program.now).types (S.content store.new) (S.rows store.new) cells.new.items) }
    ensures keeps { Keeps (S.content store.old) (S.content store.new) (S.rows store.old) (S.rows store.new) }
    ensures limit { S.limit store.new ≡ S.limit store.old }
{
    let scope = Scope {
        types: &program.types,
        layouts: &layouts.all,
        texts: &program.texts,
        function: f,
    };
    if is_near(&scope, store, cells, base) {
        settled(life_cells::cursor(&scope, store, cells, pointer, base, end))
    } else {
        Err(Ending::NoMemory)
    }
}

// Whether the end of the range can be numbered.
fn is_near<S: Store>(scope: &Scope<'_>, store: &S, cells: &[Cell], base: &Base) -> bool
    requires fits { IsFit (types_in scope.now) (S.content store.now) (S.rows store.now) cells.now }
    requires base { IsBase (types_in scope.now) (function_in scope.now) (base_of base.now) (state_in (meant (types_in scope.now) (S.content store.now) (S.rows store.now)) cells.now) }
    ensures { result ≡ true → IsRange (types_in scope.now) (function_in scope.now) (base_of base.now) (state_in (meant (types_in scope.now) (S.content store.now) (S.rows store.now)) cells.now) }
{
    match base {
        Base::Owner(_) => true,
        Base::Pointer(location) => has_end(pointer_at(scope, store, cells, location)),
    }
}

// .. of what a view sees, if there is one.
fn has_end(view: Option<Pointer>) -> bool
    ensures { result ≡ true → IsNearIf view }
{
    match view {
        None => true,
        Some(pointer) => points_near(pointer),
    }
}

// .. of what a pointer sees.
fn points_near(pointer: Pointer) -> bool
    ensures { result ≡ true → IsNear pointer }
{
    match pointer {
        Pointer::Null => true,
        Pointer::Wild => true,
        Pointer::To { .. } => true,
        Pointer::Static(characters) => ends_near(characters),
    }
}

// .. of characters that never end.
fn ends_near(characters: Characters) -> bool
    ensures { result ≡ true → EndNear characters }
{
    match characters.index.checked_add(characters.count) {
        None => false,
        Some(end) => end < 1 << 63,
    }
}
