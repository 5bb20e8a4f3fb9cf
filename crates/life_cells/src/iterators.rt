// Steps of iterators.
ghost use Rattle.std.specs.Prelude.{◌≡◌, IfOk, OnOk};
ghost use Rattle.life_core.specs.Operands.{location_of};
ghost use Rattle.life_store.specs.Doing.{advanced};
ghost use Rattle.life_store.specs.Effects.{Setting};
ghost use Rattle.life_pointers.specs.Pointers.{PointerFits};
ghost use Rattle.life_cells.specs.Cells.{state_in};
ghost use Rattle.life_cells.specs.Fits.{meant, IsFit, Keeps};
ghost use Rattle.life_cells.specs.Scopes.{function_in, texts_in, types_in};
ghost use Rattle.life_cells.specs.Steps.{Comes, Makes};
ghost use Rattle.life_cells.specs.Typed.{HoldsPointer};

use crate::cell::Cell;
use crate::frame::number_at;
use crate::locations::{point, pointer_at};
use crate::members::type_at;
use crate::scope::Scope;
use crate::stops::lost_behind;
use life_core::{Direction, Location};
use life_pointers::{Pointer, Stop, moved, standing, step_of};
use life_store::Store;

/// Makes an iterator of another one, moved by as many elements as the register says.
pub fn advance<S: Store>(
    scope: &Scope<'_>,
    store: &mut S,
    cells: &mut Vec<Cell>,
    pointer: &Location,
    from: &Location,
    count: u32,
    direction: Direction,
) -> Result<(), Stop>
    requires fits { IsFit (types_in scope.now) (S.content store.old) (S.rows store.old) cells.old.items }
    requires pointer { HoldsPointer (types_in scope.now) (function_in scope.now) (location_of pointer.now) (state_in (meant (types_in scope.now) (S.content store.old) (S.rows store.old)) cells.old.items) }
    requires from { HoldsPointer (types_in scope.now) (function_in scope.now) (location_of from.now) (state_in (meant (types_in scope.now) (S.content store.old) (S.rows store.old)) cells.old.items) }
    ensures step { (s : Setting) → s.texts ≡ texts_in scope.now
        → Comes (advanced s (types_in scope.now) (function_in scope.now) (location_of pointer.now) (location_of from.now) count direction) (meant (types_in scope.now) (S.content store.old) (S.rows store.old)) cells.old.items (meant (types_in scope.now) (S.content store.new) (S.rows store.new)) cells.new.items result }
    ensures fits { OnOk result (IsFit (types_in scope.now) (S.content store.new) (S.rows store.new) cells.new.items) }
    ensures keeps { Keeps (S.content store.old) (S.content store.new) (S.rows store.old) (S.rows store.new) }
    ensures limit { S.limit store.new ≡ S.limit store.old }
{
    let to = advanced(scope, store, cells, from, count, direction)?;
    point(scope, store, cells, pointer, to)
}

// The iterator moved by as many elements as the register says.
fn advanced<S: Store>(
    scope: &Scope<'_>,
    store: &S,
    cells: &[Cell],
    from: &Location,
    count: u32,
    direction: Direction,
) -> Result<Pointer, Stop>
    requires fits { IsFit (types_in scope.now) (S.content store.now) (S.rows store.now) cells.now }
    requires from { HoldsPointer (types_in scope.now) (function_in scope.now) (location_of from.now) (state_in (meant (types_in scope.now) (S.content store.now) (S.rows store.now)) cells.now) }
    ensures is { (s : Setting) → s.texts ≡ texts_in scope.now
        → Makes (types_in scope.now) (function_in scope.now) (λ p. advanced s (types_in scope.now) (function_in scope.now) p (location_of from.now) count direction) (meant (types_in scope.now) (S.content store.now) (S.rows store.now)) cells.now result }
    ensures fits { IfOk result (PointerFits (S.content store.now) (S.rows store.now)) }
{
    match pointer_at(scope, store, cells, from) {
        None => Err(Stop::Lost),
        Some(iterator) => match number_at(cells, count) {
            None => lost_behind(standing(store, iterator)),
            Some(number) => {
                let step = step_of(type_at(scope, count), number, direction);
                moved(store, scope.texts, iterator, step)
            }
        },
    }
}
