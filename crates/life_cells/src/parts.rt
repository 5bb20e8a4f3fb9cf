// Parts of spans and views.
ghost use Rattle.std.specs.Prelude.{◌≡◌, IfOk, MatchOption, OnOk};
ghost use Rattle.life_core.specs.Operands.{location_of};
ghost use Rattle.life_store.specs.Content.{Content};
ghost use Rattle.life_store.specs.Doing as spec;
ghost use Rattle.life_store.specs.Effects.{Got, GotLost};
ghost use Rattle.life_store.specs.Parts as parts;
ghost use Rattle.life_store.specs.Views.{is_span};
ghost use Rattle.life_pointers.specs.Pointers.{PointerFits};
ghost use Rattle.life_cells.specs.Cells.{state_in};
ghost use Rattle.life_cells.specs.Fits.{meant, IsFit, Keeps};
ghost use Rattle.life_cells.specs.Scopes.{function_in, types_in};
ghost use Rattle.life_cells.specs.Steps.{Comes, Makes};
ghost use Rattle.life_cells.specs.Typed.{HoldsPointer};

use crate::cell::Cell;
use crate::frame::number_at;
use crate::locations::{point, pointer_at};
use crate::members::location_type;
use crate::scope::Scope;
use crate::stops::lost_behind;
use life_core::Location;
use life_pointers::{Pointer, Stop, usable, viewed_part};
use life_store::Store;
use life_types::Ty;

/// Makes a span or a view of a part of another one.
pub fn cut<S: Store>(
    scope: &Scope<'_>,
    store: &mut S,
    cells: &mut Vec<Cell>,
    pointer: &Location,
    from: &Location,
    index: u32,
    count: Option<u32>,
) -> Result<(), Stop>
    requires fits { IsFit (types_in scope.now) (S.content store.old) (S.rows store.old) cells.old.items }
    requires pointer { HoldsPointer (types_in scope.now) (function_in scope.now) (location_of pointer.now) (state_in (meant (types_in scope.now) (S.content store.old) (S.rows store.old)) cells.old.items) }
    requires from { HoldsPointer (types_in scope.now) (function_in scope.now) (location_of from.now) (state_in (meant (types_in scope.now) (S.content store.old) (S.rows store.old)) cells.old.items) }
    ensures step { Comes (spec.cut (types_in scope.now) (function_in scope.now) (location_of pointer.now) (location_of from.now) index count) (meant (types_in scope.now) (S.content store.old) (S.rows store.old)) cells.old.items (meant (types_in scope.now) (S.content store.new) (S.rows store.new)) cells.new.items result }
    ensures fits { OnOk result (IsFit (types_in scope.now) (S.content store.new) (S.rows store.new) cells.new.items) }
    ensures keeps { Keeps (S.content store.old) (S.content store.new) (S.rows store.old) (S.rows store.new) }
    ensures limit { S.limit store.new ≡ S.limit store.old }
{
    let to = part(scope, store, cells, from, index, count)?;
    point(scope, store, cells, pointer, to)
}

// The part from the index on that the register holds.
fn part<S: Store>(
    scope: &Scope<'_>,
    store: &S,
    cells: &[Cell],
    from: &Location,
    index: u32,
    count: Option<u32>,
) -> Result<Pointer, Stop>
    requires fits { IsFit (types_in scope.now) (S.content store.now) (S.rows store.now) cells.now }
    requires from { HoldsPointer (types_in scope.now) (function_in scope.now) (location_of from.now) (state_in (meant (types_in scope.now) (S.content store.now) (S.rows store.now)) cells.now) }
    ensures is { Makes (types_in scope.now) (function_in scope.now) (λ p. spec.cut (types_in scope.now) (function_in scope.now) p (location_of from.now) index count) (meant (types_in scope.now) (S.content store.now) (S.rows store.now)) cells.now result }
    ensures fits { IfOk result (PointerFits (S.content store.now) (S.rows store.now)) }
{
    match pointer_at(scope, store, cells, from) {
        None => Err(Stop::Lost),
        Some(view) => match number_at(cells, index) {
            None => lost_behind(usable(store, view)),
            Some(first) => match counted(cells, count) {
                None => lost_behind(usable(store, view)),
                Some(size) => viewed_part(
                    store,
                    view,
                    is_span(scope, from),
                    first.cast_unsigned(),
                    size,
                ),
            },
        },
    }
}

// How many the register says, where one is named. None says that it holds no number.
fn counted(cells: &[Cell], count: Option<u32>) -> Option<Option<u64>>
    ensures { (c : Content) → MatchOption result (spec.count_in (state_in c cells.now) count ≡ GotLost) (λ n. spec.count_in (state_in c cells.now) count ≡ Got n) }
{
    match count {
        None => Some(None),
        Some(register) => match number_at(cells, register) {
            None => None,
            Some(size) => Some(Some(size.cast_unsigned())),
        },
    }
}

// The type of the location tells a span from a view.
fn is_span(scope: &Scope<'_>, location: &Location) -> bool
    ensures { result ≡ is_span (spec.type_if (types_in scope.now) (parts.location_type (types_in scope.now) (function_in scope.now) (location_of location.now))) }
{
    match location_type(scope, location) {
        None => false,
        Some(id) => matches!(scope.types.get(id), Some(Ty::Span { .. })),
    }
}
