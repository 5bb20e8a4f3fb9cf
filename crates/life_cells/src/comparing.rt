// Whether two iterators or views are the same.
ghost use Rattle.std.specs.Prelude.{◌≡◌, OnOk};
ghost use Rattle.life_core.specs.Operands.{location_of};
ghost use Rattle.life_store.specs.Doing as spec;
ghost use Rattle.life_store.specs.Effects.{Setting};
ghost use Rattle.life_store.specs.Parts as parts;
ghost use Rattle.life_pointers.specs.Attempts.{itself, tried};
ghost use Rattle.life_cells.specs.Cells.{state_in, state_of};
ghost use Rattle.life_cells.specs.Compared.{are_views, is_viewing};
ghost use Rattle.life_cells.specs.Fits.{meant, IsFit};
ghost use Rattle.life_cells.specs.Scopes.{function_in, texts_in, types_in};
ghost use Rattle.life_cells.specs.Steps.{Comes};
ghost use Rattle.life_cells.specs.Typed.{ComparesCharacters, HoldsPointer, SeesCharacters};

use crate::cell::Cell;
use crate::frame::put_cell;
use crate::locations::pointer_at;
use crate::members::location_type;
use crate::scope::Scope;
use life_core::Location;
use life_pointers::{Stop, alike, standing, usable, viewed_alike};
use life_store::Store;
use life_types::Ty;

/// Gives the register whether two iterators or views are equal, or whether they aren't.
pub fn same<S: Store>(
    scope: &Scope<'_>,
    store: &S,
    cells: &mut Vec<Cell>,
    into: u32,
    left: &Location,
    right: &Location,
    equal: bool,
) -> Result<(), Stop>
    requires fits { IsFit (types_in scope.now) (S.content store.now) (S.rows store.now) cells.old.items }
    requires left { HoldsPointer (types_in scope.now) (function_in scope.now) (location_of left.now) (state_in (meant (types_in scope.now) (S.content store.now) (S.rows store.now)) cells.old.items) }
    requires right { HoldsPointer (types_in scope.now) (function_in scope.now) (location_of right.now) (state_in (meant (types_in scope.now) (S.content store.now) (S.rows store.now)) cells.old.items) }
    requires left_seen { ComparesCharacters (types_in scope.now) (function_in scope.now) (location_of left.now) (location_of left.now) (state_in (meant (types_in scope.now) (S.content store.now) (S.rows store.now)) cells.old.items) }
    requires right_seen { ComparesCharacters (types_in scope.now) (function_in scope.now) (location_of left.now) (location_of right.now) (state_in (meant (types_in scope.now) (S.content store.now) (S.rows store.now)) cells.old.items) }
    ensures step { (s : Setting) → s.texts ≡ texts_in scope.now
        → Comes (spec.same_into s (types_in scope.now) (function_in scope.now) into (location_of left.now) (location_of right.now) equal) (meant (types_in scope.now) (S.content store.now) (S.rows store.now)) cells.old.items (meant (types_in scope.now) (S.content store.now) (S.rows store.now)) cells.new.items result }
    ensures fits { OnOk result (IsFit (types_in scope.now) (S.content store.now) (S.rows store.now) cells.new.items) }
{
    let same = compared(scope, store, cells, left, right)?;
    put_cell(cells, into, Cell::Number(told(same, equal)));
    Ok(())
}

// The value that is told.
fn told(same: bool, equal: bool) -> i64
    ensures { result ≡ spec.told same equal }
{
    if same == equal { 1 } else { 0 }
}

fn compared<S: Store>(
    scope: &Scope<'_>,
    store: &S,
    cells: &[Cell],
    left: &Location,
    right: &Location,
) -> Result<bool, Stop>
    requires fits { IsFit (types_in scope.now) (S.content store.now) (S.rows store.now) cells.now }
    requires left { HoldsPointer (types_in scope.now) (function_in scope.now) (location_of left.now) (state_in (meant (types_in scope.now) (S.content store.now) (S.rows store.now)) cells.now) }
    requires right { HoldsPointer (types_in scope.now) (function_in scope.now) (location_of right.now) (state_in (meant (types_in scope.now) (S.content store.now) (S.rows store.now)) cells.now) }
    requires left_seen { ComparesCharacters (types_in scope.now) (function_in scope.now) (location_of left.now) (location_of left.now) (state_in (meant (types_in scope.now) (S.content store.now) (S.rows store.now)) cells.now) }
    requires right_seen { ComparesCharacters (types_in scope.now) (function_in scope.now) (location_of left.now) (location_of right.now) (state_in (meant (types_in scope.now) (S.content store.now) (S.rows store.now)) cells.now) }
    ensures { (s : Setting) → s.texts ≡ texts_in scope.now
        → tried itself result ≡ spec.compared s (types_in scope.now) (function_in scope.now) (parts.location_parts (types_in scope.now) (function_in scope.now) (location_of left.now)) (location_of left.now) (location_of right.now) (state_in (meant (types_in scope.now) (S.content store.now) (S.rows store.now)) cells.now) }
{
    if are_views(scope, left) {
        views_alike(scope, store, cells, left, right)
    } else {
        iterators_alike(scope, store, cells, left, right)
    }
}

// Whether what the location holds is a span or a view.
fn are_views(scope: &Scope<'_>, location: &Location) -> bool
    ensures { result ≡ are_views (parts.location_parts (types_in scope.now) (function_in scope.now) (location_of location.now)) }
{
    match location_type(scope, location) {
        None => false,
        Some(id) => is_viewing(scope.types.get(id)),
    }
}

fn is_viewing(ty: Option<Ty>) -> bool
    ensures { result ≡ is_viewing ty }
{
    matches!(ty, Some(Ty::View | Ty::Span { .. }))
}

// Views are the same where their characters are.
fn views_alike<S: Store>(
    scope: &Scope<'_>,
    store: &S,
    cells: &[Cell],
    left: &Location,
    right: &Location,
) -> Result<bool, Stop>
    requires fits { IsFit (types_in scope.now) (S.content store.now) (S.rows store.now) cells.now }
    requires left { HoldsPointer (types_in scope.now) (function_in scope.now) (location_of left.now) (state_in (meant (types_in scope.now) (S.content store.now) (S.rows store.now)) cells.now) }
    requires right { HoldsPointer (types_in scope.now) (function_in scope.now) (location_of right.now) (state_in (meant (types_in scope.now) (S.content store.now) (S.rows store.now)) cells.now) }
    requires left_seen { SeesCharacters (types_in scope.now) (function_in scope.now) (location_of left.now) (state_in (meant (types_in scope.now) (S.content store.now) (S.rows store.now)) cells.now) }
    requires right_seen { SeesCharacters (types_in scope.now) (function_in scope.now) (location_of right.now) (state_in (meant (types_in scope.now) (S.content store.now) (S.rows store.now)) cells.now) }
    ensures { (s : Setting) → s.texts ≡ texts_in scope.now
        → tried itself result ≡ spec.compared s (types_in scope.now) (function_in scope.now) parts.Views (location_of left.now) (location_of right.now) (state_in (meant (types_in scope.now) (S.content store.now) (S.rows store.now)) cells.now) }
{
    match pointer_at(scope, store, cells, left) {
        None => Err(Stop::Lost),
        Some(first) => match pointer_at(scope, store, cells, right) {
            None => match usable(store, first) {
                Err(stop) => Err(stop),
                Ok(_) => Err(Stop::Lost),
            },
            Some(second) => viewed_alike(store, scope.texts, first, second),
        },
    }
}

// Iterators are the same where their positions are.
fn iterators_alike<S: Store>(
    scope: &Scope<'_>,
    store: &S,
    cells: &[Cell],
    left: &Location,
    right: &Location,
) -> Result<bool, Stop>
    requires fits { IsFit (types_in scope.now) (S.content store.now) (S.rows store.now) cells.now }
    requires left { HoldsPointer (types_in scope.now) (function_in scope.now) (location_of left.now) (state_in (meant (types_in scope.now) (S.content store.now) (S.rows store.now)) cells.now) }
    requires right { HoldsPointer (types_in scope.now) (function_in scope.now) (location_of right.now) (state_in (meant (types_in scope.now) (S.content store.now) (S.rows store.now)) cells.now) }
    ensures { (s : Setting) → tried itself result ≡ spec.compared s (types_in scope.now) (function_in scope.now) parts.Iterates (location_of left.now) (location_of right.now) (state_in (meant (types_in scope.now) (S.content store.now) (S.rows store.now)) cells.now) }
{
    match pointer_at(scope, store, cells, left) {
        None => Err(Stop::Lost),
        Some(first) => match pointer_at(scope, store, cells, right) {
            None => match standing(store, first) {
                Err(stop) => Err(stop),
                Ok(_) => Err(Stop::Lost),
            },
            Some(second) => alike(store, first, second),
        },
    }
}
