// Iterators at the ends of ranges.
ghost use Rattle.std.specs.Prelude.{◌≡◌, IfOk, OnOk};
ghost use Rattle.life_core.specs.Operands.{base_of, location_of, operand_of, Owner, Pointer as Leading};
ghost use Rattle.life_store.specs.Doing as spec;
ghost use Rattle.life_pointers.specs.Pointers.{PointerFits};
ghost use Rattle.life_cells.specs.Cells.{state_in};
ghost use Rattle.life_cells.specs.Fits.{meant, IsFit, Keeps};
ghost use Rattle.life_cells.specs.Scopes.{function_in, types_in};
ghost use Rattle.life_cells.specs.Steps.{Comes, Makes};
ghost use Rattle.life_cells.specs.Typed.{CanEnd, HoldsPointer, IsBase, IsOwnerPlace, IsRange};

use crate::cell::Cell;
use crate::locations::{point, pointer_at};
use crate::owners::owner_at;
use crate::scope::Scope;
use life_core::{Base, Location, Operand, RangeEnd};
use life_pointers::{Pointer, Stop, owned_end, viewed_end};
use life_store::Store;

/// Makes an iterator of an end of a range.
pub fn cursor<S: Store>(
    scope: &Scope<'_>,
    store: &mut S,
    cells: &mut Vec<Cell>,
    pointer: &Location,
    base: &Base,
    end: RangeEnd,
) -> Result<(), Stop>
    requires fits { IsFit (types_in scope.now) (S.content store.old) (S.rows store.old) cells.old.items }
    requires pointer { HoldsPointer (types_in scope.now) (function_in scope.now) (location_of pointer.now) (state_in (meant (types_in scope.now) (S.content store.old) (S.rows store.old)) cells.old.items) }
    requires base { IsRange (types_in scope.now) (function_in scope.now) (base_of base.now) (state_in (meant (types_in scope.now) (S.content store.old) (S.rows store.old)) cells.old.items) }
    ensures step { Comes (spec.cursor (types_in scope.now) (function_in scope.now) (location_of pointer.now) (base_of base.now) end) (meant (types_in scope.now) (S.content store.old) (S.rows store.old)) cells.old.items (meant (types_in scope.now) (S.content store.new) (S.rows store.new)) cells.new.items result }
    ensures fits { OnOk result (IsFit (types_in scope.now) (S.content store.new) (S.rows store.new) cells.new.items) }
    ensures keeps { Keeps (S.content store.old) (S.content store.new) (S.rows store.old) (S.rows store.new) }
    ensures limit { S.limit store.new ≡ S.limit store.old }
{
    let to = end_of(scope, store, cells, base, end)?;
    point(scope, store, cells, pointer, to)
}

// The end.
fn end_of<S: Store>(
    scope: &Scope<'_>,
    store: &S,
    cells: &[Cell],
    base: &Base,
    end: RangeEnd,
) -> Result<Pointer, Stop>
    requires fits { IsFit (types_in scope.now) (S.content store.now) (S.rows store.now) cells.now }
    requires base { IsRange (types_in scope.now) (function_in scope.now) (base_of base.now) (state_in (meant (types_in scope.now) (S.content store.now) (S.rows store.now)) cells.now) }
    ensures is { Makes (types_in scope.now) (function_in scope.now) (λ p. spec.cursor (types_in scope.now) (function_in scope.now) p (base_of base.now) end) (meant (types_in scope.now) (S.content store.now) (S.rows store.now)) cells.now result }
    ensures fits { IfOk result (PointerFits (S.content store.now) (S.rows store.now)) }
{
    match base {
        Base::Owner(operand) => of_owner(scope, store, cells, operand, end),
        Base::Pointer(location) => of_view(scope, store, cells, location, end),
    }
}

// .. of a vector or a string.
fn of_owner<S: Store>(
    scope: &Scope<'_>,
    store: &S,
    cells: &[Cell],
    operand: &Operand,
    end: RangeEnd,
) -> Result<Pointer, Stop>
    requires fits { IsFit (types_in scope.now) (S.content store.now) (S.rows store.now) cells.now }
    requires owner { IsOwnerPlace (types_in scope.now) (function_in scope.now) (operand_of operand.now) (state_in (meant (types_in scope.now) (S.content store.now) (S.rows store.now)) cells.now) }
    ensures is { Makes (types_in scope.now) (function_in scope.now) (λ p. spec.cursor (types_in scope.now) (function_in scope.now) p (Owner (operand_of operand.now)) end) (meant (types_in scope.now) (S.content store.now) (S.rows store.now)) cells.now result }
    ensures fits { IfOk result (PointerFits (S.content store.now) (S.rows store.now)) }
{
    match owner_at(scope, store, cells, operand) {
        Err(stop) => Err(stop),
        Ok(owner) => owned_end(store, owner, end),
    }
}

// .. of what a span or a view sees.
fn of_view<S: Store>(
    scope: &Scope<'_>,
    store: &S,
    cells: &[Cell],
    location: &Location,
    end: RangeEnd,
) -> Result<Pointer, Stop>
    requires fits { IsFit (types_in scope.now) (S.content store.now) (S.rows store.now) cells.now }
    requires holds { HoldsPointer (types_in scope.now) (function_in scope.now) (location_of location.now) (state_in (meant (types_in scope.now) (S.content store.now) (S.rows store.now)) cells.now) }
    requires short { CanEnd (types_in scope.now) (function_in scope.now) (location_of location.now) (state_in (meant (types_in scope.now) (S.content store.now) (S.rows store.now)) cells.now) }
    ensures is { Makes (types_in scope.now) (function_in scope.now) (λ p. spec.cursor (types_in scope.now) (function_in scope.now) p (Leading (location_of location.now)) end) (meant (types_in scope.now) (S.content store.now) (S.rows store.now)) cells.now result }
    ensures fits { IfOk result (PointerFits (S.content store.now) (S.rows store.now)) }
{
    match pointer_at(scope, store, cells, location) {
        None => Err(Stop::Lost),
        Some(view) => viewed_end(store, view, end),
    }
}
