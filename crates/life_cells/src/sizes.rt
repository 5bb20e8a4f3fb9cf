// How many elements there are.
ghost use Rattle.std.specs.Prelude.{◌≡◌, ◌<◌, ◌^◌, IfOk, OnOk};
ghost use Rattle.life_core.specs.Operands.{base_of, location_of, operand_of, Owner, Pointer as Leading};
ghost use Rattle.life_store.specs.Doing as spec;
ghost use Rattle.life_cells.specs.Cells.{state_in};
ghost use Rattle.life_cells.specs.Fits.{meant, IsFit};
ghost use Rattle.life_cells.specs.Scopes.{function_in, types_in};
ghost use Rattle.life_cells.specs.Steps.{Comes, Counts};
ghost use Rattle.life_cells.specs.Typed.{HoldsPointer, IsBase, IsOwnerPlace};

use crate::cell::Cell;
use crate::frame::put_cell;
use crate::locations::pointer_at;
use crate::owners::owner_at;
use crate::scope::Scope;
use life_core::{Base, Location, Operand};
use life_pointers::{Stop, owned_size, viewed_size};
use life_store::Store;

/// Reads the number of elements into a register.
pub fn size<S: Store>(
    scope: &Scope<'_>,
    store: &S,
    cells: &mut Vec<Cell>,
    into: u32,
    base: &Base,
) -> Result<(), Stop>
    requires fits { IsFit (types_in scope.now) (S.content store.now) (S.rows store.now) cells.old.items }
    requires base { IsBase (types_in scope.now) (function_in scope.now) (base_of base.now) (state_in (meant (types_in scope.now) (S.content store.now) (S.rows store.now)) cells.old.items) }
    ensures step { Comes (spec.sized (types_in scope.now) (function_in scope.now) into (base_of base.now)) (meant (types_in scope.now) (S.content store.now) (S.rows store.now)) cells.old.items (meant (types_in scope.now) (S.content store.now) (S.rows store.now)) cells.new.items result }
    ensures fits { OnOk result (IsFit (types_in scope.now) (S.content store.now) (S.rows store.now) cells.new.items) }
{
    let count = counted(scope, store, cells, base)?;
    put_cell(cells, into, Cell::Number(count.cast_signed()));
    Ok(())
}

// The number of elements.
fn counted<S: Store>(scope: &Scope<'_>, store: &S, cells: &[Cell], base: &Base) -> Result<u64, Stop>
    requires fits { IsFit (types_in scope.now) (S.content store.now) (S.rows store.now) cells.now }
    requires base { IsBase (types_in scope.now) (function_in scope.now) (base_of base.now) (state_in (meant (types_in scope.now) (S.content store.now) (S.rows store.now)) cells.now) }
    ensures is { Counts (λ r. spec.sized (types_in scope.now) (function_in scope.now) r (base_of base.now)) (meant (types_in scope.now) (S.content store.now) (S.rows store.now)) cells.now result }
    ensures small { IfOk result (λ n. n < 2 ^ 63) }
{
    match base {
        Base::Owner(operand) => of_owner(scope, store, cells, operand),
        Base::Pointer(location) => of_view(scope, store, cells, location),
    }
}

// .. of a vector or a string.
fn of_owner<S: Store>(
    scope: &Scope<'_>,
    store: &S,
    cells: &[Cell],
    operand: &Operand,
) -> Result<u64, Stop>
    requires fits { IsFit (types_in scope.now) (S.content store.now) (S.rows store.now) cells.now }
    requires owner { IsOwnerPlace (types_in scope.now) (function_in scope.now) (operand_of operand.now) (state_in (meant (types_in scope.now) (S.content store.now) (S.rows store.now)) cells.now) }
    ensures is { Counts (λ r. spec.sized (types_in scope.now) (function_in scope.now) r (Owner (operand_of operand.now))) (meant (types_in scope.now) (S.content store.now) (S.rows store.now)) cells.now result }
    ensures small { IfOk result (λ n. n < 2 ^ 63) }
{
    match owner_at(scope, store, cells, operand) {
        Err(stop) => Err(stop),
        Ok(owner) => match owned_size(store, owner) {
            Err(stop) => Err(stop),
            Ok(count) => Ok(count as u64),
        },
    }
}

// .. of what a span or a view sees.
fn of_view<S: Store>(
    scope: &Scope<'_>,
    store: &S,
    cells: &[Cell],
    location: &Location,
) -> Result<u64, Stop>
    requires fits { IsFit (types_in scope.now) (S.content store.now) (S.rows store.now) cells.now }
    requires holds { HoldsPointer (types_in scope.now) (function_in scope.now) (location_of location.now) (state_in (meant (types_in scope.now) (S.content store.now) (S.rows store.now)) cells.now) }
    ensures is { Counts (λ r. spec.sized (types_in scope.now) (function_in scope.now) r (Leading (location_of location.now))) (meant (types_in scope.now) (S.content store.now) (S.rows store.now)) cells.now result }
    ensures small { IfOk result (λ n. n < 2 ^ 63) }
{
    match pointer_at(scope, store, cells, location) {
        None => Err(Stop::Lost),
        Some(view) => viewed_size(store, view),
    }
}
