// How elements of vectors go.
ghost use Rattle.std.specs.Prelude.{◌≡◌, ◌<◌, OnOk};
ghost use Rattle.life_types.specs.declared.ty.TyId.{TyId as Id};
ghost use Rattle.life_core.specs.Operands.{location_of};
ghost use Rattle.life_core.specs.Step.{Erase};
ghost use Rattle.life_store.specs.Doing as spec;
ghost use Rattle.life_store.specs.Edits.{size_of};
ghost use Rattle.life_store.specs.Effects.{Setting};
ghost use Rattle.life_store.specs.Parts.{parts_at, Vector};
ghost use Rattle.life_seen.specs.Housed.{Later};
ghost use Rattle.life_forest.proofs.StandingSteps.{IsTypedChange};
ghost use Rattle.life_pointers.specs.Owned.{spot_seen};
ghost use Rattle.life_pointers.specs.Pointers.{pointer_seen};
ghost use Rattle.life_cells.specs.Cells.{state_in};
ghost use Rattle.life_cells.specs.Fits.{meant, IsFit};
ghost use Rattle.life_cells.specs.Scopes.{function_in, types_in};
ghost use Rattle.life_changes.specs.Bounded.{Grows, IsBounded};
ghost use Rattle.life_changes.specs.Erasing.{erased_into};
ghost use Rattle.life_changes.specs.Owners.{BufferAt, IsContainer, OwnerAt};
ghost use Rattle.life_changes.specs.Ready.{HasLocations, TakesIterator, TakesIteratorOf};
ghost use Rattle.life_changes.specs.Steps.{Goes};

use crate::failure::Failure;
use crate::owner::{elements_of, first_part};
use life_cells::{Cell, Scope, point, pointer_at};
use life_core::Location;
use life_pointers::{Pointer, Spot, Stop, buffer, erasable, place_pointer, standing};
use life_store::{ObjRef, Store};
use life_types::TyId;
use life_values::erase;

/// Ends the element at an iterator. A location is given the iterator to what stands there then.
pub(crate) fn erase_at<S: Store>(
    scope: &Scope<'_>,
    store: &mut S,
    cells: &mut Vec<Cell>,
    spot: Spot,
    ty: TyId,
    from: &Location,
    into: &Location,
    depth: u32,
) -> Result<(), Failure>
    requires at { OwnerAt (types_in scope.now) (function_in scope.now) (S.limit store.old) depth ty spot (S.content store.old) (S.rows store.old) cells.old.items }
    requires container { IsContainer (parts_at (types_in scope.now) ty) }
    requires typed { IsTypedChange (types_in scope.now) (function_in scope.now) (state_in (meant (types_in scope.now) (S.content store.old) (S.rows store.old)) cells.old.items) ty (Erase (location_of from.now) (location_of into.now)) }
    requires locations { HasLocations (types_in scope.now) (function_in scope.now) (Erase (location_of from.now) (location_of into.now)) (state_in (meant (types_in scope.now) (S.content store.old) (S.rows store.old)) cells.old.items) }
    ensures step { (s : Setting) → Goes (spec.changed s (types_in scope.now) (function_in scope.now) (parts_at (types_in scope.now) ty) (spot_seen spot) (Erase (location_of from.now) (location_of into.now))) (meant (types_in scope.now) (S.content store.old) (S.rows store.old)) cells.old.items (meant (types_in scope.now) (S.content store.new) (S.rows store.new)) cells.new.items result }
    ensures fits { OnOk result (IsFit (types_in scope.now) (S.content store.new) (S.rows store.new) cells.new.items) }
    ensures bounded { OnOk result (IsBounded (S.limit store.old) (meant (types_in scope.now) (S.content store.new) (S.rows store.new))) }
    ensures later { OnOk result (Later (S.content store.old) (S.content store.new) (S.rows store.old) (S.rows store.new)) }
    ensures grows { OnOk result (Grows (S.content store.old) (S.content store.new)) }
    ensures limit { S.limit store.new ≡ S.limit store.old }
{
    match pointer_at(scope, store, cells, from) {
        None => Err(Failure::Stopped(Stop::Lost)),
        Some(pointer) => match standing(store, pointer) {
            Err(stop) => Err(Failure::Stopped(stop)),
            Ok(iterator) => erase_here(scope, store, cells, spot, ty, iterator, into, depth),
        },
    }
}

// .. at one that may be used: of an element of the vector.
fn erase_here<S: Store>(
    scope: &Scope<'_>,
    store: &mut S,
    cells: &mut Vec<Cell>,
    spot: Spot,
    ty: TyId,
    iterator: Pointer,
    into: &Location,
    depth: u32,
) -> Result<(), Failure>
    requires at { OwnerAt (types_in scope.now) (function_in scope.now) (S.limit store.old) depth ty spot (S.content store.old) (S.rows store.old) cells.old.items }
    requires container { IsContainer (parts_at (types_in scope.now) ty) }
    requires takes { TakesIteratorOf (types_in scope.now) (function_in scope.now) ty (location_of into.now) (state_in (meant (types_in scope.now) (S.content store.old) (S.rows store.old)) cells.old.items) }
    ensures step { Goes (spec.erases (types_in scope.now) (function_in scope.now) (parts_at (types_in scope.now) ty) (spot_seen spot) (pointer_seen iterator) (location_of into.now)) (meant (types_in scope.now) (S.content store.old) (S.rows store.old)) cells.old.items (meant (types_in scope.now) (S.content store.new) (S.rows store.new)) cells.new.items result }
    ensures fits { OnOk result (IsFit (types_in scope.now) (S.content store.new) (S.rows store.new) cells.new.items) }
    ensures bounded { OnOk result (IsBounded (S.limit store.old) (meant (types_in scope.now) (S.content store.new) (S.rows store.new))) }
    ensures later { OnOk result (Later (S.content store.old) (S.content store.new) (S.rows store.old) (S.rows store.new)) }
    ensures grows { OnOk result (Grows (S.content store.old) (S.content store.new)) }
    ensures limit { S.limit store.new ≡ S.limit store.old }
{
    match elements_of(first_part(scope, ty)) {
        None => Err(Failure::Stopped(Stop::Lost)),
        Some(_) => match buffer(store, spot) {
            Err(stop) => Err(Failure::Stopped(stop)),
            Ok(buffer) => match erasable(store, buffer, iterator) {
                Err(stop) => Err(Failure::Stopped(stop)),
                Ok(index) => {
                    erase_element(scope, store, cells, spot, ty, buffer, index, into, depth)
                }
            },
        },
    }
}

// The element of the vector's buffer goes, and then the location is given the iterator.
fn erase_element<S: Store>(
    scope: &Scope<'_>,
    store: &mut S,
    cells: &mut Vec<Cell>,
    spot: Spot,
    ty: TyId,
    buffer: ObjRef,
    index: u32,
    into: &Location,
    depth: u32,
) -> Result<(), Failure>
    requires at { BufferAt (types_in scope.now) (function_in scope.now) (S.limit store.old) depth ty spot buffer (S.content store.old) (S.rows store.old) cells.old.items }
    requires vector { (id : Id) × (parts_at (types_in scope.now) ty ≡ Vector id (parts_at (types_in scope.now) id)) × TakesIterator (types_in scope.now) (function_in scope.now) id (location_of into.now) (state_in (meant (types_in scope.now) (S.content store.old) (S.rows store.old)) cells.old.items) }
    requires inside { index < size_of (meant (types_in scope.now) (S.content store.old) (S.rows store.old)) buffer.birth }
    ensures step { (id : Id) → parts_at (types_in scope.now) ty ≡ Vector id (parts_at (types_in scope.now) id)
        → Goes (erased_into (types_in scope.now) (function_in scope.now) (parts_at (types_in scope.now) id) buffer.birth index (location_of into.now)) (meant (types_in scope.now) (S.content store.old) (S.rows store.old)) cells.old.items (meant (types_in scope.now) (S.content store.new) (S.rows store.new)) cells.new.items result }
    ensures fits { OnOk result (IsFit (types_in scope.now) (S.content store.new) (S.rows store.new) cells.new.items) }
    ensures bounded { OnOk result (IsBounded (S.limit store.old) (meant (types_in scope.now) (S.content store.new) (S.rows store.new))) }
    ensures later { OnOk result (Later (S.content store.old) (S.content store.new) (S.rows store.old) (S.rows store.new)) }
    ensures grows { OnOk result (Grows (S.content store.old) (S.content store.new)) }
    ensures limit { S.limit store.new ≡ S.limit store.old }
{
    erase(scope.types, scope.layouts, store, buffer, index, depth);
    let place = Spot {
        object: buffer,
        index,
        word: 0,
    };
    let pointer = place_pointer(store.now(), place);
    match point(scope, store, cells, into, pointer) {
        Err(stop) => Err(Failure::Stopped(stop)),
        Ok(()) => Ok(()),
    }
}
