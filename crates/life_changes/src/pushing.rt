// How values are added.
ghost use Rattle.std.specs.Prelude.{◌≡◌, OnOk, slice_get, Some};
ghost use Rattle.life_core.specs.Step.{PushBack};
ghost use Rattle.life_store.specs.Doing as spec;
ghost use Rattle.life_store.specs.Effects.{cell, Setting};
ghost use Rattle.life_store.specs.Parts.{parts_at};
ghost use Rattle.life_seen.specs.Housed.{Later};
ghost use Rattle.life_forest.proofs.StandingSteps.{IsTypedChange};
ghost use Rattle.life_pointers.specs.Owned.{spot_seen};
ghost use Rattle.life_cells.specs.Cells.{state_in};
ghost use Rattle.life_cells.specs.Fits.{meant, IsFit};
ghost use Rattle.life_cells.specs.Scopes.{function_in, texts_in, types_in};
ghost use Rattle.life_cells.specs.declared.cell.Cell.TheVariants as held;
ghost use Rattle.life_changes.specs.Bounded.{Grows, IsBounded};
ghost use Rattle.life_changes.specs.Owners.{IsContainer, OwnerAt};
ghost use Rattle.life_changes.specs.Steps.{Goes, IsGiven};

use crate::changing::edit_here;
use crate::edit::Edit;
use crate::failure::{Failure, unborn};
use crate::owner::wide;
use life_cells::{Cell, Scope, cell_at, put_cell};
use life_pointers::{Spot, Stop, buffer};
use life_store::{Growth, ObjRef, Store};
use life_types::TyId;
use life_values::push_taken;
use std::alloc::Global;

/// Adds a register's value, or a temporary that gives its value over.
pub(crate) fn push_back<S: Store>(
    alloc: Global,
    scope: &Scope<'_>,
    store: &mut S,
    cells: &mut Vec<Cell>,
    spot: Spot,
    ty: TyId,
    value: u32,
    growth: Growth,
    depth: u32,
) -> Result<(), Failure>
    requires at { OwnerAt (types_in scope.now) (function_in scope.now) (S.limit store.old) depth ty spot (S.content store.old) (S.rows store.old) cells.old.items }
    requires container { IsContainer (parts_at (types_in scope.now) ty) }
    requires typed { IsTypedChange (types_in scope.now) (function_in scope.now) (state_in (meant (types_in scope.now) (S.content store.old) (S.rows store.old)) cells.old.items) ty (PushBack value) }
    ensures step { (s : Setting) → IsGiven s growth (S.limit store.old) (texts_in scope.now)
        → Goes (λ st. spec.pushes s (types_in scope.now) (function_in scope.now) (parts_at (types_in scope.now) ty) (spot_seen spot) value (cell st value) st) (meant (types_in scope.now) (S.content store.old) (S.rows store.old)) cells.old.items (meant (types_in scope.now) (S.content store.new) (S.rows store.new)) cells.new.items result }
    ensures fits { OnOk result (IsFit (types_in scope.now) (S.content store.new) (S.rows store.new) cells.new.items) }
    ensures bounded { OnOk result (IsBounded (S.limit store.old) (meant (types_in scope.now) (S.content store.new) (S.rows store.new))) }
    ensures later { OnOk result (Later (S.content store.old) (S.content store.new) (S.rows store.old) (S.rows store.new)) }
    ensures grows { OnOk result (Grows (S.content store.old) (S.content store.new)) }
    ensures limit { S.limit store.new ≡ S.limit store.old }
{
    match cell_at(cells, value) {
        Some(Cell::Number(number)) => {
            let edit = Edit::Push(number.cast_unsigned());
            edit_here(alloc, scope, store, cells, spot, ty, edit, growth, depth)
        }
        Some(Cell::Object(temporary)) => {
            push_object(
                scope, store, cells, spot, ty, value, temporary, growth, depth,
            )
        }
        Some(Cell::Empty) => Err(Failure::Stopped(Stop::Lost)),
        Some(Cell::Null) => Err(Failure::Stopped(Stop::Lost)),
        Some(Cell::Wild) => Err(Failure::Stopped(Stop::Lost)),
        Some(Cell::To { .. }) => Err(Failure::Stopped(Stop::Lost)),
        Some(Cell::Static(_)) => Err(Failure::Stopped(Stop::Lost)),
        None => Err(Failure::Stopped(Stop::Lost)),
    }
}

// A temporary gives its value over to a vector, and is no more.
fn push_object<S: Store>(
    scope: &Scope<'_>,
    store: &mut S,
    cells: &mut Vec<Cell>,
    spot: Spot,
    ty: TyId,
    value: u32,
    temporary: ObjRef,
    growth: Growth,
    depth: u32,
) -> Result<(), Failure>
    requires at { OwnerAt (types_in scope.now) (function_in scope.now) (S.limit store.old) depth ty spot (S.content store.old) (S.rows store.old) cells.old.items }
    requires container { IsContainer (parts_at (types_in scope.now) ty) }
    requires typed { IsTypedChange (types_in scope.now) (function_in scope.now) (state_in (meant (types_in scope.now) (S.content store.old) (S.rows store.old)) cells.old.items) ty (PushBack value) }
    requires held { slice_get cells.old.items value ≡ Some (held.Object temporary) }
    ensures step { (s : Setting) → IsGiven s growth (S.limit store.old) (texts_in scope.now)
        → Goes (λ st. spec.pushes s (types_in scope.now) (function_in scope.now) (parts_at (types_in scope.now) ty) (spot_seen spot) value (cell st value) st) (meant (types_in scope.now) (S.content store.old) (S.rows store.old)) cells.old.items (meant (types_in scope.now) (S.content store.new) (S.rows store.new)) cells.new.items result }
    ensures fits { OnOk result (IsFit (types_in scope.now) (S.content store.new) (S.rows store.new) cells.new.items) }
    ensures bounded { OnOk result (IsBounded (S.limit store.old) (meant (types_in scope.now) (S.content store.new) (S.rows store.new))) }
    ensures later { OnOk result (Later (S.content store.old) (S.content store.new) (S.rows store.old) (S.rows store.new)) }
    ensures grows { OnOk result (Grows (S.content store.old) (S.content store.new)) }
    ensures limit { S.limit store.new ≡ S.limit store.old }
{
    match buffer(store, spot) {
        Err(stop) => Err(Failure::Stopped(stop)),
        Ok(buffer) => {
            let place = wide(spot);
            match push_taken(
                scope.types,
                scope.layouts,
                store,
                place,
                buffer,
                temporary,
                growth,
            ) {
                Err(fault) => Err(unborn(fault)),
                Ok(()) => {
                    put_cell(cells, value, Cell::Empty);
                    Ok(())
                }
            }
        }
    }
}
