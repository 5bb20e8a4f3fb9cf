// Changes of owners.
ghost use Rattle.std.specs.Prelude.{◌≡◌, OnOk};
ghost use Rattle.life_core.specs.Operands.{operand_of};
ghost use Rattle.life_core.specs.Step.{change_of, Changes};
ghost use Rattle.life_store.specs.Doing as spec;
ghost use Rattle.life_store.specs.Effects.{Setting};
ghost use Rattle.life_store.specs.Parts.{parts_at};
ghost use Rattle.life_seen.specs.Housed.{Later};
ghost use Rattle.life_forest.proofs.StandingSteps.{IsTypedChange, IsTypedStep};
ghost use Rattle.life_pointers.specs.Owned.{spot_seen};
ghost use Rattle.life_cells.specs.Cells.{state_in};
ghost use Rattle.life_cells.specs.Fits.{meant, IsFit};
ghost use Rattle.life_cells.specs.Scopes.{function_in, texts_in, types_in};
ghost use Rattle.life_cells.specs.Typed.{IsOwnerPlace};
ghost use Rattle.life_changes.specs.Bounded.{Grows, IsBounded};
ghost use Rattle.life_changes.specs.Edits.{edit_of, IsFor};
ghost use Rattle.life_changes.specs.Owners.{IsContainer, OwnerAt};
ghost use Rattle.life_changes.specs.Ready.{AreServed, HasLocations, IsReady};
ghost use Rattle.life_changes.specs.Steps.{Goes, IsGiven};

use crate::characters::given;
use crate::edit::Edit;
use crate::edits::edit;
use crate::erasing::erase_at;
use crate::failure::Failure;
use crate::owner::operand_type;
use crate::pushing::push_back;
use life_cells::{Cell, Scope, number_at, owner_at};
use life_core::{Change, Operand};
use life_pointers::{Spot, Stop};
use life_store::{Growth, Store};
use life_types::TyId;
use std::alloc::Global;

/// Changes the owner that the operand names.
pub fn change<S: Store>(
    alloc: Global,
    scope: &Scope<'_>,
    store: &mut S,
    cells: &mut Vec<Cell>,
    place: &Operand,
    change: &Change,
    growth: Growth,
    depth: u32,
) -> Result<(), Failure>
    requires served { AreServed (types_in scope.now) (S.limit store.old) depth }
    requires ready { IsReady (types_in scope.now) (function_in scope.now) (S.limit store.old) (S.content store.old) (S.rows store.old) cells.old.items }
    requires owner { IsOwnerPlace (types_in scope.now) (function_in scope.now) (operand_of place.now) (state_in (meant (types_in scope.now) (S.content store.old) (S.rows store.old)) cells.old.items) }
    requires typed { IsTypedStep (types_in scope.now) (function_in scope.now) (state_in (meant (types_in scope.now) (S.content store.old) (S.rows store.old)) cells.old.items) (Changes (operand_of place.now) (change_of change.now)) }
    requires locations { HasLocations (types_in scope.now) (function_in scope.now) (change_of change.now) (state_in (meant (types_in scope.now) (S.content store.old) (S.rows store.old)) cells.old.items) }
    ensures step { (s : Setting) → IsGiven s growth (S.limit store.old) (texts_in scope.now)
        → Goes (spec.changes s (types_in scope.now) (function_in scope.now) (operand_of place.now) (change_of change.now)) (meant (types_in scope.now) (S.content store.old) (S.rows store.old)) cells.old.items (meant (types_in scope.now) (S.content store.new) (S.rows store.new)) cells.new.items result }
    ensures fits { OnOk result (IsFit (types_in scope.now) (S.content store.new) (S.rows store.new) cells.new.items) }
    ensures bounded { OnOk result (IsBounded (S.limit store.old) (meant (types_in scope.now) (S.content store.new) (S.rows store.new))) }
    ensures later { OnOk result (Later (S.content store.old) (S.content store.new) (S.rows store.old) (S.rows store.new)) }
    ensures grows { OnOk result (Grows (S.content store.old) (S.content store.new)) }
    ensures limit { S.limit store.new ≡ S.limit store.old }
{
    match owner_at(scope, store, cells, place) {
        Err(stop) => Err(Failure::Stopped(stop)),
        Ok(spot) => match operand_type(scope, place) {
            None => Err(Failure::Stopped(Stop::Lost)),
            Some(ty) => changed(alloc, scope, store, cells, spot, ty, change, growth, depth),
        },
    }
}

// The owner of the type that stands at the spot.
fn changed<S: Store>(
    alloc: Global,
    scope: &Scope<'_>,
    store: &mut S,
    cells: &mut Vec<Cell>,
    spot: Spot,
    ty: TyId,
    change: &Change,
    growth: Growth,
    depth: u32,
) -> Result<(), Failure>
    requires at { OwnerAt (types_in scope.now) (function_in scope.now) (S.limit store.old) depth ty spot (S.content store.old) (S.rows store.old) cells.old.items }
    requires container { IsContainer (parts_at (types_in scope.now) ty) }
    requires typed { IsTypedChange (types_in scope.now) (function_in scope.now) (state_in (meant (types_in scope.now) (S.content store.old) (S.rows store.old)) cells.old.items) ty (change_of change.now) }
    requires locations { HasLocations (types_in scope.now) (function_in scope.now) (change_of change.now) (state_in (meant (types_in scope.now) (S.content store.old) (S.rows store.old)) cells.old.items) }
    ensures step { (s : Setting) → IsGiven s growth (S.limit store.old) (texts_in scope.now)
        → Goes (spec.changed s (types_in scope.now) (function_in scope.now) (parts_at (types_in scope.now) ty) (spot_seen spot) (change_of change.now)) (meant (types_in scope.now) (S.content store.old) (S.rows store.old)) cells.old.items (meant (types_in scope.now) (S.content store.new) (S.rows store.new)) cells.new.items result }
    ensures fits { OnOk result (IsFit (types_in scope.now) (S.content store.new) (S.rows store.new) cells.new.items) }
    ensures bounded { OnOk result (IsBounded (S.limit store.old) (meant (types_in scope.now) (S.content store.new) (S.rows store.new))) }
    ensures later { OnOk result (Later (S.content store.old) (S.content store.new) (S.rows store.old) (S.rows store.new)) }
    ensures grows { OnOk result (Grows (S.content store.old) (S.content store.new)) }
    ensures limit { S.limit store.new ≡ S.limit store.old }
{
    match change {
        Change::PushBack(value) => {
            push_back(alloc, scope, store, cells, spot, ty, *value, growth, depth)
        }
        Change::PopBack => edit_here(
            alloc,
            scope,
            store,
            cells,
            spot,
            ty,
            Edit::Pop,
            growth,
            depth,
        ),
        Change::Clear => edit_here(
            alloc,
            scope,
            store,
            cells,
            spot,
            ty,
            Edit::Clear,
            growth,
            depth,
        ),
        Change::Reserve(register) => match number_at(cells, *register) {
            None => Err(Failure::Stopped(Stop::Lost)),
            Some(number) => {
                let edit = Edit::Reserve(number.cast_unsigned());
                edit_here(alloc, scope, store, cells, spot, ty, edit, growth, depth)
            }
        },
        Change::Erase { at, into } => { erase_at(scope, store, cells, spot, ty, at, into, depth) }
        Change::Set(characters) => match given(alloc, scope, store, cells, characters) {
            Err(failure) => Err(failure),
            Ok(words) => {
                let edit = Edit::Put(&words);
                edit_here(alloc, scope, store, cells, spot, ty, edit, growth, depth)
            }
        },
        Change::Append(characters) => match given(alloc, scope, store, cells, characters) {
            Err(failure) => Err(failure),
            Ok(words) => {
                let edit = Edit::Add(&words);
                edit_here(alloc, scope, store, cells, spot, ty, edit, growth, depth)
            }
        },
    }
}

/// One change of a vector or a string, by which no cell changes.
pub(crate) fn edit_here<S: Store>(
    alloc: Global,
    scope: &Scope<'_>,
    store: &mut S,
    cells: &[Cell],
    spot: Spot,
    ty: TyId,
    change: Edit<'_>,
    growth: Growth,
    depth: u32,
) -> Result<(), Failure>
    requires at { OwnerAt (types_in scope.now) (function_in scope.now) (S.limit store.old) depth ty spot (S.content store.old) (S.rows store.old) cells.now }
    requires container { IsContainer (parts_at (types_in scope.now) ty) }
    requires fit { IsFor (types_in scope.now) ty change }
    ensures step { (s : Setting) → IsGiven s growth (S.limit store.old) (texts_in scope.now)
        → Goes (spec.edits s (parts_at (types_in scope.now) ty) (spot_seen spot) (edit_of change.entry)) (meant (types_in scope.now) (S.content store.old) (S.rows store.old)) cells.now (meant (types_in scope.now) (S.content store.new) (S.rows store.new)) cells.now result }
    ensures fits { OnOk result (IsFit (types_in scope.now) (S.content store.new) (S.rows store.new) cells.now) }
    ensures bounded { OnOk result (IsBounded (S.limit store.old) (meant (types_in scope.now) (S.content store.new) (S.rows store.new))) }
    ensures later { OnOk result (Later (S.content store.old) (S.content store.new) (S.rows store.old) (S.rows store.new)) }
    ensures grows { OnOk result (Grows (S.content store.old) (S.content store.new)) }
    ensures limit { S.limit store.new ≡ S.limit store.old }
{
    edit(alloc, scope, store, spot, ty, change, growth, depth)
}
