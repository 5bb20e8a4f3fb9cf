// What comes back for slots.
ghost use Rattle.std.specs.Prelude.{◌≢◌, ◌≡◌, option_map, take, IfSome, OnOk, Some};
ghost use Rattle.life_core.specs.Operands.{location_of};
ghost use Rattle.life_store.specs.Calls.{slot_returned};
ghost use Rattle.life_store.specs.Content.{without};
ghost use Rattle.life_store.specs.Held.{slot_words};
ghost use Rattle.life_store.specs.Places.{wrote_spot};
ghost use Rattle.life_store.specs.State.{Named};
ghost use Rattle.life_seen.specs.Housed.{Later, Shows};
ghost use Rattle.life_seen.specs.Kinds.{kinds_of};
ghost use Rattle.life_seen.specs.Rowed.{AreRowed};
ghost use Rattle.life_words.specs.Owning.{number_of};
ghost use Rattle.life_pointers.specs.Owned.{spot_seen};
ghost use Rattle.life_cells.specs.Cells.{cell_seen, object_in};
ghost use Rattle.life_cells.specs.Fits.{meant, CellFits, IsFit};
ghost use Rattle.life_cells.specs.Owners.{OwnsAt};
ghost use Rattle.life_cells.specs.Scopes.{function_in, types_in};
ghost use Rattle.life_cells.specs.Steps.{Comes};
ghost use Rattle.life_cells.specs.declared.cell.Cell.TheVariants as held;
ghost use Rattle.life_slots.specs.Slots.{CanGiveBack, IsBehind, IsSlot};

use crate::owners::own_at;
use life_cells::{Cell, Scope, local_owner, point, pointer_of};
use life_core::Location;
use life_pointers::{Spot, Stop};
use life_store::{ObjRef, Store};
use life_types::TypeTable;
use life_words::owned;

/// The operand of a slot has its value back. The object of a slot of a `std::unique_ptr` is no more
/// then.
pub fn return_slot<S: Store>(
    scope: &Scope<'_>,
    store: &mut S,
    cells: &mut Vec<Cell>,
    location: &Location,
    value: Cell,
) -> Result<(), Stop>
    requires fits { IsFit (types_in scope.now) (S.content store.old) (S.rows store.old) cells.old.items }
    requires value { CellFits (S.content store.old) (S.rows store.old) value }
    requires can { CanGiveBack (types_in scope.now) (function_in scope.now) (location_of location.now) value (S.content store.old) (S.rows store.old) cells.old.items }
    ensures step { Comes (slot_returned (types_in scope.now) (function_in scope.now) (location_of location.now) (cell_seen value)) (meant (types_in scope.now) (S.content store.old) (S.rows store.old)) cells.old.items (meant (types_in scope.now) (S.content store.new) (S.rows store.new)) cells.new.items result }
    ensures fits { OnOk result (IsFit (types_in scope.now) (S.content store.new) (S.rows store.new) cells.new.items) }
    ensures behind { OnOk result (IsBehind (S.content store.old) (S.content store.new) (S.rows store.old) (S.rows store.new)) }
    ensures limit { S.limit store.new ≡ S.limit store.old }
{
    match object_of(value) {
        Some(slot) => owner_back(scope, store, cells, location, slot),
        None => match pointer_of(value) {
            None => Err(Stop::Lost),
            Some(pointer) => point(scope, store, cells, location, pointer),
        },
    }
}

/// The object that the cell names, if it names one.
pub fn object_of(cell: Cell) -> Option<ObjRef>
    ensures is { option_map number_of result ≡ object_in (Some (cell_seen cell)) }
    ensures held { IfSome result (λ r. cell ≡ held.Object r) }
{
    match cell {
        Cell::Object(object) => Some(object),
        Cell::Empty => None,
        Cell::Number(_) => None,
        Cell::Null => None,
        Cell::Wild => None,
        Cell::To { .. } => None,
        Cell::Static(_) => None,
    }
}

// A `std::unique_ptr` has what the slot owns.
fn owner_back<S: Store>(
    scope: &Scope<'_>,
    store: &mut S,
    cells: &[Cell],
    location: &Location,
    slot: ObjRef,
) -> Result<(), Stop>
    requires fits { IsFit (types_in scope.now) (S.content store.old) (S.rows store.old) cells.now }
    requires can { CanGiveBack (types_in scope.now) (function_in scope.now) (location_of location.now) (held.Object slot) (S.content store.old) (S.rows store.old) cells.now }
    ensures step { Comes (slot_returned (types_in scope.now) (function_in scope.now) (location_of location.now) (Named slot.birth)) (meant (types_in scope.now) (S.content store.old) (S.rows store.old)) cells.now (meant (types_in scope.now) (S.content store.new) (S.rows store.new)) cells.now result }
    ensures fits { OnOk result (IsFit (types_in scope.now) (S.content store.new) (S.rows store.new) cells.now) }
    ensures behind { OnOk result (IsBehind (S.content store.old) (S.content store.new) (S.rows store.old) (S.rows store.new)) }
    ensures limit { S.limit store.new ≡ S.limit store.old }
{
    match local_owner(scope, store, cells, location) {
        Err(stop) => Err(stop),
        Ok(owner) => {
            take_back(scope.types, store, owner, slot);
            Ok(())
        }
    }
}

// The owner at a spot owns what the slot owns, which is no more then.
fn take_back<S: Store>(types: &TypeTable, store: &mut S, owner: Spot, slot: ObjRef)
    requires owns { OwnsAt (kinds_of types.now) (S.content store.old) (S.rows store.old) owner }
    requires slot { IsSlot types.now slot (S.content store.old) (S.rows store.old) }
    requires apart { owner.object.birth ≢ slot.birth }
    ensures shows { Shows (kinds_of types.now) (S.content store.new) (S.rows store.new)
        (without slot.birth (wrote_spot (spot_seen owner) (take 1 (slot_words (meant types.now (S.content store.old) (S.rows store.old)) slot.birth 0)) (meant types.now (S.content store.old) (S.rows store.old)))) }
    ensures rowed { AreRowed (kinds_of types.now) (S.content store.old) (S.rows store.old) → AreRowed (kinds_of types.now) (S.content store.new) (S.rows store.new) }
    ensures later { Later (S.content store.old) (S.content store.new) (S.rows store.old) (S.rows store.new) }
    ensures limit { S.limit store.new ≡ S.limit store.old }
{
    let had = owned(store, slot, 0, 0);
    match store.finish(slot) {
        Ok(()) => {}
        Err(_) => unreachable!(),
    }
    own_at(types, store, owner, had);
}
