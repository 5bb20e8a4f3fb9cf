// The operands of slots: what they hand over, and what they have while the call runs.
ghost use Rattle.std.specs.Prelude.{◌≡◌, ℕ, ℤ, option_map, IfSome, List};
ghost use Rattle.life_core.specs.Operands.{location_of, Location as AnyLocation};
ghost use Rattle.life_store.specs.Calls as spec;
ghost use Rattle.life_store.specs.Content.{Content};
ghost use Rattle.life_store.specs.Effects.{cell};
ghost use Rattle.life_store.specs.Parts.{location_parts};
ghost use Rattle.life_store.specs.Places.{location_cell, owner_spot_if};
ghost use Rattle.life_store.specs.References.{Rows};
ghost use Rattle.life_seen.specs.Housed.{IsRef};
ghost use Rattle.life_words.specs.Owning.{number_of};
ghost use Rattle.life_cells.specs.Cells.{cell_seen, state_in, state_of};
ghost use Rattle.life_cells.specs.Fits.{meant, CellFits, CellsFit, IsFit, Keeps};
ghost use Rattle.life_cells.specs.Scopes.{function_in, types_in};
ghost use Rattle.life_cells.specs.Typed.{HoldsOwner, HoldsPointer};
ghost use Rattle.life_cells.specs.declared.cell.Cell.{Cell as Held};
ghost use Rattle.life_slots.specs.Slots.{IsSlotPlace};

use crate::owners::own_at;
use crate::types::is_unique;
use life_cells::{Cell, Scope, holding, local_owner, pointer_at};
use life_core::Location;
use life_pointers::owned_by;
use life_store::{ObjRef, Store};

/// What is handed over for a slot: a pointer as its value, and a `std::unique_ptr` as what it owns.
pub fn slot_handed<S: Store>(
    scope: &Scope<'_>,
    store: &S,
    cells: &[Cell],
    location: &Location,
) -> Option<Cell>
    requires fits { IsFit (types_in scope.now) (S.content store.now) (S.rows store.now) cells.now }
    requires place { IsSlotPlace (types_in scope.now) (function_in scope.now) (location_of location.now) (state_in (meant (types_in scope.now) (S.content store.now) (S.rows store.now)) cells.now) }
    ensures seen { (output : List ℕ) (input : List ℤ) → option_map cell_seen result
        ≡ spec.slot_handed (types_in scope.now) (function_in scope.now) (location_parts (types_in scope.now) (function_in scope.now) (location_of location.now)) (location_of location.now) (state_of (meant (types_in scope.now) (S.content store.now) (S.rows store.now)) cells.now output input) }
    ensures fits { IfSome result (CellFits (S.content store.now) (S.rows store.now)) }
{
    if is_unique(scope, location) {
        owned_cell(scope, store, cells, location)
    } else {
        pointer_cell(scope, store, cells, location)
    }
}

/// The pointer at a location, as it is handed over.
pub fn pointer_cell<S: Store>(
    scope: &Scope<'_>,
    store: &S,
    cells: &[Cell],
    location: &Location,
) -> Option<Cell>
    requires fits { IsFit (types_in scope.now) (S.content store.now) (S.rows store.now) cells.now }
    requires holds { HoldsPointer (types_in scope.now) (function_in scope.now) (location_of location.now) (state_in (meant (types_in scope.now) (S.content store.now) (S.rows store.now)) cells.now) }
    ensures seen { option_map cell_seen result ≡ spec.pointer_handed (location_cell (types_in scope.now) (function_in scope.now) (location_of location.now) (state_in (meant (types_in scope.now) (S.content store.now) (S.rows store.now)) cells.now)) }
    ensures fits { IfSome result (CellFits (S.content store.now) (S.rows store.now)) }
{
    match pointer_at(scope, store, cells, location) {
        None => None,
        Some(pointer) => Some(holding(pointer)),
    }
}

// What the owner at a location owns, as it is handed over.
fn owned_cell<S: Store>(
    scope: &Scope<'_>,
    store: &S,
    cells: &[Cell],
    location: &Location,
) -> Option<Cell>
    requires fits { IsFit (types_in scope.now) (S.content store.now) (S.rows store.now) cells.now }
    requires owner { HoldsOwner (types_in scope.now) (function_in scope.now) (location_of location.now) (state_in (meant (types_in scope.now) (S.content store.now) (S.rows store.now)) cells.now) }
    ensures seen { option_map cell_seen result ≡ spec.target_handed (meant (types_in scope.now) (S.content store.now) (S.rows store.now)) (owner_spot_if (types_in scope.now) (function_in scope.now) (location_of location.now) (cell (state_in (meant (types_in scope.now) (S.content store.now) (S.rows store.now)) cells.now) location.now.local)) }
    ensures fits { IfSome result (CellFits (S.content store.now) (S.rows store.now)) }
{
    match local_owner(scope, store, cells, location) {
        Err(_) => None,
        Ok(owner) => Some(target_cell(owned_by(store, owner))),
    }
}

fn target_cell(owned: Option<ObjRef>) -> Cell
    ensures seen { cell_seen result ≡ spec.target_cell (option_map number_of owned) }
    ensures fits { (c : Content) (rows : Rows) → IfSome owned (IsRef c rows) → CellFits c rows result }
{
    match owned {
        None => Cell::Empty,
        Some(object) => Cell::Object(object),
    }
}

/// Null stands in a `std::unique_ptr` that was handed over as a slot while the call runs.
pub fn lend_slot<S: Store>(scope: &Scope<'_>, store: &mut S, cells: &[Cell], location: &Location)
    requires fits { IsFit (types_in scope.now) (S.content store.old) (S.rows store.old) cells.now }
    requires place { IsSlotPlace (types_in scope.now) (function_in scope.now) (location_of location.now) (state_in (meant (types_in scope.now) (S.content store.old) (S.rows store.old)) cells.now) }
    ensures lent { (output : List ℕ) (input : List ℤ)
        → spec.slot_lent (types_in scope.now) (function_in scope.now) (location_parts (types_in scope.now) (function_in scope.now) (location_of location.now)) (location_of location.now) (state_of (meant (types_in scope.now) (S.content store.old) (S.rows store.old)) cells.now output input)
        ≡ state_of (meant (types_in scope.now) (S.content store.new) (S.rows store.new)) cells.now output input }
    ensures fits { (others : List Held) → CellsFit (S.content store.old) (S.rows store.old) others → IsFit (types_in scope.now) (S.content store.new) (S.rows store.new) others }
    ensures places { (l : AnyLocation) → IsSlotPlace (types_in scope.now) (function_in scope.now) l (state_in (meant (types_in scope.now) (S.content store.old) (S.rows store.old)) cells.now)
        → IsSlotPlace (types_in scope.now) (function_in scope.now) l (state_in (meant (types_in scope.now) (S.content store.new) (S.rows store.new)) cells.now) }
    ensures keeps { Keeps (S.content store.old) (S.content store.new) (S.rows store.old) (S.rows store.new) }
    ensures limit { S.limit store.new ≡ S.limit store.old }
{
    if is_unique(scope, location) {
        match local_owner(scope, store, cells, location) {
            Err(_) => {}
            Ok(owner) => own_at(scope.types, store, owner, None),
        }
    }
}
