// What tests for null ask.
ghost use Rattle.std.specs.Prelude.{◌≡◌, [], false, option_map, true};
ghost use Rattle.life_core.specs.Operands.{location_of};
ghost use Rattle.life_store.specs.Effects.{cell};
ghost use Rattle.life_store.specs.Meaning as spec;
ghost use Rattle.life_store.specs.Parts as parts;
ghost use Rattle.life_pointers.specs.Pointers.{pointer_seen};
ghost use Rattle.life_cells.specs.Asked.{is_owning_one, is_unique, IsTestable};
ghost use Rattle.life_cells.specs.Cells.{pointer_in, state_in};
ghost use Rattle.life_cells.specs.Fits.{meant, IsFit};
ghost use Rattle.life_cells.specs.Scopes.{function_in, types_in};
ghost use Rattle.life_cells.specs.Typed.{is_nil, HoldsOwner};

use crate::cell::Cell;
use crate::frame::own_pointer;
use crate::locations::{is_whole, pointer_at};
use crate::members::location_type;
use crate::owners::local_owner;
use crate::scope::Scope;
use life_core::Location;
use life_pointers::{Pointer, owned_pointer};
use life_store::Store;
use life_types::Ty;

/// The pointer that a test for null asks for: a `std::unique_ptr` is as the pointer to what it owns.
pub fn tested<S: Store>(
    scope: &Scope<'_>,
    store: &S,
    cells: &[Cell],
    location: &Location,
) -> Option<Pointer>
    requires fits { IsFit (types_in scope.now) (S.content store.now) (S.rows store.now) cells.now }
    requires testable { IsTestable (types_in scope.now) (function_in scope.now) (location_of location.now) (state_in (meant (types_in scope.now) (S.content store.now) (S.rows store.now)) cells.now) }
    ensures { option_map pointer_seen result ≡ pointer_in (spec.tested (types_in scope.now) (function_in scope.now) (location_of location.now) (location_of location.now).members (cell (state_in (meant (types_in scope.now) (S.content store.now) (S.rows store.now)) cells.now) location.now.local) (meant (types_in scope.now) (S.content store.now) (S.rows store.now))) }
{
    if is_whole(location) {
        whole_tested(scope, store, cells, location)
    } else if is_unique(scope, location) {
        member_tested(scope, store, cells, location)
    } else {
        pointer_at(scope, store, cells, location)
    }
}

// .. of a local.
fn whole_tested<S: Store>(
    scope: &Scope<'_>,
    store: &S,
    cells: &[Cell],
    location: &Location,
) -> Option<Pointer>
    requires fits { IsFit (types_in scope.now) (S.content store.now) (S.rows store.now) cells.now }
    requires whole { (location_of location.now).members ≡ [] }
    requires owner { HoldsOwner (types_in scope.now) (function_in scope.now) (location_of location.now) (state_in (meant (types_in scope.now) (S.content store.now) (S.rows store.now)) cells.now) }
    ensures { option_map pointer_seen result ≡ pointer_in (spec.tested (types_in scope.now) (function_in scope.now) (location_of location.now) (location_of location.now).members (cell (state_in (meant (types_in scope.now) (S.content store.now) (S.rows store.now)) cells.now) location.now.local) (meant (types_in scope.now) (S.content store.now) (S.rows store.now))) }
{
    match local_owner(scope, store, cells, location) {
        Ok(owner) => Some(owned_pointer(store, owner)),
        Err(_) => own_pointer(cells, location.local),
    }
}

// .. of a member that is a `std::unique_ptr`.
fn member_tested<S: Store>(
    scope: &Scope<'_>,
    store: &S,
    cells: &[Cell],
    location: &Location,
) -> Option<Pointer>
    requires fits { IsFit (types_in scope.now) (S.content store.now) (S.rows store.now) cells.now }
    requires member { is_nil (location_of location.now).members ≡ false }
    requires unique { is_unique (parts.location_parts (types_in scope.now) (function_in scope.now) (location_of location.now)) ≡ true }
    requires owner { HoldsOwner (types_in scope.now) (function_in scope.now) (location_of location.now) (state_in (meant (types_in scope.now) (S.content store.now) (S.rows store.now)) cells.now) }
    ensures { option_map pointer_seen result ≡ pointer_in (spec.tested (types_in scope.now) (function_in scope.now) (location_of location.now) (location_of location.now).members (cell (state_in (meant (types_in scope.now) (S.content store.now) (S.rows store.now)) cells.now) location.now.local) (meant (types_in scope.now) (S.content store.now) (S.rows store.now))) }
{
    match local_owner(scope, store, cells, location) {
        Ok(owner) => Some(owned_pointer(store, owner)),
        Err(_) => None,
    }
}

// Whether what the location names is a `std::unique_ptr`.
fn is_unique(scope: &Scope<'_>, location: &Location) -> bool
    ensures { result ≡ is_unique (parts.location_parts (types_in scope.now) (function_in scope.now) (location_of location.now)) }
{
    match location_type(scope, location) {
        None => false,
        Some(id) => is_owning_one(scope.types.get(id)),
    }
}

fn is_owning_one(ty: Option<Ty>) -> bool
    ensures { result ≡ is_owning_one ty }
{
    matches!(ty, Some(Ty::Unique(_)))
}
