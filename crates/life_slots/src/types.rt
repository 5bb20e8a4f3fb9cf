// Types of slots.
ghost use Rattle.std.specs.Prelude.{◌≡◌};
ghost use Rattle.life_core.specs.Operands.{location_of};
ghost use Rattle.life_store.specs.Parts as parts;
ghost use Rattle.life_cells.specs.Asked.{is_owning_one, is_unique};
ghost use Rattle.life_cells.specs.Scopes.{function_in, types_in};
ghost use Rattle.life_slots.specs.Slots.{referred, slot_type};

use life_cells::{Scope, location_type};
use life_core::Location;
use life_types::{Ty, TyId, TypeTable, is_slot};

/// The type of what a parameter of the type is a slot of, if it is one.
pub fn slot_type(types: &TypeTable, ty: TyId) -> Option<TyId>
    ensures { result ≡ slot_type types.now ty }
{
    if is_slot(types, ty) {
        referred(types.get(ty))
    } else {
        None
    }
}

fn referred(ty: Option<Ty>) -> Option<TyId>
    ensures { result ≡ referred ty }
{
    match ty {
        Some(Ty::Reference { target, .. }) => Some(target),
        _ => None,
    }
}

/// Whether what the location names is a `std::unique_ptr`.
pub(crate) fn is_unique(scope: &Scope<'_>, location: &Location) -> bool
    ensures { result ≡ is_unique (parts.location_parts (types_in scope.now) (function_in scope.now) (location_of location.now)) }
{
    match location_type(scope, location) {
        None => false,
        Some(id) => is_owning_one(scope.types.get(id)),
    }
}

fn is_owning_one(ty: Option<Ty>) -> bool
    ensures { result ≡ is_owning_one ty }
{
    matches!(ty, Some(Ty::Unique(_)))
}
