// What stands at a spot.
ghost use Rattle.std.specs.Prelude.{◌≡◌};
ghost use Rattle.life_core.specs.Operands.{operand_of};
ghost use Rattle.life_store.specs.Parts as parts;
ghost use Rattle.life_store.specs.Parts.{parts_at};
ghost use Rattle.life_values.specs.Layouts.{flat};
ghost use Rattle.life_cells.specs.Scopes.{function_in, types_in};
ghost use Rattle.life_changes.specs.Owners.{characters_in, elements_in, first_of, target_in, widened};

use life_cells::{Scope, location_type, target_type, type_within};
use life_core::Operand;
use life_pointers::Spot;
use life_types::TyId;
use life_values::Holds;

/// The type of what the operand names.
pub fn operand_type(scope: &Scope<'_>, operand: &Operand) -> Option<TyId>
    ensures { result ≡ parts.operand_type (types_in scope.now) (function_in scope.now) (operand_of operand.now) }
{
    match operand {
        Operand::Name(location) => location_type(scope, location),
        Operand::Through { pointer, members } => {
            let target = target_type(scope, location_type(scope, pointer));
            type_within(scope, target, members)
        }
    }
}

/// What a value of the type is at its first word, if that isn't a number or an iterator.
pub(crate) fn first_part(scope: &Scope<'_>, ty: TyId) -> Option<Holds>
    ensures { result ≡ first_of (flat 0 (parts_at (types_in scope.now) ty)) }
{
    match scope.layouts.get(ty.0 as usize) {
        None => None,
        Some(layout) => match layout.leaves.first() {
            None => None,
            Some(leaf) => Some(leaf.holds),
        },
    }
}

/// The type of its elements, where that is a vector.
pub(crate) fn elements_of(first: Option<Holds>) -> Option<TyId>
    ensures { result ≡ elements_in first }
{
    match first {
        Some(Holds::Elements(ty)) => Some(ty),
        _ => None,
    }
}

/// The type of its characters, where that is a string.
pub(crate) fn characters_of(first: Option<Holds>) -> Option<TyId>
    ensures { result ≡ characters_in first }
{
    match first {
        Some(Holds::Characters(ty)) => Some(ty),
        _ => None,
    }
}

/// The type of its target, where that is a `std::unique_ptr`.
pub(crate) fn target_of(first: Option<Holds>) -> Option<TyId>
    ensures { result ≡ target_in first }
{
    match first {
        Some(Holds::Target(ty)) => Some(ty),
        _ => None,
    }
}

/// The spot by wider numbers.
pub fn wide(spot: Spot) -> life_values::Spot
    ensures { result ≡ widened spot }
{
    life_values::Spot {
        object: spot.object,
        slot: spot.index,
        word: spot.word as u64,
    }
}
