// The places that lie at steps from another one, and their types.
ghost use Rattle.std.specs.Prelude.{◌≡◌};
ghost use Rattle.life_pset.specs.Inputs.{input_seen};
ghost use Rattle.life_contract.specs.Positions.{owned_type, pointed_type, position_type, step_place, step_type, steps_place, steps_type};

use life_pset::{AbsPlace, InputPointer, OWNED_STEP, member_of, target_of, ty_at, ty_if};
use life_types::{Ty, TypeTable};

fn step_place(place: AbsPlace, step: u8) -> AbsPlace
    ensures { result ≡ step_place place step }
{
    if step == OWNED_STEP {
        place.owned()
    } else {
        place.member(step as usize)
    }
}

/// A place, and from there these steps.
pub fn steps_place(place: AbsPlace, steps: &[u8]) -> AbsPlace
    ensures { result ≡ steps_place place steps.now }
{
    let mut here = place;
    for step in steps {
        here = step_place(here, *step);
    }
    here
}

// The type that an owner owns; what has no type counts as void.
fn owned_type(types: &TypeTable, ty: Ty) -> Ty
    ensures { result ≡ owned_type types.now ty }
{
    match ty {
        Ty::Text => Ty::Char,
        Ty::Vector(item) => ty_at(types, item),
        Ty::Unique(target) => ty_at(types, target),
        _ => Ty::Void,
    }
}

/// The type to which a step leads from a type: a member, or what an owner owns.
pub fn step_type(types: &TypeTable, ty: Ty, step: u8) -> Ty
    ensures { result ≡ step_type types.now ty step }
{
    if step == OWNED_STEP {
        owned_type(types, ty)
    } else {
        ty_if(types, member_of(types, ty, step as usize))
    }
}

fn steps_type(types: &TypeTable, ty: Ty, steps: &[u8]) -> Ty
    ensures { result ≡ steps_type types.now ty steps.now }
{
    let mut here = ty;
    for step in steps {
        here = step_type(types, here, *step);
    }
    here
}

/// The type of what a pointer points to; a view points to characters.
pub fn pointed_type(types: &TypeTable, ty: Ty) -> Ty
    ensures { result ≡ pointed_type types.now ty }
{
    match ty {
        Ty::View => Ty::Char,
        _ => ty_if(types, target_of(ty)),
    }
}

/// The type of a place behind an input.
pub(crate) fn position_type(types: &TypeTable, input: InputPointer, place: &AbsPlace) -> Ty
    ensures { result ≡ position_type types.now (input_seen input) place.now }
{
    steps_type(
        types,
        pointed_type(types, ty_if(types, input.ty)),
        place.path(),
    )
}
