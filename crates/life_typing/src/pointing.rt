// What a type holds of pointers, through the members of structs.
ghost use Rattle.std.specs.Prelude.{◌≡◌};
ghost use Rattle.life_typing.specs.Pointing as spec;

use life_types::{Ty, TyId, TypeTable, holds_owner};

/// Whether something of a type has a pointer, and whether it has a raw pointer: it is one, or a
/// member of it has one. A `std::unique_ptr` owns and doesn't count.
#[derive(Clone, Copy)]
pub(crate) struct Pointing {
    pub(crate) pointer: bool,
    pub(crate) raw: bool,
}

/// What the rules on attributes ask of a parameter's type.
#[derive(Clone, Copy)]
pub(crate) struct Reach {
    /// What it holds of pointers.
    pub(crate) pointing: Pointing,
    /// Whether it is a raw pointer.
    pub(crate) raw_pointer: bool,
    /// Whether an Owner may be changed through it.
    pub(crate) owner: bool,
}

/// Of a type without pointers.
pub(crate) fn points_nowhere() -> Pointing
    ensures { result ≡ spec.points_nowhere }
{
    Pointing {
        pointer: false,
        raw: false,
    }
}

/// Of two members together.
pub(crate) fn pointing_of_both(first: Pointing, second: Pointing) -> Pointing
    ensures { result ≡ spec.pointing_of_both first second }
{
    Pointing {
        pointer: first.pointer || second.pointer,
        raw: first.raw || second.raw,
    }
}

/// Of the type with this number, where each struct has what is given.
pub(crate) fn pointing_of(types: &TypeTable, structs: &[Pointing], ty: TyId) -> Pointing
    ensures { result ≡ spec.pointing_at types.now structs.now ty }
{
    match types.get(ty) {
        Some(Ty::Raw { .. }) => Pointing {
            pointer: true,
            raw: true,
        },
        Some(Ty::View) => points_elsewhere(),
        Some(Ty::Reference { .. }) => points_elsewhere(),
        Some(Ty::Iterator { .. }) => points_elsewhere(),
        Some(Ty::Span { .. }) => points_elsewhere(),
        Some(Ty::Struct(number)) => pointing_of_struct(structs, number),
        _ => points_nowhere(),
    }
}

/// Of a pointer that isn't raw.
fn points_elsewhere() -> Pointing
    ensures { result ≡ spec.points_elsewhere }
{
    Pointing {
        pointer: true,
        raw: false,
    }
}

fn pointing_of_struct(structs: &[Pointing], number: u32) -> Pointing
    ensures { result ≡ spec.pointing_of_struct structs.now number }
{
    match structs.get(number as usize) {
        Some(pointing) => *pointing,
        None => points_nowhere(),
    }
}

/// Whether the type with this number is a raw pointer.
fn is_raw_pointer(types: &TypeTable, ty: TyId) -> bool
    ensures { result ≡ spec.is_raw_pointer_at types.now ty }
{
    matches!(types.get(ty), Some(Ty::Raw { .. }))
}

/// Whether an Owner may be changed through the type with this number: it points to a target that
/// isn't const and holds one.
fn may_change_an_owner(types: &TypeTable, ty: TyId) -> bool
    ensures { result ≡ spec.may_change_an_owner_at types.now ty }
{
    match types.get(ty) {
        Some(Ty::Raw { target, constant }) => !constant && holds_owner(types, target),
        Some(Ty::Reference { target, constant }) => !constant && holds_owner(types, target),
        Some(Ty::Iterator { target, constant }) => !constant && holds_owner(types, target),
        Some(Ty::Span { target, constant }) => !constant && holds_owner(types, target),
        _ => false,
    }
}

/// What the rules on attributes ask of the type with this number, where each struct has what is
/// given.
pub(crate) fn reach_of(types: &TypeTable, structs: &[Pointing], ty: TyId) -> Reach
    ensures { result ≡ spec.reach_at types.now structs.now ty }
{
    Reach {
        pointing: pointing_of(types, structs, ty),
        raw_pointer: is_raw_pointer(types, ty),
        owner: may_change_an_owner(types, ty),
    }
}
