// The classes of types, and the table of types as it grows.
ghost use Rattle.std.specs.Prelude.{◌≡◌, ◌<◌, ◌-◌, ◌^◌, length, IfOk, IfSome, IsTrue, OnOk, Some};
ghost use Rattle.life_types.specs.Types as types;
ghost use Rattle.life_types.specs.Types.{HasParts, HasType, with_type};
ghost use Rattle.life_writer.specs.Registers.{number_of};

use life_types::{Class, NoMemory, Ty, TyId, TypeTable};

/// The class of a type.
pub fn class(ty: Ty) -> Class
    ensures { result ≡ types.class (Some ty) }
{
    match ty {
        Ty::Text => Class::Owner,
        Ty::Vector(_) => Class::Owner,
        Ty::Unique(_) => Class::Owner,
        Ty::View => Class::Pointer,
        Ty::Raw { .. } => Class::Pointer,
        Ty::Reference { .. } => Class::Pointer,
        Ty::Iterator { .. } => Class::Pointer,
        Ty::Span { .. } => Class::Pointer,
        Ty::Struct(_) => Class::Aggregate,
        _ => Class::Value,
    }
}

// A table that has this type is full.
const LAST: TyId = TyId(u32::MAX - 1);

// So many types are looked at one by one, before any is hashed: most registers have one of the first.
const FIRST: u32 = 4;

#[tactic(auto, using(crate::proofs::TypeNumbers::room))]
fn has_room(types: &TypeTable) -> bool
    ensures { IsTrue result → length types.now.types < 2 ^ 32 - 1 }
{
    types.get(LAST).is_none()
}

#[tactic(auto, using(crate::proofs::TypeNumbers::there))]
fn is_there(types: &TypeTable, id: TyId) -> bool
    ensures { IsTrue result → HasType types.now id }
{
    types.get(id).is_some()
}

// Whether the table has what the type is made of.
fn has_parts(types: &TypeTable, ty: Ty) -> bool
    ensures { IsTrue result → HasParts types.now ty }
{
    match ty {
        Ty::Void | Ty::Bool | Ty::Char | Ty::Int | Ty::Long | Ty::Size | Ty::Text | Ty::View => {
            true
        }
        Ty::Vector(part) | Ty::Unique(part) => is_there(types, part),
        Ty::Raw { target, .. }
        | Ty::Reference { target, .. }
        | Ty::Iterator { target, .. }
        | Ty::Span { target, .. } => is_there(types, target),
        Ty::Struct(number) => (number as usize) < types.struct_count(),
    }
}

// The number of a type that is among the first.
fn early_number(types: &TypeTable, ty: Ty) -> Option<TyId>
    ensures number { IfSome result (λ id. id ≡ record { 0 = number_of types.now.types ty }) }
    ensures there { IfSome result (λ id. types.now ≡ record types.now { types = with_type types.now.types ty }) }
{
    'first: for number in 0..FIRST {
        match types.get(TyId(number)) {
            Some(found) if ty == found => return Some(TyId(number)),
            Some(_) => {}
            None => return None,
        }
    }
    None
}

/// The number of a type, which is added if the table doesn't have it.
///
/// # Errors
///
/// For want of memory, which a table that is full counts as, and one that lacks a part of the type.
#[tactic(auto, using(crate::proofs::TypeNumbers::number_given))]
pub fn add_type(types: &mut TypeTable, ty: Ty) -> Result<TyId, NoMemory>
    ensures number { IfOk result (λ id. id ≡ record { 0 = number_of types.new.types ty }) }
    ensures grown { OnOk result (types.new ≡ record types.old { types = with_type types.old.types ty }) }
{
    if let Some(number) = early_number(types, ty) {
        return Ok(number);
    }
    if has_room(types) && has_parts(types, ty) {
        types.add(ty)
    } else {
        Err(NoMemory)
    }
}
