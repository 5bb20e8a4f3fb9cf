// The types of a function's locals, and of their parts.
ghost use Rattle.std.specs.Option.{option_copied};
ghost use Rattle.std.specs.Prelude.{◌≡◌, Some};
ghost use Rattle.life_types.specs.Pointees.{ty_of};
ghost use Rattle.life_types.specs.Trees.{holds_owner, members_at, tree_at, tree_of, AllBelow, HasPartsBelow};
ghost use Rattle.life_types.specs.declared.ty.Ty.TheVariants as kinds;
ghost use Rattle.life_core.specs.Function.{function_of};
ghost use Rattle.life_core.specs.Operands.{location_of, operand_of};
ghost use Rattle.life_pset.specs.Shapes.{has_buffer, is_variable, is_variable_of, is_variable_place, is_variable_root, local_type, location_type, member_of, member_type, members_type, operand_type, place_type, referred, rooted_type, shape, shape_if, shape_of, target_of, target_type, tree_if, ty_if, unslotted};

use crate::element::{AbsPlace, Root};
use life_core::{CoreFn, Local, LocalKind, Location, Operand};
use life_types::{Ty, TyId, TypeTable, holds_owner};

// ---- types

/// The type with this number; one that the table doesn't have counts as void.
pub fn ty_at(types: &TypeTable, id: TyId) -> Ty
    ensures ty { result ≡ ty_of types.now id }
    ensures made { tree_at types.now id ≡ tree_of types.now (tree_at types.now) (Some result) }
    ensures below { HasPartsBelow types.now id.0 result }
{
    match types.get(id) {
        None => Ty::Void,
        Some(_) => types.ty(id),
    }
}

/// The type with this number, if there is one, and else void.
pub fn ty_if(types: &TypeTable, id: Option<TyId>) -> Ty
    ensures { result ≡ ty_if types.now id }
{
    match id {
        None => Ty::Void,
        Some(id) => ty_at(types, id),
    }
}

// Whether a type is a vector or a string.
fn has_buffer(ty: Ty) -> bool
    ensures { result ≡ has_buffer ty }
{
    match ty {
        Ty::Text => true,
        Ty::Vector(_) => true,
        _ => false,
    }
}

/// Whether a type holds an owner.
pub fn holds_owner_if(types: &TypeTable, id: Option<TyId>) -> bool
    ensures { result ≡ holds_owner (tree_if types.now id) }
{
    match id {
        None => false,
        Some(id) => holds_owner(types, id),
    }
}

// ---- parts of types

/// The members of the struct with this number; one that the table doesn't have has none.
pub fn members_at(types: &TypeTable, number: u32) -> &[TyId]
    ensures { result.now ≡ members_at types.now number }
{
    if (number as usize) < types.struct_count() {
        types.members(number)
    } else {
        &[]
    }
}

/// The members of a struct that is the type with a number: they have smaller numbers.
#[tactic(auto, using(crate::proofs::CandidateLemmas::members_below))]
pub(crate) fn members_of(types: &TypeTable, id: TyId, number: u32) -> &[TyId]
    requires { HasPartsBelow types.now id.0 (kinds.Struct number) }
    ensures members { result.now ≡ members_at types.now number }
    ensures below { AllBelow id.0 result.now }
{
    members_at(types, number)
}

/// What a pointer of this type points to; the characters of a view have no type in the table.
pub fn target_of(ty: Ty) -> Option<TyId>
    ensures { result ≡ target_of ty }
{
    match ty {
        Ty::Raw { target, .. } => Some(target),
        Ty::Reference { target, .. } => Some(target),
        Ty::Iterator { target, .. } => Some(target),
        Ty::Span { target, .. } => Some(target),
        _ => None,
    }
}

/// .. by the number of the pointer's type.
pub fn target_type(types: &TypeTable, id: Option<TyId>) -> Option<TyId>
    ensures { result ≡ target_type types.now id }
{
    target_of(ty_if(types, id))
}

/// The member with this number of a type, counted from 0, if it is a struct that has one.
pub fn member_of(types: &TypeTable, ty: Ty, member: usize) -> Option<TyId>
    ensures { result ≡ member_of types.now ty member }
{
    match ty {
        Ty::Struct(number) => members_at(types, number).get(member).copied(),
        _ => None,
    }
}

/// .. by the number of the struct's type.
pub fn member_type(types: &TypeTable, id: Option<TyId>, member: usize) -> Option<TyId>
    ensures { result ≡ member_type types.now id member }
{
    member_of(types, ty_if(types, id), member)
}

/// A member of a member, and so on: their numbers from the outermost to the innermost.
pub fn members_type(types: &TypeTable, id: Option<TyId>, members: &[u32]) -> Option<TyId>
    ensures { result ≡ members_type types.now id members.now }
{
    let mut here = id;
    for member in members {
        here = member_type(types, here, *member as usize);
    }
    here
}

/// .. by the steps of a place.
pub fn steps_type(types: &TypeTable, id: Option<TyId>, steps: &[u8]) -> Option<TyId>
    ensures { result ≡ members_type types.now id steps.now }
{
    let mut here = id;
    for step in steps {
        here = member_type(types, here, *step as usize);
    }
    here
}

// ---- locals

fn referred(slot: TyId, target: TyId, ty: Ty) -> TyId
    ensures { result ≡ referred slot target ty }
{
    match ty {
        Ty::Iterator { .. } => target,
        Ty::Span { .. } => target,
        Ty::View => target,
        Ty::Unique(_) => target,
        _ => slot,
    }
}

// What a slot stands as: what it refers to.
fn unslotted(types: &TypeTable, id: TyId, ty: Ty) -> TyId
    ensures { result ≡ unslotted types.now id ty }
{
    match ty {
        Ty::Reference {
            target,
            constant: false,
        } => referred(id, target, ty_at(types, target)),
        _ => id,
    }
}

/// The type of a local, by whether it is a parameter.
pub(crate) fn shape_if(types: &TypeTable, parameter: bool, id: TyId) -> TyId
    ensures { result ≡ shape_if types.now parameter id }
{
    if parameter {
        unslotted(types, id, ty_at(types, id))
    } else {
        id
    }
}

/// The type of a local with this number, in a function with so many parameters: a parameter that is a
/// slot has the type that it refers to.
pub fn shape_type(types: &TypeTable, parameters: u32, number: u32, local: &Local) -> TyId
    ensures { result ≡ shape types.now parameters number local.now }
{
    shape_if(types, number < parameters, local.ty)
}

fn shape_of(types: &TypeTable, parameters: u32, number: u32, local: Option<&Local>) -> Option<TyId>
    ensures { result ≡ shape_of types.now parameters number (option_copied local.entry) }
{
    match local {
        None => None,
        Some(local) => Some(shape_type(types, parameters, number, local)),
    }
}

/// The type of the local with this number, if the function has it.
pub fn local_type(types: &TypeTable, f: &CoreFn, number: u32) -> Option<TyId>
    ensures { result ≡ local_type types.now (function_of f.now) number }
{
    shape_of(types, f.parameters, number, f.locals.get(number as usize))
}

/// Whether an object of this kind and type is a vector or a string: its own location says whether it
/// is moved from.
pub fn is_variable(kind: LocalKind, ty: Ty) -> bool
    ensures { result ≡ is_variable kind ty }
{
    match kind {
        LocalKind::Object => has_buffer(ty),
        LocalKind::Register => false,
        LocalKind::Range => false,
    }
}

fn is_variable_of(types: &TypeTable, parameters: u32, number: u32, local: Option<&Local>) -> bool
    ensures { result ≡ is_variable_of types.now parameters number (option_copied local.entry) }
{
    match local {
        None => false,
        Some(local) => is_shaped_variable(types, parameters, number, local),
    }
}

fn is_shaped_variable(types: &TypeTable, parameters: u32, number: u32, local: &Local) -> bool
    ensures { result ≡ is_variable local.now.kind (ty_of types.now (shape types.now parameters number local.now)) }
{
    let id = shape_type(types, parameters, number, local);
    is_variable(local.kind, ty_at(types, id))
}

// ---- what instructions name

/// The type of a location, if there is such a member.
pub fn location_type(types: &TypeTable, f: &CoreFn, location: &Location) -> Option<TyId>
    ensures { result ≡ location_type types.now (function_of f.now) (location_of location.now) }
{
    let local = local_type(types, f, location.local);
    members_type(types, local, &location.members)
}

/// The type of what an operand names, if there is one.
pub fn operand_type(types: &TypeTable, f: &CoreFn, operand: &Operand) -> Option<TyId>
    ensures { result ≡ operand_type types.now (function_of f.now) (operand_of operand.now) }
{
    match operand {
        Operand::Name(location) => location_type(types, f, location),
        Operand::Through { pointer, members } => {
            let target = target_type(types, location_type(types, f, pointer));
            members_type(types, target, members)
        }
    }
}

// ---- places of the function's locals

/// The type of a place of the function's locals that is reached through members alone.
pub fn place_type(types: &TypeTable, f: &CoreFn, place: &AbsPlace) -> Option<TyId>
    ensures { result ≡ place_type types.now (function_of f.now) place.now }
{
    steps_type(types, rooted_type(types, f, place.root), place.path())
}

fn rooted_type(types: &TypeTable, f: &CoreFn, root: Root) -> Option<TyId>
    ensures { result ≡ rooted_type types.now (function_of f.now) root }
{
    match root {
        Root::Local(number) => local_type(types, f, number),
        Root::Input { .. } => None,
    }
}

/// Whether the place is a whole vector or string.
pub fn is_variable_place(types: &TypeTable, f: &CoreFn, place: &AbsPlace) -> bool
    ensures { result ≡ is_variable_place types.now (function_of f.now) place.now }
{
    place.length == 0 && is_variable_root(types, f, place.root)
}

fn is_variable_root(types: &TypeTable, f: &CoreFn, root: Root) -> bool
    ensures { result ≡ is_variable_root types.now (function_of f.now) root }
{
    match root {
        Root::Local(number) => {
            is_variable_of(types, f.parameters, number, f.locals.get(number as usize))
        }
        Root::Input { .. } => false,
    }
}
