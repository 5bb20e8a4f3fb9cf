// Members, member functions and `[i]`, where their parts are read.
ghost use Rattle.std.specs.Prelude.{◌≡◌, map, option_map};
ghost use Rattle.life_typed.specs.Delimiters.{delimiters_view};
ghost use Rattle.life_typed.specs.TypedForm.{typed_view};
ghost use Rattle.life_names.specs.Environment.{structure, text};
ghost use Rattle.life_typed.specs.Members.{method_named};
ghost use Rattle.life_names.specs.Found.{Finds};
ghost use Rattle.life_type_expr.specs.Members as spec;

use crate::operands::{const_or, is_constant, place_in};
use life_names::{Environment, IllFault, IllKind, MemberType, ill};
use life_tree::Identifier;
use life_typed::{
    Category, Delimiters, ExprForm, ExprType, Method, MethodParameters, TypedExpr, indexed,
    method_answer, method_named, method_parameters, mutates,
};
use life_types::{NameId, Place, Ty, TyId, TypeTable, is_value};
use std::alloc::Global;

/// Numbers of members are of 32 bits.
const MOST: usize = u32::MAX as usize;

/// The first member with this name, and its number.
fn member_named(members: &[MemberType], name: NameId) -> Option<(u32, TyId)>
    ensures { result ≡ spec.member_from 0 members.now name }
{
    'members: for (number, member) in members.iter().enumerate() {
        if member.name == name && number < MOST {
            return Some((number as u32, member.ty));
        }
    }
    None
}

fn member_of_struct(environment: &Environment<'_>, number: u32, name: NameId) -> Option<(u32, TyId)>
    ensures { result ≡ spec.member_of_struct (structure environment.now number) name }
{
    match environment.structure(number) {
        None => None,
        Some(structure) => member_named(&structure.members, name),
    }
}

/// The member of an expression of this type that has this name.
fn member_of(environment: &Environment<'_>, ty: ExprType, name: NameId) -> Option<(u32, TyId)>
    ensures { result ≡ spec.member_of ty name environment.now }
{
    match ty {
        ExprType::Of(Ty::Struct(number)) => member_of_struct(environment, number, name),
        ExprType::Of(_) => None,
        ExprType::NullPointer => None,
        ExprType::TextLiteral => None,
    }
}

/// A member of a place. A struct that is a value isn't served.
#[tactic(auto, using(life_names::proofs::Views::views))]
fn member_in(
    types: &TypeTable,
    place: Place,
    base: TypedExpr,
    member: u32,
    ty: TyId,
) -> Result<TypedExpr, IllFault>
    ensures { Finds typed_view result (spec.member_in (typed_view base).category types.now place (typed_view base) (member, ty)) }
{
    match base.category {
        Category::Value => Err(ill(IllKind::Unsupported, place)),
        Category::Place { constant, .. } => {
            let form = ExprForm::Member(member);
            Ok(place_in(types, base, ty, constant, place, form)?)
        }
    }
}

/// `e.m`.
#[tactic(auto, using(life_names::proofs::Views::views))]
pub(crate) fn data_member(
    environment: &Environment<'_>,
    types: &TypeTable,
    base: TypedExpr,
    name: Identifier,
) -> Result<TypedExpr, IllFault>
    ensures { Finds typed_view result (spec.data_member name environment.now types.now (typed_view base)) }
{
    match member_of(environment, base.ty, name.id) {
        None => Err(ill(IllKind::UnknownName, name.place)),
        Some((member, ty)) => member_in(types, name.place, base, member, ty),
    }
}

/// A member function of one of the library's types.
#[derive(Clone, Copy)]
pub(crate) struct Called {
    pub(crate) base: Ty,
    pub(crate) method: Method,
    pub(crate) parameters: MethodParameters,
}

fn called_as(
    types: &TypeTable,
    found: Option<Method>,
    base: Ty,
    place: Place,
) -> Result<Called, IllFault>
    ensures { Finds (λ x. x) result (spec.called_as found base types.now place) }
{
    match found {
        None => Err(ill(IllKind::UnknownName, place)),
        Some(method) => match method_parameters(types, base, method) {
            None => Err(ill(IllKind::UnknownName, place)),
            Some(parameters) => Ok(Called {
                base,
                method,
                parameters,
            }),
        },
    }
}

/// A data member is no function.
fn called_member(found: Option<(u32, TyId)>, place: Place) -> Result<Called, IllFault>
    ensures { Finds (λ x. x) result (spec.called_member found place) }
{
    match found {
        None => Err(ill(IllKind::UnknownName, place)),
        Some(_) => Err(ill(IllKind::WrongType, place)),
    }
}

/// The number of a struct.
fn struct_number(ty: Ty) -> Option<u32>
    ensures { result ≡ spec.struct_number ty }
{
    match ty {
        Ty::Struct(number) => Some(number),
        _ => None,
    }
}

fn named_method(environment: &Environment<'_>, name: NameId) -> Option<Method>
    ensures { result ≡ method_named (text environment.now name) }
{
    method_named(environment.text(name))
}

/// The member function that this names in an object, of the struct with that number or of a type
/// that is no struct.
fn called_in(
    environment: &Environment<'_>,
    types: &TypeTable,
    structure: Option<u32>,
    base: Ty,
    name: Identifier,
) -> Result<Called, IllFault>
    ensures { Finds (λ x. x) result (spec.called_in structure base name environment.now types.now) }
{
    match structure {
        None => called_as(types, named_method(environment, name.id), base, name.place),
        Some(number) => {
            let found = member_of_struct(environment, number, name.id);
            called_member(found, name.place)
        }
    }
}

/// The member function that this names in an expression of that type.
#[tactic(auto, unfolding(crate::specs::Members::called_of))]
pub(crate) fn called_of(
    environment: &Environment<'_>,
    types: &TypeTable,
    ty: ExprType,
    name: Identifier,
) -> Result<Called, IllFault>
    ensures { Finds (λ x. x) result (spec.called_of ty name environment.now types.now) }
{
    match ty {
        ExprType::Of(base) => called_in(environment, types, struct_number(base), base, name),
        ExprType::NullPointer => Err(ill(IllKind::UnknownName, name.place)),
        ExprType::TextLiteral => Err(ill(IllKind::UnknownName, name.place)),
    }
}

/// A member function that changes its object isn't called on a `const` place ([dcl.type.cv]).
#[tactic(auto, unfolding(crate::specs::Members::change_fault))]
pub(crate) fn change_fault(method: Method, category: Category) -> Option<IllKind>
    ensures { result ≡ spec.change_fault method category }
{
    if mutates(method) {
        const_or(is_constant(category), None)
    } else {
        None
    }
}

/// A call of a member function with these arguments.
#[tactic(auto, using(life_names::proofs::Views::views))]
pub(crate) fn answered(
    types: &TypeTable,
    called: &Called,
    place: Place,
    base: TypedExpr,
    arguments: Vec<TypedExpr>,
    delimiters: Box<Delimiters>,
) -> Result<TypedExpr, IllFault>
    ensures { Finds typed_view result (spec.answered called.now types.now place (typed_view base) (map typed_view arguments.items) (delimiters_view delimiters.value)) }
{
    let method = called.method;
    match method_answer(types, called.base, is_constant(base.category), method) {
        None => Err(ill(IllKind::UnknownName, place)),
        Some((ty, category)) => {
            let form = ExprForm::Method {
                method,
                arguments,
                delimiters,
            };
            Ok(base.applied(place, ty, category, form)?)
        }
    }
}

fn is_position(ty: ExprType) -> bool
    ensures { result ≡ spec.is_position ty }
{
    match ty {
        ExprType::Of(ty) => is_value(ty),
        ExprType::NullPointer => false,
        ExprType::TextLiteral => false,
    }
}

/// The type of an element of the first with the second as its index, and whether it is `const`.
#[tactic(auto, using(life_names::proofs::Views::views))]
fn element_of(base: &TypedExpr, index: &TypedExpr) -> Option<(TyId, bool)>
    ensures { result ≡ spec.element_of (typed_view base.now) (typed_view index.now) }
{
    if is_position(index.ty) {
        indexed(base.ty, is_constant(base.category))
    } else {
        None
    }
}

/// `e[i]`.
pub(crate) fn indexed_at(
    alloc: Global,
    types: &TypeTable,
    opening: Place,
    base: TypedExpr,
    index: TypedExpr,
    closing: Place,
) -> Result<TypedExpr, IllFault>
    ensures { Finds typed_view result (spec.indexed_at types.now opening (typed_view base) (typed_view index) closing) }
{
    match element_of(&base, &index) {
        None => Err(ill(IllKind::WrongType, opening)),
        Some((ty, constant)) => {
            let index = Box::new(alloc, index)?;
            let form = ExprForm::Index { index, closing };
            Ok(place_in(types, base, ty, constant, opening, form)?)
        }
    }
}
