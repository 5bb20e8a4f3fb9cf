// Tests of the types that operands have.
ghost use Rattle.std.specs.Prelude.{◌≡◌};
ghost use Rattle.life_types.specs.Pointees.{pointee};
ghost use Rattle.life_types.specs.TypeTests.{is_reference};
ghost use Rattle.life_proper.specs.OperandTypes.{aims_at, are_alike, are_compared, gets, is_composed, is_owner, is_promoted, is_range, keeps_const, owned_element, owned_target, same, seen_element, spans, takes, walks};

use life_pset::ty_at;
use life_types::{Ty, TypeTable, is_constant, is_pointer, is_value, is_view, is_void};

/// Whether operators compute in it.
pub(crate) fn is_promoted(ty: Ty) -> bool
    ensures { result ≡ is_promoted ty }
{
    match ty {
        Ty::Int => true,
        Ty::Long => true,
        Ty::Size => true,
        _ => false,
    }
}

/// Whether it is a string, a vector or a unique_ptr.
pub(crate) fn is_owner(ty: Ty) -> bool
    ensures { result ≡ is_owner ty }
{
    match ty {
        Ty::Text => true,
        Ty::Vector(_) => true,
        Ty::Unique(_) => true,
        _ => false,
    }
}

/// Whether it is an owner or a struct.
pub(crate) fn is_composed(ty: Ty) -> bool
    ensures { result ≡ is_composed ty }
{
    !(is_void(ty) || is_value(ty) || is_pointer(ty))
}

pub(crate) fn is_reference(ty: Ty) -> bool
    ensures { result ≡ is_reference ty }
{
    match ty {
        Ty::Reference { .. } => true,
        _ => false,
    }
}

/// Whether it is a span or a view.
pub(crate) fn is_range(ty: Ty) -> bool
    ensures { result ≡ is_range ty }
{
    match ty {
        Ty::Span { .. } => true,
        _ => is_view(ty),
    }
}

/// Whether both are one type, which isn't void.
pub(crate) fn same(left: Ty, right: Ty) -> bool
    ensures { result ≡ same left right }
{
    match left {
        Ty::Void => false,
        _ => left == right,
    }
}

/// A pointer to what isn't const takes nothing from one to what is.
pub(crate) fn keeps_const(to: bool, from: bool) -> bool
    ensures { result ≡ keeps_const to from }
{
    to || !from
}

// Whether two pointers are of one kind with one target.
fn are_alike(types: &TypeTable, left: Ty, right: Ty) -> bool
    ensures { result ≡ are_alike types.now left right }
{
    match (left, right) {
        (Ty::Raw { target: t, .. }, Ty::Raw { target: u, .. }) => {
            same(ty_at(types, t), ty_at(types, u))
        }
        (Ty::Reference { target: t, .. }, Ty::Reference { target: u, .. }) => {
            same(ty_at(types, t), ty_at(types, u))
        }
        (Ty::Iterator { target: t, .. }, Ty::Iterator { target: u, .. }) => {
            same(ty_at(types, t), ty_at(types, u))
        }
        (Ty::Span { target: t, .. }, Ty::Span { target: u, .. }) => {
            same(ty_at(types, t), ty_at(types, u))
        }
        (Ty::View, Ty::View) => true,
        _ => false,
    }
}

/// Whether the first takes what the second is.
pub(crate) fn takes(types: &TypeTable, to: Ty, from: Ty) -> bool
    ensures { result ≡ takes types.now to from }
{
    are_alike(types, to, from) && keeps_const(is_constant(to), is_constant(from))
}

/// Whether two are told to be the same: iterators over one type, or views.
pub(crate) fn are_compared(types: &TypeTable, left: Ty, right: Ty) -> bool
    ensures { result ≡ are_compared types.now left right }
{
    match (left, right) {
        (Ty::Iterator { target: t, .. }, Ty::Iterator { target: u, .. }) => {
            same(ty_at(types, t), ty_at(types, u))
        }
        (Ty::View, Ty::View) => true,
        _ => false,
    }
}

/// An element of what owns some.
pub(crate) fn owned_element(types: &TypeTable, ty: Ty) -> Ty
    ensures { result ≡ owned_element types.now ty }
{
    match ty {
        Ty::Text => Ty::Char,
        Ty::Vector(element) => ty_at(types, element),
        _ => Ty::Void,
    }
}

/// An element of a span or a view.
pub(crate) fn seen_element(types: &TypeTable, ty: Ty) -> Ty
    ensures { result ≡ seen_element types.now ty }
{
    match ty {
        Ty::View => Ty::Char,
        Ty::Span { target, .. } => ty_at(types, target),
        _ => Ty::Void,
    }
}

/// What a unique_ptr owns.
pub(crate) fn owned_target(types: &TypeTable, ty: Ty) -> Ty
    ensures { result ≡ owned_target types.now ty }
{
    match ty {
        Ty::Unique(target) => ty_at(types, target),
        _ => Ty::Void,
    }
}

/// The object that a pointer points to.
pub(crate) fn pointee(types: &TypeTable, ty: Ty) -> Ty
    ensures { result ≡ pointee types.now ty }
{
    match ty {
        Ty::Raw { target, .. } => ty_at(types, target),
        Ty::Reference { target, .. } => ty_at(types, target),
        Ty::Iterator { target, .. } => ty_at(types, target),
        _ => Ty::Void,
    }
}

/// Whether it is a raw pointer or a reference to objects of the second.
pub(crate) fn aims_at(types: &TypeTable, ty: Ty, object: Ty) -> bool
    ensures { result ≡ aims_at types.now ty object }
{
    match ty {
        Ty::Raw { target, .. } => same(ty_at(types, target), object),
        Ty::Reference { target, .. } => same(ty_at(types, target), object),
        _ => false,
    }
}

/// Whether it is a raw pointer to what the second is.
pub(crate) fn gets(types: &TypeTable, ty: Ty, target: Ty) -> bool
    ensures { result ≡ gets types.now ty target }
{
    match ty {
        Ty::Raw { target: own, .. } => same(ty_at(types, own), target),
        _ => false,
    }
}

/// Whether it is an iterator to elements that are what the second is.
pub(crate) fn walks(types: &TypeTable, ty: Ty, element: Ty) -> bool
    ensures { result ≡ walks types.now ty element }
{
    match ty {
        Ty::Iterator { target, .. } => same(ty_at(types, target), element),
        _ => false,
    }
}

/// Whether the first sees the whole of the second: a span of a vector, or a view of a string.
pub(crate) fn spans(types: &TypeTable, ty: Ty, owner: Ty) -> bool
    ensures { result ≡ spans types.now ty owner }
{
    match (ty, owner) {
        (Ty::Span { target, .. }, Ty::Vector(element)) => {
            same(ty_at(types, target), ty_at(types, element))
        }
        (Ty::View, Ty::Text) => true,
        _ => false,
    }
}
