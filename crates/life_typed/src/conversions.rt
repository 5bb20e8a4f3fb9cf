// What initialises what.
ghost use Rattle.std.specs.Prelude.{◌≡◌};
ghost use Rattle.life_typed.specs.Conversions as spec;

use crate::basic::type_at;
use crate::misfit::Misfit;
use crate::strings::is_text_like;
use crate::typed_expr::{Category, ExprType};
use life_types::{Ty, TyId, TypeTable, holds_unique, is_text, is_value};

/// Whether an expression of this type and category initialises an object or a reference of the
/// target type ([dcl.init], [over.best.ics]), or why not:
/// - `Literal`: a string literal stands where none converts;
/// - `Constant`: what is const could be changed through the pointer, reference or span;
/// - `Copy`: a `std::unique_ptr`, or a struct that holds one, would be copied;
/// - `General`: any other.
///
/// A value of class Owner is a place where a span is made of it, and none for a reference without
/// const.
pub fn fits(types: &TypeTable, target: Ty, ty: ExprType, category: Category) -> Result<(), Misfit>
    ensures { result ≡ spec.fits types.now target ty category }
{
    match target {
        Ty::Reference {
            target,
            constant: false,
        } => bound(target, ty, category),
        Ty::Reference {
            target,
            constant: true,
        } => bound_const(types, target, ty, category),
        _ => initialised(types, target, ty, category),
    }
}

// `T&`: from a place of T that isn't const ([dcl.init.ref]).
fn bound(target: TyId, ty: ExprType, category: Category) -> Result<(), Misfit>
    ensures { result ≡ spec.bound target ty category }
{
    match category {
        Category::Value => refused(ty),
        Category::Place {
            ty: place,
            constant,
        } => {
            if place == target {
                unless(constant, Misfit::Constant)
            } else {
                refused(ty)
            }
        }
    }
}

// `const T&`: from any place of T, or through a temporary from what initialises T.
fn bound_const(
    types: &TypeTable,
    target: TyId,
    ty: ExprType,
    category: Category,
) -> Result<(), Misfit>
    ensures { result ≡ spec.bound_const types.now target ty category }
{
    if is_place_of(category, target) {
        Ok(())
    } else {
        initialised(types, type_at(types, target), ty, category)
    }
}

fn is_place_of(category: Category, target: TyId) -> bool
    ensures { result ≡ spec.is_place_of category target }
{
    match category {
        Category::Value => false,
        Category::Place { ty, .. } => ty == target,
    }
}

// What doesn't fit, whatever the target's parts are.
fn refused(ty: ExprType) -> Result<(), Misfit>
    ensures { result ≡ spec.refused ty }
{
    match ty {
        ExprType::Of(_) => Err(Misfit::General),
        ExprType::NullPointer => Err(Misfit::General),
        ExprType::TextLiteral => Err(Misfit::Literal),
    }
}

fn unless(test: bool, misfit: Misfit) -> Result<(), Misfit>
    ensures { result ≡ spec.unless test misfit }
{
    if test { Err(misfit) } else { Ok(()) }
}

// An object of a type that is no reference.
fn initialised(
    types: &TypeTable,
    target: Ty,
    ty: ExprType,
    category: Category,
) -> Result<(), Misfit>
    ensures { result ≡ spec.initialised types.now target ty category }
{
    match ty {
        ExprType::Of(source) => converted(types, target, source, category),
        ExprType::NullPointer => unless(!admits_null(target), Misfit::General),
        ExprType::TextLiteral => unless(!is_text_like(target), Misfit::Literal),
    }
}

// What `nullptr` initialises.
fn admits_null(target: Ty) -> bool
    ensures { result ≡ spec.admits_null target }
{
    matches!(target, Ty::Raw { .. } | Ty::Unique(_))
}

// An object from an expression of a type.
fn converted(types: &TypeTable, target: Ty, source: Ty, category: Category) -> Result<(), Misfit>
    ensures { result ≡ spec.converted types.now target source category }
{
    match target {
        Ty::Void => Err(Misfit::General),
        Ty::Bool => unless(!is_value(source), Misfit::General),
        Ty::Char => unless(!is_value(source), Misfit::General),
        Ty::Int => unless(!is_value(source), Misfit::General),
        Ty::Long => unless(!is_value(source), Misfit::General),
        Ty::Size => unless(!is_value(source), Misfit::General),
        Ty::Text => unless(!is_text(source), Misfit::General),
        Ty::View => unless(!is_text_like(source), Misfit::General),
        Ty::Vector(element) => vector_from(element, source),
        Ty::Unique(target) => unique_from(target, source, category),
        Ty::Raw { target, constant } => pointer_from(target, constant, source),
        Ty::Reference { .. } => Err(Misfit::General),
        Ty::Iterator { target, constant } => iterator_from(target, constant, source),
        Ty::Span { target, constant } => span_from(target, constant, source, category),
        Ty::Struct(number) => struct_from(types, number, source, category),
    }
}

fn vector_from(element: TyId, source: Ty) -> Result<(), Misfit>
    ensures { result ≡ spec.vector_from element source }
{
    match source {
        Ty::Vector(found) => unless(found != element, Misfit::General),
        _ => Err(Misfit::General),
    }
}

fn unique_from(target: TyId, source: Ty, category: Category) -> Result<(), Misfit>
    ensures { result ≡ spec.unique_from target source category }
{
    match source {
        Ty::Unique(found) => {
            if found == target {
                unless(is_place(category), Misfit::Copy)
            } else {
                Err(Misfit::General)
            }
        }
        _ => Err(Misfit::General),
    }
}

fn is_place(category: Category) -> bool
    ensures { result ≡ spec.is_place category }
{
    match category {
        Category::Value => false,
        Category::Place { .. } => true,
    }
}

fn is_const_place(category: Category) -> bool
    ensures { result ≡ spec.is_const_place category }
{
    match category {
        Category::Value => false,
        Category::Place { constant, .. } => constant,
    }
}

fn pointer_from(target: TyId, constant: bool, source: Ty) -> Result<(), Misfit>
    ensures { result ≡ spec.pointer_from target constant source }
{
    match source {
        Ty::Raw {
            target: found,
            constant: held,
        } => same_target(found == target, held, constant),
        _ => Err(Misfit::General),
    }
}

// Of one target: const stays const ([conv.qual]).
fn same_target(same: bool, held: bool, constant: bool) -> Result<(), Misfit>
    ensures { result ≡ spec.same_target same held constant }
{
    if same {
        unless(held && !constant, Misfit::Constant)
    } else {
        Err(Misfit::General)
    }
}

// The const form from the other too ([container.requirements.general]).
fn iterator_from(target: TyId, constant: bool, source: Ty) -> Result<(), Misfit>
    ensures { result ≡ spec.iterator_from target constant source }
{
    match source {
        Ty::Iterator {
            target: found,
            constant: held,
        } => unless(found != target || (held && !constant), Misfit::General),
        _ => Err(Misfit::General),
    }
}

// From a span, or from a vector as a place; a vector that is a value is a temporary, which isn't
// const.
fn span_from(target: TyId, constant: bool, source: Ty, category: Category) -> Result<(), Misfit>
    ensures { result ≡ spec.span_from target constant source category }
{
    match source {
        Ty::Span {
            target: found,
            constant: held,
        } => same_target(found == target, held, constant),
        Ty::Vector(found) => same_target(found == target, is_const_place(category), constant),
        _ => Err(Misfit::General),
    }
}

fn struct_from(types: &TypeTable, number: u32, source: Ty, category: Category) -> Result<(), Misfit>
    ensures { result ≡ spec.struct_from types.now number source category }
{
    match source {
        Ty::Struct(found) => {
            if found == number {
                copied(types, category)
            } else {
                Err(Misfit::General)
            }
        }
        _ => Err(Misfit::General),
    }
}

// A value is taken over, and a place is copied.
fn copied(types: &TypeTable, category: Category) -> Result<(), Misfit>
    ensures { result ≡ spec.copied types.now category }
{
    match category {
        Category::Value => Ok(()),
        Category::Place { ty, .. } => unless(holds_unique(types, ty), Misfit::Copy),
    }
}
