// The member functions of the library's types: what they take and give.
ghost use Rattle.std.specs.Prelude.{◌≡◌};
ghost use Rattle.life_typed.specs.Members as spec;

use crate::basic::type_at;
use crate::typed_expr::{Category, ExprType, Method};
use life_types::{Ty, TyId, TypeTable};

/// The types of a member function's parameters.
#[derive(Clone, Copy, Debug, PartialEq, Eq)]
pub enum MethodParameters {
    /// There are none.
    None,
    /// There is one.
    One(Ty),
    /// There are two.
    Two(Ty, Ty),
    /// There are two, and the second may be left out.
    OneOrTwo(Ty, Ty),
}

impl MethodParameters {
    /// Whether so many arguments are a right number.
    pub fn takes(self, count: usize) -> bool
        ensures { result ≡ spec.takes self count }
    {
        match self {
            MethodParameters::None => count == 0,
            MethodParameters::One(_) => count == 1,
            MethodParameters::Two(..) => count == 2,
            MethodParameters::OneOrTwo(..) => count == 1 || count == 2,
        }
    }

    /// The type of the parameter with this number, counted from 0, if there is one.
    pub fn parameter(self, index: usize) -> Option<Ty>
        ensures { result ≡ spec.parameter self index }
    {
        match self {
            MethodParameters::None => None,
            MethodParameters::One(only) => of_two(index, Some(only), None),
            MethodParameters::Two(first, second) => of_two(index, Some(first), Some(second)),
            MethodParameters::OneOrTwo(first, second) => of_two(index, Some(first), Some(second)),
        }
    }
}

fn of_two(index: usize, first: Option<Ty>, second: Option<Ty>) -> Option<Ty>
    ensures { result ≡ spec.of_two index first second }
{
    if index == 0 {
        first
    } else if index == 1 {
        second
    } else {
        None
    }
}

/// Whether objects of the type have this member function, by ISO/IEC 14882:2017 [vector],
/// [basic.string], [unique.ptr.single] and [string.view], and `gsl::span` as the C++ Core
/// Guidelines describe it, of which these are offered.
pub fn has_method(base: Ty, method: Method) -> bool
    ensures { result ≡ spec.has_method base method }
{
    match base {
        Ty::Vector(_) => is_of_vector(method),
        Ty::Text => is_of_text(method),
        Ty::Unique(_) => is_of_unique(method),
        Ty::Span { .. } => is_of_span(method),
        Ty::View => is_of_view(method),
        _ => false,
    }
}

fn is_of_vector(method: Method) -> bool
    ensures { result ≡ spec.is_of_vector method }
{
    match method {
        Method::Size => true,
        Method::Empty => true,
        Method::Front => true,
        Method::Back => true,
        Method::Begin => true,
        Method::End => true,
        Method::PushBack => true,
        Method::PopBack => true,
        Method::Clear => true,
        Method::Reserve => true,
        Method::Erase => true,
        Method::Get => false,
        Method::Reset => false,
        Method::Subspan => false,
        Method::Substr => false,
    }
}

fn is_of_text(method: Method) -> bool
    ensures { result ≡ spec.is_of_text method }
{
    matches!(
        method,
        Method::Size | Method::Empty | Method::PushBack | Method::Clear
    )
}

fn is_of_unique(method: Method) -> bool
    ensures { result ≡ spec.is_of_unique method }
{
    matches!(method, Method::Get | Method::Reset)
}

fn is_of_span(method: Method) -> bool
    ensures { result ≡ spec.is_of_span method }
{
    matches!(method, Method::Size | Method::Empty | Method::Subspan)
}

fn is_of_view(method: Method) -> bool
    ensures { result ≡ spec.is_of_view method }
{
    matches!(method, Method::Size | Method::Empty | Method::Substr)
}

/// Whether the member function changes its object, which then may not be const.
pub fn mutates(method: Method) -> bool
    ensures { result ≡ spec.mutates method }
{
    match method {
        Method::Size => false,
        Method::Empty => false,
        Method::Front => false,
        Method::Back => false,
        Method::Begin => false,
        Method::End => false,
        Method::PushBack => true,
        Method::PopBack => true,
        Method::Clear => true,
        Method::Reserve => true,
        Method::Erase => true,
        Method::Get => false,
        Method::Reset => true,
        Method::Subspan => false,
        Method::Substr => false,
    }
}

/// The parameters of the type's member function, or `None` where it has no such one. `erase` takes
/// a `const_iterator`, which an `iterator` initialises too.
pub fn method_parameters(types: &TypeTable, base: Ty, method: Method) -> Option<MethodParameters>
    ensures { result ≡ spec.method_parameters types.now base method }
{
    if has_method(base, method) {
        Some(parameters(types, base, method))
    } else {
        None
    }
}

fn parameters(types: &TypeTable, base: Ty, method: Method) -> MethodParameters
    ensures { result ≡ spec.parameters_of types.now base method }
{
    match method {
        Method::Size => MethodParameters::None,
        Method::Empty => MethodParameters::None,
        Method::Front => MethodParameters::None,
        Method::Back => MethodParameters::None,
        Method::Begin => MethodParameters::None,
        Method::End => MethodParameters::None,
        Method::PushBack => MethodParameters::One(element_type(types, base)),
        Method::PopBack => MethodParameters::None,
        Method::Clear => MethodParameters::None,
        Method::Reserve => MethodParameters::One(Ty::Size),
        Method::Erase => MethodParameters::One(position_type(base, true)),
        Method::Get => MethodParameters::None,
        Method::Reset => MethodParameters::None,
        Method::Subspan => MethodParameters::Two(Ty::Size, Ty::Size),
        Method::Substr => MethodParameters::OneOrTwo(Ty::Size, Ty::Size),
    }
}

// What a vector or string holds; `void` for another type.
fn element_type(types: &TypeTable, base: Ty) -> Ty
    ensures { result ≡ spec.element_type types.now base }
{
    match base {
        Ty::Vector(element) => type_at(types, element),
        Ty::Text => Ty::Char,
        _ => Ty::Void,
    }
}

// The iterator of a vector; `void` for another type.
fn position_type(base: Ty, constant: bool) -> Ty
    ensures { result ≡ spec.position_type base constant }
{
    match base {
        Ty::Vector(target) => Ty::Iterator { target, constant },
        _ => Ty::Void,
    }
}

/// What a call of the type's member function gives, where the object is const as a place or not:
/// its type, and whether it is a place; `None` where the type has no such function.
pub fn method_answer(
    types: &TypeTable,
    base: Ty,
    constant: bool,
    method: Method,
) -> Option<(ExprType, Category)>
    ensures { result ≡ spec.method_answer types.now base constant method }
{
    if has_method(base, method) {
        Some(answer(types, base, constant, method))
    } else {
        None
    }
}

fn answer(types: &TypeTable, base: Ty, constant: bool, method: Method) -> (ExprType, Category)
    ensures { result ≡ spec.answer types.now base constant method }
{
    match method {
        Method::Size => value(Ty::Size),
        Method::Empty => value(Ty::Bool),
        Method::Front => element_place(types, base, constant),
        Method::Back => element_place(types, base, constant),
        Method::Begin => value(position_type(base, constant)),
        Method::End => value(position_type(base, constant)),
        Method::PushBack => value(Ty::Void),
        Method::PopBack => value(Ty::Void),
        Method::Clear => value(Ty::Void),
        Method::Reserve => value(Ty::Void),
        Method::Erase => value(position_type(base, false)),
        Method::Get => value(pointer_type(base)),
        Method::Reset => value(Ty::Void),
        Method::Subspan => value(base),
        Method::Substr => value(base),
    }
}

fn value(ty: Ty) -> (ExprType, Category)
    ensures { result ≡ spec.value ty }
{
    (ExprType::Of(ty), Category::Value)
}

// An element of a vector; a value of `void` for another type.
fn element_place(types: &TypeTable, base: Ty, constant: bool) -> (ExprType, Category)
    ensures { result ≡ spec.element_place types.now base constant }
{
    match base {
        Ty::Vector(element) => place(types, element, constant),
        _ => value(Ty::Void),
    }
}

fn place(types: &TypeTable, ty: TyId, constant: bool) -> (ExprType, Category)
    ensures { result ≡ spec.place types.now ty constant }
{
    (
        ExprType::Of(type_at(types, ty)),
        Category::Place { ty, constant },
    )
}

// The raw pointer to what a `std::unique_ptr` owns; `void` for another type.
fn pointer_type(base: Ty) -> Ty
    ensures { result ≡ spec.pointer_type base }
{
    match base {
        Ty::Unique(target) => Ty::Raw {
            target,
            constant: false,
        },
        _ => Ty::Void,
    }
}
