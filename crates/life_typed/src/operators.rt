// Which operands each operator takes, and the type of its answer.
ghost use Rattle.std.specs.Prelude.{◌≡◌};
ghost use Rattle.life_typed.specs.Operators as spec;

use crate::basic::CHAR;
use crate::misfit::Misfit;
use crate::strings::{concatenated, is_text_like};
use crate::typed_expr::{BinaryOperator, ExprType};
use life_types::{Ty, TyId, is_iterator, is_long, is_raw, is_size, is_text, is_unique, is_value};

/// The type that two values are brought to (ISO/IEC 14882:2017 [expr]/11): `std::size_t` if one is,
/// else `long` if one is, else `int`.
pub fn promoted(left: Ty, right: Ty) -> Ty
    ensures { result ≡ spec.promoted left right }
{
    if is_size(left) || is_size(right) {
        Ty::Size
    } else if is_long(left) || is_long(right) {
        Ty::Long
    } else {
        Ty::Int
    }
}

/// The type of `-e`, which a value has ([expr.unary.op]).
pub fn negated(operand: ExprType) -> Result<Ty, Misfit>
    ensures { result ≡ spec.negated operand }
{
    match operand {
        ExprType::Of(ty) => negated_type(ty),
        ExprType::NullPointer => Err(Misfit::General),
        ExprType::TextLiteral => Err(Misfit::Literal),
    }
}

fn negated_type(ty: Ty) -> Result<Ty, Misfit>
    ensures { result ≡ spec.negated_type ty }
{
    if is_value(ty) {
        Ok(promoted(ty, ty))
    } else {
        Err(Misfit::General)
    }
}

/// Whether the operand is a condition: a value, a raw pointer or a `std::unique_ptr`. `nullptr` and
/// string literals are none.
pub fn is_condition(operand: ExprType) -> bool
    ensures { result ≡ spec.is_condition operand }
{
    match operand {
        ExprType::Of(ty) => is_condition_type(ty),
        ExprType::NullPointer => false,
        ExprType::TextLiteral => false,
    }
}

fn is_condition_type(ty: Ty) -> bool
    ensures { result ≡ spec.is_condition_type ty }
{
    is_value(ty) || is_nullable(ty)
}

// A raw pointer or a `std::unique_ptr`.
fn is_nullable(ty: Ty) -> bool
    ensures { result ≡ spec.is_nullable ty }
{
    is_raw(ty) || is_unique(ty)
}

/// Whether the operator takes a string literal beside some operands. The others take none,
/// whatever stands beside it.
pub fn takes_literals(operator: BinaryOperator) -> bool
    ensures { result ≡ spec.takes_literals operator }
{
    matches!(
        operator,
        BinaryOperator::Add | BinaryOperator::Equal | BinaryOperator::NotEqual
    )
}

/// The type of what an operator between two operands gives, or why it takes none of them:
/// - `Literal`: one is a string literal, which it doesn't take there;
/// - `Unsupported`: two raw pointers are compared by `==` or `!=`;
/// - `General`: any other.
pub fn combined(operator: BinaryOperator, left: ExprType, right: ExprType) -> Result<Ty, Misfit>
    ensures { result ≡ spec.combined operator left right }
{
    match answer(operator, left, right) {
        Some(ty) => Ok(ty),
        None => Err(misfit(operator, left, right)),
    }
}

fn answer(operator: BinaryOperator, left: ExprType, right: ExprType) -> Option<Ty>
    ensures { result ≡ spec.answer operator left right }
{
    match operator {
        BinaryOperator::Or => joined_conditions(left, right),
        BinaryOperator::And => joined_conditions(left, right),
        BinaryOperator::Equal => equated(left, right),
        BinaryOperator::NotEqual => equated(left, right),
        BinaryOperator::Less => ordered(left, right),
        BinaryOperator::LessEqual => ordered(left, right),
        BinaryOperator::Greater => ordered(left, right),
        BinaryOperator::GreaterEqual => ordered(left, right),
        BinaryOperator::Add => added(left, right),
        BinaryOperator::Subtract => subtracted(left, right),
        BinaryOperator::Multiply => multiplied(left, right),
        BinaryOperator::Divide => multiplied(left, right),
        BinaryOperator::Remainder => multiplied(left, right),
    }
}

fn misfit(operator: BinaryOperator, left: ExprType, right: ExprType) -> Misfit
    ensures { result ≡ spec.misfit operator left right }
{
    if is_literal(left) || is_literal(right) {
        Misfit::Literal
    } else if is_equality(operator) && is_raw_operand(left) && is_raw_operand(right) {
        Misfit::Unsupported
    } else {
        Misfit::General
    }
}

fn is_equality(operator: BinaryOperator) -> bool
    ensures { result ≡ spec.is_equality operator }
{
    matches!(operator, BinaryOperator::Equal | BinaryOperator::NotEqual)
}

pub(crate) fn is_literal(operand: ExprType) -> bool
    ensures { result ≡ spec.is_literal operand }
{
    matches!(operand, ExprType::TextLiteral)
}

fn is_raw_operand(operand: ExprType) -> bool
    ensures { result ≡ spec.is_raw_operand operand }
{
    match operand {
        ExprType::Of(ty) => is_raw(ty),
        ExprType::NullPointer => false,
        ExprType::TextLiteral => false,
    }
}

// `&&` and `||` ([expr.log.and], [expr.log.or]).
fn joined_conditions(left: ExprType, right: ExprType) -> Option<Ty>
    ensures { result ≡ spec.joined_conditions left right }
{
    given(is_condition(left) && is_condition(right), Ty::Bool)
}

// The type where the test holds.
pub(crate) fn given(test: bool, ty: Ty) -> Option<Ty>
    ensures { result ≡ spec.given test ty }
{
    if test { Some(ty) } else { None }
}

// `*`, `/` and `%` ([expr.mul]).
fn multiplied(left: ExprType, right: ExprType) -> Option<Ty>
    ensures { result ≡ spec.multiplied left right }
{
    match (left, right) {
        (ExprType::Of(a), ExprType::Of(b)) => arithmetic(a, b),
        _ => None,
    }
}

fn arithmetic(left: Ty, right: Ty) -> Option<Ty>
    ensures { result ≡ spec.arithmetic left right }
{
    given(is_value(left) && is_value(right), promoted(left, right))
}

// `+` ([expr.add], [string.op+]).
fn added(left: ExprType, right: ExprType) -> Option<Ty>
    ensures { result ≡ spec.added left right }
{
    match (left, right) {
        (ExprType::Of(a), ExprType::Of(b)) => added_types(a, b),
        (ExprType::Of(a), ExprType::TextLiteral) => given(is_text(a), Ty::Text),
        (ExprType::TextLiteral, ExprType::Of(b)) => given(is_text(b), Ty::Text),
        _ => None,
    }
}

fn added_types(left: Ty, right: Ty) -> Option<Ty>
    ensures { result ≡ spec.added_types left right }
{
    if is_text(left) || is_text(right) {
        concatenated(left, right)
    } else if is_iterator(left) {
        moved(left, right)
    } else {
        arithmetic(left, right)
    }
}

// `-` ([expr.add]).
fn subtracted(left: ExprType, right: ExprType) -> Option<Ty>
    ensures { result ≡ spec.subtracted left right }
{
    match (left, right) {
        (ExprType::Of(a), ExprType::Of(b)) => subtracted_types(a, b),
        _ => None,
    }
}

fn subtracted_types(left: Ty, right: Ty) -> Option<Ty>
    ensures { result ≡ spec.subtracted_types left right }
{
    if is_iterator(left) {
        moved(left, right)
    } else {
        arithmetic(left, right)
    }
}

// An iterator moved by a value ([random.access.iterators]).
fn moved(iterator: Ty, by: Ty) -> Option<Ty>
    ensures { result ≡ spec.moved iterator by }
{
    given(is_value(by), iterator)
}

// `<`, `<=`, `>` and `>=` ([expr.rel]).
fn ordered(left: ExprType, right: ExprType) -> Option<Ty>
    ensures { result ≡ spec.ordered left right }
{
    match (left, right) {
        (ExprType::Of(a), ExprType::Of(b)) => given(is_value(a) && is_value(b), Ty::Bool),
        _ => None,
    }
}

// `==` and `!=` ([expr.eq], [string.view.comparison]).
fn equated(left: ExprType, right: ExprType) -> Option<Ty>
    ensures { result ≡ spec.equated left right }
{
    match (left, right) {
        (ExprType::Of(a), ExprType::Of(b)) => given(are_equated(a, b), Ty::Bool),
        (ExprType::Of(a), ExprType::TextLiteral) => given(is_text_like(a), Ty::Bool),
        (ExprType::TextLiteral, ExprType::Of(b)) => given(is_text_like(b), Ty::Bool),
        (ExprType::Of(a), ExprType::NullPointer) => given(is_nullable(a), Ty::Bool),
        (ExprType::NullPointer, ExprType::Of(b)) => given(is_nullable(b), Ty::Bool),
        _ => None,
    }
}

fn are_equated(left: Ty, right: Ty) -> bool
    ensures { result ≡ spec.are_equated left right }
{
    (is_value(left) && is_value(right))
        || (is_text_like(left) && is_text_like(right))
        || are_iterators_of_one(left, right)
}

// Two iterators over elements of one type, const or not.
fn are_iterators_of_one(left: Ty, right: Ty) -> bool
    ensures { result ≡ spec.are_iterators_of_one left right }
{
    match (left, right) {
        (Ty::Iterator { target: a, .. }, Ty::Iterator { target: b, .. }) => a == b,
        _ => false,
    }
}

/// What `*e` gives: the type of what is pointed to, and whether it is const ([expr.unary.op]); `None`
/// where the operand points to nothing.
pub fn dereferenced(operand: ExprType) -> Option<(TyId, bool)>
    ensures { result ≡ spec.dereferenced operand }
{
    match operand {
        ExprType::Of(Ty::Raw { target, constant }) => Some((target, constant)),
        ExprType::Of(Ty::Iterator { target, constant }) => Some((target, constant)),
        ExprType::Of(Ty::Unique(target)) => Some((target, false)),
        _ => None,
    }
}

/// What `e[i]` gives for `e` of this type, const as a place or not ([expr.sub]): the type of the
/// element and whether it is const; `None` where `e` has no elements.
pub fn indexed(base: ExprType, constant: bool) -> Option<(TyId, bool)>
    ensures { result ≡ spec.indexed base constant }
{
    match base {
        ExprType::Of(Ty::Vector(element)) => Some((element, constant)),
        ExprType::Of(Ty::Text) => Some((CHAR, constant)),
        ExprType::Of(Ty::View) => Some((CHAR, true)),
        ExprType::Of(Ty::Span { target, constant }) => Some((target, constant)),
        _ => None,
    }
}
