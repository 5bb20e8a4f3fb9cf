// Chains of operators, of what is cut out of a view or span, and of places within places: they are
// written from the innermost operand on, since they may be as long as the text, and are no deeper than
// one of their operands.
ghost use Rattle.std.specs.Prelude.{◌≡◌, ◌+◌, ◌<◌, ◌≤◌, IsTrue, length, take};
ghost use Rattle.life_typed.specs.TypedForm.{forms, typed_views};
ghost use Rattle.life_writer.specs.Chains as spec;
ghost use Rattle.life_writer.specs.Parts.{inside, part_form};
ghost use Rattle.life_writer.specs.Rows as rows;

use crate::around::own_type;
use crate::parts::{Node, Part, Shape, last_of};
use crate::rows::{Row, row_between};
use life_typed::{Category, ExprType, Method, TypedExpr, TypedOperand};
use life_types::{Place, Ty, is_pointer, is_text, is_unique};

/// What the links of a chain have in common.
#[derive(Clone, Copy)]
pub(crate) enum Chain {
    /// Each gives a value that is computed from two others.
    Computed,
    /// Each is `&&` or `||`.
    Joined,
    /// Each gives a string that is made of two texts.
    Concatenated,
    /// Each gives a pointer that is moved from another one, or sees a part of what that sees.
    Moved,
    /// Each is a place within another one: a member, an element or what is owned there.
    Placed,
}

fn computes(row: Row) -> bool
    ensures { result ≡ rows.computes row }
{
    matches!(row, Row::Computed { .. })
}

fn joins(row: Row) -> bool
    ensures { result ≡ rows.joins row }
{
    matches!(row, Row::Joined(_))
}

fn concatenates(row: Row) -> bool
    ensures { result ≡ rows.concatenates row }
{
    matches!(row, Row::Concatenated)
}

fn advances(row: Row) -> bool
    ensures { result ≡ rows.advances row }
{
    matches!(row, Row::Advanced(_))
}

// Whether a member function answers a part of what its object sees.
fn cuts(method: Method) -> bool
    ensures { result ≡ spec.cuts method }
{
    match method {
        Method::Subspan => true,
        Method::Substr => true,
        _ => false,
    }
}

// Whether a member function answers an element.
fn is_end(method: Method) -> bool
    ensures { result ≡ spec.is_end method }
{
    match method {
        Method::Front => true,
        Method::Back => true,
        _ => false,
    }
}

// Whether a type has what it is made of in itself: a span and a view only see it.
fn has_own(ty: Ty) -> bool
    ensures { result ≡ spec.has_own ty }
{
    match ty {
        Ty::View => false,
        Ty::Span { .. } => false,
        _ => true,
    }
}

fn is_object_of(ty: ExprType, category: Category) -> bool
    ensures { result ≡ spec.is_object_of ty category }
{
    match category {
        Category::Value => false,
        Category::Place { .. } => has_own(own_type(ty)),
    }
}

// Whether an operand is a place with members or elements of its own ..
fn is_object(operand: Option<Part<'_>>) -> bool
    ensures { result ≡ spec.is_object (part_form operand.entry) }
{
    match operand {
        Some(part) => is_object_of(part.ty, part.category),
        None => false,
    }
}

fn is_owner_of(ty: ExprType, category: Category) -> bool
    ensures { result ≡ spec.is_owner_of ty category }
{
    match category {
        Category::Value => false,
        Category::Place { .. } => is_unique(own_type(ty)),
    }
}

// .. or where a `std::unique_ptr` lies.
fn is_owner(operand: Option<Part<'_>>) -> bool
    ensures { result ≡ spec.is_owner (part_form operand.entry) }
{
    match operand {
        Some(part) => is_owner_of(part.ty, part.category),
        None => false,
    }
}

/// Whether an argument stands there.
pub(crate) fn has_first(arguments: &[TypedExpr]) -> bool
    ensures { result ≡ spec.has_first (forms (typed_views arguments.now)) }
{
    match arguments {
        [] => false,
        [_, ..] => true,
    }
}

fn is_computed(category: Category, row: Row) -> bool
    ensures { result ≡ spec.is_computed category row }
{
    match category {
        Category::Value => computes(row),
        Category::Place { .. } => false,
    }
}

fn is_concatenated(ty: ExprType, category: Category, row: Row) -> bool
    ensures { result ≡ spec.is_concatenated ty category row }
{
    match category {
        Category::Value => is_text(own_type(ty)) && concatenates(row),
        Category::Place { .. } => false,
    }
}

fn is_advanced(ty: ExprType, row: Row) -> bool
    ensures { result ≡ spec.is_advanced ty row }
{
    is_pointer(own_type(ty)) && advances(row)
}

fn is_between(chain: Chain, ty: ExprType, category: Category, row: Row) -> bool
    ensures { result ≡ spec.is_between chain ty category row }
{
    match chain {
        Chain::Computed => is_computed(category, row),
        Chain::Joined => joins(row),
        Chain::Concatenated => is_concatenated(ty, category, row),
        Chain::Moved => is_advanced(ty, row),
        Chain::Placed => false,
    }
}

fn is_cut(ty: ExprType, method: Method, arguments: &[TypedExpr]) -> bool
    ensures { result ≡ spec.is_cut ty method (forms (typed_views arguments.now)) }
{
    is_pointer(own_type(ty)) && cuts(method) && has_first(arguments)
}

// Whether a call of a member function is a link.
fn is_called(
    chain: Chain,
    ty: ExprType,
    method: Method,
    base: Option<Part<'_>>,
    arguments: &[TypedExpr],
) -> bool
    ensures { result ≡ spec.is_called chain ty method (part_form base.entry) (forms (typed_views arguments.now)) }
{
    match chain {
        Chain::Moved => is_cut(ty, method, arguments),
        Chain::Placed => is_end(method) && is_object(base),
        _ => false,
    }
}

// Whether a member or an element of this is one.
fn is_reached(chain: Chain, base: Option<Part<'_>>) -> bool
    ensures { result ≡ spec.is_reached chain (part_form base.entry) }
{
    match chain {
        Chain::Placed => is_object(base),
        _ => false,
    }
}

// Whether what this owns is one.
fn is_owned(chain: Chain, base: Option<Part<'_>>) -> bool
    ensures { result ≡ spec.is_owned chain (part_form base.entry) }
{
    match chain {
        Chain::Placed => is_owner(base),
        _ => false,
    }
}

/// Whether a part is one of a chain's links.
pub(crate) fn is_link(chain: Chain, node: &Node<'_>) -> bool
    ensures { result ≡ spec.is_link chain node.now.ty node.now.category node.now.shape }
{
    match node.shape {
        Shape::Binary {
            operator,
            left,
            right,
        } => is_between(
            chain,
            node.ty,
            node.category,
            row_between(operator, left, right),
        ),
        Shape::Method {
            base,
            method,
            arguments,
            ..
        } => is_called(chain, node.ty, method, base, arguments),
        Shape::Member { base, .. } => is_reached(chain, base),
        Shape::Index { base, .. } => is_reached(chain, base),
        Shape::Dereference(base) => is_owned(chain, base),
        _ => false,
    }
}

// Whether the operand with this number is one, and the operands before it are within it.
fn is_link_at(chain: Chain, operands: &[TypedOperand], number: usize) -> bool
    requires { number < length operands.now }
    ensures link { result ≡ spec.links chain (inside (take (number + 1) operands.now)) }
    ensures follows { IsTrue result → spec.Follows chain (inside (take number operands.now)) (inside (take (number + 1) operands.now)) }
{
    match last_of(&operands[..number + 1]) {
        Some(part) => is_link(chain, &part.opened()),
        None => false,
    }
}

/// Where the chain begins that the last of these operands ends: from there on each is one of its
/// links, if any is.
pub(crate) fn chain_begins(chain: Chain, operands: &[TypedOperand]) -> usize
    ensures few { result ≤ length operands.now }
    ensures links { spec.Runs chain operands.now result }
    ensures first { spec.IsFirst chain operands.now result }
{
    let mut from = operands.len();
    'links: while from > 0 {
        if !is_link_at(chain, operands, from - 1) {
            return from;
        }
        from -= 1;
    }
    from
}

/// The token behind what stands before the operand with this number: the operator that this is, or the
/// last one.
pub(crate) fn token_behind(operands: &[TypedOperand], number: usize, last: Place) -> Place
    ensures { result ≡ spec.token_behind operands.now number last }
{
    match operands.get(number) {
        Some(operand) => operand.place,
        None => last,
    }
}
