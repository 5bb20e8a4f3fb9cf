// Operands and the operators between them: each function mirrors the reader of its rule.
ghost use Rattle.std.specs.Prelude.{◌≡◌, [], map, IfOk, Ok};
ghost use Rattle.life_expr.specs.Exprs as spec;
ghost use Rattle.life_expr.specs.Gives.{Gives};
ghost use Rattle.life_expr.specs.Readers as readers;
ghost use Rattle.life_tree.specs.Views.{additive_part_tree, additive_tree, and_part_tree, equality_part_tree, equality_tree, expr_tree, list_tree, logical_and_tree, multiplicative_part_tree, multiplicative_tree, or_part_tree, relational_part_tree, relational_tree, unary_tree};

use crate::marks::{mark, starts};
use crate::operands::unary;
use crate::operators::{
    additive_operator, equality_operator, multiplicative_operator, relational_operator,
    starts_additive, starts_equality, starts_multiplicative, starts_operator, starts_relational,
};
use crate::stop::Read;
use life_tree::{
    Additive, AdditivePart, AndPart, Equality, EqualityPart, Expr, LogicalAnd, Multiplicative,
    MultiplicativePart, OrPart, Relational, RelationalPart, TreeToken, Unary, fixed,
};
use std::alloc::{AllocError, Global};

/// An expression, where `left` more constructs may be open.
#[cycle(expr)]
#[tactic(auto, unfolding(crate::specs::Readers::expr_with, crate::specs::Readers::both_with, crate::specs::Readers::equal_with, crate::specs::Readers::order_with, crate::specs::Readers::sum_with, crate::specs::Readers::term_with))]
pub fn expr<'a>(alloc: Global, left: usize, tokens: &'a [TreeToken]) -> Read<'a, Expr>
    ensures { Gives (λ x. (expr_tree x.0, x.1.now)) result (readers.expr_with left (readers.below left) tokens.now) }
{
    let (first, rest) = unary(alloc, left, tokens)?;
    if starts_operator(rest) {
        return chained(alloc, left, first, rest);
    }
    Ok((alone(alloc, first), rest))
}

/// An expression of one operand.
fn alone(alloc: Global, first: Unary) -> Expr
    ensures { expr_tree result ≡ spec.alone (unary_tree first) }
{
    let first = Multiplicative {
        first,
        more: Vec::new(alloc),
    };
    let first = Additive {
        first,
        more: Vec::new(alloc),
    };
    let first = Relational {
        first,
        more: Vec::new(alloc),
    };
    let first = Equality {
        first,
        more: Vec::new(alloc),
    };
    let first = LogicalAnd {
        first,
        more: Vec::new(alloc),
    };
    Expr {
        first,
        more: Vec::new(alloc),
    }
}

/// An expression behind its first operand, level by level.
#[cycle(expr)]
fn chained<'a>(alloc: Global, left: usize, first: Unary, tokens: &'a [TreeToken]) -> Read<'a, Expr>
    ensures { Gives (λ x. (expr_tree x.0, x.1.now)) result (spec.chained_with left (readers.below left) (Ok (unary_tree first, tokens.now))) }
{
    let (more, rest) = multiplicative_parts(alloc, left, tokens)?;
    let first = Multiplicative { first, more };
    let (more, rest) = additive_parts(alloc, left, rest)?;
    let first = Additive { first, more };
    let (more, rest) = relational_parts(alloc, left, rest)?;
    let first = Relational { first, more };
    let (more, rest) = equality_parts(alloc, left, rest)?;
    let first = Equality { first, more };
    let (more, rest) = and_parts(alloc, left, rest)?;
    let first = LogicalAnd { first, more };
    let (more, rest) = or_parts(alloc, left, rest)?;
    Ok((Expr { first, more }, rest))
}

/// An expression in a box, where `left` more constructs may be open.
pub fn boxed_expr<'a>(alloc: Global, left: usize, tokens: &'a [TreeToken]) -> Read<'a, Box<Expr>>
    ensures { Gives (λ x. (expr_tree x.0.value, x.1.now)) result (readers.expr_with left (readers.below left) tokens.now) }
{
    let (found, rest) = expr(alloc, left, tokens)?;
    let found = Box::new(alloc, found)?;
    Ok((found, rest))
}

/// The operands behind the first.
#[cycle(expr)]
fn or_parts<'a>(alloc: Global, left: usize, tokens: &'a [TreeToken]) -> Read<'a, Vec<OrPart>>
    ensures { Gives (λ x. (list_tree (map or_part_tree x.0.items), x.1.now)) result (spec.or_parts_with left (readers.below left) tokens.now) }
{
    let mut rest = tokens;
    let mut list = list_for(alloc, starts(rest, fixed::OR_OR))?;
    'list: while starts(rest, fixed::OR_OR) {
        let (next, after) = or_part(alloc, left, rest)?;
        list.push(next)?;
        rest = after;
    }
    Ok((list, rest))
}

/// An operand with the operator before it.
#[cycle(expr)]
fn or_part<'a>(alloc: Global, left: usize, tokens: &'a [TreeToken]) -> Read<'a, OrPart>
    ensures { Gives (λ x. (or_part_tree x.0, x.1.now)) result (spec.or_part_with left (readers.below left) tokens.now) }
{
    let (place, rest) = mark(tokens, fixed::OR_OR)?;
    let (operand, rest) = logical_and(alloc, left, rest)?;
    Ok((OrPart { place, operand }, rest))
}

/// Operands of `&&`, and the operators between them.
#[cycle(expr)]
#[inline(always)]
#[tactic(auto, unfolding(crate::specs::Readers::both_with))]
fn logical_and<'a>(alloc: Global, left: usize, tokens: &'a [TreeToken]) -> Read<'a, LogicalAnd>
    ensures { Gives (λ x. (logical_and_tree x.0, x.1.now)) result (readers.both_with left (readers.below left) tokens.now) }
{
    let (first, rest) = equality(alloc, left, tokens)?;
    let (more, rest) = and_parts(alloc, left, rest)?;
    Ok((LogicalAnd { first, more }, rest))
}

/// The operands behind the first.
#[cycle(expr)]
fn and_parts<'a>(alloc: Global, left: usize, tokens: &'a [TreeToken]) -> Read<'a, Vec<AndPart>>
    ensures { Gives (λ x. (list_tree (map and_part_tree x.0.items), x.1.now)) result (spec.and_parts_with left (readers.below left) tokens.now) }
{
    let mut rest = tokens;
    let mut list = list_for(alloc, starts(rest, fixed::AND_AND))?;
    'list: while starts(rest, fixed::AND_AND) {
        let (next, after) = and_part(alloc, left, rest)?;
        list.push(next)?;
        rest = after;
    }
    Ok((list, rest))
}

/// An operand with the operator before it.
#[cycle(expr)]
fn and_part<'a>(alloc: Global, left: usize, tokens: &'a [TreeToken]) -> Read<'a, AndPart>
    ensures { Gives (λ x. (and_part_tree x.0, x.1.now)) result (spec.and_part_with left (readers.below left) tokens.now) }
{
    let (place, rest) = mark(tokens, fixed::AND_AND)?;
    let (operand, rest) = equality(alloc, left, rest)?;
    Ok((AndPart { place, operand }, rest))
}

/// Operands of `==` and `!=`, and the operators between them.
#[cycle(expr)]
#[inline(always)]
#[tactic(auto, unfolding(crate::specs::Readers::equal_with))]
fn equality<'a>(alloc: Global, left: usize, tokens: &'a [TreeToken]) -> Read<'a, Equality>
    ensures { Gives (λ x. (equality_tree x.0, x.1.now)) result (readers.equal_with left (readers.below left) tokens.now) }
{
    let (first, rest) = relational(alloc, left, tokens)?;
    let (more, rest) = equality_parts(alloc, left, rest)?;
    Ok((Equality { first, more }, rest))
}

/// The operands behind the first.
#[cycle(expr)]
fn equality_parts<'a>(
    alloc: Global,
    left: usize,
    tokens: &'a [TreeToken],
) -> Read<'a, Vec<EqualityPart>>
    ensures { Gives (λ x. (list_tree (map equality_part_tree x.0.items), x.1.now)) result (spec.equality_parts_with left (readers.below left) tokens.now) }
{
    let mut rest = tokens;
    let mut list = list_for(alloc, starts_equality(rest))?;
    'list: while starts_equality(rest) {
        let (next, after) = equality_part(alloc, left, rest)?;
        list.push(next)?;
        rest = after;
    }
    Ok((list, rest))
}

/// An operand with the operator before it.
#[cycle(expr)]
fn equality_part<'a>(alloc: Global, left: usize, tokens: &'a [TreeToken]) -> Read<'a, EqualityPart>
    ensures { Gives (λ x. (equality_part_tree x.0, x.1.now)) result (spec.equality_part_with left (readers.below left) tokens.now) }
{
    let ((operator, place), rest) = equality_operator(tokens)?;
    let (operand, rest) = relational(alloc, left, rest)?;
    Ok((
        EqualityPart {
            operator,
            place,
            operand,
        },
        rest,
    ))
}

/// Operands of comparisons by order, and the operators between them.
#[cycle(expr)]
#[inline(always)]
#[tactic(auto, unfolding(crate::specs::Readers::order_with))]
fn relational<'a>(alloc: Global, left: usize, tokens: &'a [TreeToken]) -> Read<'a, Relational>
    ensures { Gives (λ x. (relational_tree x.0, x.1.now)) result (readers.order_with left (readers.below left) tokens.now) }
{
    let (first, rest) = additive(alloc, left, tokens)?;
    let (more, rest) = relational_parts(alloc, left, rest)?;
    Ok((Relational { first, more }, rest))
}

/// The operands behind the first.
#[cycle(expr)]
fn relational_parts<'a>(
    alloc: Global,
    left: usize,
    tokens: &'a [TreeToken],
) -> Read<'a, Vec<RelationalPart>>
    ensures { Gives (λ x. (list_tree (map relational_part_tree x.0.items), x.1.now)) result (spec.relational_parts_with left (readers.below left) tokens.now) }
{
    let mut rest = tokens;
    let mut list = list_for(alloc, starts_relational(rest))?;
    'list: while starts_relational(rest) {
        let (next, after) = relational_part(alloc, left, rest)?;
        list.push(next)?;
        rest = after;
    }
    Ok((list, rest))
}

/// An operand with the operator before it.
#[cycle(expr)]
fn relational_part<'a>(
    alloc: Global,
    left: usize,
    tokens: &'a [TreeToken],
) -> Read<'a, RelationalPart>
    ensures { Gives (λ x. (relational_part_tree x.0, x.1.now)) result (spec.relational_part_with left (readers.below left) tokens.now) }
{
    let ((operator, place), rest) = relational_operator(tokens)?;
    let (operand, rest) = additive(alloc, left, rest)?;
    Ok((
        RelationalPart {
            operator,
            place,
            operand,
        },
        rest,
    ))
}

/// Operands of `+` and `-`, and the operators between them.
#[cycle(expr)]
#[inline(always)]
#[tactic(auto, unfolding(crate::specs::Readers::sum_with))]
pub fn additive<'a>(alloc: Global, left: usize, tokens: &'a [TreeToken]) -> Read<'a, Additive>
    ensures { Gives (λ x. (additive_tree x.0, x.1.now)) result (readers.sum_with left (readers.below left) tokens.now) }
{
    let (first, rest) = multiplicative(alloc, left, tokens)?;
    let (more, rest) = additive_parts(alloc, left, rest)?;
    Ok((Additive { first, more }, rest))
}

/// The operands behind the first.
#[cycle(expr)]
fn additive_parts<'a>(
    alloc: Global,
    left: usize,
    tokens: &'a [TreeToken],
) -> Read<'a, Vec<AdditivePart>>
    ensures { Gives (λ x. (list_tree (map additive_part_tree x.0.items), x.1.now)) result (spec.additive_parts_with left (readers.below left) tokens.now) }
{
    let mut rest = tokens;
    let mut list = list_for(alloc, starts_additive(rest))?;
    'list: while starts_additive(rest) {
        let (next, after) = additive_part(alloc, left, rest)?;
        list.push(next)?;
        rest = after;
    }
    Ok((list, rest))
}

/// An operand with the operator before it.
#[cycle(expr)]
fn additive_part<'a>(alloc: Global, left: usize, tokens: &'a [TreeToken]) -> Read<'a, AdditivePart>
    ensures { Gives (λ x. (additive_part_tree x.0, x.1.now)) result (spec.additive_part_with left (readers.below left) tokens.now) }
{
    let ((operator, place), rest) = additive_operator(tokens)?;
    let (operand, rest) = multiplicative(alloc, left, rest)?;
    Ok((
        AdditivePart {
            operator,
            place,
            operand,
        },
        rest,
    ))
}

/// Operands of `*`, `/` and `%`, and the operators between them.
#[cycle(expr)]
#[inline(always)]
#[tactic(auto, unfolding(crate::specs::Readers::term_with))]
fn multiplicative<'a>(
    alloc: Global,
    left: usize,
    tokens: &'a [TreeToken],
) -> Read<'a, Multiplicative>
    ensures { Gives (λ x. (multiplicative_tree x.0, x.1.now)) result (readers.term_with left (readers.below left) tokens.now) }
{
    let (first, rest) = unary(alloc, left, tokens)?;
    let (more, rest) = multiplicative_parts(alloc, left, rest)?;
    Ok((Multiplicative { first, more }, rest))
}

/// The operands behind the first.
#[cycle(expr)]
fn multiplicative_parts<'a>(
    alloc: Global,
    left: usize,
    tokens: &'a [TreeToken],
) -> Read<'a, Vec<MultiplicativePart>>
    ensures { Gives (λ x. (list_tree (map multiplicative_part_tree x.0.items), x.1.now)) result (spec.multiplicative_parts_with left (readers.below left) tokens.now) }
{
    let mut rest = tokens;
    let mut list = list_for(alloc, starts_multiplicative(rest))?;
    'list: while starts_multiplicative(rest) {
        let (next, after) = multiplicative_part(alloc, left, rest)?;
        list.push(next)?;
        rest = after;
    }
    Ok((list, rest))
}

/// An operand with the operator before it.
#[cycle(expr)]
fn multiplicative_part<'a>(
    alloc: Global,
    left: usize,
    tokens: &'a [TreeToken],
) -> Read<'a, MultiplicativePart>
    ensures { Gives (λ x. (multiplicative_part_tree x.0, x.1.now)) result (spec.multiplicative_part_with left (readers.below left) tokens.now) }
{
    let ((operator, place), rest) = multiplicative_operator(tokens)?;
    let (operand, rest) = unary(alloc, left, rest)?;
    Ok((
        MultiplicativePart {
            operator,
            place,
            operand,
        },
        rest,
    ))
}

/// An empty list, with room for one part where there is one: few chains have more.
fn list_for<T: Drop>(alloc: Global, is_begun: bool) -> Result<Vec<T>, AllocError>
    ensures { IfOk result (λ list. list.items ≡ []) }
{
    let room = if is_begun { 1 } else { 0 };
    Vec::with_capacity(alloc, room)
}
