// Lists of expressions, in parentheses or braces.
ghost use Rattle.std.specs.Prelude.{◌<◌, map};
ghost use Rattle.life_expr.specs.Exprs as spec;
ghost use Rattle.life_expr.specs.Gives.{Gives};
ghost use Rattle.life_expr.specs.Readers as readers;
ghost use Rattle.life_tree.specs.Rules as rules;
ghost use Rattle.life_tree.specs.Tree.{◌⨾◌};
ghost use Rattle.life_tree.specs.declared.fixed.TheConstants.{COMMA};
ghost use Rattle.life_tree.specs.Views.{arguments_tree, at, expr_tree, init_list_tree, later_tree, separated_tree};

use crate::chains::expr;
use crate::literals::starts_expr;
use crate::marks::{mark, opener, starts};
use crate::stop::{Read, Separated};
use life_tree::{Arguments, Expr, InitList, TreeToken, fixed};
use life_types::Place;
use std::alloc::Global;

/// An expression inside a construct, where `left` more may be open outside.
#[cycle(expr)]
pub fn expr_below<'a>(alloc: Global, left: usize, tokens: &'a [TreeToken]) -> Read<'a, Expr>
    requires { 0 < left }
    ensures { Gives (λ x. (expr_tree x.0, x.1.now)) result (readers.below left rules.expr tokens.now) }
{
    expr(alloc, left - 1, tokens)
}

/// Arguments with their parentheses.
#[cycle(expr)]
#[tactic(auto, unfolding(crate::specs::Readers::args_with))]
pub fn arguments<'a>(alloc: Global, left: usize, tokens: &'a [TreeToken]) -> Read<'a, Arguments>
    ensures { Gives (λ x. (arguments_tree x.0, x.1.now)) result (readers.args_with left (readers.below left) tokens.now) }
{
    let (opening, rest) = opener(left, tokens, fixed::LEFT_PAREN)?;
    let ((list, commas), rest) = expressions(alloc, left, rest)?;
    let (closing, rest) = mark(rest, fixed::RIGHT_PAREN)?;
    Ok((
        Arguments {
            opening,
            list,
            commas,
            closing,
        },
        rest,
    ))
}

/// A list that initializes, with its braces.
#[cycle(expr)]
#[tactic(auto, unfolding(crate::specs::Readers::list_with))]
pub fn init_list<'a>(alloc: Global, left: usize, tokens: &'a [TreeToken]) -> Read<'a, InitList>
    ensures { Gives (λ x. (init_list_tree x.0, x.1.now)) result (readers.list_with left (readers.below left) tokens.now) }
{
    let (opening, rest) = opener(left, tokens, fixed::LEFT_BRACE)?;
    let ((list, commas), rest) = expressions(alloc, left, rest)?;
    let (closing, rest) = mark(rest, fixed::RIGHT_BRACE)?;
    Ok((
        InitList {
            opening,
            list,
            commas,
            closing,
        },
        rest,
    ))
}

/// Expressions with commas between, or none.
#[cycle(expr)]
fn expressions<'a>(alloc: Global, left: usize, tokens: &'a [TreeToken]) -> Read<'a, Separated<Expr>>
    requires { 0 < left }
    ensures { Gives (λ x. (separated_tree x.0.1.items (map expr_tree x.0.0.items), x.1.now)) result (spec.expressions_with (readers.below left) tokens.now) }
{
    if starts_expr(tokens) {
        let (first, rest) = expr_below(alloc, left, tokens)?;
        let ((mut list, commas), rest) = later_expressions(alloc, left, rest)?;
        // Most lists have one element.
        list.reserve_exact(1)?;
        list.insert(0, first)?;
        return Ok(((list, commas), rest));
    }
    Ok(((Vec::new(alloc), Vec::new(alloc)), tokens))
}

/// Expressions, a comma before each.
#[cycle(expr)]
fn later_expressions<'a>(
    alloc: Global,
    left: usize,
    tokens: &'a [TreeToken],
) -> Read<'a, Separated<Expr>>
    requires { 0 < left }
    ensures { Gives (λ x. (later_tree x.0.1.items (map expr_tree x.0.0.items), x.1.now)) result (spec.later_expressions_with (readers.below left) tokens.now) }
{
    let mut rest = tokens;
    let mut list = Vec::new(alloc);
    let mut commas = Vec::new(alloc);
    'list: while starts(rest, fixed::COMMA) {
        let ((next, comma), after) = later_expression(alloc, left, rest)?;
        commas.push(comma)?;
        list.push(next)?;
        rest = after;
    }
    Ok(((list, commas), rest))
}

/// A comma and an expression.
#[cycle(expr)]
fn later_expression<'a>(
    alloc: Global,
    left: usize,
    tokens: &'a [TreeToken],
) -> Read<'a, (Expr, Place)>
    requires { 0 < left }
    ensures { Gives (λ x. (at COMMA x.0.1 ⨾ expr_tree x.0.0, x.1.now)) result (spec.later_expression_with (readers.below left) tokens.now) }
{
    let (comma, rest) = mark(tokens, fixed::COMMA)?;
    let (next, rest) = expr_below(alloc, left, rest)?;
    Ok(((next, comma), rest))
}
