// The parser of conditions and of what stands in the parentheses of a `for`: each function mirrors
// the reader of its name.
ghost use Rattle.std.specs.Prelude.{◌<◌};
ghost use Rattle.life_expr.specs.Gives.{Gives};
ghost use Rattle.life_expr.specs.Readers as readers;
ghost use Rattle.life_stmt.specs.Statements as spec;
ghost use Rattle.life_tree.specs.Rules as rules;
ghost use Rattle.life_tree.specs.Views.{boxed, expr_tree, optional_tree, simple_tree};

use crate::declarations::{declared_type, initializer};
use crate::fronts::{starts_declaration, starts_simple};
use crate::simples::simple;
use life_expr::{Read, boxed_expr, mark, name, opener, starts, starts_expr};
use life_tree::{Declaration, DeclaredType, Expr, ForStart, Identifier, Simple, TreeToken, fixed};
use life_types::Place;
use std::alloc::Global;

/// A condition with its parentheses.
#[derive(Drop)]
pub struct Guard {
    /// The `(`.
    pub opening: Place,
    /// What decides.
    pub value: Box<Expr>,
    /// The `)`.
    pub closing: Place,
}

/// What follows the start of a `for`.
#[derive(Drop)]
pub struct ForRest {
    /// The first `;`.
    pub first_semicolon: Place,
    /// What decides on each turn.
    pub condition: Option<Box<Expr>>,
    /// The second `;`.
    pub second_semicolon: Place,
    /// What is done behind each turn.
    pub step: Option<Box<Simple>>,
}

/// What stands in the parentheses of a `for`.
#[derive(Drop)]
pub enum Clauses {
    /// Of a loop over a range.
    Range {
        ty: DeclaredType,
        name: Identifier,
        colon: Place,
        range: Box<Expr>,
    },
    /// Of any other.
    Turns {
        start: Option<ForStart>,
        rest: ForRest,
    },
}

/// The parentheses of a `for`, and what stands in them.
#[derive(Drop)]
pub struct ForHead {
    /// The `(`.
    pub opening: Place,
    /// What stands in them.
    pub clauses: Clauses,
    /// The `)`.
    pub closing: Place,
}

/// An expression inside a construct, where `left` more may be open outside.
fn expr_inside<'a>(alloc: Global, left: usize, tokens: &'a [TreeToken]) -> Read<'a, Box<Expr>>
    requires { 0 < left }
    ensures { Gives (λ x. (expr_tree x.0.value, x.1.now)) result (readers.below left rules.expr tokens.now) }
{
    boxed_expr(alloc, left - 1, tokens)
}

/// A condition with its parentheses.
#[tactic(auto, unfolding(life_expr::specs::Readers::condition_with))]
pub fn condition<'a>(alloc: Global, left: usize, tokens: &'a [TreeToken]) -> Read<'a, Guard>
    ensures { Gives (λ x. (spec.condition_view x.0, x.1.now)) result (readers.condition_with left (readers.below left) tokens.now) }
{
    let (opening, rest) = opener(left, tokens, fixed::LEFT_PAREN)?;
    let (value, rest) = expr_inside(alloc, left, rest)?;
    let (closing, rest) = mark(rest, fixed::RIGHT_PAREN)?;
    Ok((
        Guard {
            opening,
            value,
            closing,
        },
        rest,
    ))
}

/// A condition inside a construct, where `left` more may be open outside.
pub fn condition_below<'a>(alloc: Global, left: usize, tokens: &'a [TreeToken]) -> Read<'a, Guard>
    requires { 0 < left }
    ensures { Gives (λ x. (spec.condition_view x.0, x.1.now)) result (readers.below left rules.condition tokens.now) }
{
    condition(alloc, left - 1, tokens)
}

/// An expression, where one stands.
#[tactic(auto, unfolding(crate::specs::Statements::optional_expr_with))]
fn optional_expr<'a>(
    alloc: Global,
    left: usize,
    tokens: &'a [TreeToken],
) -> Read<'a, Option<Box<Expr>>>
    ensures { Gives (λ x. (optional_tree (boxed expr_tree) x.0, x.1.now)) result (spec.optional_expr_with left (readers.below left) tokens.now) }
{
    if starts_expr(tokens) {
        let (found, rest) = boxed_expr(alloc, left, tokens)?;
        return Ok((Some(found), rest));
    }
    Ok((None, tokens))
}

/// An assignment, a step or a call, where one stands.
#[tactic(auto, unfolding(crate::specs::Statements::optional_simple_with))]
fn optional_simple<'a>(
    alloc: Global,
    left: usize,
    tokens: &'a [TreeToken],
) -> Read<'a, Option<Box<Simple>>>
    ensures { Gives (λ x. (optional_tree (boxed simple_tree) x.0, x.1.now)) result (spec.optional_simple_with left (readers.below left) tokens.now) }
{
    if starts_simple(tokens) {
        let (found, rest) = simple(alloc, left, tokens)?;
        return Ok((Some(found), rest));
    }
    Ok((None, tokens))
}

/// What follows the start of a `for`, part by part.
fn for_rest_by_parts<'a>(alloc: Global, left: usize, tokens: &'a [TreeToken]) -> Read<'a, ForRest>
    ensures { Gives (λ x. (spec.for_rest_view x.0, x.1.now)) result (spec.for_rest_by_parts left (readers.below left) tokens.now) }
{
    let (first_semicolon, rest) = mark(tokens, fixed::SEMICOLON)?;
    let (condition, rest) = optional_expr(alloc, left, rest)?;
    let (second_semicolon, rest) = mark(rest, fixed::SEMICOLON)?;
    let (step, rest) = optional_simple(alloc, left, rest)?;
    Ok((
        ForRest {
            first_semicolon,
            condition,
            second_semicolon,
            step,
        },
        rest,
    ))
}

/// What follows the start of a `for`.
fn for_rest<'a>(alloc: Global, left: usize, tokens: &'a [TreeToken]) -> Read<'a, ForRest>
    ensures { Gives (λ x. (spec.for_rest_view x.0, x.1.now)) result (readers.for_rest_with left (readers.below left) tokens.now) }
{
    for_rest_by_parts(alloc, left, tokens)
}

/// What stands in the parentheses of a `for` that begins with a declaration.
fn declared_clauses<'a>(alloc: Global, left: usize, tokens: &'a [TreeToken]) -> Read<'a, Clauses>
    ensures { Gives (λ x. (spec.clauses_tree x.0, x.1.now)) result (spec.declared_clauses_with left (readers.below left) tokens.now) }
{
    let (ty, rest) = declared_type(alloc, left, tokens)?;
    let (name, rest) = name(rest)?;
    if starts(rest, fixed::COLON) {
        let (colon, rest) = mark(rest, fixed::COLON)?;
        let (range, rest) = boxed_expr(alloc, left, rest)?;
        return Ok((
            Clauses::Range {
                ty,
                name,
                colon,
                range,
            },
            rest,
        ));
    }
    let (initializer, rest) = initializer(alloc, left, rest)?;
    let (turns, rest) = for_rest(alloc, left, rest)?;
    let declaration = Declaration {
        ty,
        name,
        initializer,
    };
    let declaration = Box::new(alloc, declaration)?;
    Ok((
        Clauses::Turns {
            start: Some(ForStart::Declaration(declaration)),
            rest: turns,
        },
        rest,
    ))
}

/// What stands in the parentheses of a `for` that begins with no declaration.
fn simple_clauses<'a>(alloc: Global, left: usize, tokens: &'a [TreeToken]) -> Read<'a, Clauses>
    ensures { Gives (λ x. (spec.clauses_tree x.0, x.1.now)) result (spec.simple_clauses_with left (readers.below left) tokens.now) }
{
    if starts_simple(tokens) {
        let (found, rest) = simple(alloc, left, tokens)?;
        let (turns, rest) = for_rest(alloc, left, rest)?;
        return Ok((
            Clauses::Turns {
                start: Some(ForStart::Simple(found)),
                rest: turns,
            },
            rest,
        ));
    }
    let (turns, rest) = for_rest(alloc, left, tokens)?;
    Ok((
        Clauses::Turns {
            start: None,
            rest: turns,
        },
        rest,
    ))
}

/// What stands in the parentheses of a `for`.
#[tactic(auto, unfolding(life_expr::specs::Readers::for_clauses_with))]
fn for_clauses<'a>(alloc: Global, left: usize, tokens: &'a [TreeToken]) -> Read<'a, Clauses>
    ensures { Gives (λ x. (spec.clauses_tree x.0, x.1.now)) result (readers.for_clauses_with left (readers.below left) tokens.now) }
{
    if starts_declaration(tokens) {
        return declared_clauses(alloc, left, tokens);
    }
    simple_clauses(alloc, left, tokens)
}

/// The same, where `left` more may be open outside.
fn for_clauses_below<'a>(alloc: Global, left: usize, tokens: &'a [TreeToken]) -> Read<'a, Clauses>
    requires { 0 < left }
    ensures { Gives (λ x. (spec.clauses_tree x.0, x.1.now)) result (readers.below left rules.for_clauses tokens.now) }
{
    for_clauses(alloc, left - 1, tokens)
}

/// The parentheses of a `for`, and what stands in them.
#[tactic(auto, unfolding(life_expr::specs::Readers::for_head_with))]
fn for_head<'a>(alloc: Global, left: usize, tokens: &'a [TreeToken]) -> Read<'a, ForHead>
    ensures { Gives (λ x. (spec.for_head_view x.0, x.1.now)) result (readers.for_head_with left (readers.below left) tokens.now) }
{
    let (opening, rest) = opener(left, tokens, fixed::LEFT_PAREN)?;
    let (clauses, rest) = for_clauses_below(alloc, left, rest)?;
    let (closing, rest) = mark(rest, fixed::RIGHT_PAREN)?;
    Ok((
        ForHead {
            opening,
            clauses,
            closing,
        },
        rest,
    ))
}

/// The same, where `left` more may be open outside.
pub fn for_head_below<'a>(alloc: Global, left: usize, tokens: &'a [TreeToken]) -> Read<'a, ForHead>
    requires { 0 < left }
    ensures { Gives (λ x. (spec.for_head_view x.0, x.1.now)) result (readers.below left rules.for_head tokens.now) }
{
    for_head(alloc, left - 1, tokens)
}
