// The parser of assignments, steps and calls: each function mirrors the reader of its name.
ghost use Rattle.life_expr.specs.Gives.{Gives};
ghost use Rattle.life_expr.specs.Readers as readers;
ghost use Rattle.life_stmt.specs.Simples as spec;
ghost use Rattle.life_tree.specs.Grammar as grammar;
ghost use Rattle.life_tree.specs.Views.{at, compound_number, plain_target, postfix_tree, simple_tree, target_tree};

use crate::calls::ends_in_arguments;
use crate::declarations::initial;
use crate::fronts::{starts_assignment, starts_step};
use crate::targets::{target, target_below};
use life_expr::{Read, boxed_expr, mark, opener, starts};
use life_tree::{CompoundOperator, Postfix, Simple, StepOperator, Target, TreeToken, fixed};
use life_types::Place;
use std::alloc::Global;

/// The operator of an assignment that computes.
fn compound_operator<'a>(tokens: &'a [TreeToken]) -> Read<'a, (CompoundOperator, Place)>
    ensures { Gives (λ x. (at (compound_number x.0.0) x.0.1, x.1.now)) result (spec.compound_at tokens.now) }
{
    if starts(tokens, fixed::PLUS_ASSIGN) {
        let (place, rest) = mark(tokens, fixed::PLUS_ASSIGN)?;
        return Ok(((CompoundOperator::Add, place), rest));
    }
    if starts(tokens, fixed::MINUS_ASSIGN) {
        let (place, rest) = mark(tokens, fixed::MINUS_ASSIGN)?;
        return Ok(((CompoundOperator::Subtract, place), rest));
    }
    if starts(tokens, fixed::STAR_ASSIGN) {
        let (place, rest) = mark(tokens, fixed::STAR_ASSIGN)?;
        return Ok(((CompoundOperator::Multiply, place), rest));
    }
    if starts(tokens, fixed::SLASH_ASSIGN) {
        let (place, rest) = mark(tokens, fixed::SLASH_ASSIGN)?;
        return Ok(((CompoundOperator::Divide, place), rest));
    }
    let (place, rest) = mark(tokens, fixed::PERCENT_ASSIGN)?;
    Ok(((CompoundOperator::Remainder, place), rest))
}

/// An assignment behind its target.
fn assignment<'a>(
    alloc: Global,
    left: usize,
    target: Target,
    tokens: &'a [TreeToken],
) -> Read<'a, Box<Simple>>
    ensures { Gives (λ x. (simple_tree x.0.value, x.1.now)) result (spec.behind_target (target_tree target) (spec.assignment_with left (readers.below left) tokens.now)) }
{
    if starts(tokens, fixed::ASSIGN) {
        let (equals, rest) = mark(tokens, fixed::ASSIGN)?;
        let (value, rest) = initial(alloc, left, rest)?;
        let found = Simple::Assign {
            target,
            equals,
            value,
        };
        let found = Box::new(alloc, found)?;
        return Ok((found, rest));
    }
    let ((operator, place), rest) = compound_operator(tokens)?;
    let (value, rest) = boxed_expr(alloc, left, rest)?;
    let found = Simple::Compound {
        target,
        operator,
        place,
        value,
    };
    let found = Box::new(alloc, found)?;
    Ok((found, rest))
}

/// A step behind its target.
fn postfix_step<'a>(
    alloc: Global,
    target: Postfix,
    tokens: &'a [TreeToken],
) -> Read<'a, Box<Simple>>
    ensures { Gives (λ x. (simple_tree x.0.value, x.1.now)) result (spec.behind_target (plain_target target) (spec.step_at tokens.now)) }
{
    if starts(tokens, fixed::PLUS_PLUS) {
        let (place, rest) = mark(tokens, fixed::PLUS_PLUS)?;
        let found = Simple::PostfixStep {
            target,
            operator: StepOperator::Increment,
            place,
        };
        let found = Box::new(alloc, found)?;
        return Ok((found, rest));
    }
    let (place, rest) = mark(tokens, fixed::MINUS_MINUS)?;
    let found = Simple::PostfixStep {
        target,
        operator: StepOperator::Decrement,
        place,
    };
    let found = Box::new(alloc, found)?;
    Ok((found, rest))
}

/// What stands behind an operand without stars.
fn behind_operand<'a>(
    alloc: Global,
    left: usize,
    operand: Postfix,
    tokens: &'a [TreeToken],
) -> Read<'a, Box<Simple>>
    ensures { Gives (λ x. (simple_tree x.0.value, x.1.now)) result (spec.behind_target (plain_target operand) (spec.operand_ending_with left (readers.below left) (grammar.ends_in_arguments (postfix_tree operand)) tokens.now)) }
{
    if starts_assignment(tokens) {
        return assignment(alloc, left, Target::Plain(operand), tokens);
    }
    if !ends_in_arguments(&operand) {
        return postfix_step(alloc, operand, tokens);
    }
    if starts_step(tokens) {
        return postfix_step(alloc, operand, tokens);
    }
    let found = Box::new(alloc, Simple::Call(operand))?;
    Ok((found, tokens))
}

/// What stands behind a target.
fn behind_target<'a>(
    alloc: Global,
    left: usize,
    target: Target,
    tokens: &'a [TreeToken],
) -> Read<'a, Box<Simple>>
    ensures { Gives (λ x. (simple_tree x.0.value, x.1.now)) result (spec.behind_target (target_tree target) (spec.ending_with left (readers.below left) (target_tree target) tokens.now)) }
{
    match target {
        Target::Dereference { star, operand } => {
            assignment(alloc, left, Target::Dereference { star, operand }, tokens)
        }
        Target::Plain(operand) => behind_operand(alloc, left, operand, tokens),
    }
}

/// An assignment, a step or a call.
#[tactic(auto, unfolding(life_expr::specs::Readers::simple_with))]
pub fn simple<'a>(alloc: Global, left: usize, tokens: &'a [TreeToken]) -> Read<'a, Box<Simple>>
    ensures { Gives (λ x. (simple_tree x.0.value, x.1.now)) result (readers.simple_with left (readers.below left) tokens.now) }
{
    if starts(tokens, fixed::PLUS_PLUS) {
        let (place, rest) = opener(left, tokens, fixed::PLUS_PLUS)?;
        let (target, rest) = target_below(alloc, left, rest)?;
        let found = Simple::PrefixStep {
            operator: StepOperator::Increment,
            place,
            target,
        };
        let found = Box::new(alloc, found)?;
        return Ok((found, rest));
    }
    if starts(tokens, fixed::MINUS_MINUS) {
        let (place, rest) = opener(left, tokens, fixed::MINUS_MINUS)?;
        let (target, rest) = target_below(alloc, left, rest)?;
        let found = Simple::PrefixStep {
            operator: StepOperator::Decrement,
            place,
            target,
        };
        let found = Box::new(alloc, found)?;
        return Ok((found, rest));
    }
    let (target, rest) = target(alloc, left, tokens)?;
    behind_target(alloc, left, target, rest)
}
