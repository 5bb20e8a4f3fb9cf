// Operands: prefix operators, what stands behind an operand, and what has no parts of that kind.
ghost use Rattle.std.specs.Prelude.{◌<◌, map};
ghost use Rattle.life_expr.specs.Exprs as spec;
ghost use Rattle.life_expr.specs.Gives.{Gives};
ghost use Rattle.life_expr.specs.Readers as readers;
ghost use Rattle.life_tree.specs.Rules as rules;
ghost use Rattle.life_tree.specs.Views.{arguments_tree, list_tree, optional_tree, postfix_part_tree, postfix_tree, prefix_number, primary_tree, unary_tree};
ghost use Rattle.life_tree.specs.declared.fixed.TheConstants as numbers;

use crate::lists::{arguments, expr_below, init_list};
use crate::literals::{
    character, number, starts_character, starts_number, starts_part, starts_text, text,
};
use crate::marks::{mark, name, opener, starts, starts_name};
use crate::stop::Read;
use crate::types::argument;
use life_tree::{
    Arguments, Postfix, PostfixPart, PrefixOperator, Primary, Qualified, TreeToken, Unary, fixed,
};
use life_types::Place;
use std::alloc::Global;

/// Prefix operators and their operand.
#[cycle(expr)]
#[tactic(auto, unfolding(crate::specs::Readers::unary_with))]
pub fn unary<'a>(alloc: Global, left: usize, tokens: &'a [TreeToken]) -> Read<'a, Unary>
    ensures { Gives (λ x. (unary_tree x.0, x.1.now)) result (readers.unary_with left (readers.below left) tokens.now) }
{
    if starts(tokens, fixed::NOT) {
        return prefix(alloc, left, PrefixOperator::Not, tokens);
    }
    if starts(tokens, fixed::MINUS) {
        return prefix(alloc, left, PrefixOperator::Negate, tokens);
    }
    if starts(tokens, fixed::STAR) {
        return prefix(alloc, left, PrefixOperator::Dereference, tokens);
    }
    if starts(tokens, fixed::AMPERSAND) {
        return prefix(alloc, left, PrefixOperator::AddressOf, tokens);
    }
    let (operand, rest) = postfix(alloc, left, tokens)?;
    Ok((Unary::Plain(operand), rest))
}

/// A prefix operator and its operand.
#[cycle(expr)]
fn prefix<'a>(
    alloc: Global,
    left: usize,
    operator: PrefixOperator,
    tokens: &'a [TreeToken],
) -> Read<'a, Unary>
    ensures { Gives (λ x. (unary_tree x.0, x.1.now)) result (spec.prefix_with left (readers.below left) (prefix_number operator) tokens.now) }
{
    let (place, rest) = opener(left, tokens, operator.number())?;
    let (operand, rest) = unary_below(alloc, left, rest)?;
    let operand = Box::new(alloc, operand)?;
    Ok((
        Unary::Prefix {
            operator,
            place,
            operand,
        },
        rest,
    ))
}

/// An operand behind a prefix operator, where `left` more constructs may be open outside.
#[cycle(expr)]
fn unary_below<'a>(alloc: Global, left: usize, tokens: &'a [TreeToken]) -> Read<'a, Unary>
    requires { 0 < left }
    ensures { Gives (λ x. (unary_tree x.0, x.1.now)) result (readers.below left rules.unary tokens.now) }
{
    unary(alloc, left - 1, tokens)
}

/// An operand and what stands behind it.
#[cycle(expr)]
#[tactic(auto, unfolding(crate::specs::Readers::postfix_with))]
pub fn postfix<'a>(alloc: Global, left: usize, tokens: &'a [TreeToken]) -> Read<'a, Postfix>
    ensures { Gives (λ x. (postfix_tree x.0, x.1.now)) result (readers.postfix_with left (readers.below left) tokens.now) }
{
    let (primary, rest) = primary(alloc, left, tokens)?;
    let (parts, rest) = parts(alloc, left, rest)?;
    Ok((Postfix { primary, parts }, rest))
}

/// What stands behind an operand.
#[cycle(expr)]
fn parts<'a>(alloc: Global, left: usize, tokens: &'a [TreeToken]) -> Read<'a, Vec<PostfixPart>>
    ensures { Gives (λ x. (list_tree (map postfix_part_tree x.0.items), x.1.now)) result (spec.parts_with left (readers.below left) tokens.now) }
{
    let mut rest = tokens;
    let mut list = Vec::new(alloc);
    'list: while starts_part(rest) {
        let (next, after) = part(alloc, left, rest)?;
        list.push(next)?;
        rest = after;
    }
    Ok((list, rest))
}

/// One part behind an operand.
#[cycle(expr)]
#[tactic(auto, unfolding(crate::specs::Readers::part_with))]
fn part<'a>(alloc: Global, left: usize, tokens: &'a [TreeToken]) -> Read<'a, PostfixPart>
    ensures { Gives (λ x. (postfix_part_tree x.0, x.1.now)) result (readers.part_with left (readers.below left) tokens.now) }
{
    if starts(tokens, fixed::DOT) {
        let (dot, rest) = mark(tokens, fixed::DOT)?;
        let (name, rest) = name(rest)?;
        let (arguments, rest) = optional_arguments(alloc, left, rest)?;
        return Ok((
            PostfixPart::Member {
                dot,
                name,
                arguments,
            },
            rest,
        ));
    }
    if starts(tokens, fixed::ARROW) {
        let (arrow, rest) = mark(tokens, fixed::ARROW)?;
        let (name, rest) = name(rest)?;
        let (arguments, rest) = optional_arguments(alloc, left, rest)?;
        return Ok((
            PostfixPart::Arrow {
                arrow,
                name,
                arguments,
            },
            rest,
        ));
    }
    let (opening, rest) = opener(left, tokens, fixed::LEFT_BRACKET)?;
    let (index, rest) = expr_below(alloc, left, rest)?;
    let (closing, rest) = mark(rest, fixed::RIGHT_BRACKET)?;
    let index = Box::new(alloc, index)?;
    Ok((
        PostfixPart::Index {
            opening,
            index,
            closing,
        },
        rest,
    ))
}

/// Arguments, where they stand.
#[cycle(expr)]
fn optional_arguments<'a>(
    alloc: Global,
    left: usize,
    tokens: &'a [TreeToken],
) -> Read<'a, Option<Arguments>>
    ensures { Gives (λ x. (optional_tree arguments_tree x.0, x.1.now)) result (spec.optional_args_with left (readers.below left) tokens.now) }
{
    if starts(tokens, fixed::LEFT_PAREN) {
        let (found, rest) = arguments(alloc, left, tokens)?;
        return Ok((Some(found), rest));
    }
    Ok((None, tokens))
}

/// What has no operators and no parts.
#[cycle(expr)]
#[tactic(auto, unfolding(crate::specs::Readers::primary_with))]
fn primary<'a>(alloc: Global, left: usize, tokens: &'a [TreeToken]) -> Read<'a, Primary>
    ensures { Gives (λ x. (primary_tree x.0, x.1.now)) result (readers.primary_with left (readers.below left) tokens.now) }
{
    if starts_number(tokens) {
        return number(tokens);
    }
    if starts_character(tokens) {
        return character(tokens);
    }
    if starts_text(tokens) {
        return text(tokens);
    }
    if starts(tokens, fixed::TRUE) {
        let (place, rest) = mark(tokens, fixed::TRUE)?;
        return Ok((Primary::True(place), rest));
    }
    if starts(tokens, fixed::FALSE) {
        let (place, rest) = mark(tokens, fixed::FALSE)?;
        return Ok((Primary::False(place), rest));
    }
    if starts(tokens, fixed::NULLPTR) {
        let (place, rest) = mark(tokens, fixed::NULLPTR)?;
        return Ok((Primary::Null(place), rest));
    }
    if starts_name(tokens) {
        return named(alloc, left, tokens);
    }
    if starts(tokens, fixed::LEFT_PAREN) {
        return parenthesized(alloc, left, tokens);
    }
    if starts(tokens, fixed::STD) {
        let (namespace, rest) = mark(tokens, fixed::STD)?;
        let (scope, rest) = mark(rest, fixed::SCOPE)?;
        return primary_of_std(alloc, left, namespace, scope, rest);
    }
    input(left, tokens)
}

/// A name, alone or with arguments or a list behind it.
#[cycle(expr)]
fn named<'a>(alloc: Global, left: usize, tokens: &'a [TreeToken]) -> Read<'a, Primary>
    ensures { Gives (λ x. (primary_tree x.0, x.1.now)) result (spec.primary_as left (readers.below left) spec.named_form tokens.now) }
{
    let (name, rest) = name(tokens)?;
    if starts(rest, fixed::LEFT_PAREN) {
        let (arguments, rest) = arguments(alloc, left, rest)?;
        return Ok((Primary::Call { name, arguments }, rest));
    }
    if starts(rest, fixed::LEFT_BRACE) {
        let (list, rest) = init_list(alloc, left, rest)?;
        return Ok((Primary::Construct { name, list }, rest));
    }
    Ok((Primary::Name(name), rest))
}

/// An expression in parentheses.
#[cycle(expr)]
fn parenthesized<'a>(alloc: Global, left: usize, tokens: &'a [TreeToken]) -> Read<'a, Primary>
    ensures { Gives (λ x. (primary_tree x.0, x.1.now)) result (spec.primary_as left (readers.below left) spec.parenthesized_form tokens.now) }
{
    let (opening, rest) = opener(left, tokens, fixed::LEFT_PAREN)?;
    let (inner, rest) = expr_below(alloc, left, rest)?;
    let (closing, rest) = mark(rest, fixed::RIGHT_PAREN)?;
    let inner = Box::new(alloc, inner)?;
    Ok((
        Primary::Paren {
            opening,
            inner,
            closing,
        },
        rest,
    ))
}

/// `life::input()`.
fn input<'a>(left: usize, tokens: &'a [TreeToken]) -> Read<'a, Primary>
    ensures { Gives (λ x. (primary_tree x.0, x.1.now)) result (spec.input_at left tokens.now) }
{
    let (namespace, rest) = mark(tokens, fixed::LIFE)?;
    let (scope, rest) = mark(rest, fixed::SCOPE)?;
    let (word, rest) = mark(rest, fixed::INPUT)?;
    let (opening, rest) = opener(left, rest, fixed::LEFT_PAREN)?;
    let (closing, rest) = mark(rest, fixed::RIGHT_PAREN)?;
    let name = Qualified {
        namespace,
        scope,
        word,
    };
    Ok((
        Primary::Input {
            name,
            opening,
            closing,
        },
        rest,
    ))
}

/// What stands behind `std::` in an expression.
#[cycle(expr)]
fn primary_of_std<'a>(
    alloc: Global,
    left: usize,
    namespace: Place,
    scope: Place,
    tokens: &'a [TreeToken],
) -> Read<'a, Primary>
    ensures { Gives (λ x. (primary_tree x.0, x.1.now)) result (spec.primary_behind numbers.STD namespace scope (spec.part_of_primary left (readers.below left) spec.std_form tokens.now)) }
{
    if starts(tokens, fixed::MOVE) {
        let (word, rest) = mark(tokens, fixed::MOVE)?;
        let (opening, rest) = opener(left, rest, fixed::LEFT_PAREN)?;
        let (variable, rest) = name(rest)?;
        let (closing, rest) = mark(rest, fixed::RIGHT_PAREN)?;
        let name = Qualified {
            namespace,
            scope,
            word,
        };
        return Ok((
            Primary::Move {
                name,
                opening,
                variable,
                closing,
            },
            rest,
        ));
    }
    if starts(tokens, fixed::STRING) {
        let (word, rest) = mark(tokens, fixed::STRING)?;
        let (opening, rest) = opener(left, rest, fixed::LEFT_PAREN)?;
        let (inner, rest) = expr_below(alloc, left, rest)?;
        let (closing, rest) = mark(rest, fixed::RIGHT_PAREN)?;
        let inner = Box::new(alloc, inner)?;
        let name = Qualified {
            namespace,
            scope,
            word,
        };
        return Ok((
            Primary::TextOf {
                name,
                opening,
                inner,
                closing,
            },
            rest,
        ));
    }
    let (word, rest) = mark(tokens, fixed::MAKE_UNIQUE)?;
    let (element, rest) = argument(alloc, left, rest)?;
    let (arguments, rest) = arguments(alloc, left, rest)?;
    let name = Qualified {
        namespace,
        scope,
        word,
    };
    Ok((
        Primary::MakeUnique {
            name,
            element,
            arguments,
        },
        rest,
    ))
}
