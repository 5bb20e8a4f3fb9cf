// The parser of functions: each function mirrors the reader of its name.
ghost use Rattle.std.specs.Prelude.{◌∷◌, [], ◌<◌, map};
ghost use Rattle.life_stmt.specs.Definitions as spec;
ghost use Rattle.life_expr.specs.Gives.{Gives};
ghost use Rattle.life_expr.specs.Heads.{quoted_kind};
ghost use Rattle.life_expr.specs.Read.{as_many};
ghost use Rattle.life_expr.specs.Readers as readers;
ghost use Rattle.life_tree.specs.Rules as rules;
ghost use Rattle.life_tree.specs.Tree.{◌⨾◌};
ghost use Rattle.life_tree.specs.Views.{at, body_tree, function_tree, later_tree, parameter_tree, parenthesized_tree, result_tree, separated_tree};
ghost use Rattle.life_tree.specs.declared.fixed.TheConstants.{COMMA};

use crate::attributes::attributes;
use crate::fronts::starts_parameter;
use crate::statements::block;
use life_expr::{Read, Separated, mark, name, opener, starts, type_name};
use life_tree::{Function, FunctionBody, Parameter, ResultType, TreeToken, fixed};
use life_types::Place;
use std::alloc::Global;

/// A parameter.
#[tactic(auto, unfolding(life_expr::specs::Readers::parameter_with))]
fn parameter<'a>(alloc: Global, left: usize, tokens: &'a [TreeToken]) -> Read<'a, Parameter>
    ensures { Gives (λ x. (parameter_tree x.0, x.1.now)) result (readers.parameter_with left (readers.below left) tokens.now) }
{
    let (attributes, rest) = attributes(alloc, left, tokens)?;
    let (ty, rest) = type_name(alloc, left, rest)?;
    let (name, rest) = name(rest)?;
    Ok((
        Parameter {
            attributes,
            ty,
            name,
        },
        rest,
    ))
}

/// A parameter inside a construct, where `left` more may be open outside.
fn parameter_below<'a>(alloc: Global, left: usize, tokens: &'a [TreeToken]) -> Read<'a, Parameter>
    requires { 0 < left }
    ensures { Gives (λ x. (parameter_tree x.0, x.1.now)) result (readers.below left rules.parameter tokens.now) }
{
    parameter(alloc, left - 1, tokens)
}

/// A comma and a parameter.
fn later_parameter<'a>(
    alloc: Global,
    left: usize,
    tokens: &'a [TreeToken],
) -> Read<'a, (Parameter, Place)>
    requires { 0 < left }
    ensures { Gives (λ x. (at COMMA x.0.1 ⨾ parameter_tree x.0.0, x.1.now)) result (spec.later_with (readers.below left) rules.parameter tokens.now) }
{
    let (comma, rest) = mark(tokens, fixed::COMMA)?;
    let (next, rest) = parameter_below(alloc, left, rest)?;
    Ok(((next, comma), rest))
}

/// Parameters, a comma before each.
fn later_parameters<'a>(
    alloc: Global,
    left: usize,
    tokens: &'a [TreeToken],
) -> Read<'a, Separated<Parameter>>
    requires { 0 < left }
    ensures { Gives (λ x. (later_tree x.0.1.items (map parameter_tree x.0.0.items), x.1.now)) result (as_many (quoted_kind COMMA ∷ []) (spec.later_with (readers.below left) rules.parameter) tokens.now) }
{
    let mut rest = tokens;
    let mut list = Vec::new(alloc);
    let mut commas = Vec::new(alloc);
    'list: while starts(rest, fixed::COMMA) {
        let ((next, comma), after) = later_parameter(alloc, left, rest)?;
        commas.push(comma)?;
        list.push(next)?;
        rest = after;
    }
    Ok(((list, commas), rest))
}

/// Parameters with commas between, where there are any.
fn parameters<'a>(
    alloc: Global,
    left: usize,
    tokens: &'a [TreeToken],
) -> Read<'a, Separated<Parameter>>
    requires { 0 < left }
    ensures { Gives (λ x. (separated_tree x.0.1.items (map parameter_tree x.0.0.items), x.1.now)) result (spec.separated_or_none_with (readers.below left) rules.parameter tokens.now) }
{
    if starts_parameter(tokens) {
        let (first, rest) = parameter_below(alloc, left, tokens)?;
        let ((mut list, commas), rest) = later_parameters(alloc, left, rest)?;
        list.insert(0, first)?;
        return Ok(((list, commas), rest));
    }
    Ok(((Vec::new(alloc), Vec::new(alloc)), tokens))
}

/// `void`, or a type.
#[tactic(auto, unfolding(crate::specs::Definitions::result_with))]
fn result_type<'a>(alloc: Global, left: usize, tokens: &'a [TreeToken]) -> Read<'a, ResultType>
    ensures { Gives (λ x. (result_tree x.0, x.1.now)) result (spec.result_with left (readers.below left) tokens.now) }
{
    if starts(tokens, fixed::VOID) {
        let (place, rest) = mark(tokens, fixed::VOID)?;
        return Ok((ResultType::Void(place), rest));
    }
    let (ty, rest) = type_name(alloc, left, tokens)?;
    Ok((ResultType::Type(ty), rest))
}

/// A block, or the `;` of a function that is only declared.
#[tactic(auto, unfolding(crate::specs::Definitions::body_with))]
fn body<'a>(alloc: Global, left: usize, tokens: &'a [TreeToken]) -> Read<'a, FunctionBody>
    ensures { Gives (λ x. (body_tree x.0, x.1.now)) result (spec.body_with left (readers.below left) tokens.now) }
{
    if starts(tokens, fixed::LEFT_BRACE) {
        let (found, rest) = block(alloc, left, tokens)?;
        return Ok((FunctionBody::Block(found), rest));
    }
    let (place, rest) = mark(tokens, fixed::SEMICOLON)?;
    Ok((FunctionBody::Declared(place), rest))
}

/// Parameters in parentheses.
#[derive(Drop)]
pub struct ParameterList {
    /// The `(`.
    pub opening: Place,
    /// The parameters in their order.
    pub list: Vec<Parameter>,
    /// The commas between them.
    pub commas: Vec<Place>,
    /// The `)`.
    pub closing: Place,
}

/// Parameters with their parentheses.
#[tactic(auto, unfolding(crate::specs::Definitions::parameters_with))]
fn parenthesized<'a>(alloc: Global, left: usize, tokens: &'a [TreeToken]) -> Read<'a, ParameterList>
    ensures { Gives (λ x. (parenthesized_tree x.0.opening (separated_tree x.0.commas.items (map parameter_tree x.0.list.items)) x.0.closing, x.1.now)) result (spec.parameters_with left (readers.below left) tokens.now) }
{
    let (opening, rest) = opener(left, tokens, fixed::LEFT_PAREN)?;
    let ((list, commas), rest) = parameters(alloc, left, rest)?;
    let (closing, rest) = mark(rest, fixed::RIGHT_PAREN)?;
    Ok((
        ParameterList {
            opening,
            list,
            commas,
            closing,
        },
        rest,
    ))
}

/// A function, part by part.
fn function_by_parts<'a>(alloc: Global, left: usize, tokens: &'a [TreeToken]) -> Read<'a, Function>
    ensures { Gives (λ x. (function_tree x.0, x.1.now)) result (spec.function_by_parts left (readers.below left) tokens.now) }
{
    let (attributes, rest) = attributes(alloc, left, tokens)?;
    let (returned, rest) = result_type(alloc, left, rest)?;
    let (name, rest) = name(rest)?;
    let (parameters, rest) = parenthesized(alloc, left, rest)?;
    let (body, rest) = body(alloc, left, rest)?;
    let ParameterList {
        opening,
        list,
        commas,
        closing,
    } = parameters;
    Ok((
        Function {
            attributes,
            returned,
            name,
            opening,
            parameters: list,
            commas,
            closing,
            body,
        },
        rest,
    ))
}

/// A function.
pub fn function<'a>(alloc: Global, left: usize, tokens: &'a [TreeToken]) -> Read<'a, Function>
    ensures { Gives (λ x. (function_tree x.0, x.1.now)) result (readers.function_with left (readers.below left) tokens.now) }
{
    function_by_parts(alloc, left, tokens)
}
