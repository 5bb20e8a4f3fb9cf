// The parser of attributes: each function mirrors the reader of its name.
ghost use Rattle.std.specs.Prelude.{◌∷◌, [], ◌<◌, map};
ghost use Rattle.life_stmt.specs.Definitions as spec;
ghost use Rattle.life_expr.specs.Gives.{Gives};
ghost use Rattle.life_expr.specs.Heads as heads;
ghost use Rattle.life_expr.specs.Heads.{quoted_kind};
ghost use Rattle.life_expr.specs.Read.{as_many};
ghost use Rattle.life_expr.specs.Readers as readers;
ghost use Rattle.life_tree.specs.Rules as rules;
ghost use Rattle.life_tree.specs.Tree.{◌⨾◌};
ghost use Rattle.life_tree.specs.Views.{at, attribute_arguments_tree, attribute_tree, attributes_tree, later_tree, optional_tree, scope_tree, separated_tree, word_tree};
ghost use Rattle.life_tree.specs.declared.fixed.TheConstants.{COMMA};

use life_expr::{Read, Separated, mark, name, opener, starts, starts_name};
use life_tree::{Attribute, AttributeArguments, AttributeScope, AttributeWord, TreeToken, fixed};
use life_types::Place;
use std::alloc::Global;

/// A name, or `static`.
#[tactic(auto, unfolding(life_expr::specs::Readers::word_with))]
fn word<'a>(left: usize, tokens: &'a [TreeToken]) -> Read<'a, AttributeWord>
    ensures { Gives (λ x. (word_tree x.0, x.1.now)) result (readers.word_with left (readers.below left) tokens.now) }
{
    if starts_name(tokens) {
        let (found, rest) = name(tokens)?;
        return Ok((AttributeWord::Name(found), rest));
    }
    let (place, rest) = mark(tokens, fixed::STATIC)?;
    Ok((AttributeWord::Static(place), rest))
}

/// A word inside a construct, where `left` more may be open outside.
fn word_below<'a>(left: usize, tokens: &'a [TreeToken]) -> Read<'a, AttributeWord>
    requires { 0 < left }
    ensures { Gives (λ x. (word_tree x.0, x.1.now)) result (readers.below left rules.word tokens.now) }
{
    word(left - 1, tokens)
}

/// A comma and a word.
fn later_word<'a>(left: usize, tokens: &'a [TreeToken]) -> Read<'a, (AttributeWord, Place)>
    requires { 0 < left }
    ensures { Gives (λ x. (at COMMA x.0.1 ⨾ word_tree x.0.0, x.1.now)) result (spec.later_with (readers.below left) rules.word tokens.now) }
{
    let (comma, rest) = mark(tokens, fixed::COMMA)?;
    let (next, rest) = word_below(left, rest)?;
    Ok(((next, comma), rest))
}

/// Words, a comma before each.
fn later_words<'a>(
    alloc: Global,
    left: usize,
    tokens: &'a [TreeToken],
) -> Read<'a, Separated<AttributeWord>>
    requires { 0 < left }
    ensures { Gives (λ x. (later_tree x.0.1.items (map word_tree x.0.0.items), x.1.now)) result (as_many (quoted_kind COMMA ∷ []) (spec.later_with (readers.below left) rules.word) tokens.now) }
{
    let mut rest = tokens;
    let mut list = Vec::new(alloc);
    let mut commas = Vec::new(alloc);
    'list: while starts(rest, fixed::COMMA) {
        let ((next, comma), after) = later_word(left, rest)?;
        commas.push(comma)?;
        list.push(next)?;
        rest = after;
    }
    Ok(((list, commas), rest))
}

/// Words with commas between.
fn words<'a>(
    alloc: Global,
    left: usize,
    tokens: &'a [TreeToken],
) -> Read<'a, Separated<AttributeWord>>
    requires { 0 < left }
    ensures { Gives (λ x. (separated_tree x.0.1.items (map word_tree x.0.0.items), x.1.now)) result (spec.separated_with (readers.below left) rules.word tokens.now) }
{
    let (first, rest) = word_below(left, tokens)?;
    let ((mut list, commas), rest) = later_words(alloc, left, rest)?;
    list.insert(0, first)?;
    Ok(((list, commas), rest))
}

/// `::` and a name, where they stand.
fn scope<'a>(tokens: &'a [TreeToken]) -> Read<'a, Option<AttributeScope>>
    ensures { Gives (λ x. (optional_tree scope_tree x.0, x.1.now)) result (spec.scope_at tokens.now) }
{
    if starts(tokens, fixed::SCOPE) {
        let (scope, rest) = mark(tokens, fixed::SCOPE)?;
        let (name, rest) = name(rest)?;
        let found = AttributeScope { scope, name };
        return Ok((Some(found), rest));
    }
    Ok((None, tokens))
}

/// Words in parentheses, where they stand.
fn attribute_arguments<'a>(
    alloc: Global,
    left: usize,
    tokens: &'a [TreeToken],
) -> Read<'a, Option<AttributeArguments>>
    ensures { Gives (λ x. (optional_tree attribute_arguments_tree x.0, x.1.now)) result (spec.words_with left (readers.below left) tokens.now) }
{
    if starts(tokens, fixed::LEFT_PAREN) {
        let (opening, rest) = opener(left, tokens, fixed::LEFT_PAREN)?;
        let ((words, commas), rest) = words(alloc, left, rest)?;
        let (closing, rest) = mark(rest, fixed::RIGHT_PAREN)?;
        let found = AttributeArguments {
            opening,
            words,
            commas,
            closing,
        };
        return Ok((Some(found), rest));
    }
    Ok((None, tokens))
}

/// An attribute.
#[tactic(auto, unfolding(life_expr::specs::Readers::attribute_with))]
fn attribute<'a>(alloc: Global, left: usize, tokens: &'a [TreeToken]) -> Read<'a, Attribute>
    ensures { Gives (λ x. (attribute_tree x.0, x.1.now)) result (readers.attribute_with left (readers.below left) tokens.now) }
{
    let (outer_opening, rest) = mark(tokens, fixed::LEFT_BRACKET)?;
    let (inner_opening, rest) = mark(rest, fixed::LEFT_BRACKET)?;
    let (name, rest) = name(rest)?;
    let (scope, rest) = scope(rest)?;
    let (arguments, rest) = attribute_arguments(alloc, left, rest)?;
    let (inner_closing, rest) = mark(rest, fixed::RIGHT_BRACKET)?;
    let (outer_closing, rest) = mark(rest, fixed::RIGHT_BRACKET)?;
    Ok((
        Attribute {
            outer_opening,
            inner_opening,
            name,
            scope,
            arguments,
            inner_closing,
            outer_closing,
        },
        rest,
    ))
}

/// Attributes, as many as there are.
pub fn attributes<'a>(
    alloc: Global,
    left: usize,
    tokens: &'a [TreeToken],
) -> Read<'a, Vec<Attribute>>
    ensures { Gives (λ x. (attributes_tree x.0.items, x.1.now)) result (as_many (heads.heads_of rules.attribute) (readers.attribute_with left (readers.below left)) tokens.now) }
{
    let mut rest = tokens;
    let mut list = Vec::new(alloc);
    'list: while starts(rest, fixed::LEFT_BRACKET) {
        let (next, after) = attribute(alloc, left, rest)?;
        list.push(next)?;
        rest = after;
    }
    Ok((list, rest))
}
