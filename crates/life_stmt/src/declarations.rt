// The parser of declarations: each function mirrors the reader of its name.
ghost use Rattle.life_expr.specs.Gives.{Gives};
ghost use Rattle.life_expr.specs.Readers as readers;
ghost use Rattle.life_tree.specs.Views.{declared_type_tree, initial_tree, initializer_tree, declaration_tree};

use crate::fronts::starts_type;
use life_expr::{
    Read, boxed_expr, init_list, mark, name, optional_mark, starts, starts_expr, unqualified,
};
use life_tree::{
    AutoType, Declaration, DeclaredType, InitialValue, Initializer, TreeToken, TypeName, fixed,
};
use std::alloc::Global;

/// A type, or `auto`.
#[tactic(auto, unfolding(life_expr::specs::Readers::declared_type_with))]
pub fn declared_type<'a>(
    alloc: Global,
    left: usize,
    tokens: &'a [TreeToken],
) -> Read<'a, DeclaredType>
    ensures { Gives (λ x. (declared_type_tree x.0, x.1.now)) result (readers.declared_type_with left (readers.below left) tokens.now) }
{
    let (constant, rest) = optional_mark(tokens, fixed::CONST)?;
    if starts_type(rest) {
        let ((base, suffix), rest) = unqualified(alloc, left, rest)?;
        let ty = TypeName {
            constant,
            base,
            suffix,
        };
        return Ok((DeclaredType::Written(ty), rest));
    }
    let (keyword, rest) = mark(rest, fixed::AUTO)?;
    let (reference, rest) = optional_mark(rest, fixed::AMPERSAND)?;
    let ty = AutoType {
        constant,
        keyword,
        reference,
    };
    Ok((DeclaredType::Auto(ty), rest))
}

/// `expr | list`.
#[tactic(auto, unfolding(life_expr::specs::Readers::initial_with))]
pub fn initial<'a>(alloc: Global, left: usize, tokens: &'a [TreeToken]) -> Read<'a, InitialValue>
    ensures { Gives (λ x. (initial_tree x.0, x.1.now)) result (readers.initial_with left (readers.below left) tokens.now) }
{
    if starts_expr(tokens) {
        let (value, rest) = boxed_expr(alloc, left, tokens)?;
        return Ok((InitialValue::Expr(value), rest));
    }
    let (list, rest) = init_list(alloc, left, tokens)?;
    Ok((InitialValue::List(list), rest))
}

/// What a variable is given, where it stands.
#[tactic(auto, unfolding(life_expr::specs::Readers::initializer_with))]
pub fn initializer<'a>(
    alloc: Global,
    left: usize,
    tokens: &'a [TreeToken],
) -> Read<'a, Option<Initializer>>
    ensures { Gives (λ x. (initializer_tree x.0, x.1.now)) result (readers.initializer_with left (readers.below left) tokens.now) }
{
    if starts(tokens, fixed::ASSIGN) {
        let (equals, rest) = mark(tokens, fixed::ASSIGN)?;
        let (value, rest) = initial(alloc, left, rest)?;
        return Ok((Some(Initializer::Equals { equals, value }), rest));
    }
    if starts(tokens, fixed::LEFT_BRACE) {
        let (list, rest) = init_list(alloc, left, tokens)?;
        return Ok((Some(Initializer::List(list)), rest));
    }
    Ok((None, tokens))
}

/// A declaration without its `;`.
#[tactic(auto, unfolding(life_expr::specs::Readers::declaration_with))]
pub fn declaration<'a>(
    alloc: Global,
    left: usize,
    tokens: &'a [TreeToken],
) -> Read<'a, Box<Declaration>>
    ensures { Gives (λ x. (declaration_tree x.0.value, x.1.now)) result (readers.declaration_with left (readers.below left) tokens.now) }
{
    let (ty, rest) = declared_type(alloc, left, tokens)?;
    let (name, rest) = name(rest)?;
    let (initializer, rest) = initializer(alloc, left, rest)?;
    let found = Declaration {
        ty,
        name,
        initializer,
    };
    let found = Box::new(alloc, found)?;
    Ok((found, rest))
}
