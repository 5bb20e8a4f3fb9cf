// The parser of types: each function mirrors the reader of its name.
ghost use Rattle.std.specs.Prelude.{◌<◌};
ghost use Rattle.life_expr.specs.Gives.{Gives};
ghost use Rattle.life_expr.specs.Readers as readers;
ghost use Rattle.life_expr.specs.Types as spec;
ghost use Rattle.life_tree.specs.Rules as rules;
ghost use Rattle.life_tree.specs.Tree.{◌⨾◌, node};
ghost use Rattle.life_tree.specs.Views.{argument_tree, base_tree, type_tree, optional_tree, suffix_tree, iterator_tree};

use crate::marks::{mark, name, opener, optional_mark, starts, starts_name};
use crate::stop::Read;
use life_tree::{
    Base, IteratorKind, IteratorName, Qualified, Suffix, TreeToken, TypeArgument, TypeName, fixed,
};
use life_types::Place;
use std::alloc::Global;

/// A type, where `left` more constructs may be open.
#[cycle(types)]
#[tactic(auto, unfolding(crate::specs::Readers::type_with))]
pub fn type_name<'a>(alloc: Global, left: usize, tokens: &'a [TreeToken]) -> Read<'a, TypeName>
    ensures { Gives (λ x. (type_tree x.0, x.1.now)) result (readers.type_with left (readers.below left) tokens.now) }
{
    let (constant, rest) = optional_mark(tokens, fixed::CONST)?;
    let ((base, suffix), rest) = unqualified(alloc, left, rest)?;
    Ok((
        TypeName {
            constant,
            base,
            suffix,
        },
        rest,
    ))
}

/// A type inside a construct, where `left` more may be open outside.
#[cycle(types)]
fn type_below<'a>(alloc: Global, left: usize, tokens: &'a [TreeToken]) -> Read<'a, TypeName>
    requires { 0 < left }
    ensures { Gives (λ x. (type_tree x.0, x.1.now)) result (readers.below left rules.type_name tokens.now) }
{
    type_name(alloc, left - 1, tokens)
}

/// A type behind its `const`.
#[cycle(types)]
#[tactic(auto, unfolding(crate::specs::Readers::unqualified_with))]
pub fn unqualified<'a>(
    alloc: Global,
    left: usize,
    tokens: &'a [TreeToken],
) -> Read<'a, (Base, Option<Suffix>)>
    ensures { Gives (λ x. (node rules.unqualified (base_tree x.0.0 ⨾ optional_tree suffix_tree x.0.1), x.1.now)) result (readers.unqualified_with left (readers.below left) tokens.now) }
{
    let (base, rest) = base(alloc, left, tokens)?;
    let (suffix, rest) = suffix(rest)?;
    Ok(((base, suffix), rest))
}

/// `*` or `&`, where it stands.
pub fn suffix<'a>(tokens: &'a [TreeToken]) -> Read<'a, Option<Suffix>>
    ensures { Gives (λ x. (optional_tree suffix_tree x.0, x.1.now)) result (spec.suffix_at tokens.now) }
{
    if starts(tokens, fixed::STAR) {
        let (place, rest) = mark(tokens, fixed::STAR)?;
        return Ok((Some(Suffix::Pointer(place)), rest));
    }
    if starts(tokens, fixed::AMPERSAND) {
        let (place, rest) = mark(tokens, fixed::AMPERSAND)?;
        return Ok((Some(Suffix::Reference(place)), rest));
    }
    Ok((None, tokens))
}

#[cycle(types)]
#[tactic(auto, unfolding(crate::specs::Readers::base_with))]
fn base<'a>(alloc: Global, left: usize, tokens: &'a [TreeToken]) -> Read<'a, Base>
    ensures { Gives (λ x. (base_tree x.0, x.1.now)) result (readers.base_with left (readers.below left) tokens.now) }
{
    if starts(tokens, fixed::BOOL) {
        let (place, rest) = mark(tokens, fixed::BOOL)?;
        return Ok((Base::Bool(place), rest));
    }
    if starts(tokens, fixed::CHAR) {
        let (place, rest) = mark(tokens, fixed::CHAR)?;
        return Ok((Base::Char(place), rest));
    }
    if starts(tokens, fixed::INT) {
        let (place, rest) = mark(tokens, fixed::INT)?;
        return Ok((Base::Int(place), rest));
    }
    if starts(tokens, fixed::LONG) {
        let (place, rest) = mark(tokens, fixed::LONG)?;
        return Ok((Base::Long(place), rest));
    }
    if starts_name(tokens) {
        let (found, rest) = name(tokens)?;
        return Ok((Base::Named(found), rest));
    }
    if starts(tokens, fixed::STD) {
        let (namespace, rest) = mark(tokens, fixed::STD)?;
        let (scope, rest) = mark(rest, fixed::SCOPE)?;
        return base_of_std(alloc, left, namespace, scope, rest);
    }
    let (namespace, rest) = mark(tokens, fixed::GSL)?;
    let (scope, rest) = mark(rest, fixed::SCOPE)?;
    let (word, rest) = mark(rest, fixed::SPAN)?;
    let (element, rest) = argument(alloc, left, rest)?;
    let name = Qualified {
        namespace,
        scope,
        word,
    };
    Ok((Base::Span { name, element }, rest))
}

/// A type without `const`, `*` and `&`, behind the `std::` that it begins with.
#[cycle(types)]
fn base_of_std<'a>(
    alloc: Global,
    left: usize,
    namespace: Place,
    scope: Place,
    tokens: &'a [TreeToken],
) -> Read<'a, Base>
    ensures { Gives (λ x. (base_tree x.0, x.1.now)) result (spec.std_base_behind namespace scope (spec.std_base_with left (readers.below left) tokens.now)) }
{
    if starts(tokens, fixed::SIZE_T) {
        let (word, rest) = mark(tokens, fixed::SIZE_T)?;
        return Ok((
            Base::SizeT(Qualified {
                namespace,
                scope,
                word,
            }),
            rest,
        ));
    }
    if starts(tokens, fixed::STRING) {
        let (word, rest) = mark(tokens, fixed::STRING)?;
        return Ok((
            Base::Text(Qualified {
                namespace,
                scope,
                word,
            }),
            rest,
        ));
    }
    if starts(tokens, fixed::STRING_VIEW) {
        let (word, rest) = mark(tokens, fixed::STRING_VIEW)?;
        return Ok((
            Base::View(Qualified {
                namespace,
                scope,
                word,
            }),
            rest,
        ));
    }
    if starts(tokens, fixed::VECTOR) {
        let (word, rest) = mark(tokens, fixed::VECTOR)?;
        let (element, rest) = argument(alloc, left, rest)?;
        let (iterator, rest) = iterator(rest)?;
        let name = Qualified {
            namespace,
            scope,
            word,
        };
        return Ok((
            Base::Vector {
                name,
                element,
                iterator,
            },
            rest,
        ));
    }
    let (word, rest) = mark(tokens, fixed::UNIQUE_PTR)?;
    let (element, rest) = argument(alloc, left, rest)?;
    let name = Qualified {
        namespace,
        scope,
        word,
    };
    Ok((Base::UniquePtr { name, element }, rest))
}

/// The name of an iterator, where it stands.
fn iterator<'a>(tokens: &'a [TreeToken]) -> Read<'a, Option<IteratorName>>
    ensures { Gives (λ x. (optional_tree iterator_tree x.0, x.1.now)) result (spec.iterator_at tokens.now) }
{
    if starts(tokens, fixed::SCOPE) {
        let (scope, rest) = mark(tokens, fixed::SCOPE)?;
        if starts(rest, fixed::ITERATOR) {
            let (word, rest) = mark(rest, fixed::ITERATOR)?;
            let kind = IteratorKind::Mutable;
            return Ok((Some(IteratorName { scope, kind, word }), rest));
        }
        let (word, rest) = mark(rest, fixed::CONST_ITERATOR)?;
        let kind = IteratorKind::Constant;
        return Ok((Some(IteratorName { scope, kind, word }), rest));
    }
    Ok((None, tokens))
}

/// A type between `<` and `>`.
#[cycle(types)]
#[tactic(auto, unfolding(crate::specs::Readers::argument_with))]
pub fn argument<'a>(alloc: Global, left: usize, tokens: &'a [TreeToken]) -> Read<'a, TypeArgument>
    ensures { Gives (λ x. (argument_tree x.0, x.1.now)) result (readers.argument_with left (readers.below left) tokens.now) }
{
    let (opening, rest) = opener(left, tokens, fixed::LESS)?;
    let (ty, rest) = type_below(alloc, left, rest)?;
    let (closing, rest) = mark(rest, fixed::GREATER)?;
    let ty = Box::new(alloc, ty)?;
    Ok((
        TypeArgument {
            opening,
            ty,
            closing,
        },
        rest,
    ))
}
