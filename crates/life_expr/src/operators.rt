// The operators between operands.
ghost use Rattle.std.specs.Prelude.{◌≡◌};
ghost use Rattle.life_expr.specs.Exprs as spec;
ghost use Rattle.life_expr.specs.Gives.{Gives};
ghost use Rattle.life_expr.specs.Heads.{heads};
ghost use Rattle.life_expr.specs.Read as reading;
ghost use Rattle.life_expr.specs.Types.{flat};
ghost use Rattle.life_tree.specs.Views.{additive_number, at, equality_number, multiplicative_number, relational_number};

use crate::marks::{mark, starts};
use crate::stop::Read;
use life_tree::{
    AdditiveOperator, EqualityOperator, MultiplicativeOperator, RelationalOperator, TreeToken,
    fixed,
};
use life_types::Place;

/// Whether the next token is an operator between operands.
pub fn starts_operator(tokens: &[TreeToken]) -> bool
    ensures { result ≡ spec.starts_operator tokens.now }
{
    starts_multiplicative(tokens)
        || starts_additive(tokens)
        || starts_relational(tokens)
        || starts_equality(tokens)
        || starts(tokens, fixed::AND_AND)
        || starts(tokens, fixed::OR_OR)
}

/// Whether the next token is `==` or `!=`.
pub fn starts_equality(tokens: &[TreeToken]) -> bool
    ensures { result ≡ reading.starts (heads spec.equality_form) tokens.now }
{
    starts(tokens, fixed::EQUAL) || starts(tokens, fixed::NOT_EQUAL)
}

/// The next token, which is `==` or `!=`.
pub fn equality_operator<'a>(tokens: &'a [TreeToken]) -> Read<'a, (EqualityOperator, Place)>
    ensures { Gives (λ x. (at (equality_number x.0.0) x.0.1, x.1.now)) result (flat spec.equality_form tokens.now) }
{
    if starts(tokens, fixed::EQUAL) {
        let (place, rest) = mark(tokens, fixed::EQUAL)?;
        return Ok(((EqualityOperator::Equal, place), rest));
    }
    let (place, rest) = mark(tokens, fixed::NOT_EQUAL)?;
    Ok(((EqualityOperator::NotEqual, place), rest))
}

/// Whether the next token is a comparison by order.
pub fn starts_relational(tokens: &[TreeToken]) -> bool
    ensures { result ≡ reading.starts (heads spec.relational_form) tokens.now }
{
    starts(tokens, fixed::LESS)
        || starts(tokens, fixed::LESS_EQUAL)
        || starts(tokens, fixed::GREATER)
        || starts(tokens, fixed::GREATER_EQUAL)
}

/// The next token, which is a comparison by order.
pub fn relational_operator<'a>(tokens: &'a [TreeToken]) -> Read<'a, (RelationalOperator, Place)>
    ensures { Gives (λ x. (at (relational_number x.0.0) x.0.1, x.1.now)) result (flat spec.relational_form tokens.now) }
{
    if starts(tokens, fixed::LESS) {
        let (place, rest) = mark(tokens, fixed::LESS)?;
        return Ok(((RelationalOperator::Less, place), rest));
    }
    if starts(tokens, fixed::LESS_EQUAL) {
        let (place, rest) = mark(tokens, fixed::LESS_EQUAL)?;
        return Ok(((RelationalOperator::LessEqual, place), rest));
    }
    if starts(tokens, fixed::GREATER) {
        let (place, rest) = mark(tokens, fixed::GREATER)?;
        return Ok(((RelationalOperator::Greater, place), rest));
    }
    let (place, rest) = mark(tokens, fixed::GREATER_EQUAL)?;
    Ok(((RelationalOperator::GreaterEqual, place), rest))
}

/// Whether the next token is `+` or `-`.
pub fn starts_additive(tokens: &[TreeToken]) -> bool
    ensures { result ≡ reading.starts (heads spec.additive_form) tokens.now }
{
    starts(tokens, fixed::PLUS) || starts(tokens, fixed::MINUS)
}

/// The next token, which is `+` or `-`.
pub fn additive_operator<'a>(tokens: &'a [TreeToken]) -> Read<'a, (AdditiveOperator, Place)>
    ensures { Gives (λ x. (at (additive_number x.0.0) x.0.1, x.1.now)) result (flat spec.additive_form tokens.now) }
{
    if starts(tokens, fixed::PLUS) {
        let (place, rest) = mark(tokens, fixed::PLUS)?;
        return Ok(((AdditiveOperator::Add, place), rest));
    }
    let (place, rest) = mark(tokens, fixed::MINUS)?;
    Ok(((AdditiveOperator::Subtract, place), rest))
}

/// Whether the next token is `*`, `/` or `%`.
pub fn starts_multiplicative(tokens: &[TreeToken]) -> bool
    ensures { result ≡ reading.starts (heads spec.multiplicative_form) tokens.now }
{
    starts(tokens, fixed::STAR) || starts(tokens, fixed::SLASH) || starts(tokens, fixed::PERCENT)
}

/// The next token, which is `*`, `/` or `%`.
pub fn multiplicative_operator<'a>(
    tokens: &'a [TreeToken],
) -> Read<'a, (MultiplicativeOperator, Place)>
    ensures { Gives (λ x. (at (multiplicative_number x.0.0) x.0.1, x.1.now)) result (flat spec.multiplicative_form tokens.now) }
{
    if starts(tokens, fixed::STAR) {
        let (place, rest) = mark(tokens, fixed::STAR)?;
        return Ok(((MultiplicativeOperator::Multiply, place), rest));
    }
    if starts(tokens, fixed::SLASH) {
        let (place, rest) = mark(tokens, fixed::SLASH)?;
        return Ok(((MultiplicativeOperator::Divide, place), rest));
    }
    let (place, rest) = mark(tokens, fixed::PERCENT)?;
    Ok(((MultiplicativeOperator::Remainder, place), rest))
}
