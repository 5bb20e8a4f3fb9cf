// Operands of one token, and how operands begin.
ghost use Rattle.std.specs.Prelude.{◌≡◌, ◌∷◌, []};
ghost use Rattle.life_expr.specs.Exprs as spec;
ghost use Rattle.life_expr.specs.Gives.{Gives};
ghost use Rattle.life_expr.specs.Heads.{number_kind, character_kind, text_kind, heads, primary_heads, unary_heads};
ghost use Rattle.life_expr.specs.Read as reading;
ghost use Rattle.life_tree.specs.Grammar as grammar;
ghost use Rattle.life_tree.specs.Rules as rules;
ghost use Rattle.life_tree.specs.Views.{primary_tree};

use crate::marks::starts;
use crate::stop::{Read, Stop};
use life_tree::{Primary, TokenKey, TreeToken, fixed};

/// Whether the next token is a number.
pub fn starts_number(tokens: &[TreeToken]) -> bool
    ensures { result ≡ reading.starts (number_kind ∷ []) tokens.now }
{
    match tokens {
        [token, ..] => matches!(token.key, TokenKey::Number(_)),
        [] => false,
    }
}

/// A number.
pub fn number<'a>(tokens: &'a [TreeToken]) -> Read<'a, Primary>
    ensures { Gives (λ x. (primary_tree x.0, x.1.now)) result (spec.literal_as grammar.number tokens.now) }
{
    let [token, rest @ ..] = tokens else {
        return Err(Stop::Refused(tokens));
    };
    let place = token.place;
    match token.key {
        TokenKey::Number(value) => Ok((Primary::Number { value, place }, rest)),
        _ => Err(Stop::Refused(tokens)),
    }
}

/// Whether the next token is a character literal.
pub fn starts_character(tokens: &[TreeToken]) -> bool
    ensures { result ≡ reading.starts (character_kind ∷ []) tokens.now }
{
    match tokens {
        [token, ..] => matches!(token.key, TokenKey::Char(_)),
        [] => false,
    }
}

/// A character literal.
pub fn character<'a>(tokens: &'a [TreeToken]) -> Read<'a, Primary>
    ensures { Gives (λ x. (primary_tree x.0, x.1.now)) result (spec.literal_as grammar.character tokens.now) }
{
    let [token, rest @ ..] = tokens else {
        return Err(Stop::Refused(tokens));
    };
    let place = token.place;
    match token.key {
        TokenKey::Char(value) => Ok((Primary::Char { value, place }, rest)),
        _ => Err(Stop::Refused(tokens)),
    }
}

/// Whether the next token is a string literal.
pub fn starts_text(tokens: &[TreeToken]) -> bool
    ensures { result ≡ reading.starts (text_kind ∷ []) tokens.now }
{
    match tokens {
        [token, ..] => matches!(token.key, TokenKey::Text(_)),
        [] => false,
    }
}

/// A string literal.
pub fn text<'a>(tokens: &'a [TreeToken]) -> Read<'a, Primary>
    ensures { Gives (λ x. (primary_tree x.0, x.1.now)) result (spec.literal_as grammar.text tokens.now) }
{
    let [token, rest @ ..] = tokens else {
        return Err(Stop::Refused(tokens));
    };
    let place = token.place;
    match token.key {
        TokenKey::Text(number) => Ok((Primary::Text { number, place }, rest)),
        _ => Err(Stop::Refused(tokens)),
    }
}

/// Whether an operand without prefix operators stands in front.
pub fn starts_primary(tokens: &[TreeToken]) -> bool
    ensures { result ≡ reading.starts primary_heads tokens.now }
{
    match tokens {
        [token, ..] => match token.key {
            TokenKey::Number(_) => true,
            TokenKey::Char(_) => true,
            TokenKey::Text(_) => true,
            TokenKey::Name(_) => true,
            TokenKey::Fixed(found) => opens_primary(found),
        },
        [] => false,
    }
}

/// Whether such an operand can begin with the token of this number.
fn opens_primary(number: u16) -> bool
    ensures { result ≡ spec.opens_primary number }
{
    number == fixed::TRUE
        || number == fixed::FALSE
        || number == fixed::NULLPTR
        || number == fixed::LEFT_PAREN
        || number == fixed::STD
        || number == fixed::LIFE
}

/// Whether an expression stands in front.
pub fn starts_expr(tokens: &[TreeToken]) -> bool
    ensures { result ≡ reading.starts unary_heads tokens.now }
{
    starts(tokens, fixed::NOT)
        || starts(tokens, fixed::MINUS)
        || starts(tokens, fixed::STAR)
        || starts(tokens, fixed::AMPERSAND)
        || starts_primary(tokens)
}

/// Whether a part behind an operand stands in front.
pub fn starts_part(tokens: &[TreeToken]) -> bool
    ensures { result ≡ reading.starts (heads (grammar.rule rules.part)) tokens.now }
{
    starts(tokens, fixed::DOT)
        || starts(tokens, fixed::ARROW)
        || starts(tokens, fixed::LEFT_BRACKET)
}
