// Small readers: each answers what it read and the tokens behind it.
ghost use Rattle.std.specs.Prelude.{◌≡◌, ◌<◌, ◌∷◌, [], IfOk};
ghost use Rattle.life_expr.specs.Gives.{Gives};
ghost use Rattle.life_expr.specs.Heads.{quoted_kind, name_kind};
ghost use Rattle.life_expr.specs.Read as spec;
ghost use Rattle.life_tree.specs.Views.{at, name_tree, optional_tree};

use crate::stop::{Read, Stop};
use life_tree::{Identifier, TokenKey, TreeToken};
use life_types::Place;

/// Whether the next token is this one, which a rule quotes.
pub fn starts(tokens: &[TreeToken], number: u16) -> bool
    ensures { result ≡ spec.starts (quoted_kind number ∷ []) tokens.now }
{
    match tokens {
        [token, ..] => match token.key {
            TokenKey::Fixed(found) => found == number,
            _ => false,
        },
        [] => false,
    }
}

/// Whether the next token is a name.
pub fn starts_name(tokens: &[TreeToken]) -> bool
    ensures { result ≡ spec.starts (name_kind ∷ []) tokens.now }
{
    match tokens {
        [token, ..] => matches!(token.key, TokenKey::Name(_)),
        [] => false,
    }
}

/// The token that a rule quotes, for its place.
pub fn mark<'a>(tokens: &'a [TreeToken], number: u16) -> Read<'a, Place>
    ensures { Gives (λ x. (at number x.0, x.1.now)) result (spec.mark number tokens.now) }
{
    let [token, rest @ ..] = tokens else {
        return Err(Stop::Refused(tokens));
    };
    match token.key {
        TokenKey::Fixed(found) if found == number => Ok((token.place, rest)),
        _ => Err(Stop::Refused(tokens)),
    }
}

/// The token that a rule quotes, where it stands.
pub fn optional_mark<'a>(tokens: &'a [TreeToken], number: u16) -> Read<'a, Option<Place>>
    ensures { Gives (λ x. (optional_tree (at number) x.0, x.1.now)) result (spec.optional_mark number tokens.now) }
{
    if starts(tokens, number) {
        let (place, rest) = mark(tokens, number)?;
        return Ok((Some(place), rest));
    }
    Ok((None, tokens))
}

/// A name.
pub fn name<'a>(tokens: &'a [TreeToken]) -> Read<'a, Identifier>
    ensures { Gives (λ x. (name_tree x.0, x.1.now)) result (spec.name_mark tokens.now) }
{
    let [token, rest @ ..] = tokens else {
        return Err(Stop::Refused(tokens));
    };
    match token.key {
        TokenKey::Name(id) => Ok((
            Identifier {
                id,
                place: token.place,
            },
            rest,
        )),
        _ => Err(Stop::Refused(tokens)),
    }
}

/// The token that opens a construct, where `left` more may be open.
pub fn opener<'a>(left: usize, tokens: &'a [TreeToken], number: u16) -> Read<'a, Place>
    ensures gives { Gives (λ x. (x.0, x.1.now)) result (spec.opener left number tokens.now) }
    ensures some { IfOk result (λ x. 0 < left) }
{
    let [token, rest @ ..] = tokens else {
        return Err(Stop::Refused(tokens));
    };
    match token.key {
        TokenKey::Fixed(found) if found == number => {
            if left == 0 {
                return Err(Stop::Deep(tokens));
            }
            Ok((token.place, rest))
        }
        _ => Err(Stop::Refused(tokens)),
    }
}
