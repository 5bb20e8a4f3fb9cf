//! The kind of a token, by its text.

ghost use Rattle.std.specs.Prelude.{◌≡◌};
ghost use Rattle.life_lex.specs.Kinds as spec;

use crate::byte::is_nondigit;
use crate::keyword::is_keyword;
use crate::token::TokenKind;

/// The kind of a token with this text.
pub(crate) fn kind_of(text: &[u8]) -> TokenKind
    ensures { result ≡ spec.kind_of text.now }
{
    let [first, ..] = text else {
        return TokenKind::Mark;
    };
    if is_nondigit(*first) {
        if is_keyword(text) {
            TokenKind::Keyword
        } else {
            TokenKind::Name
        }
    } else if first.is_ascii_digit() {
        TokenKind::Number
    } else if *first == b'\'' {
        TokenKind::Char
    } else if *first == b'"' {
        TokenKind::Text
    } else {
        TokenKind::Mark
    }
}
