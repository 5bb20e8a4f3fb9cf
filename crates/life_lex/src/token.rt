//! Tokens.

use life_types::Place;

/// The kind of a token.
#[derive(Clone, Copy, Debug, PartialEq, Eq)]
pub enum TokenKind {
    /// A letter or `_`, and then letters, digits and `_` (ISO/IEC 14882:2017 [lex.name]); no
    /// universal-character-names.
    Name,
    /// A name that [lex.key] reserves, or one of the alternative tokens of [lex.digraph], such as
    /// `and`, which are no operators here.
    Keyword,
    /// `0`, or a digit 1 to 9 and then digits ([lex.icon]): decimal, without suffix and separators.
    /// At most 2^63 - 1.
    Number,
    /// One unit between `'` ([lex.ccon]): a tab, a byte 32 to 126 other than `'` and `\`, or one of
    /// `\n \t \\ \' \" \0`. No prefix.
    Char,
    /// Units between `"` ([lex.string]): a tab, bytes 32 to 126 and 128 to 255 other than `"` and
    /// `\`, and `\n \t \\ \' \"`. No prefix, and no raw strings.
    Text,
    /// An operator or punctuator ([lex.operators]):
    /// `{ } ( ) [ ] ; , . -> & && || * + - / % ! = == != < <= > >= << ++ -- += -= *= /= %= : ::`.
    /// There is no `>>`, so that two `>` close two lists of template arguments.
    Mark,
}

/// A token: the longest at its place.
#[derive(Clone, Copy, Debug, PartialEq, Eq)]
pub struct Token<'a> {
    /// What it is.
    pub kind: TokenKind,
    /// Its bytes, a slice of the source; at least one.
    pub text: &'a [u8],
    /// The offset of its first byte in the source, from 0.
    pub offset: usize,
    /// The place of its first byte.
    pub place: Place,
}
