//! Classes of bytes.

ghost use Rattle.std.specs.Prelude.{◌≡◌};
ghost use Rattle.life_lex.specs.Bytes as spec;

/// A letter or `_`: what a name begins with (ISO/IEC 14882:2017 [lex.name], without
/// universal-character-names).
pub(crate) fn is_nondigit(b: u8) -> bool
    ensures { result ≡ spec.is_nondigit b }
{
    b.is_ascii_alphabetic() || b == b'_'
}

/// A letter, a digit or `_`.
pub(crate) fn is_word_byte(b: u8) -> bool
    ensures { result ≡ spec.is_word_byte b }
{
    is_nondigit(b) || b.is_ascii_digit()
}

/// White space: the bytes 9 to 13 and the space (ISO/IEC 14882:2017 [lex.token]).
pub(crate) fn is_white(b: u8) -> bool
    ensures { result ≡ spec.is_white b }
{
    matches!(b, 9..=13 | b' ')
}

/// A space or a tab.
pub(crate) fn is_blank(b: u8) -> bool
    ensures { result ≡ spec.is_blank b }
{
    matches!(b, b' ' | b'\t')
}
