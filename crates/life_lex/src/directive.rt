//! Directive lines (ISO/IEC 14882:2017 [cpp.include], [cpp.pragma]): nothing is included.

ghost use Rattle.std.specs.Prelude.{◌≡◌, ◌≤◌, length};
ghost use Rattle.std.specs.List.{prefix_len};
ghost use Rattle.life_lex.specs.Bytes.{is_blank};
ghost use Rattle.life_lex.specs.Directives as spec;

use crate::byte::{is_blank, is_word_byte};

fn ends_word(bytes: &[u8]) -> bool
    ensures { result ≡ spec.ends_word bytes.now }
{
    match bytes {
        [] => true,
        [b, ..] => !is_word_byte(*b),
    }
}

/// Whether this word stands in front, and no letter, digit or `_` behind it.
fn starts_with_word(bytes: &[u8], word: &[u8]) -> bool
    ensures { result ≡ spec.starts_with_word bytes.now word.now }
{
    bytes.starts_with(word) && ends_word(&bytes[word.len()..])
}

fn starts_blank(bytes: &[u8]) -> bool
    ensures { result ≡ spec.starts_blank bytes.now }
{
    match bytes {
        [] => false,
        [b, ..] => is_blank(*b),
    }
}

fn blank_len(bytes: &[u8]) -> usize
    ensures value { result ≡ prefix_len is_blank bytes.now }
    ensures bound { result ≤ length bytes.now }
{
    bytes.iter().take_while(|b| is_blank(**b)).count()
}

fn skip_blanks<'a>(bytes: &'a [u8]) -> &'a [u8]
    ensures { result.now ≡ spec.skip_blanks bytes.now }
{
    &bytes[blank_len(bytes)..]
}

fn is_pragma_once(bytes: &[u8]) -> bool
    ensures { result ≡ spec.is_pragma_once bytes.now }
{
    if !bytes.starts_with(b"pragma") {
        return false;
    }
    let rest = &bytes[b"pragma".len()..];
    starts_blank(rest) && starts_with_word(skip_blanks(rest), b"once")
}

/// Behind a `#`: whether the line includes a file or is `#pragma once`.
pub(crate) fn is_directive(bytes: &[u8]) -> bool
    ensures { result ≡ spec.is_directive bytes.now }
{
    let words = skip_blanks(bytes);
    starts_with_word(words, b"include") || is_pragma_once(words)
}
