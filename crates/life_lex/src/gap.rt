//! Gaps: what is passed over between tokens.

ghost use Rattle.std.specs.Prelude.{◌≡◌, ◌<◌, ◌≤◌, ◌^◌, length, IfSome};
ghost use Rattle.life_lex.specs.Gaps as spec;

use crate::byte::is_white;
use crate::comment::{comment_rest_len, line_len};
use crate::directive::is_directive;

/// How long the gap in front is, if there is one: a byte of white space, a comment, or the line of
/// an `#include` or `#pragma once`. `line_blank`: only spaces and tabs stand before it on its line.
pub(crate) fn gap_len(line_blank: bool, bytes: &[u8]) -> Option<usize>
    requires { length bytes.now < 2 ^ 32 }
    ensures value { result ≡ spec.gap_len line_blank bytes.now }
    ensures bound { IfSome result (λ n. (0 < n) × (n ≤ length bytes.now)) }
{
    let [b, rest @ ..] = bytes else {
        return None;
    };
    if is_white(*b) {
        Some(1)
    } else if *b == b'/' {
        comment_rest_len(rest).map(|len| 1 + len)
    } else if line_blank && *b == b'#' && is_directive(rest) {
        Some(1 + line_len(rest))
    } else {
        None
    }
}
