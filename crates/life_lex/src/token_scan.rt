//! The longest token in front.

ghost use Rattle.std.specs.Prelude.{◌≡◌, ◌<◌, ◌≤◌, ◌^◌, length, IfSome};
ghost use Rattle.std.specs.List.{prefix_len};
ghost use Rattle.life_lex.specs.Bytes.{is_word_byte};
ghost use Rattle.life_lex.specs.Scan as scan;

use crate::byte::{is_nondigit, is_word_byte};
use crate::literal::{character_scan, string_scan};
use crate::mark::mark_scan;
use crate::number::number_scan;

fn word_len(bytes: &[u8]) -> usize
    ensures value { result ≡ prefix_len is_word_byte bytes.now }
    ensures bound { result ≤ length bytes.now }
{
    bytes.iter().take_while(|b| is_word_byte(**b)).count()
}

fn token_rest_scan(first: u8, bytes: &[u8]) -> Option<usize>
    requires { length bytes.now < 2 ^ 32 }
    ensures value { result ≡ scan.token_rest_scan first bytes.now }
    ensures bound { IfSome result (λ n. n ≤ length bytes.now) }
{
    if is_nondigit(first) {
        Some(word_len(bytes))
    } else if first.is_ascii_digit() {
        Some(number_scan(first, bytes))
    } else if first == b'\'' {
        character_scan(bytes)
    } else if first == b'"' {
        string_scan(bytes)
    } else {
        mark_scan(first, bytes)
    }
}

/// How long the longest token in front is, if there is one; a number may be of any size.
#[tactic(auto, unfolding(crate::specs::Scan::token_scan))]
pub(crate) fn token_len(bytes: &[u8]) -> Option<usize>
    requires { length bytes.now < 2 ^ 32 }
    ensures value { result ≡ scan.token_scan bytes.now }
    ensures bound { IfSome result (λ n. (0 < n) × (n ≤ length bytes.now)) }
{
    match bytes {
        [] => None,
        [first, rest @ ..] => token_rest_scan(*first, rest).map(|len| 1 + len),
    }
}
