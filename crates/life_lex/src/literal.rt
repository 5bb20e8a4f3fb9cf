//! Character and string literals.

ghost use Rattle.std.specs.Prelude.{◌≡◌, ◌<◌, ◌≤◌, ◌+◌, ◌^◌, false, length, IfSome};
ghost use Rattle.life_lex.specs.Literals as spec;
ghost use Rattle.life_lex.specs.Scan as scan;

/// Whether a quote stands in front.
pub(crate) fn opens_literal(bytes: &[u8]) -> bool
    ensures { result ≡ spec.opens_literal bytes.now }
{
    match bytes {
        [] => false,
        [b, ..] => matches!(*b, b'\'' | b'"'),
    }
}

/// What may stand behind a backslash; of the simple escapes of ISO/IEC 14882:2017 [lex.ccon] these
/// alone.
fn is_escape(b: u8) -> bool
    ensures { result ≡ spec.is_escape b }
{
    matches!(b, b'n' | b't' | b'\\' | b'\'' | b'"')
}

/// A unit of one byte, inside of these quotes.
fn is_unit(quote: u8, b: u8) -> bool
    ensures { result ≡ spec.is_unit quote b }
{
    matches!(b, b'\t' | 32..=126 | 128..) && b != quote && b != b'\\'
}

fn starts_byte(n: u8, bytes: &[u8]) -> bool
    ensures { result ≡ scan.starts_byte n bytes.now }
{
    match bytes {
        [] => false,
        [b, ..] => *b == n,
    }
}

fn escape_scan(bytes: &[u8]) -> Option<usize>
    ensures value { result ≡ scan.escape_scan bytes.now }
    ensures bound { IfSome result (λ n. n ≤ 1 + length bytes.now) }
{
    let [e, rest @ ..] = bytes else {
        return None;
    };
    if (is_escape(*e) || *e == b'0') && starts_byte(b'\'', rest) {
        Some(3)
    } else {
        None
    }
}

/// Behind a `'`: how many bytes more the character literal has, if there is one ([lex.ccon]).
pub(crate) fn character_scan(bytes: &[u8]) -> Option<usize>
    ensures value { result ≡ scan.character_scan bytes.now }
    ensures bound { IfSome result (λ n. n ≤ length bytes.now) }
{
    let [b, rest @ ..] = bytes else {
        return None;
    };
    if *b == b'\\' {
        escape_scan(rest)
    } else if is_unit(b'\'', *b) && b.is_ascii() && starts_byte(b'\'', rest) {
        Some(2)
    } else {
        None
    }
}

/// Behind a `"`: how many bytes more the string literal has, if there is one ([lex.string]).
pub(crate) fn string_scan(bytes: &[u8]) -> Option<usize>
    requires { length bytes.now < 2 ^ 32 }
    ensures value { result ≡ scan.string_scan false bytes.now }
    ensures bound { IfSome result (λ n. n ≤ length bytes.now) }
{
    let mut escaped = false;
    let mut len: usize = 0;
    for b in bytes {
        len += 1;
        if escaped {
            if !is_escape(*b) {
                return None;
            }
            escaped = false;
        } else if *b == b'"' {
            return Some(len);
        } else if *b == b'\\' {
            escaped = true;
        } else if !is_unit(b'"', *b) {
            return None;
        }
    }
    None
}
