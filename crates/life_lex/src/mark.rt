//! Operators and punctuation (ISO/IEC 14882:2017 [lex.operators]).

ghost use Rattle.std.specs.Prelude.{◌≡◌, ◌≤◌, length, IfSome};
ghost use Rattle.life_lex.specs.Marks as spec;
ghost use Rattle.life_lex.specs.Scan as scan;

fn is_short_mark(b: u8) -> bool
    ensures { result ≡ spec.is_short_mark b }
{
    matches!(
        b,
        b'{' | b'}'
            | b'('
            | b')'
            | b'['
            | b']'
            | b';'
            | b','
            | b'.'
            | b'&'
            | b'*'
            | b'+'
            | b'-'
            | b'/'
            | b'%'
            | b'!'
            | b'='
            | b'<'
            | b'>'
            | b':'
    )
}

fn is_long_mark(first: u8, second: u8) -> bool
    ensures { result ≡ spec.is_long_mark first second }
{
    match first {
        b'-' => matches!(second, b'>' | b'-' | b'='),
        b'&' | b'|' | b':' => second == first,
        b'<' | b'+' => second == first || second == b'=',
        b'=' | b'!' | b'>' | b'*' | b'/' | b'%' => second == b'=',
        _ => false,
    }
}

fn pairs_with(first: u8, bytes: &[u8]) -> bool
    ensures { result ≡ scan.pairs_with first bytes.now }
{
    match bytes {
        [] => false,
        [second, ..] => is_long_mark(first, *second),
    }
}

/// Behind a first byte: how many bytes more the longest mark has, if there is one.
pub(crate) fn mark_scan(first: u8, bytes: &[u8]) -> Option<usize>
    ensures value { result ≡ scan.mark_scan first bytes.now }
    ensures bound { IfSome result (λ n. n ≤ length bytes.now) }
{
    if pairs_with(first, bytes) {
        Some(1)
    } else if is_short_mark(first) {
        Some(0)
    } else {
        None
    }
}
