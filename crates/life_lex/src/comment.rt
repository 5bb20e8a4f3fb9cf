//! Comments (ISO/IEC 14882:2017 [lex.comment]).

ghost use Rattle.std.specs.Prelude.{◌≡◌, ◌<◌, ◌≤◌, ◌^◌, length, IfSome};
ghost use Rattle.life_lex.specs.Comments as spec;
ghost use Rattle.life_lex.specs.Lengths as lengths;

/// How many bytes stand before the next end of a line, or before the end of the file.
pub(crate) fn line_len(bytes: &[u8]) -> usize
    ensures value { result ≡ lengths.line_len bytes.now }
    ensures bound { result ≤ length bytes.now }
{
    bytes.iter().take_while(|b| **b != b'\n').count()
}

/// Whether a `/*` stands in front.
pub(crate) fn opens_comment(bytes: &[u8]) -> bool
    ensures { result ≡ spec.opens_comment bytes.now }
{
    bytes.starts_with(b"/*")
}

/// How many bytes stand up to the end of the first `*/`, if there is one.
fn close_len(bytes: &[u8]) -> Option<usize>
    requires { length bytes.now < 2 ^ 32 }
    ensures value { result ≡ spec.close_len bytes.now }
    ensures bound { IfSome result (λ n. n ≤ length bytes.now) }
{
    let mut rest = bytes;
    let mut len = 0;
    while let [_, tail @ ..] = rest {
        if rest.starts_with(b"*/") {
            return Some(len + 2);
        }
        len += 1;
        rest = tail;
    }
    None
}

/// Behind a `/`: how long the comment is without that, if one begins there.
pub(crate) fn comment_rest_len(bytes: &[u8]) -> Option<usize>
    requires { length bytes.now < 2 ^ 32 }
    ensures value { result ≡ spec.comment_rest_len bytes.now }
    ensures bound { IfSome result (λ n. n ≤ length bytes.now) }
{
    match bytes {
        [b'/', rest @ ..] => Some(1 + line_len(rest)),
        [b'*', rest @ ..] => close_len(rest).map(|len| 1 + len),
        _ => None,
    }
}
