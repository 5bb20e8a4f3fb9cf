//! Numbers (ISO/IEC 14882:2017 [lex.icon]).

ghost use Rattle.std.specs.Prelude.{◌≡◌, ◌≤◌, nat_lt, length};
ghost use Rattle.std.specs.Char.{is_ascii_digit};
ghost use Rattle.std.specs.List.{prefix_len};
ghost use Rattle.life_lex.specs.Numbers as spec;
ghost use Rattle.life_lex.specs.Scan as scan;

fn digit_len(bytes: &[u8]) -> usize
    ensures value { result ≡ prefix_len is_ascii_digit bytes.now }
    ensures bound { result ≤ length bytes.now }
{
    bytes.iter().take_while(|b| b.is_ascii_digit()).count()
}

/// Behind a first digit: how many digits more the number has. A `0` stands alone.
pub(crate) fn number_scan(first: u8, bytes: &[u8]) -> usize
    ensures value { result ≡ scan.number_scan first bytes.now }
    ensures bound { result ≤ length bytes.now }
{
    if first == b'0' { 0 } else { digit_len(bytes) }
}

fn starts_number(text: &[u8]) -> bool
    ensures { result ≡ spec.starts_number text.now }
{
    match text {
        [] => false,
        [b, ..] => b.is_ascii_digit(),
    }
}

/// Whether the value of these digits is past the largest long.
fn exceeds_long(digits: &[u8]) -> bool
    ensures { result ≡ nat_lt 9223372036854775807 (spec.value_of digits.now) }
{
    let mut value: u64 = 0;
    for digit in digits {
        let units = u64::from(digit.saturating_sub(b'0'));
        value = value.saturating_mul(10).saturating_add(units);
    }
    value > i64::MAX as u64
}

/// Whether a token is a number past the largest long, 2^63 - 1.
pub(crate) fn is_too_large(text: &[u8]) -> bool
    ensures { result ≡ spec.is_too_large text.now }
{
    starts_number(text) && exceeds_long(text)
}
