// The number that a word writes.
ghost use Rattle.std.specs.Prelude.{◌≡◌, ◌≤◌, ◌<◌, min, IfSome};
ghost use Rattle.std.specs.Char.{is_ascii_digit};
ghost use Rattle.std.specs.List.{list_all};
ghost use Rattle.life_input.specs.Numbers as spec;

/// The largest number with a `-`, without it: 2^63.
const MOST_BELOW: u64 = 1 << 63;

/// The largest number without a `-`: 2^63 - 1.
const MOST_ABOVE: u64 = (1 << 63) - 1;

/// The number of an optional `-` and decimal digits, if it fits 64 bits with sign.
pub(crate) fn number_of(word: &[u8]) -> Option<i64>
    ensures { result ≡ spec.number_of word.now }
{
    match word {
        [] => None,
        [b'-', digits @ ..] => Some(negated(magnitude(MOST_BELOW, digits)?)),
        [_, ..] => Some(magnitude(MOST_ABOVE, word)? as i64),
    }
}

// The number below 0 of this size.
fn negated(size: u64) -> i64
    requires { size ≤ 9223372036854775808 }
    ensures { result ≡ spec.negated size }
{
    if size == 0 {
        0
    } else {
        -1 - ((size - 1) as i64)
    }
}

// The value of decimal digits, if there is one and it is at most `most`.
fn magnitude(most: u64, digits: &[u8]) -> Option<u64>
    requires { most < 18446744073709551615 }
    ensures value { result ≡ spec.magnitude most digits.now }
    ensures bound { IfSome result (λ n. n ≤ most) }
{
    if !is_numeral(digits) {
        return None;
    }
    let value = capped_value(digits);
    if value > most { None } else { Some(value) }
}

// One decimal digit or more, and nothing else.
fn is_numeral(text: &[u8]) -> bool
    ensures { result ≡ spec.is_numeral text.now }
{
    !text.is_empty() && are_digits(text)
}

fn are_digits(text: &[u8]) -> bool
    ensures { result ≡ list_all is_ascii_digit text.now }
{
    text.iter().all(|byte| byte.is_ascii_digit())
}

// The value of the digits, or the largest u64 if it is past that.
fn capped_value(digits: &[u8]) -> u64
    ensures { result ≡ min (spec.value_of digits.now) 18446744073709551615 }
{
    let mut value: u64 = 0;
    for digit in digits {
        let units = u64::from(digit.saturating_sub(b'0'));
        value = value.saturating_mul(10).saturating_add(units);
    }
    value
}
