// What literals stand for.
ghost use Rattle.std.specs.Prelude.{◌≡◌, ◌<◌, ◌^◌, false, IfOk};
ghost use Rattle.life_keys.specs.Values as spec;
ghost use Rattle.life_lex.specs.Numbers as lex;

use life_types::NoMemory;
use std::alloc::Global;

/// The value of decimal digits.
pub(crate) fn number_value(digits: &[u8]) -> u64
    requires { lex.value_of digits.now < 2 ^ 63 }
    ensures { result ≡ lex.value_of digits.now }
{
    let mut value = 0;
    for digit in digits {
        value = value * 10 + u64::from(digit.saturating_sub(b'0'));
    }
    value
}

/// What stands for this byte behind a backslash ([lex.ccon]).
fn escaped(b: u8) -> u8
    ensures { result ≡ spec.escaped b }
{
    match b {
        b'n' => b'\n',
        b't' => b'\t',
        b'0' => 0,
        _ => b,
    }
}

/// The value of a character literal, with its quotes.
pub(crate) fn character_value(text: &[u8]) -> u8
    ensures { result ≡ spec.character_value text.now }
{
    match text {
        [_, b, c, ..] => { if *b == b'\\' { escaped(*c) } else { *b } }
        [_, b] => *b,
        _ => 0,
    }
}

/// Bytes, with what their escapes stand for.
fn unescaped(alloc: Global, bytes: &[u8]) -> Result<Vec<u8>, NoMemory>
    ensures { IfOk result (λ value. value.items ≡ spec.unescaped false bytes.now) }
{
    let mut value = Vec::new(alloc);
    let mut backslash = false;
    for b in bytes {
        if backslash {
            value.push(escaped(*b))?;
            backslash = false;
        } else if *b == b'\\' {
            backslash = true;
        } else {
            value.push(*b)?;
        }
    }
    Ok(value)
}

/// The bytes that a string literal with its quotes stands for.
pub(crate) fn text_value(alloc: Global, text: &[u8]) -> Result<Vec<u8>, NoMemory>
    ensures { IfOk result (λ value. value.items ≡ spec.text_value text.now) }
{
    match text {
        [] => Ok(Vec::new(alloc)),
        [_, inner @ ..] => unescaped(alloc, &inner[..inner.len().saturating_sub(1)]),
    }
}
