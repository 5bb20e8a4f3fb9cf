// The words of a file, and the numbers that they write.
ghost use Rattle.std.specs.Prelude.{◌≡◌, ◌≤◌, ◌<◌, ◌^◌, length};
ghost use Rattle.std.specs.List.{prefix_len};
ghost use Rattle.life_input.specs.Input.{admitted, numbers_in, Reads};
ghost use Rattle.life_input.specs.Words as spec;

use crate::fault::InputFault;
use crate::number::number_of;
use std::alloc::Global;

/// The most numbers that a file may write.
pub const MOST_NUMBERS: usize = 65_536;

/// The numbers that a file writes, in their order. Words are parted by the bytes 9, 10, 13 and 32, and
/// each is an optional `-` and decimal digits whose number fits 64 bits with sign.
///
/// # Errors
///
/// `Refused` exactly where a word is none, or stands behind [`MOST_NUMBERS`] others, with the offset of
/// the first such word, want of memory aside; and `NoMemory` for want of memory.
pub fn read_numbers(alloc: Global, bytes: &[u8]) -> Result<Vec<i64>, InputFault>
    requires { length bytes.now < 2 ^ 32 }
    ensures { Reads (numbers_in bytes.now) result }
{
    let mut numbers = Vec::new(alloc);
    let mut offset = 0;
    let mut rest = bytes;
    while let [first, after @ ..] = rest {
        if is_gap(*first) {
            rest = after;
            offset += 1;
            continue;
        }
        let len = word_len(rest);
        let Some(number) = admitted(numbers.len(), &rest[..len]) else {
            return Err(InputFault::Refused { offset });
        };
        numbers.push(number)?;
        rest = &rest[len..];
        offset += len;
    }
    Ok(numbers)
}

// The number of a word behind so many others, if it is admitted.
fn admitted(count: usize, word: &[u8]) -> Option<i64>
    ensures { result ≡ admitted count word.now }
{
    if count < MOST_NUMBERS {
        number_of(word)
    } else {
        None
    }
}

// How many bytes of a word stand in front.
fn word_len(bytes: &[u8]) -> usize
    ensures value { result ≡ prefix_len spec.is_word_byte bytes.now }
    ensures bound { result ≤ length bytes.now }
{
    bytes.iter().take_while(|byte| !is_gap(**byte)).count()
}

// What stands between words: a tab, an end of a line, or a space.
fn is_gap(byte: u8) -> bool
    ensures { result ≡ spec.is_gap byte }
{
    matches!(byte, b'\t' | b'\n' | b'\r' | b' ')
}
