// Numbers among the words.
ghost use Rattle.std.specs.Prelude.{◌≡◌, ◌≤◌, IfSome};
ghost use Rattle.std.specs.Char.{is_ascii_digit};
ghost use Rattle.std.specs.List.{list_all};
ghost use Rattle.life_job.specs.Numbers as spec;

/// The number that the word writes, if it is at least `least` and at most `most`.
pub fn number_between(least: u64, most: u64, word: &str) -> Option<u64>
    ensures number { result ≡ spec.number_between least most word.now }
    ensures bound { IfSome result (λ n. n ≤ most) }
{
    let Ok(value) = word.parse::<u64>() else {
        return None;
    };
    if value < least {
        return None;
    }
    if value > most {
        return None;
    }
    Some(value)
}

/// The number that 1 to 20 decimal digits write, if it fits 64 bits.
pub fn digits_number(word: &str) -> Option<u64>
    ensures { result ≡ spec.digits_number word.now }
{
    if is_digits(word.as_bytes()) {
        number_between(0, u64::MAX, word)
    } else {
        None
    }
}

fn is_digits(word: &[u8]) -> bool
    ensures { result ≡ spec.is_digits word.now }
{
    word.len() <= 20 && are_digits(word)
}

fn are_digits(word: &[u8]) -> bool
    ensures { result ≡ list_all is_ascii_digit word.now }
{
    word.iter().all(|byte| byte.is_ascii_digit())
}
