// The words of a line.
use crate::refusal::Refusal;
use life_types::{NoMemory, Place};
use std::alloc::Global;
use std::str::FromStr;

/// The words of a line.
pub fn words_of(alloc: Global, line: &str) -> Result<Vec<&str>, NoMemory> {
    let mut words = Vec::new(alloc);
    for word in line.split_whitespace() {
        words.push(word)?;
    }
    Ok(words)
}

/// Whether a line has a form: the same words, where `_` stands for one word, and a last `..` for any.
pub fn fits(form: &str, line: &[&str]) -> bool {
    let mut rest = line.iter();
    for wanted in form.split_whitespace() {
        if wanted == ".." {
            return true;
        }
        match rest.next() {
            None => return false,
            Some(word) => {
                if wanted != "_" && wanted != *word {
                    return false;
                }
            }
        }
    }
    rest.next().is_none()
}

/// The words from one on.
pub fn words_from<'a, 'b>(line: &'b [&'a str], at: usize) -> &'b [&'a str] {
    if at <= line.len() { &line[at..] } else { &[] }
}

/// The word with this number, counted from 0; an empty one where there is none.
pub fn word_at<'a>(line: &[&'a str], at: usize) -> &'a str {
    match line.get(at) {
        None => "",
        Some(word) => word,
    }
}

/// The number that a word is.
pub fn number<N: FromStr>(word: &str) -> Result<N, Refusal>
where
    N::Err: Drop,
{
    match word.parse::<N>() {
        Ok(number) => Ok(number),
        Err(_) => Err(Refusal::NoNumber),
    }
}

/// The place that a word `LINE:COLUMN` is.
pub fn place(word: &str) -> Result<Place, Refusal> {
    match word.split_once(':') {
        None => Err(Refusal::NoNumber),
        Some((line, column)) => Ok(Place {
            line: number(line)?,
            column: number(column)?,
        }),
    }
}

/// A number of a thing in a list.
pub fn index(number: usize) -> Result<u32, Refusal> {
    match u32::try_from(number) {
        Ok(index) => Ok(index),
        Err(_) => Err(Refusal::PastLimit),
    }
}

/// The number of a name among names.
pub fn position(names: &[String], word: &str) -> Result<u32, Refusal> {
    for (number, name) in names.iter().enumerate() {
        if name.as_str() == word {
            return index(number);
        }
    }
    Err(Refusal::NoName)
}
