// Rows of pairs, joined.
ghost use Rattle.std.specs.Prelude.{◌≡◌, IfOk};

use life_row_text::{Refusal, fits, number, word_at, words_of};
use life_sets::{BitRows, Rows, SetRows};
use std::alloc::Global;

/// How many locations and elements there are, and two pairs of each of two rows.
#[derive(Clone, Copy)]
struct Wanted {
    locations: u32,
    elements: u32,
    from: [(u32, u32); 2],
    into: [(u32, u32); 2],
}

/// A row of pairs into which another one was joined, whether it gained a pair, and whether it did when it was
/// joined again.
#[derive(Drop, PartialEq, Eq)]
struct Joined {
    pairs: Vec<(u32, u32)>,
    gained: bool,
    again: bool,
}

/// `LOCATIONS ELEMENTS from PAIR PAIR into PAIR PAIR: PAIRS`, with `gained` behind where there is one more. The words
/// behind the colon are made anew.
pub fn joined_line(alloc: Global, text: &str) -> Result<Vec<u8>, Refusal> {
    match text.split_once(':') {
        None => Err(Refusal::NoForm),
        Some((question, _)) => answered(alloc, question),
    }
}

fn answered(alloc: Global, question: &str) -> Result<Vec<u8>, Refusal> {
    let words = words_of(alloc, question)?;
    let wanted = question_of(&words)?;
    let by_sets = joined_twice::<SetRows>(alloc, wanted)?;
    let by_bits = joined_twice::<BitRows>(alloc, wanted)?;
    let mut line = question.as_bytes().to_vec(alloc)?;
    line.push(b':')?;
    push_pairs(alloc, &by_sets.pairs, &mut line)?;
    if by_sets.gained {
        line.extend_from_slice(b" gained")?;
    }
    if by_sets.again {
        line.extend_from_slice(b" and again")?;
    }
    if by_sets != by_bits {
        line.extend_from_slice(b" and bits do otherwise")?;
    }
    Ok(line)
}

fn question_of(words: &[&str]) -> Result<Wanted, Refusal> {
    if !fits("_ _ from _ _ into _ _", words) {
        return Err(Refusal::NoForm);
    }
    Ok(Wanted {
        locations: number(word_at(words, 0))?,
        elements: number(word_at(words, 1))?,
        from: [pair(word_at(words, 3))?, pair(word_at(words, 4))?],
        into: [pair(word_at(words, 6))?, pair(word_at(words, 7))?],
    })
}

fn pair(word: &str) -> Result<(u32, u32), Refusal> {
    match word.split_once('-') {
        None => Err(Refusal::NoNumber),
        Some((location, element)) => Ok((number(location)?, number(element)?)),
    }
}

fn joined_twice<R: Rows>(alloc: Global, wanted: Wanted) -> Result<Joined, Refusal> {
    let from = row_with::<R>(alloc, wanted, wanted.from)?;
    let mut into = row_with::<R>(alloc, wanted, wanted.into)?;
    let gained = from.join_into(&mut into)?;
    let again = from.join_into(&mut into)?;
    let pairs = into.facts(alloc)?;
    Ok(Joined {
        pairs,
        gained,
        again,
    })
}

fn row_with<R: Rows>(alloc: Global, wanted: Wanted, pairs: [(u32, u32); 2]) -> Result<R, Refusal>
    ensures locations { IfOk result (λ row. R.location_limit row ≡ wanted.locations) }
    ensures elements { IfOk result (λ row. R.element_limit row ≡ wanted.elements) }
{
    let mut row = R::empty(alloc, wanted.locations, wanted.elements)?;
    put(&mut row, wanted, pairs[0])?;
    put(&mut row, wanted, pairs[1])?;
    Ok(row)
}

fn put<R: Rows>(row: &mut R, wanted: Wanted, pair: (u32, u32)) -> Result<(), Refusal>
    requires locations { R.location_limit row.old ≡ wanted.locations }
    requires elements { R.element_limit row.old ≡ wanted.elements }
    ensures locations { R.location_limit row.new ≡ wanted.locations }
    ensures elements { R.element_limit row.new ≡ wanted.elements }
{
    if pair.0 < wanted.locations && pair.1 < wanted.elements {
        row.insert(pair.0, pair.1)?;
        Ok(())
    } else {
        Err(Refusal::NoNumber)
    }
}

fn push_pairs(alloc: Global, pairs: &[(u32, u32)], line: &mut Vec<u8>) -> Result<(), Refusal> {
    for (location, element) in pairs {
        let text = format!(in alloc; " {location}-{element}")?;
        line.extend_from_slice(text.as_bytes())?;
    }
    Ok(())
}
