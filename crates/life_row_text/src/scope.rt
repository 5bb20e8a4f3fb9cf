// The words of an instruction, and what they may name.
use crate::refusal::Refusal;
use crate::words::{number, position, word_at, words_from};
use life_core::{Base, Location, Operand, RangeEnd, Which};
use std::alloc::Global;
use std::str::FromStr;

/// The words of an instruction, and what they may name.
#[derive(Clone, Copy)]
pub struct Scope<'a> {
    pub alloc: Global,
    pub words: &'a [&'a str],
    /// The names of the locals, by their numbers.
    pub locals: &'a [String],
    /// The names of the functions so far, by their numbers.
    pub functions: &'a [String],
}

impl<'a> Scope<'a> {
    pub fn word(self, at: usize) -> &'a str {
        word_at(self.words, at)
    }

    /// The words from one on.
    pub fn from(self, at: usize) -> &'a [&'a str] {
        words_from(self.words, at)
    }

    pub fn number<N: FromStr>(self, at: usize) -> Result<N, Refusal>
    where
        N::Err: Drop,
    {
        number(self.word(at))
    }

    /// The local that a word names.
    pub fn local(self, at: usize) -> Result<u32, Refusal> {
        position(self.locals, self.word(at))
    }

    /// The function that a word names.
    pub fn function(self, at: usize) -> Result<u32, Refusal> {
        position(self.functions, self.word(at))
    }

    /// The local, or the member of one, that a word names.
    pub fn location(self, at: usize) -> Result<Location, Refusal> {
        location(self.alloc, self.locals, self.word(at))
    }

    /// .. that this word names.
    pub fn named(self, word: &str) -> Result<Location, Refusal> {
        location(self.alloc, self.locals, word)
    }

    /// The place that a word names.
    pub fn operand(self, at: usize) -> Result<Operand, Refusal> {
        operand(self.alloc, self.locals, self.word(at))
    }

    /// What two words name that has elements: `owner OPERAND` or `view LOCATION`.
    pub fn base(self, sort: usize, at: usize) -> Result<Base, Refusal> {
        match self.word(sort) {
            "owner" => Ok(Base::Owner(self.operand(at)?)),
            "view" => Ok(Base::Pointer(self.location(at)?)),
            _ => Err(Refusal::NoForm),
        }
    }

    /// Which element a word says.
    pub fn which(self, at: usize) -> Result<Which, Refusal> {
        match self.word(at) {
            "first" => Ok(Which::First),
            "last" => Ok(Which::Last),
            "target" => Ok(Which::Target),
            _ => Err(Refusal::NoForm),
        }
    }

    /// Which end of a range a word says.
    pub fn end(self, at: usize) -> Result<RangeEnd, Refusal> {
        match self.word(at) {
            "begin" => Ok(RangeEnd::Begin),
            "end" => Ok(RangeEnd::End),
            _ => Err(Refusal::NoForm),
        }
    }
}

/// The local, or the member of one, that a word names: `x`, or `x.0.2` for the member 2 of the member 0.
pub fn location(alloc: Global, locals: &[String], word: &str) -> Result<Location, Refusal> {
    match word.split_once('.') {
        None => whole(alloc, position(locals, word)?),
        Some((name, members)) => part(alloc, position(locals, name)?, members),
    }
}

fn whole(alloc: Global, local: u32) -> Result<Location, Refusal> {
    Ok(Location {
        local,
        members: Vec::new(alloc),
    })
}

fn part(alloc: Global, local: u32, members: &str) -> Result<Location, Refusal> {
    let members = numbers(alloc, members)?;
    Ok(Location { local, members })
}

// The most members that a word lists.
const MOST_MEMBERS: u32 = 16;

// The numbers that a word `0.2` lists.
fn numbers(alloc: Global, word: &str) -> Result<Vec<u32>, Refusal> {
    let mut list = Vec::new(alloc);
    let mut rest = word;
    for _ in 0..MOST_MEMBERS {
        match rest.split_once('.') {
            None => {
                list.push(number(rest)?)?;
                return Ok(list);
            }
            Some((first, others)) => {
                list.push(number(first)?)?;
                rest = others;
            }
        }
    }
    Err(Refusal::NoNumber)
}

/// The place that a word names: a location, `*LOCATION` for what a pointer points to, or `*LOCATION->1.0`
/// for a member of that.
pub fn operand(alloc: Global, locals: &[String], word: &str) -> Result<Operand, Refusal> {
    match word.strip_prefix("*") {
        None => Ok(Operand::Name(location(alloc, locals, word)?)),
        Some(behind) => through(alloc, locals, behind),
    }
}

fn through(alloc: Global, locals: &[String], word: &str) -> Result<Operand, Refusal> {
    match word.split_once("->") {
        None => {
            let pointer = location(alloc, locals, word)?;
            Ok(Operand::Through {
                pointer,
                members: Vec::new(alloc),
            })
        }
        Some((pointer, members)) => {
            let members = numbers(alloc, members)?;
            let pointer = location(alloc, locals, pointer)?;
            Ok(Operand::Through { pointer, members })
        }
    }
}
