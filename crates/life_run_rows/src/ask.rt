// A run that a row asks for.
use life_row_text::{Refusal, joined, number, words_from};
use life_store::Growth;
use std::alloc::Global;

/// A run that a row asks for: with which function it begins, on what, within which limits, and how it must end.
pub struct Asked {
    /// The words before the colon.
    pub question: String,
    pub entry: u32,
    pub input: Vec<i64>,
    pub cells: u32,
    pub depth: u32,
    pub steps: u64,
    pub growth: Growth,
    /// The words behind the colon.
    pub outcome: String,
}

impl Drop for Asked {
    fn drop(self) {
        let Asked {
            question: _question,
            entry: _,
            input: _input,
            cells: _,
            depth: _,
            steps: _,
            growth: _,
            outcome: _outcome,
        } = self;
    }
}

impl Asked {
    /// A run that begins with the function of this number. Its words are the function's name, and up to a colon numbers
    /// of the input and `cells N`, `depth N`, `steps N` and `always` where each growth of a vector
    /// moves its elements; and behind the colon how it ends.
    pub fn new(alloc: Global, entry: u32, words: &[&str]) -> Result<Asked, Refusal> {
        let colon = colon_of(words)?;
        let mut asked = Asked {
            question: joined(alloc, words_to(words, colon))?,
            entry,
            input: Vec::new(alloc),
            cells: 1000,
            depth: 10,
            steps: 1000,
            growth: Growth::Double,
            outcome: joined(alloc, words_from(words, colon.saturating_add(1)))?,
        };
        let mut limit = "";
        for word in words_from(words_to(words, colon), 1) {
            limit = asked.word(limit, word)?;
        }
        if limit == "" {
            Ok(asked)
        } else {
            Err(Refusal::NoNumber)
        }
    }

    // The next word, behind one that says which limit it is; says which limit the next one is.
    fn word<'a>(&mut self, limit: &str, word: &'a str) -> Result<&'a str, Refusal> {
        match limit {
            "cells" => self.cells = number(word)?,
            "depth" => self.depth = number(word)?,
            "steps" => self.steps = number(word)?,
            _ => match word {
                "cells" | "depth" | "steps" => return Ok(word),
                "always" => self.growth = Growth::Always,
                _ => self.input.push(number(word)?)?,
            },
        }
        Ok("")
    }
}

// The words up to one.
fn words_to<'a, 'b>(words: &'b [&'a str], at: usize) -> &'b [&'a str] {
    if at <= words.len() {
        &words[..at]
    } else {
        words
    }
}

fn colon_of(words: &[&str]) -> Result<usize, Refusal> {
    for (at, word) in words.iter().enumerate() {
        if *word == ":" {
            return Ok(at);
        }
    }
    Err(Refusal::NoForm)
}
