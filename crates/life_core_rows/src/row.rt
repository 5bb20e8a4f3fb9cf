// A row: a program as its lines come, and what is asked of it.
use crate::asked::{Ask, Asked, PROGRAM};
use crate::check::{Counts, check};
use life_row_text::{Refusal, Row, Written, fits, joined, say, words_from};
use std::alloc::Global;

/// A row: a program as its lines come, and what is asked of it.
pub struct AskedRow {
    name: String,
    pub written: Written,
    pub asked: Vec<Asked>,
}

impl Drop for AskedRow {
    fn drop(self) {
        let AskedRow {
            name: _name,
            written: _written,
            asked: _asked,
        } = self;
    }
}

const FORMS: [(&str, Ask); 11] = [
    ("fact ..", Ask::Fact),
    ("wrong ..", Ask::Wrong),
    ("carry ..", Ask::Carry),
    ("edge ..", Ask::Edge),
    ("point ..", Ask::Point),
    ("location ..", Ask::Location),
    ("element ..", Ask::Element),
    ("no-facts", Ask::NoFacts),
    ("report ..", Ask::Report),
    ("proper ..", Ask::Proper),
    ("join ..", Ask::Join),
];

// What a line asks for, if it asks for something.
fn ask_of(words: &[&str]) -> Option<Ask> {
    for form in &FORMS {
        if fits(form.0, words) {
            return Some(form.1);
        }
    }
    None
}

impl AskedRow {
    fn ask(&mut self, alloc: Global, ask: Ask, words: &[&str]) -> Result<(), Refusal> {
        let function = if ask.is_of_program() {
            PROGRAM
        } else {
            self.written.last_function()?
        };
        let text = joined(alloc, words)?;
        self.asked.push(Asked {
            function,
            ask,
            text,
        })?;
        Ok(())
    }
}

impl Row for AskedRow {
    fn begin(alloc: Global, words: &[&str]) -> Result<AskedRow, Refusal> {
        Ok(AskedRow {
            name: joined(alloc, words)?,
            written: Written::new(alloc)?,
            asked: Vec::new(alloc),
        })
    }

    fn line(&mut self, alloc: Global, words: &[&str]) -> Result<(), Refusal> {
        match ask_of(words) {
            None => self.written.line(alloc, words),
            Some(ask) => self.ask(alloc, ask, words_from(words, 1)),
        }
    }

    // Tells how much was derived in the row, and what differs from what it asks for.
    fn tell(mut self, alloc: Global, said: &mut Vec<u8>) -> Result<bool, Refusal> {
        self.written.finish()?;
        let mut differences = Vec::new(alloc);
        let counts = check(alloc, &self, &mut differences)?;
        let Counts {
            points,
            facts,
            diagnostics,
        } = counts;
        let text = format!(in alloc;
            ": {points} points, {facts} facts, {diagnostics} diagnostics"
        )?;
        say(said, &self.name, text.as_bytes())?;
        said.extend_from_slice(&differences)?;
        Ok(!differences.is_empty())
    }
}
