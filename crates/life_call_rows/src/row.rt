// A row: two functions, what one gives the other, and what is to come of that.
use crate::answers::answers;
use life_row_text::{Refusal, Row, Written, joined, say, word_at, words_from};
use std::alloc::Global;

/// A row: two functions as their lines come, what the second gives the first, and what is to come of that.
pub struct CallRow {
    name: String,
    pub written: Written,
    /// What is given, a fact a line.
    pub given: Vec<String>,
    asked: Vec<String>,
}

impl Drop for CallRow {
    fn drop(self) {
        let CallRow {
            name: _name,
            written: _written,
            given: _given,
            asked: _asked,
        } = self;
    }
}

impl CallRow {
    // Whether these lines, in this order, are asked for.
    fn asks_for(&self, lines: &[Vec<u8>]) -> bool {
        if self.asked.len() != lines.len() {
            return false;
        }
        for (asked, line) in self.asked.iter().zip(lines) {
            if asked.as_bytes() != line.as_slice() {
                return false;
            }
        }
        true
    }
}

impl Row for CallRow {
    fn begin(alloc: Global, words: &[&str]) -> Result<CallRow, Refusal> {
        Ok(CallRow {
            name: joined(alloc, words)?,
            written: Written::new(alloc)?,
            given: Vec::new(alloc),
            asked: Vec::new(alloc),
        })
    }

    fn line(&mut self, alloc: Global, words: &[&str]) -> Result<(), Refusal> {
        match word_at(words, 0) {
            "given" => {
                let text = joined(alloc, words_from(words, 1))?;
                self.given.push(text)?;
                Ok(())
            }
            "pre" | "post" | "break" => {
                let text = joined(alloc, words)?;
                self.asked.push(text)?;
                Ok(())
            }
            _ => self.written.line(alloc, words),
        }
    }

    // Tells how many lines came of the row, and all of them where it asks for others.
    fn tell(mut self, alloc: Global, said: &mut Vec<u8>) -> Result<bool, Refusal> {
        self.written.finish()?;
        let lines = answers(alloc, &self)?;
        let count = lines.len();
        let text = format!(in alloc; ": {count} lines")?;
        say(said, &self.name, text.as_bytes())?;
        if self.asks_for(&lines) {
            return Ok(false);
        }
        for line in &lines {
            say(said, "  but ", line)?;
        }
        Ok(true)
    }
}
