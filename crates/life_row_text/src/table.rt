// All rows, and what is said of them.
use crate::lines::say;
use crate::refusal::Refusal;
use crate::words::{word_at, words_from, words_of};
use std::alloc::Global;

/// A row as its lines come.
pub trait Row: Sized + Drop {
    /// A row with the name that these words are.
    fn begin(alloc: Global, words: &[&str]) -> Result<Self, Refusal>;

    /// The next line of the row.
    fn line(&mut self, alloc: Global, words: &[&str]) -> Result<(), Refusal>;

    /// Ends the row, adds what there is to say of it, and tells whether it differs from what it asks for.
    fn tell(self, alloc: Global, said: &mut Vec<u8>) -> Result<bool, Refusal>;
}

/// The rows as their lines come, and what is said of those that have ended.
#[derive(Drop)]
pub struct Table<R> {
    alloc: Global,
    row: Option<R>,
    // Whether the row at hand, or a line before the first one, is wrong.
    wrong: bool,
    rows: u32,
    differing: u32,
    said: Vec<u8>,
}

impl<R: Row> Table<R> {
    /// A table of no rows.
    pub fn new(alloc: Global) -> Table<R> {
        Table {
            alloc,
            row: None,
            wrong: false,
            rows: 0,
            differing: 0,
            said: Vec::new(alloc),
        }
    }

    /// The next line, with its number. One that is refused is told of, and its row counts as one that
    /// differs. The only error is the want of memory.
    pub fn line(&mut self, number: usize, text: &str) -> Result<(), Refusal> {
        let words = words_of(self.alloc, text)?;
        match word_at(&words, 0) {
            "" | "#" => Ok(()),
            "row" => {
                self.end_row(number)?;
                self.row = Some(R::begin(self.alloc, words_from(&words, 1))?);
                Ok(())
            }
            _ => match self.go_on(&words) {
                Ok(()) => Ok(()),
                Err(refusal) => self.refuse(number, refusal),
            },
        }
    }

    fn go_on(&mut self, words: &[&str]) -> Result<(), Refusal> {
        match &mut self.row {
            None => Err(Refusal::NotBegun),
            Some(row) => row.line(self.alloc, words),
        }
    }

    fn refuse(&mut self, number: usize, refusal: Refusal) -> Result<(), Refusal> {
        let head = format!(in self.alloc; "line {number}: ")?;
        say(&mut self.said, &head, refusal.text().as_bytes())?;
        self.wrong = true;
        Ok(())
    }

    // Ends the row at hand, if there is one, at the line with this number.
    fn end_row(&mut self, number: usize) -> Result<(), Refusal> {
        if let Some(row) = self.row.take() {
            self.rows = self.rows.saturating_add(1);
            match row.tell(self.alloc, &mut self.said) {
                Ok(differs) => {
                    if differs {
                        self.wrong = true;
                    }
                }
                Err(refusal) => self.refuse(number, refusal)?,
            }
        }
        if self.wrong {
            self.differing = self.differing.saturating_add(1);
        }
        self.wrong = false;
        Ok(())
    }

    /// All that is said, and last how many rows there were and how many of them differ.
    pub fn finish(&mut self, number: usize) -> Result<&[u8], Refusal> {
        self.end_row(number)?;
        let rows = self.rows;
        let differing = self.differing;
        let text = format!(in self.alloc; "{rows} rows, of which {differing} differ")?;
        say(&mut self.said, &text, b"")?;
        Ok(&self.said)
    }
}
