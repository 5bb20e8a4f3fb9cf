// Rows and their parts.
use crate::fault::{RowFault, Wrong};
use crate::line::{Line, line_of, row_name};
use crate::piece::add_piece;
use std::alloc::Global;

/// What stands behind a key and under it.
#[derive(Clone, Copy)]
pub enum Form {
    /// A value, once at most.
    Value,
    /// A value, in each row once.
    WantedValue,
    /// A text, once at most.
    Text,
    /// A value and a text, any number of times.
    Texts,
}

/// The word of a part, and its form.
pub type Key = (&'static str, Form);

/// A row, which is not known to be well formed before `check` has passed it.
#[derive(Clone, Copy)]
pub struct Row<'a> {
    /// What it shows.
    pub name: &'a str,
    // The number of its first line, counted from 1, and the lines behind that.
    number: usize,
    lines: &'a [&'a str],
}

/// What stands behind a key.
#[derive(Clone, Copy)]
pub struct Value<'a> {
    /// The text behind the colon, without the gaps around it.
    pub text: &'a str,
    // The line's number within its row.
    index: usize,
}

impl<'a> Row<'a> {
    /// The row that begins at the line with this number, if one does.
    pub(crate) fn beginning(lines: &'a [&'a str], number: usize) -> Option<Row<'a>> {
        let (first, behind) = lines.get(number..)?.split_first()?;
        let name = row_name(first)?;
        Some(Row {
            name,
            number: number.saturating_add(1),
            lines: before_row(behind),
        })
    }

    // What is wrong with a line of the row.
    fn wrong(&self, index: usize, wrong: Wrong) -> RowFault {
        RowFault {
            line: self.number.saturating_add(index).saturating_add(1),
            wrong,
        }
    }

    /// The first line that is no part of such a row, if there is one.
    pub(crate) fn check(&self, keys: &[Key]) -> Result<(), RowFault> {
        let mut takes_text = false;
        for (index, line) in self.lines.iter().enumerate() {
            takes_text = match self.line_takes_text(keys, index, line, takes_text) {
                Ok(takes_text) => takes_text,
                Err(wrong) => return Err(self.wrong(index, wrong)),
            };
        }
        self.check_wanted(keys)
    }

    // Whether lines of a text may stand under the line, given whether they may stand above it.
    fn line_takes_text(
        &self,
        keys: &[Key],
        index: usize,
        line: &str,
        takes_text: bool,
    ) -> Result<bool, Wrong> {
        match line_of(line) {
            Line::Nothing => Ok(takes_text),
            Line::Piece if takes_text => Ok(true),
            Line::Piece => Err(Wrong::Text),
            Line::Part(word, _) => self.part_takes_text(keys, index, word),
            Line::Stray => Err(Wrong::Stray),
        }
    }

    fn part_takes_text(&self, keys: &[Key], index: usize, word: &str) -> Result<bool, Wrong> {
        match form_of(keys, word) {
            None => Err(Wrong::Key),
            Some(Form::Texts) => Ok(true),
            Some(form) if self.is_first(index, word) => Ok(matches!(form, Form::Text)),
            Some(_) => Err(Wrong::Twice),
        }
    }

    // Whether the first key of this word stands in the line with this number within the row.
    fn is_first(&self, index: usize, word: &str) -> bool {
        match self.find(word) {
            Some(value) => value.index == index,
            None => false,
        }
    }

    fn check_wanted(&self, keys: &[Key]) -> Result<(), RowFault> {
        for (word, form) in keys {
            if matches!(form, Form::WantedValue) && self.find(word).is_none() {
                return Err(RowFault {
                    line: self.number,
                    wrong: Wrong::Missing,
                });
            }
        }
        Ok(())
    }

    /// What stands behind the first key of this word.
    pub fn find(&self, word: &str) -> Option<Value<'a>> {
        for index in 0..self.lines.len() {
            if let Some(value) = self.value_at(index, word) {
                return Some(value);
            }
        }
        None
    }

    /// The value behind the first key of this word; nothing where there is none.
    pub fn value(&self, word: &str) -> &'a str {
        match self.find(word) {
            Some(value) => value.text,
            None => "",
        }
    }

    /// How many lines there are behind the first.
    pub fn len(&self) -> usize {
        self.lines.len()
    }

    /// What stands behind the key of the line with this number within the row, if it is the key of
    /// this word.
    pub fn value_at(&self, index: usize, word: &str) -> Option<Value<'a>> {
        match line_of(self.lines.get(index)?) {
            Line::Part(key, text) if key == word => Some(Value { text, index }),
            _ => None,
        }
    }

    /// The text under the first key of this word; nothing where there is none.
    pub fn text(&self, alloc: Global, word: &str) -> Result<Vec<u8>, RowFault> {
        match self.find(word) {
            Some(value) => self.text_under(alloc, value),
            None => Ok(Vec::new(alloc)),
        }
    }

    /// The text under the key that the value stands behind.
    pub fn text_under(&self, alloc: Global, value: Value) -> Result<Vec<u8>, RowFault> {
        let mut bytes = Vec::new(alloc);
        for index in value.index.saturating_add(1)..self.lines.len() {
            let line = self.lines[index];
            match line_of(line) {
                Line::Piece => self.add_line(&mut bytes, index, line)?,
                Line::Part(..) | Line::Stray => break,
                Line::Nothing => {}
            }
        }
        Ok(bytes)
    }

    fn add_line(&self, bytes: &mut Vec<u8>, index: usize, line: &str) -> Result<(), RowFault> {
        match add_piece(bytes, line) {
            Ok(()) => Ok(()),
            Err(wrong) => Err(self.wrong(index, wrong)),
        }
    }

    /// The numbers behind the first key of this word, one after the other; none where there is no such
    /// key.
    pub fn numbers(&self, alloc: Global, word: &str) -> Result<Vec<u64>, RowFault> {
        match self.find(word) {
            None => Ok(Vec::new(alloc)),
            Some(value) => match numbers_of(alloc, value.text) {
                Ok(numbers) => Ok(numbers),
                Err(wrong) => Err(self.wrong(value.index, wrong)),
            },
        }
    }
}

// The lines before the next row.
fn before_row<'a>(lines: &'a [&'a str]) -> &'a [&'a str] {
    for index in 0..lines.len() {
        if row_name(lines[index]).is_some() {
            return &lines[..index];
        }
    }
    lines
}

fn form_of(keys: &[Key], word: &str) -> Option<Form> {
    for (known, form) in keys {
        if *known == word {
            return Some(*form);
        }
    }
    None
}

fn numbers_of(alloc: Global, text: &str) -> Result<Vec<u64>, Wrong> {
    let mut numbers = Vec::new(alloc);
    for digits in text.split_whitespace() {
        match digits.parse::<u64>() {
            Ok(number) => numbers.push(number)?,
            Err(_) => return Err(Wrong::Number),
        }
    }
    Ok(numbers)
}
