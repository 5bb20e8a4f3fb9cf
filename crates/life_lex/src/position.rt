//! How far a file is read.

ghost use Rattle.std.specs.Prelude.{◌≡◌, ◌<◌, ◌≤◌, ◌+◌, ◌^◌, length, fold, true};
ghost use Rattle.life_lex.specs.Places.{line_after, column_after, blank_after};

use crate::byte::is_blank;
use life_types::Place;

/// How far a file is read.
#[derive(Clone, Copy)]
pub(crate) struct Position {
    /// How many bytes stand before.
    pub offset: usize,
    /// The line of the next byte, from 1.
    pub line: usize,
    /// The column of the next byte, from 1. The end of a file may stand in column 2^32.
    pub column: usize,
    /// Whether only spaces and tabs stand before on this line, a byte order mark aside.
    pub line_blank: bool,
    ghost line_bound: { line ≤ offset + 1 },
    ghost column_bound: { column ≤ offset + 1 },
}

impl Position {
    /// The first position, behind a byte order mark of so many bytes.
    pub(crate) fn first(offset: usize) -> Position
        requires { offset < 2 ^ 32 }
        ensures offset { result.offset ≡ offset }
        ensures line { result.line ≡ 1 }
        ensures column { result.column ≡ offset + 1 }
        ensures line_blank { result.line_blank ≡ true }
    {
        Position {
            offset,
            line: 1,
            column: offset + 1,
            line_blank: true,
        }
    }

    /// The position behind these bytes, which stand here.
    pub(crate) fn after(self, bytes: &[u8]) -> Position
        requires { self.offset + length bytes.now < 2 ^ 32 }
        ensures offset { result.offset ≡ self.offset + length bytes.now }
        ensures line { result.line ≡ fold line_after self.line bytes.now }
        ensures column { result.column ≡ fold column_after self.column bytes.now }
        ensures line_blank { result.line_blank ≡ fold blank_after self.line_blank bytes.now }
    {
        let mut line = self.line;
        let mut column = self.column;
        let mut line_blank = self.line_blank;
        for b in bytes {
            if *b == b'\n' {
                line += 1;
                column = 1;
                line_blank = true;
            } else {
                column += 1;
                line_blank = line_blank && is_blank(*b);
            }
        }
        Position {
            offset: self.offset + bytes.len(),
            line,
            column,
            line_blank,
        }
    }

    /// The place of the next byte.
    pub(crate) fn place(self) -> Place
        requires { self.offset + 1 < 2 ^ 32 }
        ensures line { result.line ≡ self.line }
        ensures column { result.column ≡ self.column }
    {
        Place {
            line: self.line as u32,
            column: self.column as u32,
        }
    }
}
