//! Tests as rows of a plain text: how rows are read, and how a program tells what differs.
//!
//! A row begins at a line `row: NAME` and goes on to the next. Its parts begin at lines `KEY: VALUE`,
//! and the program says which keys there are. Under a key that takes a text the lines of the text
//! stand:
//!
//! - `| LINE`: the line as it stands, and a byte 10;
//! - `+ PIECE`: the piece with its escapes, and no byte 10;
//! - `* COUNT PIECE`: the piece with its escapes, so many times.
//!
//! Escapes of pieces: `\n` is a byte 10, `\s` a backslash, `\xHH` the byte of the two hexadecimal digits,
//! and `\#` the decimal number of the repetition, counted from 0. Empty lines, and lines that begin with
//! `#`, say nothing. Any other line is a fault, which is told with the number of the line.
#![tactic(auto)]

mod fault;
mod judge;
mod line;
mod piece;
mod row;

pub use fault::{RowFault, Wrong};
pub use judge::{Judge, compare, compare_part, judge_rows};
pub use row::{Form, Key, Row, Value};
