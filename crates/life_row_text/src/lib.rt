//! Core programs written as rows of text. A row begins at a line `row NAME`; each line that follows says a part of a
//! program, or asks something of it. `Table` takes the lines of all rows, and hands what the row at hand says to a
//! `Row`, of which each program that reads rows has its own; `Written` reads the lines that say the program. How these
//! are written is said at the head of `stdin` of `life_core_rows`.
#![tactic(auto)]

mod body;
mod draft;
mod instructions;
mod kinds;
mod lines;
mod refusal;
mod scope;
mod table;
mod words;
mod written;

pub use lines::{joined, say};
pub use refusal::Refusal;
pub use table::{Row, Table};
pub use words::{fits, index, number, place, position, word_at, words_from, words_of};
pub use written::Written;
