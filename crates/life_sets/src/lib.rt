//! Sets of pairs of numbers, by the first of a pair, as ordered sets and as bits; sets of numbers.
#![tactic(auto)]

mod bit_pairs;
mod bit_rows;
mod number_set;
mod rows;
mod set_rows;
mod words;

pub use bit_rows::BitRows;
pub use number_set::NumberSet;
pub use rows::Rows;
pub use set_rows::SetRows;
