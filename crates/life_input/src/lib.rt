//! The input of a run: the numbers that a file of words writes.
#![tactic(auto)]

mod fault;
mod number;
mod reading;

pub use fault::InputFault;
pub use reading::{MOST_NUMBERS, read_numbers};

#[cfg(test)]
mod tests;
