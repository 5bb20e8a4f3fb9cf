//! Programs that are made by rule, as large inputs: each is accepted and ends with a value.
#![tactic(auto)]

mod body;
mod program;

pub use program::{GenFault, MOST_FUNCTIONS, generate};
