//! The tokens of a tree, as code: what `tokens_of` of `life_tree` defines.
//!
//! Nothing on the way of a file calls it. Rows of tests compare what it writes of a text's tree with the
//! tokens that were read.
#![tactic(auto)]

mod expr;
mod program;
mod simple;
mod stmt;
mod token;
mod type_name;

pub use program::write_tokens;
