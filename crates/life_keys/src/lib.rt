//! The tokens of a file by their keys, as trees have them: which names are words that a rule of the
//! grammar quotes, what literals stand for, and the tables of names and texts.
#![tactic(auto)]

mod before;
mod keyer;
mod literal;
mod tokens;
mod words;

pub use before::Before;
pub use tokens::{KeyedTokens, keyed};
