//! The parser: the one tree of a source file, or the first token at which there is none.
#![tactic(auto)]

mod fault;
mod file;
mod tokens;

pub use fault::ParseFault;
pub use file::parse;
