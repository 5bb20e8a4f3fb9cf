//! The instructions that change what owners own.
#![tactic(auto)]

mod births;
mod changing;
mod characters;
mod edit;
mod edits;
mod erasing;
mod failure;
mod making;
mod owner;
mod owning;
mod pushing;
mod text_edits;
mod vector_edits;

pub use changing::change;
pub use failure::Failure;
pub use making::make;
pub use owner::{operand_type, wide};
