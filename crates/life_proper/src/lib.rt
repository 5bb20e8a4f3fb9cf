//! What a proper core program is, and a checker of the part of it that hangs on the ways through its text.
#![tactic(auto)]

mod checker;
mod entry;
mod flow;
mod knowing;
mod known;
mod laws;
mod passing;
mod scope;
mod shape;
mod uses;
mod walk;

pub use checker::is_proper;
pub use known::Known;
pub use laws::{checked_functions_are_ready, checked_programs_are_ready};
