//! What the words of the command line ask for: a job, help or the version, or why they ask for none.
#![tactic(auto)]

mod command;
mod fault;
mod job;
mod matched;
mod number;
mod text;
mod words;

pub use fault::{Refusal, Wrong};
pub use job::{CommandName, Growth, Job, RunJob, RunOptions};
pub use text::{help_text, version_text};
pub use words::read_words;
