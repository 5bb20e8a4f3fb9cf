//! The program's one call: words, files and two sinks in, a status out.
#![tactic(auto)]

mod command;
mod counted;
mod entry;
mod execute;
mod fetch;
mod input;
mod job;
mod made;
mod refusal;
mod reply;
mod serve;
mod source_refusal;
mod status;
mod stop;
mod summary;
mod table;
mod unheard;
mod usage;
mod work;

pub use command::run_command;
pub use status::Status;
