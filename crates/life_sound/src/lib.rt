//! No run of a proper program strays, and none of which nothing is diagnosed ends in a fault; accepted programs.
#![tactic(auto)]

mod acceptance;
mod laws;

pub use acceptance::{Accepted, Rejected, accept};
pub use laws::{proper_runs_are_never_lost, undiagnosed_programs_are_free_of_faults};
