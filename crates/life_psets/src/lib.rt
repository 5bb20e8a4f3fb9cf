//! The points-to sets of a program as a table: what each location may be before each point.
#![tactic(auto)]

mod line;
mod order;
mod report;
mod sets;

pub use line::SetLine;
pub use report::sets_report;
pub use sets::sets_of;
