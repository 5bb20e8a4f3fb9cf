//! The derived facts of a function, as the least fixed point of its edges, and what they make wrong.
#![tactic(auto)]

mod beginning;
mod diagnosis;
mod flow;
mod leaving;
mod listing;
mod program;
mod solution;
mod solver;
mod told;
mod worklist;

pub use diagnosis::diagnostics;
pub use program::program_diagnostics;
pub use solution::Solution;
pub use solver::solve;
