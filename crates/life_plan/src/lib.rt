//! What an edge makes of facts, as sets of numbers that are made once: its plan.
#![tactic(auto)]

mod context;
mod edge_transfer;
mod keep;
mod marking;
mod numbers;
mod plan;
mod reading;
mod row_facts;
mod staying;
mod still;
mod tabulated;
mod whole;
mod workspace;

pub use context::EdgeContext;
pub use edge_transfer::transfer;
pub use plan::Plan;
pub use row_facts::{add_facts, facts_in};
pub use workspace::Workspace;
