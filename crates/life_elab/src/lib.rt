//! Translation: the core program of a typed one, or the first limit that it passes.
#![tactic(auto)]

mod branches;
mod declarations;
mod dropping;
mod ends;
mod fault;
mod functions;
mod limits;
mod paths;
mod points;
mod programs;
mod ranges;
mod simples;
mod statements;

pub use fault::ElabFault;
pub use programs::elaborate;
