//! Types of expressions: each gets its one type, or the first rule that is broken is told with its place.
#![tactic(auto)]

mod chains;
mod made;
mod members;
mod named;
mod operands;
mod operators;
mod primaries;
mod targets;

pub use chains::{additive, expr};
pub use operands::{const_or, is_constant, literal_allowed, misfit_kind};
pub use primaries::{elements, place_target, postfix};
pub use targets::{copied_fault, is_taken, lower_kind};
