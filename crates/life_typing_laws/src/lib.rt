//! What holds of what checking gives: it is well typed, and its names are in the tree's table.
#![tactic(auto)]

mod laws;

pub use laws::{
    bodies_are_well_typed, expressions_are_well_typed, resolved_programs_are_well_typed,
    resolved_programs_have_names,
};
