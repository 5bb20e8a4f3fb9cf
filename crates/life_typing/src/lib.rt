//! Types and names: each expression of a tree gets its one type and each name its meaning, or the
//! first rule that is broken is told with its place.
#![tactic(auto)]

mod attributes;
mod functions;
mod headers;
mod laws;
mod names;
mod parameters;
mod pieces;
mod pointing;
mod progress;
mod promises;
mod resolves;
mod struct_types;
mod structs;

pub use laws::types_depend_on_the_tree_alone;
pub use life_names::{IllFault, IllKind};
pub use resolves::resolve;
