//! What holds of each tree that a file has: its names are in its table of names.
#![tactic(auto)]

mod laws;

pub use laws::trees_have_names;
