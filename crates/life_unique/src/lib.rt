//! A tree of the grammar, with the names and texts beside it, determines its program but for where that lies in memory.
#![tactic(auto)]

mod laws;

pub use laws::programs_of_one_tree_settle_as_one;
