//! How the values of assignments go from place to place in a store: copies, and what an owner gives to
//! another. What stood where they come ends.
#![tactic(auto)]

mod carrying;
mod giving;

pub use carrying::copy_value;
pub use giving::move_to;
