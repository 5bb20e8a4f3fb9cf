//! A checker of programs that are made by hand: whether all that is asked of a proper program is met, or which part
//! isn't, and whether its verdict is proved.
#![tactic(auto)]

mod breaks;
mod check;
mod forms;
mod headers;
mod kept;
mod owners;
mod placed;
mod results;
mod scope;
mod served;
mod standing;
mod types;

pub use check::{Part, unmet_part};
pub use served::is_slotless;
