//! The instructions that copy values, and that let owners give what they have.
#![tactic(auto)]

mod copying;
mod giving;
mod spots;

pub use copying::copy;
pub use giving::give;
