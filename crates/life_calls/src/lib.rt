//! What a signature says of a call, as lists: what holds of a parameter at the entry, what a result may be, and what
//! arguments break.
#![tactic(auto)]

mod breaking;
mod entering;
mod found;
mod given;
mod promising;

pub use breaking::check_call;
pub use entering::pre_of;
pub use found::Found;
pub use given::{ArgFact, ArgRows, CallBreak};
pub use promising::post_of;
