//! The one call that checks the text of a file: its program is accepted, or what is diagnosed in it comes
//! back, or why it has no program that is checked.
#![tactic(auto)]

mod check;
mod checked;
mod fault;

pub use check::check_text;
pub use checked::Checked;
pub use fault::CheckFault;
pub use life_sound::Accepted;
