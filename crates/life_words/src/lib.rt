//! Words of a store as the meaning reads and writes them: what owns, and what is owned.
#![tactic(auto)]

mod births;
mod numbers;
mod owners;

pub use births::{born, born_roomy, born_sized, renumbered};
pub use numbers::{number, put_number, put_words};
pub use owners::{own, owned, take_owned};
