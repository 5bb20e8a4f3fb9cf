//! The check is modular: what is wrong with a function hangs on its own text, on the types that it names, and on the signatures of
//! what it calls.
#![tactic(auto)]

mod laws;

pub use laws::{diagnostics_are_modular, diagnostics_move_along, lines_are_modular};
