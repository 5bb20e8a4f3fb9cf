//! What translations are: the core program of a well typed program that passes no limit is proper, and has
//! short places.
#![tactic(auto)]

mod laws;

pub use laws::{translations_are_proper, translations_have_short_places};
