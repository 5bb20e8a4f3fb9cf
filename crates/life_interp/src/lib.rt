//! The machine that runs core programs over a store.
#![tactic(auto)]

mod arithmetic;
mod ask;
mod births;
mod calls;
mod carrying;
mod changing;
mod cursors;
mod ending;
mod entry;
mod flat;
mod frame;
mod frames;
mod giving;
mod handing;
mod layouts;
mod links;
mod locals;
mod machine;
mod outcome;
mod point;
mod ports;
mod quick;
mod reaching;
mod run;
mod sort;
mod spots;
mod steps;
mod values;
mod views;
mod walk;

pub use life_store::{FaultKind, Growth, Limits, TrapKind};
pub use machine::Machine;
pub use outcome::Outcome;
pub use run::MOST_STEPS;
