//! Slots: what a call does with operands that are handed over to be changed. A pointer goes over as its
//! value; a `std::unique_ptr` lends what it owns, which a new object owns while the call runs.
#![tactic(auto)]

mod births;
mod operands;
mod owners;
mod returning;
mod types;

pub use births::slot_object;
pub use operands::{lend_slot, pointer_cell, slot_handed};
pub use returning::{object_of, return_slot};
pub use types::slot_type;
