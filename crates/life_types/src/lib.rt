//! Places in a file, types, tests of them and their classes, and the want of memory: what every crate
//! above speaks of.
#![tactic(auto)]

mod facts;
mod memory;
mod place;
mod table;
mod ty;
mod type_tests;

pub use memory::NoMemory;
pub use place::Place;
pub use table::{TypeTable, class_of, holds_owner, holds_unique, is_plain, is_slot, words_of};
pub use ty::{Class, NameId, Ty, TyId};
pub use type_tests::{
    is_char, is_constant, is_iterator, is_long, is_pointer, is_raw, is_size, is_text, is_unique,
    is_value, is_view, is_void,
};
