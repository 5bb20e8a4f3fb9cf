//! The cells of a frame, and the instructions that make pointers and look at what they point to.
#![tactic(auto)]

mod aiming;
mod asking;
mod cell;
mod comparing;
mod cursors;
mod elements;
mod frame;
mod iterators;
mod locations;
mod members;
mod owners;
mod parts;
mod places;
mod scope;
mod sizes;
mod stops;

pub use aiming::{aim, repoint};
pub use asking::tested;
pub use cell::{Cell, holding, pointer_of};
pub use comparing::same;
pub use cursors::cursor;
pub use elements::element;
pub use frame::{cell_at, number_at, object_at, own_pointer, put_at, put_cell};
pub use iterators::advance;
pub use locations::{point, pointer_at};
pub use members::{
    local_type, location_type, member_word, target_type, type_at, type_within, word_within,
};
pub use owners::{local_owner, owner_at};
pub use parts::cut;
pub use places::locate;
pub use scope::Scope;
pub use sizes::size;
