//! Pointers into a store: whether one may be used, where it leads, and how it lies in a slot.
#![tactic(auto)]

mod bytes;
mod choosing;
mod iterators;
mod owned;
mod places;
mod pointer;
mod stop;
mod texts;
mod valid;
mod views;
mod words;

pub use bytes::{byte_at, byte_count, viewed_alike, word_at};
pub use choosing::Choice;
pub use iterators::{Step, alike, erasable, moved, step_of};
pub use owned::{
    Spot, buffer, owned_by, owned_element, owned_end, owned_pointer, owned_size, owned_target,
    owned_whole, place_pointer,
};
pub use places::{Place, behind};
pub use pointer::{Characters, Pointer, at_index};
pub use stop::Stop;
pub use texts::{character, empty_view, text_view};
pub use valid::{length, standing, usable};
pub use views::{viewed_element, viewed_end, viewed_part, viewed_size};
pub use words::{read_pointer, write_pointer};
