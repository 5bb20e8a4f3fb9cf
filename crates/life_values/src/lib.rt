//! Values of all types in a store: how they end, and go from one place to another.
#![tactic(auto)]

mod consuming;
mod copying;
mod deep_end;
mod edits;
mod fresh_value;
mod growing;
mod layout;
mod layouts;
mod moving;
mod pushing;
mod replacing;
mod rewriting;
mod room;
mod sizes;
mod spot;
mod taking;
mod texts;
mod value_end;

pub use consuming::consume;
pub use copying::{CopyFault, copy_deep};
pub use deep_end::end_deep;
pub use edits::{clear, erase, pop};
pub use fresh_value::fresh;
pub use growing::regrow;
pub use layout::{Holds, Layout, Leaf, leaves_of, owners_of, width_of};
pub use layouts::layouts_of;
pub use moving::copy_words;
pub use pushing::{push_number, push_taken};
pub use replacing::replace;
pub use rewriting::rewrite;
pub use room::{make_room, reserve, widen};
pub use spot::Spot;
pub use taking::take_value;
pub use texts::text;
pub use value_end::end_words;
