//! Names and what they mean, the rules that a tree may break, and the types that are written.
#![tactic(auto)]

mod environment;
mod fault;
mod found;
mod table;
mod written;

pub use environment::{Entity, Environment, MemberType, Signature, Structure};
pub use fault::{IllFault, IllKind};
pub use found::{allowed, ill};
pub use table::{add_type, has_room, is_there, type_at};
pub use written::{
    Written, is_const_value, made_element, written_base, written_local, written_type,
};
