//! The store of a run: objects in memory, and what programs mean over it.
#![tactic(auto)]

mod object;
mod plain;
mod plain_object;
mod plain_rows;
mod run;
mod spare;
mod store;

pub use object::{BirthFault, Dead, ObjRef, Shape};
pub use plain::PlainStore;
pub use run::{FaultKind, Growth, Limits, TrapKind};
pub use store::Store;
