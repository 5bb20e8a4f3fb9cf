//! Core programs: what a typed program is translated to, its points and its edges.
#![tactic(auto)]

mod edge_list;
mod exits;
mod instr;
mod link;
mod link_list;
mod node;
mod operand;
mod operation;
mod point_count;
mod point_lookup;
mod program;
mod spot_list;
mod stmt;

pub use edge_list::edges;
pub use exits::{Entry, Exits};
pub use instr::{Change, Direction, Form, Instr, Made, Port, Test};
pub use link::{Leads, LinkRef};
pub use link_list::links;
pub use node::{NodeRef, SpotRef};
pub use operand::{Argument, Base, Characters, Location, Operand, RangeEnd, Source, Which};
pub use operation::{Operation, Operator};
pub use point_count::points;
pub use point_lookup::{instr_at, place_at, returns_at, test_at};
pub use program::{CoreFn, CoreProgram, FnId, Local, LocalKind, Names, Promise};
pub use spot_list::spots;
pub use stmt::{Condition, Edge, Point, Stmt};
