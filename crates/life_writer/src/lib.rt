//! What is written of a function: its locals and statements as they grow, and the values, places,
//! pointers and conditions of expressions.
#![tactic(auto)]

mod acts;
mod arguments;
mod around;
mod assigning;
mod bases;
mod behind;
mod building;
mod calls;
mod chains;
mod characters;
mod conditions;
mod expressions;
mod initialising;
mod lists;
mod methods;
mod moved;
mod names;
mod numbers;
mod objects;
mod operands;
mod parts;
mod placed;
mod places;
mod pointers;
mod registers;
mod rows;
mod temporaries;
mod tested;
mod types;
mod values;
mod variables;
mod writer;

pub use acts::Act;
pub use around::{Around, own_type};
pub use behind::Behind;
pub use building::{Destination, Keeping, Last};
pub use characters::SeenCharacters;
pub use conditions::Before;
pub use names::named;
pub use numbers::number;
pub use operands::{copied_location, copied_operand};
pub use pointers::Pointing;
pub use rows::{Join, Row, Side};
pub use temporaries::nameless_of;
pub use types::{add_type, class};
pub use variables::variable_local;
pub use writer::Writer;
