//! Reading types and expressions from the front of a list of tokens, and the small readers that all
//! others are made of. What each rule's reader gives is defined apart from the code, for the whole
//! grammar, and each function here answers what the reader of its rule gives.
#![tactic(auto)]

mod chains;
mod lists;
mod literals;
mod marks;
mod operands;
mod operators;
mod stop;
mod types;

pub use chains::{additive, boxed_expr};
pub use lists::init_list;
pub use literals::{starts_expr, starts_primary};
pub use marks::{mark, name, opener, optional_mark, starts, starts_name};
pub use operands::postfix;
pub use stop::{Read, Separated, Stop};
pub use types::{type_name, unqualified};
