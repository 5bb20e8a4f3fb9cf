//! The rules of the profile: what is carried from point to point, what is wrong there, and its text.
#![tactic(auto)]

mod arguing;
mod branch;
mod callees;
mod calling;
mod context;
mod diag;
mod entry;
mod given;
mod keeping;
mod kill;
mod laws;
mod marks;
mod matching;
mod none;
mod one;
mod pairs;
mod push;
mod reads;
mod returning;
mod spot;
mod staying;
mod stays;
mod telling;
mod texts;
mod told_at;
mod writes;
mod wrong;
mod wrong_two;

pub use callees::{callee_in, callees_of};
pub use context::PointContext;
pub use diag::{Diag, DiagKind, ListedDiag, PrintedLine, Why};
pub use entry::entry_facts;
pub use laws::{
    one_fact_stays_or_is_read, one_function_is_the_program, only_what_is_told_is_wrong,
    targets_mark_elements, value_calls_are_right, value_calls_make_nothing,
};
pub use none::push_none;
pub use pairs::push_diags_of_pairs;
pub use spot::spot_in;
pub use staying::{
    is_marked, is_read_at, is_removed, is_target_at, is_written_at, keeps_all, mark_at,
    moves_elements, push_made, push_staying,
};
pub use texts::{element_text, kind_name, line_of, place_text};
pub use told_at::{is_told_at, tells_some};
pub use wrong::push_diags;
