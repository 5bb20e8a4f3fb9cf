//! Points-to sets: what a pointer may point to, and the numbers of such facts.
#![tactic(auto)]

mod beneath;
mod cause;
mod caused_count;
mod counts;
mod element;
mod element_list;
mod input_list;
mod limits;
mod location_list;
mod place_list;
mod shape;
mod table;

pub use beneath::{is_within, overlap, rest_of, under};
pub use cause::{called, changed, changed_in, ended, moved, owner_changed, uninitialised};
pub use counts::{has_few_elements, has_few_locations};
pub use element::{AbsPlace, Cause, CauseKind, Element, Fact, OWNED_STEP, Root};
pub use element_list::elements;
pub use input_list::{InputPointer, inputs, push_local_inputs, push_places_if};
pub use limits::{
    ELEMENT_LIMIT, LOCATION_LIMIT, POINT_LIMIT, STEP_LIMIT, count_points, has_short_places,
    is_within_limits,
};
pub use location_list::{locations, push_local_locations, push_locations_in};
pub use shape::{
    holds_owner_if, is_variable, is_variable_place, local_type, location_type, member_of,
    member_type, members_at, members_type, operand_type, place_type, shape_type, steps_type,
    target_of, target_type, ty_at, ty_if,
};
pub use table::ElementTable;
