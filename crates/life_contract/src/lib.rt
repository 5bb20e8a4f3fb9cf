//! Signatures, and what they say of arguments and results: the contracts of the profile.
#![tactic(auto)]

mod arguments;
mod breaking;
mod callee;
mod inputs;
mod locating;
mod param;
mod positions;
mod promises;
mod signature;
mod targets;

pub use arguments::{is_argument_of, is_in_arguments};
pub use breaking::breaks_apart;
pub use callee::Callee;
pub use inputs::{
    admits_null, input_parameter, is_mutating, may_be_null, parameter_in, parameter_local,
};
pub use locating::{is_location, is_rooted, located};
pub use param::Param;
pub use positions::{pointed_type, step_type, steps_place};
pub use promises::{
    admits_static, fixed_elements, lists_null, promised_behind, promised_places, result_locations,
    result_type,
};
pub use signature::{Signature, Signatures, signature_of};
pub use targets::Targets;
