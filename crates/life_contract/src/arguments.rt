// The arguments of a call, and the inputs for which they are given.
ghost use Rattle.std.specs.List.{list_any};
ghost use Rattle.std.specs.Option.{option_copied};
ghost use Rattle.std.specs.Prelude.{◌≡◌, ◌&&◌, map, option_map, Some};
ghost use Rattle.life_core.specs.Operands.{argument_of};
ghost use Rattle.life_pset.specs.Inputs.{input_seen};
ghost use Rattle.life_contract.specs.Arguments.{is_argument_of, is_given, is_in_argument, is_in_arguments};
ghost use Rattle.life_contract.specs.Inputs.{is_mutating};

use crate::inputs::{is_mutating, parameter_number};
use crate::locating::{is_location, is_rooted};
use crate::signature::Signature;
use life_core::Argument;
use life_pset::{AbsPlace, InputPointer};
use life_types::TypeTable;

fn is_given(argument: Option<&Argument>, input: InputPointer, location: &AbsPlace) -> bool
    ensures { result ≡ is_given (option_map argument_of (option_copied argument.entry)) (input_seen input) location.now }
{
    match argument {
        None => false,
        Some(argument) => is_given_by(argument, input, location),
    }
}

// Whether the location is what the argument gives for the input: a pointer itself, or the same member
// of a struct.
fn is_given_by(argument: &Argument, input: InputPointer, location: &AbsPlace) -> bool
    ensures { result ≡ is_given (Some (argument_of argument.now)) (input_seen input) location.now }
{
    match argument {
        Argument::Value(_) => false,
        Argument::Given(local) => {
            *location == AbsPlace::of_local(*local).further(input.pointer.path())
        }
        Argument::Pointer(pointer) => is_location(pointer, location),
        Argument::Slot(slot) => is_location(slot, location),
    }
}

/// Whether the location is the argument that is given for the input.
pub fn is_argument_of(arguments: &[Argument], input: InputPointer, location: &AbsPlace) -> bool
    ensures { result ≡ is_argument_of (map argument_of arguments.now) (input_seen input) location.now }
{
    is_given(
        arguments.get(parameter_number(input) as usize),
        input,
        location,
    )
}

/// Whether the location is the argument that is given for some of these inputs that is mutating.
pub(crate) fn is_argument_of_some(
    sig: &Signature,
    types: &TypeTable,
    arguments: &[Argument],
    location: &AbsPlace,
    inputs: &[InputPointer],
) -> bool
    ensures { result ≡ list_any (λ i. is_mutating types.now sig.now i && is_argument_of (map argument_of arguments.now) i location.now) (map input_seen inputs.now) }
{
    for input in inputs {
        if is_mutating(sig, types, *input) && is_argument_of(arguments, *input, location) {
            return true;
        }
    }
    false
}

// ---- without a signature

fn is_in_argument(argument: &Argument, location: &AbsPlace) -> bool
    ensures { result ≡ is_in_argument (argument_of argument.now) location.now }
{
    match argument {
        Argument::Value(_) => false,
        Argument::Given(local) => is_rooted(*local, location),
        Argument::Pointer(pointer) => is_location(pointer, location),
        Argument::Slot(slot) => is_location(slot, location),
    }
}

/// Whether the location lies in what one of the arguments names. It takes no memory.
pub fn is_in_arguments(arguments: &[Argument], location: &AbsPlace) -> bool
    ensures { result ≡ is_in_arguments (map argument_of arguments.now) location.now }
{
    for argument in arguments {
        if is_in_argument(argument, location) {
            return true;
        }
    }
    false
}
