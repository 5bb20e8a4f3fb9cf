// The pointers that a caller hands over, by a signature.
ghost use Rattle.std.specs.Option.{option_copied};
ghost use Rattle.std.specs.Prelude.{◌≡◌, ◌++◌, ◌<◌, ◌^◌, length, map, IfOk, OnOk};
ghost use Rattle.life_pset.specs.Elements.{inputs_from};
ghost use Rattle.life_pset.specs.Inputs.{input_seen};
ghost use Rattle.life_contract.specs.Inputs.{admits_null, bears_keeps, bears_nonnull, input_parameter, inputs_of_signature, is_mutating, may_be_null, parameter_in, parameter_local, parameter_number};

use crate::param::Param;
use crate::signature::Signature;
use life_core::{Local, LocalKind};
use life_pset::{InputPointer, Root, holds_owner_if, push_local_inputs, target_type, ty_if};
use life_types::{NoMemory, Place, TypeTable, is_constant, is_raw};
use std::alloc::Global;

/// The pointers that a caller hands over, by themselves or in structs, in the order of the parameters
/// and then of their members, depth first. The only error is the want of memory.
pub(crate) fn inputs_of(
    alloc: Global,
    sig: &Signature,
    types: &TypeTable,
) -> Result<Vec<InputPointer>, NoMemory>
    ensures { IfOk result (λ all. map input_seen all.items ≡ inputs_of_signature types.now sig.now) }
{
    let mut all = Vec::new(alloc);
    push_inputs(alloc, types, sig.place, &sig.parameters, &mut all)?;
    Ok(all)
}

fn push_inputs(
    alloc: Global,
    types: &TypeTable,
    place: Place,
    parameters: &[Param],
    all: &mut Vec<InputPointer>,
) -> Result<(), NoMemory>
    requires { length parameters.now < 2 ^ 32 }
    ensures { OnOk result
        (map input_seen all.new.items
        ≡ map input_seen all.old.items ++ inputs_from types.now (length parameters.now) 0 (map (parameter_local place) parameters.now)) }
{
    let count = parameters.len() as u32;
    for (number, parameter) in parameters.iter().enumerate() {
        let local = parameter_local(place, *parameter);
        push_local_inputs(alloc, types, count, number as u32, &local, all)?;
    }
    Ok(())
}

/// A parameter as a local of its function.
pub fn parameter_local(place: Place, parameter: Param) -> Local
    ensures { result ≡ parameter_local place parameter }
{
    Local {
        name: parameter.name,
        ty: parameter.ty,
        kind: LocalKind::Object,
        place,
        nonnull: parameter.nonnull,
        keeps: parameter.keeps,
    }
}

/// The number of the parameter of a root.
pub fn parameter_in(root: Root) -> u32
    ensures { result ≡ parameter_in root }
{
    match root {
        Root::Local(number) => number,
        Root::Input { parameter, .. } => parameter,
    }
}

/// The number of the parameter of an input.
pub(crate) fn parameter_number(input: InputPointer) -> u32
    ensures { result ≡ parameter_number (input_seen input) }
{
    parameter_in(input.root)
}

/// The parameter of an input, if the signature has it.
pub fn input_parameter(sig: &Signature, input: InputPointer) -> Option<&Param>
    ensures { option_copied result ≡ input_parameter sig.now (input_seen input) }
{
    sig.parameters.get(parameter_number(input) as usize)
}

// ---- null

/// Whether a pointer that a caller hands over may be null: it is a raw one, and its parameter doesn't
/// bear `[[life::nonnull]]`.
pub fn may_be_null(types: &TypeTable, nonnull: bool, input: InputPointer) -> bool
    ensures { result ≡ may_be_null types.now nonnull (input_seen input) }
{
    is_raw(ty_if(types, input.ty)) && !nonnull
}

fn bears_nonnull(parameter: Option<&Param>) -> bool
    ensures { result ≡ bears_nonnull (option_copied parameter.entry) }
{
    match parameter {
        None => false,
        Some(parameter) => parameter.nonnull,
    }
}

/// Whether an input admits null.
pub fn admits_null(sig: &Signature, types: &TypeTable, input: InputPointer) -> bool
    ensures { result ≡ admits_null types.now sig.now (input_seen input) }
{
    may_be_null(types, bears_nonnull(input_parameter(sig, input)), input)
}

// ---- changes

fn bears_keeps(parameter: Option<&Param>) -> bool
    ensures { result ≡ bears_keeps (option_copied parameter.entry) }
{
    match parameter {
        None => false,
        Some(parameter) => parameter.keeps,
    }
}

/// Whether the callee may change an owner behind the input: its target isn't const and holds an owner,
/// and its parameter doesn't bear `[[life::keeps]]`.
pub fn is_mutating(sig: &Signature, types: &TypeTable, input: InputPointer) -> bool
    ensures { result ≡ is_mutating types.now sig.now (input_seen input) }
{
    !is_constant(ty_if(types, input.ty))
        && (holds_owner_if(types, target_type(types, input.ty))
            && !bears_keeps(input_parameter(sig, input)))
}
