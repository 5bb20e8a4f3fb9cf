// The pointers that a caller hands over.
ghost use Rattle.std.specs.Prelude.{◌≡◌, ◌<◌, ◌≤◌, ◌+◌, ◌-◌, ◌^◌, ◌++◌, if◌then◌else◌, [], length, map, IfOk, OnOk};
ghost use Rattle.std.specs.List.{flat_map};
ghost use Rattle.life_core.specs.Function.{function_of};
ghost use Rattle.life_pset.specs.Elements.{input_at, input_if, input_places, input_root, inputs_among, inputs_of, local_inputs, local_locations, number_after, places_in};
ghost use Rattle.life_pset.specs.Inputs.{input_seen};
ghost use Rattle.life_pset.specs.Shapes.{shape, tree_if};

use crate::element::{AbsPlace, Root};
use crate::location_list::push_local_locations;
use crate::place_list::push_places;
use crate::shape::{shape_type, steps_type, target_type, ty_if};
use life_core::{CoreFn, Local};
use life_types::{NoMemory, TyId, TypeTable, is_pointer};
use std::alloc::Global;

/// A pointer that a caller hands over, by itself or as a member of a struct: where it is held, its
/// type, and the root of all that it points to.
#[derive(Clone, Copy, Debug)]
pub struct InputPointer {
    pub pointer: AbsPlace,
    pub ty: Option<TyId>,
    pub root: Root,
}

/// The pointers that a caller hands over to a function, in the order of its parameters and then of
/// their members, depth first.
pub fn inputs(alloc: Global, f: &CoreFn, types: &TypeTable) -> Result<Vec<InputPointer>, NoMemory>
    requires { length f.now.locals.items < 2 ^ 32 }
    ensures { IfOk result (λ all. map input_seen all.items ≡ inputs_of types.now (function_of f.now)) }
{
    let mut all = Vec::new(alloc);
    for (number, local) in f.locals.iter().enumerate() {
        push_local_inputs(alloc, types, f.parameters, number as u32, local, &mut all)?;
    }
    Ok(all)
}

/// Adds those of a local with this number, in a function with so many parameters.
pub fn push_local_inputs(
    alloc: Global,
    types: &TypeTable,
    parameters: u32,
    number: u32,
    local: &Local,
    all: &mut Vec<InputPointer>,
) -> Result<(), NoMemory>
    ensures { OnOk result
        (map input_seen all.new.items
        ≡ map input_seen all.old.items ++ local_inputs types.now parameters number local.now) }
{
    push_inputs_if(
        alloc,
        types,
        number < parameters,
        parameters,
        number,
        local,
        all,
    )
}

fn push_inputs_if(
    alloc: Global,
    types: &TypeTable,
    is_parameter: bool,
    parameters: u32,
    number: u32,
    local: &Local,
    all: &mut Vec<InputPointer>,
) -> Result<(), NoMemory>
    ensures { OnOk result
        (map input_seen all.new.items
        ≡ map input_seen all.old.items ++ (if is_parameter then inputs_among types.now number (shape types.now parameters number local.now) 0 (local_locations types.now parameters number local.now) else [])) }
{
    if !is_parameter {
        return Ok(());
    }
    let mut held = Vec::new(alloc);
    push_local_locations(types, parameters, number, local, &mut held)?;
    let id = shape_type(types, parameters, number, local);
    push_inputs_among(types, number, id, &held, all)
}

// Adds the pointers among the locations of a parameter of this type.
fn push_inputs_among(
    types: &TypeTable,
    parameter: u32,
    id: TyId,
    held: &[AbsPlace],
    all: &mut Vec<InputPointer>,
) -> Result<(), NoMemory>
    ensures { OnOk result
        (map input_seen all.new.items
        ≡ map input_seen all.old.items ++ inputs_among types.now parameter id 0 held.now) }
{
    let mut next = 0;
    for pointer in held {
        let ty = steps_type(types, Some(id), pointer.path());
        let found = is_pointer(ty_if(types, ty));
        push_input_if(found, input_at(parameter, next, pointer, ty), all)?;
        next = number_after(found, next);
    }
    Ok(())
}

fn push_input_if(
    found: bool,
    input: InputPointer,
    all: &mut Vec<InputPointer>,
) -> Result<(), NoMemory>
    ensures { OnOk result
        (map input_seen all.new.items ≡ map input_seen all.old.items ++ input_if found (input_seen input)) }
{
    if found {
        all.push(input)?;
    }
    Ok(())
}

fn number_after(found: bool, number: usize) -> usize
    requires { number < 2 ^ 64 - 1 }
    ensures number { result ≡ number_after found number }
    ensures at_most_one { result ≤ number + 1 }
{
    if found { number + 1 } else { number }
}

fn input_at(parameter: u32, number: usize, pointer: &AbsPlace, ty: Option<TyId>) -> InputPointer
    ensures { input_seen result ≡ input_at parameter number pointer.now ty }
{
    InputPointer {
        pointer: *pointer,
        ty,
        root: input_root(parameter, number, pointer),
    }
}

// What stands for all that a pointer of a parameter points to.
fn input_root(parameter: u32, number: usize, pointer: &AbsPlace) -> Root
    ensures { result ≡ input_root parameter number pointer.now }
{
    let member = if pointer.length == 0 {
        None
    } else {
        Some(number.min(255) as u8)
    };
    Root::Input { parameter, member }
}

/// Adds what may be pointed to behind these pointers, depth first.
pub fn push_input_places(
    types: &TypeTable,
    inputs: &[InputPointer],
    all: &mut Vec<AbsPlace>,
) -> Result<(), NoMemory>
    ensures { OnOk result
        (all.new.items ≡ all.old.items ++ flat_map (input_places types.now) (map input_seen inputs.now)) }
{
    for input in inputs {
        let target = target_type(types, input.ty);
        push_places_if(types, target, AbsPlace::of_root(input.root), all)?;
    }
    Ok(())
}

/// Adds the places of this type at a place, which may be one that the table doesn't have.
pub fn push_places_if(
    types: &TypeTable,
    id: Option<TyId>,
    at: AbsPlace,
    all: &mut Vec<AbsPlace>,
) -> Result<(), NoMemory>
    ensures { OnOk result (all.new.items ≡ all.old.items ++ places_in at (tree_if types.now id)) }
{
    match id {
        None => all.push(at)?,
        Some(id) => push_places(types, id, at, all)?,
    }
    Ok(())
}
