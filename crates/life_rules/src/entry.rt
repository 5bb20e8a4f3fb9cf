// What holds where a function begins.
ghost use Rattle.std.specs.List.{flat_map};
ghost use Rattle.std.specs.Prelude.{◌≡◌, ◌++◌, ◌<◌, ◌^◌, if◌then◌else◌, [], length, map, IfOk, OnOk};
ghost use Rattle.life_core.specs.Function.{function_of};
ghost use Rattle.life_pset.specs.Elements.{local_inputs, local_locations};
ghost use Rattle.life_pset.specs.Inputs.{input_seen};
ghost use Rattle.life_pset.specs.Shapes.{shape};
ghost use Rattle.life_rules.specs.Carrying.{fact_at};
ghost use Rattle.life_rules.specs.Deriving.{entry_facts, input_facts, owner_elements, owner_facts, parameter_facts};

use crate::push::push_if;
use life_contract::may_be_null;
use life_core::{CoreFn, Local};
use life_pset::{
    AbsPlace, Element, Fact, InputPointer, push_local_inputs, push_local_locations, shape_type,
    steps_type, ty_if,
};
use life_types::{NoMemory, Ty, TyId, TypeTable};
use std::alloc::Global;

/// The facts that hold before the function's first point: each pointer that the caller hands over
/// points to what stands for its target, and a raw one may be null unless its parameter bears
/// `[[life::nonnull]]`; a `std::unique_ptr` owns something or is null; a vector or a string has its
/// buffer.
pub fn entry_facts(alloc: Global, f: &CoreFn, types: &TypeTable) -> Result<Vec<Fact>, NoMemory>
    requires { length f.now.locals.items < 2 ^ 32 }
    ensures { IfOk result (λ facts. facts.items ≡ entry_facts types.now (function_of f.now)) }
{
    let mut all = Vec::new(alloc);
    for (number, local) in f.locals.iter().enumerate() {
        push_parameter_facts(alloc, types, f.parameters, number as u32, local, &mut all)?;
    }
    Ok(all)
}

// Adds those of a local with this number, in a function with so many parameters.
#[tactic(auto, using(std::proofs::Common::append_assoc))]
fn push_parameter_facts(
    alloc: Global,
    types: &TypeTable,
    parameters: u32,
    number: u32,
    local: &Local,
    out: &mut Vec<Fact>,
) -> Result<(), NoMemory>
    ensures { OnOk result
        (out.new.items ≡ out.old.items ++ parameter_facts types.now parameters number local.now) }
{
    push_local_input_facts(alloc, types, parameters, number, local, out)?;
    push_local_owner_facts(
        alloc,
        types,
        number < parameters,
        parameters,
        number,
        local,
        out,
    )
}

fn push_local_input_facts(
    alloc: Global,
    types: &TypeTable,
    parameters: u32,
    number: u32,
    local: &Local,
    out: &mut Vec<Fact>,
) -> Result<(), NoMemory>
    ensures { OnOk result
        (out.new.items ≡ out.old.items ++ flat_map (input_facts types.now local.now.nonnull) (local_inputs types.now parameters number local.now)) }
{
    let mut inputs = Vec::new(alloc);
    push_local_inputs(alloc, types, parameters, number, local, &mut inputs)?;
    push_all_input_facts(types, local.nonnull, &inputs, out)
}

fn push_all_input_facts(
    types: &TypeTable,
    nonnull: bool,
    inputs: &[InputPointer],
    out: &mut Vec<Fact>,
) -> Result<(), NoMemory>
    ensures { OnOk result
        (out.new.items ≡ out.old.items ++ flat_map (input_facts types.now nonnull) (map input_seen inputs.now)) }
{
    for input in inputs {
        push_input_facts(types, nonnull, *input, out)?;
    }
    Ok(())
}

#[tactic(auto, using(std::proofs::Common::append_assoc))]
fn push_input_facts(
    types: &TypeTable,
    nonnull: bool,
    input: InputPointer,
    out: &mut Vec<Fact>,
) -> Result<(), NoMemory>
    ensures { OnOk result
        (out.new.items ≡ out.old.items ++ input_facts types.now nonnull (input_seen input)) }
{
    out.push(Fact {
        location: input.pointer,
        element: Element::At(AbsPlace::of_root(input.root)),
    })?;
    push_if(
        may_be_null(types, nonnull, input),
        Fact {
            location: input.pointer,
            element: Element::Null,
        },
        out,
    )
}

fn push_local_owner_facts(
    alloc: Global,
    types: &TypeTable,
    is_parameter: bool,
    parameters: u32,
    number: u32,
    local: &Local,
    out: &mut Vec<Fact>,
) -> Result<(), NoMemory>
    ensures { OnOk result
        (out.new.items ≡ out.old.items ++ (if is_parameter then flat_map (owner_facts types.now (shape types.now parameters number local.now)) (local_locations types.now parameters number local.now) else [])) }
{
    if !is_parameter {
        return Ok(());
    }
    let mut locations = Vec::new(alloc);
    push_local_locations(types, parameters, number, local, &mut locations)?;
    let id = shape_type(types, parameters, number, local);
    push_all_owner_facts(types, id, &locations, out)
}

fn push_all_owner_facts(
    types: &TypeTable,
    id: TyId,
    locations: &[AbsPlace],
    out: &mut Vec<Fact>,
) -> Result<(), NoMemory>
    ensures { OnOk result
        (out.new.items ≡ out.old.items ++ flat_map (owner_facts types.now id) locations.now) }
{
    for location in locations {
        push_owner_facts(types, id, *location, out)?;
    }
    Ok(())
}

fn push_owner_facts(
    types: &TypeTable,
    id: TyId,
    location: AbsPlace,
    out: &mut Vec<Fact>,
) -> Result<(), NoMemory>
    ensures { OnOk result (out.new.items ≡ out.old.items ++ owner_facts types.now id location) }
{
    let ty = ty_if(types, steps_type(types, Some(id), location.path()));
    push_owner_elements(ty, location, out)
}

fn push_owner_elements(ty: Ty, location: AbsPlace, out: &mut Vec<Fact>) -> Result<(), NoMemory>
    ensures { OnOk result (out.new.items ≡ out.old.items ++ map (fact_at location) (owner_elements ty)) }
{
    match ty {
        Ty::Unique(_) => {
            out.push(Fact {
                location,
                element: Element::Own,
            })?;
            out.push(Fact {
                location,
                element: Element::Null,
            })?;
        }
        Ty::Text => out.push(Fact {
            location,
            element: Element::Own,
        })?,
        Ty::Vector(_) => out.push(Fact {
            location,
            element: Element::Own,
        })?,
        _ => {}
    }
    Ok(())
}
