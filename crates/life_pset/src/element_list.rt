// The elements of a function.
ghost use Rattle.std.specs.Prelude.{◌≡◌, ◌<◌, ◌^◌, ◌++◌, ◌∷◌, [], length, map, IfOk, OnOk};
ghost use Rattle.std.specs.List.{flat_map};
ghost use Rattle.std.specs.Option.{option_copied};
ghost use Rattle.life_core.specs.Function.{function_of};
ghost use Rattle.life_core.specs.Node.{spot_seen};
ghost use Rattle.life_core.specs.Operands.{operand_of};
ghost use Rattle.life_core.specs.Step.{step_of};
ghost use Rattle.life_pset.specs.Causes.{spot_elements, AreSpotsOf};
ghost use Rattle.life_pset.specs.Elements.{caused_elements, changed_in, elements_of, end_causes, end_elements, end_if, input_places, inputs_of, moved, objects_from, step_elements};

use crate::cause::{called, changed, changed_in, ended, moved, uninitialised};
use crate::element::{AbsPlace, Cause, Element};
use crate::input_list::{inputs, push_input_places};
use crate::place_list::push_object_places;
use crate::shape::shape_type;
use life_core::{CoreFn, Instr, Local, LocalKind, NodeRef, Operand, SpotRef, spots};
use life_types::{NoMemory, Place, TypeTable};
use std::alloc::Global;

/// The elements that a points-to set of the function may have: null, own and static, then the places
/// of its objects and those behind the pointers that its caller hands over, each depth first, then
/// those with a cause, in the order of the points. One with a cause may stand there more than once.
pub fn elements(alloc: Global, f: &CoreFn, types: &TypeTable) -> Result<Vec<Element>, NoMemory>
    requires { length f.now.locals.items < 2 ^ 32 }
    ensures { IfOk result (λ all. all.items ≡ elements_of types.now (function_of f.now)) }
{
    let spots = spots(alloc, f)?;
    elements_of(alloc, f, types, &spots)
}

/// As `elements`, for a function whose points are listed already.
pub(crate) fn elements_of(
    alloc: Global,
    f: &CoreFn,
    types: &TypeTable,
    spots: &[SpotRef],
) -> Result<Vec<Element>, NoMemory>
    requires locals { length f.now.locals.items < 2 ^ 32 }
    requires spots { AreSpotsOf (function_of f.now) spots.now }
    ensures { IfOk result (λ all. all.items ≡ elements_of types.now (function_of f.now)) }
{
    let mut all = vec![in alloc; Element::Null, Element::Own, Element::Static]?;
    let objects = object_places(alloc, f, types)?;
    push_at(&objects, &mut all)?;
    let behind = places_behind_inputs(alloc, f, types)?;
    push_at(&behind, &mut all)?;
    push_caused(f, spots, &mut all)?;
    Ok(all)
}

// The places of the function's objects, in the order of their numbers.
fn object_places(alloc: Global, f: &CoreFn, types: &TypeTable) -> Result<Vec<AbsPlace>, NoMemory>
    requires { length f.now.locals.items < 2 ^ 32 }
    ensures { IfOk result (λ all.
        all.items ≡ objects_from types.now (function_of f.now).parameters 0 (function_of f.now).locals) }
{
    let mut all = Vec::new(alloc);
    for (number, local) in f.locals.iter().enumerate() {
        let number = number as u32;
        let id = shape_type(types, f.parameters, number, local);
        push_object_places(types, local.kind, id, number, &mut all)?;
    }
    Ok(all)
}

// What stands for what the caller's pointers point to.
fn places_behind_inputs(
    alloc: Global,
    f: &CoreFn,
    types: &TypeTable,
) -> Result<Vec<AbsPlace>, NoMemory>
    requires { length f.now.locals.items < 2 ^ 32 }
    ensures { IfOk result (λ all. all.items ≡ flat_map (input_places types.now) (inputs_of types.now (function_of f.now))) }
{
    let inputs = inputs(alloc, f, types)?;
    let mut all = Vec::new(alloc);
    push_input_places(types, &inputs, &mut all)?;
    Ok(all)
}

// Adds the places as elements.
fn push_at(places: &[AbsPlace], all: &mut Vec<Element>) -> Result<(), NoMemory>
    ensures { OnOk result (all.new.items ≡ all.old.items ++ map Element.At places.now) }
{
    for place in places {
        all.push(Element::At(*place))?;
    }
    Ok(())
}

// Adds the elements with causes that the points of the function may give, in their order.
#[tactic(auto, using(crate::proofs::CandidateLemmas::caused_of_spots))]
fn push_caused(f: &CoreFn, spots: &[SpotRef], all: &mut Vec<Element>) -> Result<(), NoMemory>
    requires { AreSpotsOf (function_of f.now) spots.now }
    ensures { OnOk result (all.new.items ≡ all.old.items ++ caused_elements (function_of f.now)) }
{
    push_all_caused(f, spots, all)
}

// Adds those that these points may give.
fn push_all_caused(f: &CoreFn, spots: &[SpotRef], all: &mut Vec<Element>) -> Result<(), NoMemory>
    ensures { OnOk result
        (all.new.items ≡ all.old.items ++ flat_map (spot_elements (function_of f.now)) (map spot_seen spots.now)) }
{
    for spot in spots {
        push_spot_elements(f, *spot, all)?;
    }
    Ok(())
}

// Adds those that a point may give.
fn push_spot_elements(f: &CoreFn, spot: SpotRef, all: &mut Vec<Element>) -> Result<(), NoMemory>
    ensures { OnOk result
        (all.new.items ≡ all.old.items ++ spot_elements (function_of f.now) (spot_seen spot.entry)) }
{
    match spot.node {
        NodeRef::Action(instr) => push_step_elements(f, spot.place, instr, all),
        NodeRef::Question(_) => Ok(()),
        NodeRef::Return => Ok(()),
        NodeRef::Stop => Ok(()),
    }
}

// Adds those that an instruction at a place may give.
fn push_step_elements(
    f: &CoreFn,
    place: Place,
    instr: &Instr,
    all: &mut Vec<Element>,
) -> Result<(), NoMemory>
    ensures { OnOk result
        (all.new.items ≡ all.old.items ++ step_elements (function_of f.now) place (step_of instr.now)) }
{
    match instr {
        Instr::Live { local, .. } => all.push(Element::Invalid(uninitialised(place, *local)))?,
        Instr::End { locals } => push_ends(f, place, locals, all)?,
        Instr::Copy { to, .. } => all.push(Element::Invalid(changed_in(place, to)))?,
        Instr::Move { to, from } => push_move_elements(place, to, *from, all)?,
        Instr::Change { place: operand, .. } => all.push(Element::Invalid(changed_in(
            place, operand,
        )))?,
        Instr::Make { owner, .. } => all.push(Element::Invalid(changed(place, owner.local)))?,
        Instr::Call { function, .. } => all.push(Element::Invalid(called(place, *function)))?,
        _ => {}
    }
    Ok(())
}

// Adds those of a move: what pointed into the owner that is moved from is invalid, that owner is moved
// from, and what pointed into the one that is changed is invalid.
fn push_move_elements(
    place: Place,
    to: &Operand,
    from: u32,
    all: &mut Vec<Element>,
) -> Result<(), NoMemory>
    ensures { OnOk result
        (all.new.items
        ≡ all.old.items ++ (Element.Invalid (moved place from) ∷ Element.Moved (moved place from) ∷ Element.Invalid (changed_in place (operand_of to.now)) ∷ [])) }
{
    let cause = moved(place, from);
    all.push(Element::Invalid(cause))?;
    all.push(Element::Moved(cause))?;
    all.push(Element::Invalid(changed_in(place, to)))?;
    Ok(())
}

// Adds those that the end of these locals gives.
fn push_ends(
    f: &CoreFn,
    place: Place,
    ended: &[u32],
    all: &mut Vec<Element>,
) -> Result<(), NoMemory>
    ensures { OnOk result
        (all.new.items ≡ all.old.items ++ flat_map (end_elements (function_of f.now) place) ended.now) }
{
    for local in ended {
        push_end(f, place, *local, all)?;
    }
    Ok(())
}

// Adds the one that the end of the local with this number gives, if it is an object.
fn push_end(f: &CoreFn, place: Place, number: u32, all: &mut Vec<Element>) -> Result<(), NoMemory>
    ensures { OnOk result
        (all.new.items ≡ all.old.items ++ end_elements (function_of f.now) place number) }
{
    push_end_of(place, number, f.locals.get(number as usize), all)
}

fn push_end_of(
    place: Place,
    number: u32,
    local: Option<&Local>,
    all: &mut Vec<Element>,
) -> Result<(), NoMemory>
    ensures { OnOk result
        (all.new.items ≡ all.old.items ++ map Element.Invalid (end_causes place number (option_copied local.entry))) }
{
    match local {
        None => Ok(()),
        Some(local) => push_object_end(local.kind, ended(place, number, local), all),
    }
}

// Adds the cause where it is about an object.
fn push_object_end(kind: LocalKind, cause: Cause, all: &mut Vec<Element>) -> Result<(), NoMemory>
    ensures { OnOk result (all.new.items ≡ all.old.items ++ map Element.Invalid (end_if kind cause)) }
{
    match kind {
        LocalKind::Object => all.push(Element::Invalid(cause))?,
        LocalKind::Register => {}
        LocalKind::Range => {}
    }
    Ok(())
}
