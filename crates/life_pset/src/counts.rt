// Whether a function has few locations and few elements, found without a list of them: a few structs
// in structs have more places than a list could hold.
ghost use Rattle.std.specs.Prelude.{◌≡◌, ◌≤◌, ◌-◌, ◌↔◌, length, map, IfOk, IsTrue};
ghost use Rattle.life_types.specs.Trees.{tree_at};
ghost use Rattle.life_core.specs.Function.{function_of};
ghost use Rattle.life_pset.specs.Counts.{input_place_count, input_place_count_from, location_count, location_count_from, object_place_count, object_place_count_from, place_count, pointer_count};
ghost use Rattle.life_pset.specs.Elements.{elements_of, local_inputs, locations_of};
ghost use Rattle.life_pset.specs.Inputs.{input_seen};
ghost use Rattle.life_pset.specs.Shapes.{tree_if};

use crate::caused_count::room_after_caused;
use crate::input_list::{InputPointer, push_local_inputs};
use crate::limits::{ELEMENT_LIMIT, LOCATION_LIMIT};
use crate::shape::{is_variable, members_of, shape_if, target_type, ty_at};
use life_core::{CoreFn, Local, LocalKind};
use life_types::{NoMemory, Ty, TyId, TypeTable, is_plain};
use std::alloc::Global;

// The elements that each function has: null, own and static.
const ALWAYS: usize = 3;

// ---- locations

/// Whether a function has no more locations than it may.
#[tactic(auto, using(crate::proofs::CountLemmas::locations_counted))]
pub fn has_few_locations(f: &CoreFn, types: &TypeTable) -> bool
    ensures { IsTrue result ↔ length (locations_of types.now (function_of f.now)) ≤ 256 }
{
    room_after_locations(types, f.parameters, &f.locals, LOCATION_LIMIT + 1) > 0
}

// What is left of so much room once each location of these locals has taken one.
#[tactic(auto, using(crate::proofs::CountLemmas::room_after_both))]
fn room_after_locations(types: &TypeTable, parameters: u32, locals: &[Local], room: usize) -> usize
    ensures { result ≡ room - location_count_from types.now parameters 0 locals.now }
{
    let mut left = room;
    for (number, local) in locals.iter().enumerate() {
        let id = shape_if(types, number < parameters as usize, local.ty);
        left = room_after_local(types, local.kind, id, left);
    }
    left
}

fn room_after_local(types: &TypeTable, kind: LocalKind, id: TyId, room: usize) -> usize
    ensures { result ≡ room - location_count types.now kind id }
{
    if is_variable(kind, ty_at(types, id)) {
        room.saturating_sub(1)
    } else {
        room_after_pointers(types, id, room)
    }
}

// It looks into no struct without a pointer, and no further once there is no room.
#[tactic(auto, using(crate::proofs::CandidateLemmas::below_at, crate::proofs::CandidateLemmas::below_more, crate::proofs::CountLemmas::no_room, crate::proofs::CountLemmas::room_after_both, crate::proofs::CountLemmas::room_of_plain, crate::proofs::CountLemmas::struct_pointers))]
fn room_after_pointers(types: &TypeTable, id: TyId, room: usize) -> usize
    ensures { result ≡ room - pointer_count (tree_at types.now id) }
{
    if room == 0 {
        return 0;
    }
    if is_plain(types, id) {
        return room;
    }
    match ty_at(types, id) {
        Ty::View => room - 1,
        Ty::Unique(_) => room - 1,
        Ty::Raw { .. } => room - 1,
        Ty::Reference { .. } => room - 1,
        Ty::Iterator { .. } => room - 1,
        Ty::Span { .. } => room - 1,
        Ty::Struct(number) => {
            let members = members_of(types, id, number);
            let mut left = room;
            for member in members {
                left = room_after_pointers(types, *member, left);
            }
            left
        }
        _ => room,
    }
}

// ---- elements

/// Whether a function has no more elements than it may: an element is counted as often as something
/// may give it. Where the objects leave room, the locations of each parameter are listed on the way.
#[tactic(auto, using(crate::proofs::CountLemmas::elements_counted, crate::proofs::CountLemmas::room_after_both))]
pub fn has_few_elements(alloc: Global, f: &CoreFn, types: &TypeTable) -> Result<bool, NoMemory>
    ensures { IfOk result (λ few. IsTrue few ↔ length (elements_of types.now (function_of f.now)) ≤ 2048) }
{
    let room = room_after_caused(&f.body, f, ELEMENT_LIMIT + 1 - ALWAYS);
    let room = room_after_objects(types, f.parameters, &f.locals, room);
    let room = room_after_all_inputs(alloc, types, f.parameters, &f.locals, room)?;
    Ok(room > 0)
}

#[tactic(auto, using(crate::proofs::CountLemmas::room_after_both))]
fn room_after_objects(types: &TypeTable, parameters: u32, locals: &[Local], room: usize) -> usize
    ensures { result ≡ room - object_place_count_from types.now parameters 0 locals.now }
{
    let mut left = room;
    for (number, local) in locals.iter().enumerate() {
        let id = shape_if(types, number < parameters as usize, local.ty);
        left = room_after_object(types, local.kind, id, left);
    }
    left
}

fn room_after_object(types: &TypeTable, kind: LocalKind, id: TyId, room: usize) -> usize
    ensures { result ≡ room - object_place_count kind (tree_at types.now id) }
{
    match kind {
        LocalKind::Object => room_after_places(types, id, room),
        LocalKind::Register => room,
        LocalKind::Range => room,
    }
}

#[tactic(auto, using(crate::proofs::CountLemmas::room_after_both))]
fn room_after_all_inputs(
    alloc: Global,
    types: &TypeTable,
    parameters: u32,
    locals: &[Local],
    room: usize,
) -> Result<usize, NoMemory>
    ensures { IfOk result (λ left. left ≡ room - input_place_count_from types.now parameters 0 locals.now) }
{
    let mut left = room;
    for (number, local) in locals.iter().enumerate() {
        left = room_after_local_inputs(alloc, types, parameters, number, local, left)?;
    }
    Ok(left)
}

// A local that is no parameter has none. Without room nothing is listed.
#[tactic(auto, using(crate::proofs::CountLemmas::no_room))]
fn room_after_local_inputs(
    alloc: Global,
    types: &TypeTable,
    parameters: u32,
    number: usize,
    local: &Local,
    room: usize,
) -> Result<usize, NoMemory>
    ensures { IfOk result (λ left. left ≡ room - input_place_count types.now (local_inputs types.now parameters number local.now)) }
{
    if room == 0 {
        return Ok(0);
    }
    if number >= parameters as usize {
        return Ok(room);
    }
    let mut inputs = Vec::new(alloc);
    push_local_inputs(alloc, types, parameters, number as u32, local, &mut inputs)?;
    Ok(room_after_inputs(types, &inputs, room))
}

#[tactic(auto, using(crate::proofs::CountLemmas::room_after_both))]
fn room_after_inputs(types: &TypeTable, inputs: &[InputPointer], room: usize) -> usize
    ensures { result ≡ room - input_place_count types.now (map input_seen inputs.now) }
{
    let mut left = room;
    for input in inputs {
        left = room_after_places_if(types, target_type(types, input.ty), left);
    }
    left
}

fn room_after_places_if(types: &TypeTable, id: Option<TyId>, room: usize) -> usize
    ensures { result ≡ room - place_count (tree_if types.now id) }
{
    match id {
        None => room.saturating_sub(1),
        Some(id) => room_after_places(types, id, room),
    }
}

// Each place takes one, and without room it looks no further.
#[tactic(auto, using(crate::proofs::CandidateLemmas::below_at, crate::proofs::CandidateLemmas::below_more, crate::proofs::CountLemmas::no_room, crate::proofs::CountLemmas::room_after_both, crate::proofs::CountLemmas::struct_places))]
fn room_after_places(types: &TypeTable, id: TyId, room: usize) -> usize
    ensures { result ≡ room - place_count (tree_at types.now id) }
{
    if room == 0 {
        return 0;
    }
    match ty_at(types, id) {
        Ty::Text => room.saturating_sub(2),
        Ty::Vector(element) => room_after_places(types, element, room - 1),
        Ty::Unique(target) => room_after_places(types, target, room - 1),
        Ty::Struct(number) => {
            let members = members_of(types, id, number);
            let mut left = room - 1;
            for member in members {
                left = room_after_places(types, *member, left);
            }
            left
        }
        _ => room - 1,
    }
}
