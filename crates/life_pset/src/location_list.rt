// The locations of a function.
ghost use Rattle.std.specs.Prelude.{◌≡◌, ◌<◌, ◌≤◌, ◌^◌, ◌++◌, length, IfOk, OnOk};
ghost use Rattle.life_types.specs.Trees.{tree_at};
ghost use Rattle.life_core.specs.Function.{function_of};
ghost use Rattle.life_pset.specs.Elements.{local_locations, locations_in, locations_of, pointers_in};

use crate::element::AbsPlace;
use crate::shape::{is_variable, members_of, shape_type, ty_at};
use life_core::{CoreFn, Local, LocalKind};
use life_types::{NoMemory, Ty, TyId, TypeTable};
use std::alloc::Global;

/// The locations of a function, which are what has a points-to set: its pointers and `unique_ptr`s,
/// also those that are members, and its whole vectors and strings, in the order of its locals and then
/// of their members, depth first.
pub fn locations(alloc: Global, f: &CoreFn, types: &TypeTable) -> Result<Vec<AbsPlace>, NoMemory>
    requires { length f.now.locals.items < 2 ^ 32 }
    ensures { IfOk result (λ all. all.items ≡ locations_of types.now (function_of f.now)) }
{
    let mut all = Vec::new(alloc);
    for (number, local) in f.locals.iter().enumerate() {
        push_local_locations(types, f.parameters, number as u32, local, &mut all)?;
    }
    Ok(all)
}

/// Adds the locations of a local with this number, in a function with so many parameters.
pub fn push_local_locations(
    types: &TypeTable,
    parameters: u32,
    number: u32,
    local: &Local,
    all: &mut Vec<AbsPlace>,
) -> Result<(), NoMemory>
    ensures { OnOk result (all.new.items ≡ all.old.items ++ local_locations types.now parameters number local.now) }
{
    let id = shape_type(types, parameters, number, local);
    push_locations_in(types, local.kind, id, AbsPlace::of_local(number), all)
}

/// Adds those of an object or a register of this type at a place.
pub fn push_locations_in(
    types: &TypeTable,
    kind: LocalKind,
    id: TyId,
    at: AbsPlace,
    all: &mut Vec<AbsPlace>,
) -> Result<(), NoMemory>
    ensures { OnOk result (all.new.items ≡ all.old.items ++ locations_in types.now kind id at) }
{
    if is_variable(kind, ty_at(types, id)) {
        all.push(at)?;
        Ok(())
    } else {
        push_pointers(types, id, at, all)
    }
}

// Adds the pointers and `unique_ptr`s of an object of this type at a place.
#[tactic(auto, using(crate::proofs::CandidateLemmas::below_at, crate::proofs::CandidateLemmas::below_more, crate::proofs::CandidateLemmas::pointers_struct))]
fn push_pointers(
    types: &TypeTable,
    id: TyId,
    at: AbsPlace,
    all: &mut Vec<AbsPlace>,
) -> Result<(), NoMemory>
    ensures { OnOk result (all.new.items ≡ all.old.items ++ pointers_in at (tree_at types.now id)) }
{
    match ty_at(types, id) {
        Ty::View => all.push(at)?,
        Ty::Unique(_) => all.push(at)?,
        Ty::Raw { .. } => all.push(at)?,
        Ty::Reference { .. } => all.push(at)?,
        Ty::Iterator { .. } => all.push(at)?,
        Ty::Span { .. } => all.push(at)?,
        Ty::Struct(number) => {
            for (m, member) in members_of(types, id, number).iter().enumerate() {
                push_pointers(types, *member, at.member(m), all)?;
            }
        }
        _ => {}
    }
    Ok(())
}
