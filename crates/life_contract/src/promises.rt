// What a result may be.
ghost use Rattle.std.specs.List.{flat_map};
ghost use Rattle.std.specs.Prelude.{◌≡◌, ◌++◌, [], cond, map, IfOk, OnOk};
ghost use Rattle.life_types.specs.TypeTests.{is_pointer};
ghost use Rattle.life_core.specs.Function.{promise_of};
ghost use Rattle.life_pset.specs.Inputs.{input_seen};
ghost use Rattle.life_contract.specs.Promises.{admits_static, agrees, element_if, fits, fitting, fixed_elements, is_listed, lists_null, lists_static, owner_elements, place_if, pointer_elements, promised_behind, promised_places, promises_null, promises_static, result_locations, result_type};

use crate::callee::Callee;
use crate::inputs::parameter_number;
use crate::positions::{pointed_type, position_type};
use crate::signature::Signature;
use life_core::{LocalKind, Promise};
use life_pset::{
    AbsPlace, Element, InputPointer, push_locations_in, push_places_if, steps_type, target_type,
    ty_if,
};
use life_types::{NoMemory, Ty, TypeTable, is_constant, is_pointer, is_raw};
use std::alloc::Global;

// ---- places

// Whether the promise speaks of the parameter with this number.
fn is_listed(promise: &Promise, parameter: u32) -> bool
    ensures { result ≡ is_listed (promise_of promise.now) parameter }
{
    match promise {
        Promise::Default => true,
        Promise::Listed { inputs, .. } => inputs.contains(&parameter),
    }
}

// Whether a pointer may point where the input does: one without const needs an input without const.
fn agrees(ty: Ty, input: Ty) -> bool
    ensures { result ≡ agrees ty input }
{
    is_constant(ty) || !is_constant(input)
}

fn fits(types: &TypeTable, ty: Ty, input: InputPointer, place: &AbsPlace) -> bool
    ensures { result ≡ fits types.now ty (input_seen input) place.now }
{
    agrees(ty, ty_if(types, input.ty))
        && position_type(types, input, place) == pointed_type(types, ty)
}

fn push_place_if(here: bool, place: AbsPlace, out: &mut Vec<AbsPlace>) -> Result<(), NoMemory>
    ensures { OnOk result (out.new.items ≡ out.old.items ++ place_if here place) }
{
    if here {
        out.push(place)?;
    }
    Ok(())
}

fn push_those_that_fit(
    types: &TypeTable,
    ty: Ty,
    input: InputPointer,
    places: &[AbsPlace],
    out: &mut Vec<AbsPlace>,
) -> Result<(), NoMemory>
    ensures { OnOk result
        (out.new.items ≡ out.old.items ++ flat_map (λ place. place_if (fits types.now ty (input_seen input) place) place) places.now) }
{
    for place in places {
        push_place_if(fits(types, ty, input, place), *place, out)?;
    }
    Ok(())
}

fn push_fitting(
    alloc: Global,
    types: &TypeTable,
    ty: Ty,
    input: InputPointer,
    out: &mut Vec<AbsPlace>,
) -> Result<(), NoMemory>
    ensures { OnOk result (out.new.items ≡ out.old.items ++ fitting types.now ty (input_seen input)) }
{
    let mut places = Vec::new(alloc);
    let target = target_type(types, input.ty);
    push_places_if(types, target, AbsPlace::of_root(input.root), &mut places)?;
    push_those_that_fit(types, ty, input, &places, out)
}

fn push_promised_behind(
    alloc: Global,
    sig: &Signature,
    types: &TypeTable,
    ty: Ty,
    input: InputPointer,
    out: &mut Vec<AbsPlace>,
) -> Result<(), NoMemory>
    ensures { OnOk result
        (out.new.items ≡ out.old.items ++ promised_behind types.now sig.now ty (input_seen input)) }
{
    if is_pointer(ty) && is_listed(&sig.promise, parameter_number(input)) {
        push_fitting(alloc, types, ty, input, out)?;
    }
    Ok(())
}

/// The places behind an input that a pointer of this type in the result may have, by the promise. The
/// only error is the want of memory.
pub fn promised_behind(
    alloc: Global,
    sig: &Signature,
    types: &TypeTable,
    ty: Ty,
    input: InputPointer,
) -> Result<Vec<AbsPlace>, NoMemory>
    ensures { IfOk result (λ all. all.items ≡ promised_behind types.now sig.now ty (input_seen input)) }
{
    let mut all = Vec::new(alloc);
    push_promised_behind(alloc, sig, types, ty, input, &mut all)?;
    Ok(all)
}

fn push_promised_behind_all(
    alloc: Global,
    sig: &Signature,
    types: &TypeTable,
    ty: Ty,
    inputs: &[InputPointer],
    out: &mut Vec<AbsPlace>,
) -> Result<(), NoMemory>
    ensures { OnOk result
        (out.new.items ≡ out.old.items ++ flat_map (promised_behind types.now sig.now ty) (map input_seen inputs.now)) }
{
    for input in inputs {
        push_promised_behind(alloc, sig, types, ty, *input, out)?;
    }
    Ok(())
}

/// .. behind all inputs.
pub fn promised_places(
    alloc: Global,
    callee: &Callee<'_>,
    ty: Ty,
) -> Result<Vec<AbsPlace>, NoMemory>
    ensures { IfOk result (λ all. all.items ≡ promised_places callee.now.types.now callee.now.sig.now ty) }
{
    let mut all = Vec::new(alloc);
    push_promised_behind_all(
        alloc,
        callee.sig,
        callee.types,
        ty,
        callee.inputs(),
        &mut all,
    )?;
    Ok(all)
}

// ---- null and static

fn lists_static(promise: &Promise, none: bool) -> bool
    ensures { result ≡ lists_static (promise_of promise.now) none }
{
    match promise {
        Promise::Default => none,
        Promise::Listed { fixed, .. } => *fixed,
    }
}

// Whether a pointer of this type may be what never ends.
fn promises_static(alloc: Global, callee: &Callee<'_>, ty: Ty) -> Result<bool, NoMemory>
    ensures { IfOk result (λ answer. answer ≡ promises_static callee.now.types.now callee.now.sig.now ty) }
{
    let sig = callee.sig;
    let places = promised_places(alloc, callee, ty)?;
    Ok(lists_static(&sig.promise, places.is_empty()))
}

/// Whether what a function returns for a pointer of this type may be what never ends: it may wherever
/// it may be anything. The only error is the want of memory.
pub fn admits_static(alloc: Global, callee: &Callee<'_>, ty: Ty) -> Result<bool, NoMemory>
    ensures { IfOk result (λ answer. answer ≡ admits_static callee.now.types.now callee.now.sig.now ty) }
{
    let sig = callee.sig;
    let places = promised_places(alloc, callee, ty)?;
    Ok(lists_static(&sig.promise, places.is_empty()) || !places.is_empty())
}

/// Whether the promise lets raw pointers be null.
pub fn lists_null(sig: &Signature) -> bool
    ensures { result ≡ lists_null sig.now.promise }
{
    match &sig.promise {
        Promise::Default => true,
        Promise::Listed { null, .. } => *null,
    }
}

fn promises_null(sig: &Signature, ty: Ty) -> bool
    ensures { result ≡ promises_null sig.now ty }
{
    is_raw(ty) && lists_null(sig)
}

// ---- elements that are no places

fn push_element_if(here: bool, element: Element, out: &mut Vec<Element>) -> Result<(), NoMemory>
    ensures { OnOk result (out.new.items ≡ out.old.items ++ element_if here element) }
{
    if here {
        out.push(element)?;
    }
    Ok(())
}

fn push_owner_elements(ty: Ty, out: &mut Vec<Element>) -> Result<(), NoMemory>
    ensures { OnOk result (out.new.items ≡ out.old.items ++ owner_elements ty) }
{
    match ty {
        Ty::Unique(_) => {
            out.push(Element::Own)?;
            out.push(Element::Null)?;
        }
        Ty::Text => out.push(Element::Own)?,
        Ty::Vector(_) => out.push(Element::Own)?,
        _ => {}
    }
    Ok(())
}

#[tactic(auto, using(std::proofs::Common::append_assoc))]
fn push_pointer_elements(
    alloc: Global,
    callee: &Callee<'_>,
    ty: Ty,
    out: &mut Vec<Element>,
) -> Result<(), NoMemory>
    ensures { OnOk result
        (out.new.items ≡ out.old.items ++ pointer_elements callee.now.types.now callee.now.sig.now ty) }
{
    push_element_if(promises_null(callee.sig, ty), Element::Null, out)?;
    let fixed = promises_static(alloc, callee, ty)?;
    push_element_if(fixed, Element::Static, out)
}

fn push_pointer_elements_if(
    alloc: Global,
    callee: &Callee<'_>,
    ty: Ty,
    out: &mut Vec<Element>,
) -> Result<(), NoMemory>
    ensures { OnOk result
        (out.new.items ≡ out.old.items ++ cond (is_pointer ty) (pointer_elements callee.now.types.now callee.now.sig.now ty) []) }
{
    if is_pointer(ty) {
        push_pointer_elements(alloc, callee, ty, out)?;
    }
    Ok(())
}

/// What a location of this type in the result may hold that is no place: what an owner holds, and of a
/// pointer null and what never ends. The only error is the want of memory.
pub fn fixed_elements(alloc: Global, callee: &Callee<'_>, ty: Ty) -> Result<Vec<Element>, NoMemory>
    ensures { IfOk result (λ all. all.items ≡ fixed_elements callee.now.types.now callee.now.sig.now ty) }
{
    let mut all = Vec::new(alloc);
    push_owner_elements(ty, &mut all)?;
    push_pointer_elements_if(alloc, callee, ty, &mut all)?;
    Ok(all)
}

// ---- locations of the result

/// The locations of the result, as those of the local behind the parameters. The only error is the
/// want of memory.
pub fn result_locations(
    alloc: Global,
    sig: &Signature,
    types: &TypeTable,
) -> Result<Vec<AbsPlace>, NoMemory>
    ensures { IfOk result (λ all. all.items ≡ result_locations types.now sig.now) }
{
    let mut all = Vec::new(alloc);
    let at = AbsPlace::of_local(sig.parameters.len() as u32);
    push_locations_in(types, LocalKind::Object, sig.result, at, &mut all)?;
    Ok(all)
}

/// The type of a location of the result.
pub fn result_type(sig: &Signature, types: &TypeTable, location: &AbsPlace) -> Ty
    ensures { result ≡ result_type types.now sig.now location.now }
{
    ty_if(types, steps_type(types, Some(sig.result), location.path()))
}
