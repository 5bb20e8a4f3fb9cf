// What a call makes of facts.
ghost use Rattle.std.specs.List.{flat_map};
ghost use Rattle.std.specs.Option.{option_copied};
ghost use Rattle.std.specs.Prelude.{◌≡◌, ◌++◌, map, option_map, OnOk, Option};
ghost use Rattle.life_core.specs.Operands.{argument_of, location_of};
ghost use Rattle.life_pset.specs.Inputs.{input_seen};
ghost use Rattle.life_contract.specs.Signatures.{Signature};
ghost use Rattle.life_rules.specs.Callees.{IsCallee};
ghost use Rattle.life_rules.specs.Calling.{called_none, called_one, fixed_facts, fixed_into, is_in_target, passed_element, passed_fact, passed_facts, passed_for, passed_into, result_at};
ghost use Rattle.life_rules.specs.Matching.{fact_at};

use crate::matching::located;
use life_contract::{
    Callee, Signature, fixed_elements, is_argument_of, promised_behind, result_locations,
    result_type, steps_place,
};
use life_core::{Argument, Location};
use life_pset::{AbsPlace, Element, Fact, InputPointer, is_within};
use life_types::{NoMemory, TypeTable};
use std::alloc::Global;

// ---- the target

/// Whether a location lies in the target of a call.
pub fn is_in_target(target: &Option<Location>, location: &AbsPlace) -> bool
    ensures { result ≡ is_in_target (option_map location_of target.now) location.now }
{
    match target {
        None => false,
        Some(target) => is_within(&located(target), location),
    }
}

// A location of the result, put at the target.
fn result_at(target: AbsPlace, location: &AbsPlace) -> AbsPlace
    ensures { result ≡ result_at target location.now }
{
    target.further(location.path())
}

// ---- from no fact

/// Adds what the function that is called, if there is one, promises of its result that is no place.
pub fn push_called_none(
    alloc: Global,
    types: &TypeTable,
    callee: Option<&Callee<'_>>,
    target: &Option<Location>,
    out: &mut Vec<Fact>,
) -> Result<(), NoMemory>
    ensures { (sig : Option Signature) → IsCallee types.now sig (option_copied callee.entry) → OnOk result
        (out.new.items ≡ out.old.items ++ called_none types.now sig (option_map location_of target.now)) }
{
    match callee {
        None => Ok(()),
        Some(callee) => push_fixed_into(alloc, callee, target, out),
    }
}

fn push_fixed_into(
    alloc: Global,
    callee: &Callee<'_>,
    target: &Option<Location>,
    out: &mut Vec<Fact>,
) -> Result<(), NoMemory>
    ensures { OnOk result
        (out.new.items
        ≡ out.old.items ++ fixed_into callee.now.types.now callee.now.sig.now (option_map location_of target.now)) }
{
    match target {
        None => Ok(()),
        Some(target) => {
            let locations = result_locations(alloc, callee.sig, callee.types)?;
            push_all_fixed(alloc, callee, located(target), &locations, out)
        }
    }
}

fn push_all_fixed(
    alloc: Global,
    callee: &Callee<'_>,
    target: AbsPlace,
    locations: &[AbsPlace],
    out: &mut Vec<Fact>,
) -> Result<(), NoMemory>
    ensures { OnOk result
        (out.new.items
        ≡ out.old.items ++ flat_map (fixed_facts callee.now.types.now callee.now.sig.now target) locations.now) }
{
    for location in locations {
        push_fixed_facts(alloc, callee, target, *location, out)?;
    }
    Ok(())
}

fn push_fixed_facts(
    alloc: Global,
    callee: &Callee<'_>,
    target: AbsPlace,
    location: AbsPlace,
    out: &mut Vec<Fact>,
) -> Result<(), NoMemory>
    ensures { OnOk result
        (out.new.items
        ≡ out.old.items ++ fixed_facts callee.now.types.now callee.now.sig.now target location) }
{
    let ty = result_type(callee.sig, callee.types, &location);
    let elements = fixed_elements(alloc, callee, ty)?;
    push_elements(result_at(target, &location), &elements, out)
}

// Adds these elements of a location.
fn push_elements(
    location: AbsPlace,
    elements: &[Element],
    out: &mut Vec<Fact>,
) -> Result<(), NoMemory>
    ensures { OnOk result (out.new.items ≡ out.old.items ++ map (fact_at location) elements.now) }
{
    for element in elements {
        out.push(Fact {
            location,
            element: *element,
        })?;
    }
    Ok(())
}

// ---- from one fact

/// Adds the places that a result may have by the fact, if that is about an argument: those that are
/// promised behind its input, from where the argument points.
pub fn push_called_one(
    alloc: Global,
    types: &TypeTable,
    callee: Option<&Callee<'_>>,
    arguments: &[Argument],
    target: &Option<Location>,
    fact: Fact,
    out: &mut Vec<Fact>,
) -> Result<(), NoMemory>
    ensures { (sig : Option Signature) → IsCallee types.now sig (option_copied callee.entry) → OnOk result
        (out.new.items
        ≡ out.old.items ++ called_one types.now sig (map argument_of arguments.now) (option_map location_of target.now) fact) }
{
    match callee {
        None => Ok(()),
        Some(callee) => push_passed_into(alloc, callee, arguments, target, fact, out),
    }
}

fn push_passed_into(
    alloc: Global,
    callee: &Callee<'_>,
    arguments: &[Argument],
    target: &Option<Location>,
    fact: Fact,
    out: &mut Vec<Fact>,
) -> Result<(), NoMemory>
    ensures { OnOk result
        (out.new.items
        ≡ out.old.items ++ passed_into callee.now.types.now callee.now.sig.now (map argument_of arguments.now) (option_map location_of target.now) fact) }
{
    match target {
        None => Ok(()),
        Some(target) => push_passed_for_all(
            alloc,
            callee.types,
            callee.sig,
            arguments,
            located(target),
            fact,
            callee.inputs(),
            out,
        ),
    }
}

fn push_passed_for_all(
    alloc: Global,
    types: &TypeTable,
    sig: &Signature,
    arguments: &[Argument],
    target: AbsPlace,
    fact: Fact,
    inputs: &[InputPointer],
    out: &mut Vec<Fact>,
) -> Result<(), NoMemory>
    ensures { OnOk result
        (out.new.items
        ≡ out.old.items ++ flat_map (passed_for types.now sig.now (map argument_of arguments.now) target fact) (map input_seen inputs.now)) }
{
    for input in inputs {
        push_passed_for(alloc, types, sig, arguments, target, fact, *input, out)?;
    }
    Ok(())
}

fn push_passed_for(
    alloc: Global,
    types: &TypeTable,
    sig: &Signature,
    arguments: &[Argument],
    target: AbsPlace,
    fact: Fact,
    input: InputPointer,
    out: &mut Vec<Fact>,
) -> Result<(), NoMemory>
    ensures { OnOk result
        (out.new.items
        ≡ out.old.items ++ passed_for types.now sig.now (map argument_of arguments.now) target fact (input_seen input)) }
{
    if is_argument_of(arguments, input, &fact.location) {
        push_passed_element(alloc, types, sig, target, input, fact.element, out)?;
    }
    Ok(())
}

fn push_passed_element(
    alloc: Global,
    types: &TypeTable,
    sig: &Signature,
    target: AbsPlace,
    input: InputPointer,
    element: Element,
    out: &mut Vec<Fact>,
) -> Result<(), NoMemory>
    ensures { OnOk result
        (out.new.items ≡ out.old.items ++ passed_element types.now sig.now target (input_seen input) element) }
{
    match element {
        Element::At(place) => {
            let locations = result_locations(alloc, sig, types)?;
            push_passed_to_all(alloc, types, sig, input, target, place, &locations, out)
        }
        _ => Ok(()),
    }
}

fn push_passed_to_all(
    alloc: Global,
    types: &TypeTable,
    sig: &Signature,
    input: InputPointer,
    target: AbsPlace,
    place: AbsPlace,
    locations: &[AbsPlace],
    out: &mut Vec<Fact>,
) -> Result<(), NoMemory>
    ensures { OnOk result
        (out.new.items
        ≡ out.old.items ++ flat_map (passed_facts types.now sig.now (input_seen input) target place) locations.now) }
{
    for location in locations {
        push_passed_facts(alloc, types, sig, input, target, place, *location, out)?;
    }
    Ok(())
}

fn push_passed_facts(
    alloc: Global,
    types: &TypeTable,
    sig: &Signature,
    input: InputPointer,
    target: AbsPlace,
    place: AbsPlace,
    location: AbsPlace,
    out: &mut Vec<Fact>,
) -> Result<(), NoMemory>
    ensures { OnOk result
        (out.new.items
        ≡ out.old.items ++ passed_facts types.now sig.now (input_seen input) target place location) }
{
    let ty = result_type(sig, types, &location);
    let promised = promised_behind(alloc, sig, types, ty, input)?;
    push_all_passed(target, place, location, &promised, out)
}

fn push_all_passed(
    target: AbsPlace,
    place: AbsPlace,
    location: AbsPlace,
    promised: &[AbsPlace],
    out: &mut Vec<Fact>,
) -> Result<(), NoMemory>
    ensures { OnOk result
        (out.new.items ≡ out.old.items ++ map (passed_fact target place location) promised.now) }
{
    for behind in promised {
        out.push(passed_fact(target, place, location, behind))?;
    }
    Ok(())
}

fn passed_fact(target: AbsPlace, place: AbsPlace, location: AbsPlace, behind: &AbsPlace) -> Fact
    ensures { result ≡ passed_fact target place location behind.now }
{
    Fact {
        location: result_at(target, &location),
        element: Element::At(steps_place(place, behind.path())),
    }
}
