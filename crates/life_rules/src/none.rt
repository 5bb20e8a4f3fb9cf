// What an instruction makes of no fact.
ghost use Rattle.std.specs.List.{flat_map};
ghost use Rattle.std.specs.Option.{option_copied};
ghost use Rattle.std.specs.Prelude.{◌≡◌, ◌++◌, ◌∷◌, option_map, IfOk, List, OnOk};
ghost use Rattle.life_core.specs.Function.{function_of};
ghost use Rattle.life_core.specs.Node.{spot_seen};
ghost use Rattle.life_core.specs.Operands.{base_of, operand_of, source_of};
ghost use Rattle.life_core.specs.Step.{change_of, step_of};
ghost use Rattle.life_pset.specs.Elements.{local_place, moved};
ghost use Rattle.life_contract.specs.Signatures.{Signature};
ghost use Rattle.life_rules.specs.Callees.{callee_in, callee_of, IsCallee};
ghost use Rattle.life_rules.specs.Carrying.{born, born_facts, born_raw, fact_at, from_none, locations_at, locations_of_local, made_element, named_element, named_in, named_position, named_target, none_at, own_type, whole_facts};

use crate::calling::push_called_none;
use crate::matching::{located, part_of};
use crate::push::{push_at, push_if};
use life_contract::Callee;
use life_core::{
    Base, Change, CoreFn, Form, Instr, Local, Made, NodeRef, Operand, Source, SpotRef,
};
use life_pset::{
    AbsPlace, Element, Fact, is_variable_place, moved, push_local_locations, steps_type, ty_if,
    uninitialised,
};
use life_types::{NoMemory, Place, Ty, TyId, TypeTable};
use std::alloc::Global;

/// Adds what a point makes of no fact. `callee` is the function that the point calls, if it calls one.
pub fn push_none(
    alloc: Global,
    types: &TypeTable,
    f: &CoreFn,
    spot: Option<SpotRef>,
    callee: Option<&Callee<'_>>,
    out: &mut Vec<Fact>,
) -> Result<(), NoMemory>
    ensures { (sigs : List Signature) → IsCallee types.now (callee_in sigs (option_map spot_seen spot.entry)) (option_copied callee.entry) → OnOk result
        (out.new.items ≡ out.old.items ++ none_at sigs types.now (function_of f.now) (option_map spot_seen spot.entry)) }
{
    match spot {
        None => {}
        Some(spot) => match spot.node {
            NodeRef::Action(instr) => push_from_none(
                alloc, types, f, spot.place, instr, callee, out,
            )?,
            NodeRef::Question(_) => {}
            NodeRef::Return => {}
            NodeRef::Stop => {}
        },
    }
    Ok(())
}

// Adds what an instruction at a place makes of no fact: what comes to life has no value yet, null, or
// a buffer (ISO/IEC 14882:2017 [dcl.init] leaves a pointer indeterminate), what is moved from says so,
// a pointer that is aimed by name points there, and the result of a call is what its function promises
// that is no place.
fn push_from_none(
    alloc: Global,
    types: &TypeTable,
    f: &CoreFn,
    place: Place,
    instr: &Instr,
    callee: Option<&Callee<'_>>,
    out: &mut Vec<Fact>,
) -> Result<(), NoMemory>
    ensures { (sigs : List Signature) → IsCallee types.now (callee_of sigs (step_of instr.now)) (option_copied callee.entry) → OnOk result
        (out.new.items ≡ out.old.items ++ from_none sigs types.now (function_of f.now) place (step_of instr.now)) }
{
    match instr {
        Instr::Live { local, form } => {
            push_births(alloc, types, f, place, *local, *form, out)?;
        }
        Instr::Copy { to, .. } => push_whole(types, f, to, out)?,
        Instr::Move { to, from } => push_moved(types, f, place, to, *from, out)?,
        Instr::Aim { pointer, source } => push_at(located(pointer), named_target(source), out)?,
        Instr::Element { pointer, base, .. } => {
            push_at(located(pointer), named_element(base), out)?;
        }
        Instr::Cursor { pointer, base, .. } => {
            push_at(located(pointer), named_element(base), out)?;
        }
        Instr::Change {
            place: operand,
            change,
        } => push_position(operand, change, out)?,
        Instr::Make { owner, made } => out.push(Fact {
            location: located(owner),
            element: made_element(*made),
        })?,
        Instr::Call { target, .. } => push_called_none(alloc, types, callee, target, out)?,
        _ => {}
    }
    Ok(())
}

// ---- births

// Adds what the locations of a local are when it comes to life.
fn push_births(
    alloc: Global,
    types: &TypeTable,
    f: &CoreFn,
    place: Place,
    number: u32,
    form: Form,
    out: &mut Vec<Fact>,
) -> Result<(), NoMemory>
    ensures { OnOk result
        (out.new.items ≡ out.old.items ++ flat_map (born_facts types.now (function_of f.now) place number form) (locations_of_local types.now (function_of f.now) number)) }
{
    let locations = locations_of_local(alloc, types, f, number)?;
    push_all_born(types, f, place, number, form, &locations, out)
}

fn locations_of_local(
    alloc: Global,
    types: &TypeTable,
    f: &CoreFn,
    number: u32,
) -> Result<Vec<AbsPlace>, NoMemory>
    ensures { IfOk result (λ all. all.items ≡ locations_of_local types.now (function_of f.now) number) }
{
    let mut all = Vec::new(alloc);
    push_locations_at(
        types,
        f.parameters,
        number,
        f.locals.get(number as usize),
        &mut all,
    )?;
    Ok(all)
}

fn push_locations_at(
    types: &TypeTable,
    parameters: u32,
    number: u32,
    local: Option<&Local>,
    all: &mut Vec<AbsPlace>,
) -> Result<(), NoMemory>
    ensures { OnOk result (all.new.items ≡ all.old.items ++ locations_at types.now parameters number (option_copied local.entry)) }
{
    match local {
        None => Ok(()),
        Some(local) => push_local_locations(types, parameters, number, local, all),
    }
}

fn push_all_born(
    types: &TypeTable,
    f: &CoreFn,
    place: Place,
    number: u32,
    form: Form,
    locations: &[AbsPlace],
    out: &mut Vec<Fact>,
) -> Result<(), NoMemory>
    ensures { OnOk result
        (out.new.items ≡ out.old.items ++ flat_map (born_facts types.now (function_of f.now) place number form) locations.now) }
{
    for location in locations {
        push_born(types, f, place, number, form, *location, out)?;
    }
    Ok(())
}

fn push_born(
    types: &TypeTable,
    f: &CoreFn,
    place: Place,
    number: u32,
    form: Form,
    location: AbsPlace,
    out: &mut Vec<Fact>,
) -> Result<(), NoMemory>
    ensures { OnOk result
        (out.new.items ≡ out.old.items ++ born_facts types.now (function_of f.now) place number form location) }
{
    let own = own_type(f.locals.get(number as usize));
    let ty = ty_if(types, steps_type(types, own, location.path()));
    push_at(location, born(place, number, form, ty), out)
}

// The type with which a local was declared.
fn own_type(local: Option<&Local>) -> Option<TyId>
    ensures { result ≡ own_type (option_copied local.entry) }
{
    match local {
        None => None,
        Some(local) => Some(local.ty),
    }
}

// What a location of this type is when it comes to life.
fn born(place: Place, number: u32, form: Form, ty: Ty) -> Option<Element>
    ensures { result ≡ born place number form ty }
{
    match ty {
        Ty::View => Some(Element::Static),
        Ty::Span { .. } => Some(Element::Static),
        Ty::Iterator { .. } => Some(Element::Invalid(uninitialised(place, number))),
        Ty::Raw { .. } => Some(born_raw(place, number, form)),
        Ty::Reference { .. } => Some(born_raw(place, number, form)),
        Ty::Unique(_) => Some(Element::Null),
        Ty::Text => Some(Element::Own),
        Ty::Vector(_) => Some(Element::Own),
        _ => None,
    }
}

fn born_raw(place: Place, number: u32, form: Form) -> Element
    ensures { result ≡ born_raw place number form }
{
    match form {
        Form::Plain => Element::Invalid(uninitialised(place, number)),
        Form::Zero => Element::Null,
    }
}

// ---- owners that are written

// Adds that a whole vector or string has a buffer, if it is one that is named.
fn push_whole(
    types: &TypeTable,
    f: &CoreFn,
    operand: &Operand,
    out: &mut Vec<Fact>,
) -> Result<(), NoMemory>
    ensures { OnOk result
        (out.new.items ≡ out.old.items ++ whole_facts types.now (function_of f.now) (operand_of operand.now)) }
{
    match operand {
        Operand::Name(location) => {
            let location = located(location);
            push_if(
                is_variable_place(types, f, &location),
                Fact {
                    location,
                    element: Element::Own,
                },
                out,
            )?;
        }
        Operand::Through { .. } => {}
    }
    Ok(())
}

// Adds that a local is moved from, and that what it is moved to has a buffer.
fn push_moved(
    types: &TypeTable,
    f: &CoreFn,
    place: Place,
    to: &Operand,
    from: u32,
    out: &mut Vec<Fact>,
) -> Result<(), NoMemory>
    ensures { OnOk result
        (out.new.items ≡ out.old.items ++ (fact_at (local_place from) (Element.Moved (moved place from)) ∷ whole_facts types.now (function_of f.now) (operand_of to.now))) }
{
    out.push(Fact {
        location: AbsPlace::of_local(from),
        element: Element::Moved(moved(place, from)),
    })?;
    push_whole(types, f, to, out)
}

// What a `std::unique_ptr` holds that is made to own this.
fn made_element(made: Made) -> Element
    ensures { result ≡ made_element made }
{
    match made {
        Made::Null => Element::Null,
        Made::Zero => Element::Own,
        Made::Of(_) => Element::Own,
    }
}

// ---- targets by name

// What is named, or what the owner there owns.
fn named_in(owned: bool, operand: &Operand) -> Option<Element>
    ensures { result ≡ named_in owned (operand_of operand.now) }
{
    match operand {
        Operand::Name(location) => Some(Element::At(part_of(owned, located(location)))),
        Operand::Through { .. } => None,
    }
}

fn named_target(source: &Source) -> Option<Element>
    ensures { result ≡ named_target (source_of source.now) }
{
    match source {
        Source::Null => Some(Element::Null),
        Source::Text(_) => Some(Element::Static),
        Source::Empty => Some(Element::Static),
        Source::Place(operand) => named_in(false, operand),
        Source::Whole(operand) => named_in(true, operand),
        Source::Get(_) => None,
    }
}

fn named_element(base: &Base) -> Option<Element>
    ensures { result ≡ named_element (base_of base.now) }
{
    match base {
        Base::Owner(operand) => named_in(true, operand),
        Base::Pointer(_) => None,
    }
}

// Adds the position in an owner that is named, for the pointer that is given that of what is erased.
fn push_position(operand: &Operand, change: &Change, out: &mut Vec<Fact>) -> Result<(), NoMemory>
    ensures { OnOk result
        (out.new.items ≡ out.old.items ++ named_position (operand_of operand.now) (change_of change.now)) }
{
    match change {
        Change::Erase { into, .. } => push_at(located(into), named_in(true, operand), out)?,
        _ => {}
    }
    Ok(())
}
