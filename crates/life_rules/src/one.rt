// What an instruction makes of one fact, beside what stays of it.
ghost use Rattle.std.specs.Option.{option_copied};
ghost use Rattle.std.specs.Prelude.{◌≡◌, ◌++◌, List, OnOk};
ghost use Rattle.life_core.specs.Function.{function_of};
ghost use Rattle.life_core.specs.Operands.{base_of, location_of, operand_of, source_of};
ghost use Rattle.life_core.specs.Step.{change_of, step_of};
ghost use Rattle.life_contract.specs.Signatures.{Signature};
ghost use Rattle.life_rules.specs.Callees.{callee_of, IsCallee};
ghost use Rattle.life_rules.specs.Carrying.{aimed_from, copied_facts, copied_from, copied_location, element_from, moved_facts, position_facts, position_from, reached_from, taken};
ghost use Rattle.life_rules.specs.Staying.{made};

use crate::calling::push_called_one;
use crate::kill::{Kill, after_kill, kills};
use crate::matching::{given_over, gotten, is_location, located, position_in, reached};
use crate::push::{push_at_if, push_if};
use crate::writes::is_whole;
use life_contract::Callee;
use life_core::{Base, Change, CoreFn, Instr, Location, Operand, Source};
use life_pset::{AbsPlace, Fact, is_within, location_type, place_type, rest_of, ty_if};
use life_types::{NoMemory, Place, TypeTable, is_pointer, is_unique};
use std::alloc::Global;

/// Adds what an instruction at a place makes of a fact where its location is read, beside what stays of
/// it. `callee` is the function that the instruction calls, if it calls one.
pub fn push_made_by(
    alloc: Global,
    types: &TypeTable,
    f: &CoreFn,
    place: Place,
    instr: &Instr,
    callee: Option<&Callee<'_>>,
    fact: Fact,
    out: &mut Vec<Fact>,
) -> Result<(), NoMemory>
    ensures { (sigs : List Signature) → IsCallee types.now (callee_of sigs (step_of instr.now)) (option_copied callee.entry) → OnOk result
        (out.new.items ≡ out.old.items ++ made sigs types.now (function_of f.now) place (step_of instr.now) fact) }
{
    match instr {
        Instr::Copy { to, from } => {
            let kill = kills(types, f, place, instr).first;
            push_copied(types, f, kill, to, from, fact, out)
        }
        Instr::Move { to, from } => push_given_over(types, f, to, *from, fact, out),
        Instr::Aim { pointer, source } => push_aimed_from(pointer, source, fact, out),
        Instr::Repoint { pointer, from } => push_taken(pointer, from, fact, out),
        Instr::Advance { pointer, from, .. } => push_taken(pointer, from, fact, out),
        Instr::Cut { pointer, from, .. } => push_taken(pointer, from, fact, out),
        Instr::Element { pointer, base, .. } => push_element_from(pointer, base, fact, out),
        Instr::Cursor { pointer, base, .. } => push_element_from(pointer, base, fact, out),
        Instr::Change {
            place: operand,
            change,
        } => push_position_facts(operand, change, fact, out),
        Instr::Call {
            target,
            arguments,
            ..
        } => push_called_one(alloc, types, callee, arguments, target, fact, out),
        _ => Ok(()),
    }
}

// ---- owners that are changed

// Adds what the pointers of the copy take from the pointer of the other that the fact is about.
fn push_copied(
    types: &TypeTable,
    f: &CoreFn,
    kill: Option<Kill>,
    to: &Operand,
    from: &Operand,
    fact: Fact,
    out: &mut Vec<Fact>,
) -> Result<(), NoMemory>
    ensures { OnOk result
        (out.new.items ≡ out.old.items ++ copied_facts types.now (function_of f.now) kill (operand_of to.now) (operand_of from.now) fact) }
{
    match to {
        Operand::Name(to) => match from {
            Operand::Name(from) => {
                push_copied_from(types, f, kill, located(to), located(from), fact, out)
            }
            Operand::Through { .. } => Ok(()),
        },
        Operand::Through { .. } => Ok(()),
    }
}

fn push_copied_from(
    types: &TypeTable,
    f: &CoreFn,
    kill: Option<Kill>,
    to: AbsPlace,
    from: AbsPlace,
    fact: Fact,
    out: &mut Vec<Fact>,
) -> Result<(), NoMemory>
    ensures { OnOk result
        (out.new.items ≡ out.old.items ++ copied_from types.now (function_of f.now) kill to from fact) }
{
    let is_copied = is_within(&from, &fact.location)
        && is_pointer(ty_if(types, place_type(types, f, &fact.location)));
    push_if(
        is_copied,
        Fact {
            location: copied_location(from, to, &fact.location),
            element: after_kill(kill, fact.element),
        },
        out,
    )
}

// The location in the copy that a location in the other is copied to.
fn copied_location(from: AbsPlace, to: AbsPlace, location: &AbsPlace) -> AbsPlace
    ensures { result ≡ copied_location from to location.now }
{
    to.further(rest_of(location.path(), from.length as usize))
}

// Adds what a `std::unique_ptr` takes from the local that is moved from.
fn push_given_over(
    types: &TypeTable,
    f: &CoreFn,
    to: &Operand,
    from: u32,
    fact: Fact,
    out: &mut Vec<Fact>,
) -> Result<(), NoMemory>
    ensures { OnOk result
        (out.new.items ≡ out.old.items ++ moved_facts types.now (function_of f.now) (operand_of to.now) from fact) }
{
    match to {
        Operand::Name(to) => {
            let is_taken = is_whole(from, &fact.location)
                && is_unique(ty_if(types, location_type(types, f, to)));
            push_at_if(is_taken, located(to), given_over(fact.element), out)
        }
        Operand::Through { .. } => Ok(()),
    }
}

// Adds the position in an owner behind a pointer, for the pointer that is given that of what is erased.
fn push_position_facts(
    operand: &Operand,
    change: &Change,
    fact: Fact,
    out: &mut Vec<Fact>,
) -> Result<(), NoMemory>
    ensures { OnOk result
        (out.new.items ≡ out.old.items ++ position_facts (operand_of operand.now) (change_of change.now) fact) }
{
    match change {
        Change::Erase { into, .. } => push_position_from(into, operand, fact, out),
        _ => Ok(()),
    }
}

fn push_position_from(
    pointer: &Location,
    operand: &Operand,
    fact: Fact,
    out: &mut Vec<Fact>,
) -> Result<(), NoMemory>
    ensures { OnOk result
        (out.new.items ≡ out.old.items ++ position_from (location_of pointer.now) (operand_of operand.now) fact) }
{
    match operand {
        Operand::Name(_) => Ok(()),
        Operand::Through {
            pointer: through,
            members,
        } => push_at_if(
            is_location(through, &fact.location),
            located(pointer),
            position_in(members, fact.element),
            out,
        ),
    }
}

// ---- pointers that take from another one

// Adds the element to a pointer's set, if it is one of the pointer from which that is taken.
fn push_taken(
    pointer: &Location,
    from: &Location,
    fact: Fact,
    out: &mut Vec<Fact>,
) -> Result<(), NoMemory>
    ensures { OnOk result
        (out.new.items ≡ out.old.items ++ taken (location_of pointer.now) (location_of from.now) fact) }
{
    let location = located(pointer);
    push_if(
        is_location(from, &fact.location),
        Fact {
            location,
            element: fact.element,
        },
        out,
    )
}

// Adds what is reached through the pointer of an operand: its targets or a member of them, or what the
// owner there owns.
fn push_reached_from(
    pointer: &Location,
    owned: bool,
    operand: &Operand,
    fact: Fact,
    out: &mut Vec<Fact>,
) -> Result<(), NoMemory>
    ensures { OnOk result
        (out.new.items ≡ out.old.items ++ reached_from (location_of pointer.now) owned (operand_of operand.now) fact) }
{
    match operand {
        Operand::Name(_) => Ok(()),
        Operand::Through {
            pointer: through,
            members,
        } => push_at_if(
            is_location(through, &fact.location),
            located(pointer),
            reached(owned, members, fact.element),
            out,
        ),
    }
}

fn push_aimed_from(
    pointer: &Location,
    source: &Source,
    fact: Fact,
    out: &mut Vec<Fact>,
) -> Result<(), NoMemory>
    ensures { OnOk result
        (out.new.items ≡ out.old.items ++ aimed_from (location_of pointer.now) (source_of source.now) fact) }
{
    match source {
        Source::Place(operand) => push_reached_from(pointer, false, operand, fact, out),
        Source::Whole(operand) => push_reached_from(pointer, true, operand, fact, out),
        Source::Get(owner) => push_at_if(
            is_location(owner, &fact.location),
            located(pointer),
            gotten(located(owner), fact.element),
            out,
        ),
        _ => Ok(()),
    }
}

fn push_element_from(
    pointer: &Location,
    base: &Base,
    fact: Fact,
    out: &mut Vec<Fact>,
) -> Result<(), NoMemory>
    ensures { OnOk result
        (out.new.items ≡ out.old.items ++ element_from (location_of pointer.now) (base_of base.now) fact) }
{
    match base {
        Base::Owner(operand) => push_reached_from(pointer, true, operand, fact, out),
        Base::Pointer(from) => push_taken(pointer, from, fact, out),
    }
}
