// What a target marks: a target of the pointer through which an instruction changes an owner, or of a
// mutating argument, makes what points under it invalid.
ghost use Rattle.std.specs.Option.{option_copied};
ghost use Rattle.std.specs.Prelude.{◌≡◌, map, List, Option};
ghost use Rattle.life_core.specs.Function.{function_of};
ghost use Rattle.life_core.specs.Operands.{argument_of, operand_of};
ghost use Rattle.life_core.specs.Step.{step_of};
ghost use Rattle.life_contract.specs.Signatures.{Signature};
ghost use Rattle.life_rules.specs.Callees.{callee_of, IsCallee};
ghost use Rattle.life_rules.specs.Staying.{mark_through, mutates, points_behind, points_through, step_mark, step_marks, targets};

use crate::matching::points_under;
use crate::reads::goes_through;
use life_contract::Callee;
use life_core::{Argument, CoreFn, Instr, Operand};
use life_pset::{AbsPlace, Element, called, holds_owner_if, operand_type, owner_changed};
use life_types::{Place, TypeTable};

// ---- targets

// Whether the location is a mutating argument of the function that is called, if there is one.
fn mutates(
    types: &TypeTable,
    callee: Option<&Callee<'_>>,
    arguments: &[Argument],
    location: &AbsPlace,
) -> bool
    ensures { (sig : Option Signature) → IsCallee types.now sig (option_copied callee.entry) → result ≡ mutates types.now sig (map argument_of arguments.now) location.now }
{
    match callee {
        None => false,
        Some(callee) => callee.is_mutating_argument(arguments, location),
    }
}

/// Whether the elements of a location are targets. `callee` is the function that the instruction calls, if
/// it calls one.
pub fn targets(
    types: &TypeTable,
    f: &CoreFn,
    instr: &Instr,
    callee: Option<&Callee<'_>>,
    location: &AbsPlace,
) -> bool
    ensures { (sigs : List Signature) → IsCallee types.now (callee_of sigs (step_of instr.now)) (option_copied callee.entry)
        → result ≡ targets sigs types.now (function_of f.now) (step_of instr.now) location.now }
{
    match instr {
        Instr::Copy { to, .. } => {
            holds_owner_if(types, operand_type(types, f, to)) && goes_through(to, location)
        }
        Instr::Move { to, .. } => goes_through(to, location),
        Instr::Change { place: operand, .. } => goes_through(operand, location),
        Instr::Call { arguments, .. } => mutates(types, callee, arguments, location),
        _ => false,
    }
}

// ---- what they mark

// Whether an element points under these members of a target.
fn points_behind(members: &[u32], target: &Element, victim: &Element) -> bool
    ensures { result ≡ points_behind members.now target.now victim.now }
{
    match target {
        Element::At(owner) => points_under(&owner.members(members), victim),
        _ => false,
    }
}

fn points_through(operand: &Operand, target: &Element, victim: &Element) -> bool
    ensures { result ≡ points_through (operand_of operand.now) target.now victim.now }
{
    match operand {
        Operand::Name(_) => false,
        Operand::Through { members, .. } => points_behind(members, target, victim),
    }
}

/// Whether a target makes another element invalid. What a move makes invalid by the name of what it
/// takes is under no target any more.
pub fn marks(instr: &Instr, target: &Element, victim: &Element) -> bool
    ensures { result ≡ step_marks (step_of instr.now) target.now victim.now }
{
    match instr {
        Instr::Copy { to, .. } => points_through(to, target, victim),
        Instr::Move { to, from } => {
            !points_under(&AbsPlace::of_local(*from), victim) && points_through(to, target, victim)
        }
        Instr::Change { place: operand, .. } => points_through(operand, target, victim),
        Instr::Call { .. } => points_behind(&[], target, victim),
        _ => false,
    }
}

// ---- what takes their place

fn mark_through(place: Place, operand: &Operand) -> Option<Element>
    ensures { result ≡ mark_through place (operand_of operand.now) }
{
    match operand {
        Operand::Name(_) => None,
        Operand::Through { .. } => Some(Element::Invalid(owner_changed(place))),
    }
}

/// What takes the place of what targets make invalid; None where an instruction has no targets.
pub fn mark(place: Place, instr: &Instr) -> Option<Element>
    ensures { result ≡ step_mark place (step_of instr.now) }
{
    match instr {
        Instr::Copy { to, .. } => mark_through(place, to),
        Instr::Move { to, .. } => mark_through(place, to),
        Instr::Change { place: operand, .. } => mark_through(place, operand),
        Instr::Call { function, .. } => Some(Element::Invalid(called(place, *function))),
        _ => None,
    }
}
