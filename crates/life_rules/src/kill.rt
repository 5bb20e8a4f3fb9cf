// What an instruction changes by its name, so that pointers under it become invalid, and which elements
// are gone.
ghost use Rattle.std.specs.Prelude.{◌≡◌, if◌then◌else◌, None};
ghost use Rattle.life_types.specs.Trees.{holds_owner};
ghost use Rattle.life_core.specs.Function.{function_of};
ghost use Rattle.life_core.specs.Operands.{operand_of};
ghost use Rattle.life_core.specs.Step.{step_of};
ghost use Rattle.life_pset.specs.Shapes.{operand_type, tree_if};
ghost use Rattle.life_rules.specs.Carrying.{after_kill, is_gone, is_killed, is_killed_by, kills, named_kill, one_kill};

use crate::matching::{is_at_place, located, points_among, points_under};
use life_core::{CoreFn, Instr, Operand};
use life_pset::{AbsPlace, Cause, Element, changed, holds_owner_if, moved, operand_type};
use life_types::{Place, TypeTable};

/// A place that is changed by its name, and the cause that pointers under it get.
#[derive(Clone, Copy, Debug, PartialEq, Eq)]
pub struct Kill {
    pub owner: AbsPlace,
    pub cause: Cause,
}

/// The places that an instruction changes by their names: two at most.
#[derive(Clone, Copy, Debug, PartialEq, Eq)]
pub struct KillPair {
    pub first: Option<Kill>,
    pub second: Option<Kill>,
}

/// What an instruction at a place changes by its name.
pub fn kills(types: &TypeTable, f: &CoreFn, place: Place, instr: &Instr) -> KillPair
    ensures { result ≡ kills types.now (function_of f.now) place (step_of instr.now) }
{
    match instr {
        Instr::Copy { to, .. } => copy_kills(types, f, place, to),
        Instr::Move { to, from } => KillPair {
            first: Some(Kill {
                owner: AbsPlace::of_local(*from),
                cause: moved(place, *from),
            }),
            second: named_kill(place, to),
        },
        Instr::Change { place: operand, .. } => one_kill(named_kill(place, operand)),
        Instr::Make { owner, .. } => one_kill(Some(Kill {
            owner: located(owner),
            cause: changed(place, owner.local),
        })),
        _ => one_kill(None),
    }
}

// A copy changes what it is written to where that holds an owner.
fn copy_kills(types: &TypeTable, f: &CoreFn, place: Place, to: &Operand) -> KillPair
    ensures { result ≡ if holds_owner (tree_if types.now (operand_type types.now (function_of f.now) (operand_of to.now))) then one_kill (named_kill place (operand_of to.now)) else one_kill None }
{
    if holds_owner_if(types, operand_type(types, f, to)) {
        one_kill(named_kill(place, to))
    } else {
        one_kill(None)
    }
}

fn named_kill(place: Place, operand: &Operand) -> Option<Kill>
    ensures { result ≡ named_kill place (operand_of operand.now) }
{
    match operand {
        Operand::Name(location) => Some(Kill {
            owner: located(location),
            cause: changed(place, location.local),
        }),
        Operand::Through { .. } => None,
    }
}

fn one_kill(kill: Option<Kill>) -> KillPair
    ensures { result ≡ one_kill kill }
{
    KillPair {
        first: kill,
        second: None,
    }
}

fn is_killed_by(kill: Option<Kill>, element: &Element) -> bool
    ensures { result ≡ is_killed_by kill element.now }
{
    match kill {
        None => false,
        Some(kill) => points_under(&kill.owner, element),
    }
}

// Whether the element points under what is changed.
fn is_killed(kills: KillPair, element: &Element) -> bool
    ensures { result ≡ is_killed kills element.now }
{
    is_killed_by(kills.first, element) || is_killed_by(kills.second, element)
}

/// What becomes of an element: under what is changed it is invalid.
pub fn after_kill(kill: Option<Kill>, element: Element) -> Element
    ensures { result ≡ after_kill kill element }
{
    match kill {
        None => element,
        Some(kill) => {
            if points_under(&kill.owner, &element) {
                Element::Invalid(kill.cause)
            } else {
                element
            }
        }
    }
}

/// Whether an element doesn't stay: its root ended, or it points under what is changed. What points to no
/// place stays, so it isn't asked what the instruction changes.
#[tactic(auto, using(crate::proofs::Unpointed::stays))]
pub fn is_gone(
    types: &TypeTable,
    f: &CoreFn,
    place: Place,
    instr: &Instr,
    element: &Element,
) -> bool
    ensures { result ≡ is_gone types.now (function_of f.now) place (step_of instr.now) element.now }
{
    if !is_at_place(element) {
        return false;
    }
    is_taken(types, f, place, instr, element)
}

// .. of any element.
fn is_taken(types: &TypeTable, f: &CoreFn, place: Place, instr: &Instr, element: &Element) -> bool
    ensures { result ≡ is_gone types.now (function_of f.now) place (step_of instr.now) element.now }
{
    match instr {
        Instr::End { locals } => points_among(locals, element),
        _ => is_killed(kills(types, f, place, instr), element),
    }
}
