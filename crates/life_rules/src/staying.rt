// What an edge makes of a fact, seen from its location: what stays there, what is made, and what targets
// mark.
ghost use Rattle.std.specs.Option.{option_copied};
ghost use Rattle.std.specs.Prelude.{◌≡◌, ◌++◌, ◌∷◌, [], false, map, option_map, List, OnOk};
ghost use Rattle.life_core.specs.Function.{function_of};
ghost use Rattle.life_core.specs.Node.{spot_seen};
ghost use Rattle.life_pset.specs.declared.element.Element.{Element};
ghost use Rattle.life_contract.specs.Signatures.{Signature};
ghost use Rattle.life_rules.specs.Callees.{callee_in, IsCallee};
ghost use Rattle.life_rules.specs.Staying.{made_at, mark, marks, spot_keeps, spot_moves, spot_reads, spot_removes, spot_targets, spot_writes, staying};

use crate::branch::stops_at;
use crate::kill::is_gone;
use crate::marks::{mark, marks, targets};
use crate::one::push_made_by;
use crate::push::push_unless;
use crate::reads::{is_of_value, is_tested, reads};
use crate::stays::{keeps, moves, push_stays};
use crate::writes::writes;
use life_contract::Callee;
use life_core::{CoreFn, NodeRef, SpotRef};
use life_pset::{AbsPlace, Element, Fact};
use life_types::{NoMemory, TypeTable};
use std::alloc::Global;

/// Whether nothing stays at the location as it was: the point writes it, or tests it for null.
pub fn is_written_at(spot: Option<SpotRef>, location: &AbsPlace) -> bool
    ensures { result ≡ spot_writes (option_map spot_seen spot.entry) location.now }
{
    match spot {
        None => false,
        Some(spot) => match spot.node {
            NodeRef::Action(instr) => writes(instr, location),
            NodeRef::Question(test) => is_tested(test, location),
            NodeRef::Return => false,
            NodeRef::Stop => false,
        },
    }
}

/// Whether nothing comes of facts but each fact itself: where this holds, none of the other questions
/// about the point need be asked.
pub fn keeps_all(spot: Option<SpotRef>) -> bool
    ensures { result ≡ spot_keeps (option_map spot_seen spot.entry) }
{
    match spot {
        None => false,
        Some(spot) => match spot.node {
            NodeRef::Action(instr) => keeps(instr),
            NodeRef::Question(test) => is_of_value(test),
            NodeRef::Return => true,
            NodeRef::Stop => true,
        },
    }
}

/// Whether something may be made of the facts of the location, beside what stays of them.
pub fn is_read_at(spot: Option<SpotRef>, location: &AbsPlace) -> bool
    ensures { result ≡ spot_reads (option_map spot_seen spot.entry) location.now }
{
    match spot {
        None => false,
        Some(spot) => match spot.node {
            NodeRef::Action(instr) => reads(instr, location),
            NodeRef::Question(test) => is_tested(test, location),
            NodeRef::Return => false,
            NodeRef::Stop => false,
        },
    }
}

/// Adds what is made of a fact along a branch, beside what stays of it. Nothing is made where the
/// location isn't read. `callee` is the function that the point calls, if it calls one.
pub fn push_made(
    alloc: Global,
    types: &TypeTable,
    f: &CoreFn,
    branch: Option<bool>,
    spot: Option<SpotRef>,
    callee: Option<&Callee<'_>>,
    fact: &Fact,
    out: &mut Vec<Fact>,
) -> Result<(), NoMemory>
    ensures { (sigs : List Signature) → IsCallee types.now (callee_in sigs (option_map spot_seen spot.entry)) (option_copied callee.entry) → OnOk result
        (out.new.items ≡ out.old.items ++ made_at sigs types.now (function_of f.now) branch (option_map spot_seen spot.entry) fact.now) }
{
    match spot {
        None => Ok(()),
        Some(spot) => match spot.node {
            NodeRef::Action(instr) => push_made_by(
                alloc, types, f, spot.place, instr, callee, *fact, out,
            ),
            NodeRef::Question(test) => push_unless(stops_at(test, branch, *fact), *fact, out),
            NodeRef::Return => Ok(()),
            NodeRef::Stop => Ok(()),
        },
    }
}

/// Adds what an element becomes at each location that isn't written.
pub fn push_staying(
    types: &TypeTable,
    f: &CoreFn,
    spot: Option<SpotRef>,
    element: &Element,
    out: &mut Vec<Element>,
) -> Result<(), NoMemory>
    ensures { OnOk result
        (out.new.items ≡ out.old.items ++ staying types.now (function_of f.now) (option_map spot_seen spot.entry) element.now) }
{
    match spot {
        None => {}
        Some(spot) => match spot.node {
            NodeRef::Action(instr) => push_stays(types, f, spot.place, instr, element, out)?,
            NodeRef::Question(_) => out.push(*element)?,
            NodeRef::Return => out.push(*element)?,
            NodeRef::Stop => out.push(*element)?,
        },
    }
    Ok(())
}

/// Whether an element may stay otherwise than as itself.
#[tactic(auto, using(crate::proofs::OneFact::still))]
pub fn moves_elements(types: &TypeTable, f: &CoreFn, spot: Option<SpotRef>) -> bool
    ensures moves { result ≡ spot_moves types.now (function_of f.now) (option_map spot_seen spot.entry) }
    ensures still { result ≡ false → (e : Element) → staying types.now (function_of f.now) (option_map spot_seen spot.entry) e ≡ e ∷ [] }
{
    spot_moves(types, f, spot)
}

fn spot_moves(types: &TypeTable, f: &CoreFn, spot: Option<SpotRef>) -> bool
    ensures { result ≡ spot_moves types.now (function_of f.now) (option_map spot_seen spot.entry) }
{
    match spot {
        None => true,
        Some(spot) => match spot.node {
            NodeRef::Action(instr) => moves(types, f, spot.place, instr),
            NodeRef::Question(_) => false,
            NodeRef::Return => false,
            NodeRef::Stop => false,
        },
    }
}

/// Whether an element doesn't stay: else it stays as itself, and becomes no other.
#[tactic(auto, using(crate::proofs::OneFact::kept))]
pub fn is_removed(types: &TypeTable, f: &CoreFn, spot: Option<SpotRef>, element: &Element) -> bool
    ensures removes { result ≡ spot_removes types.now (function_of f.now) (option_map spot_seen spot.entry) element.now }
    ensures kept { result ≡ false → staying types.now (function_of f.now) (option_map spot_seen spot.entry) element.now ≡ element.now ∷ [] }
{
    spot_removes(types, f, spot, element)
}

fn spot_removes(types: &TypeTable, f: &CoreFn, spot: Option<SpotRef>, element: &Element) -> bool
    ensures { result ≡ spot_removes types.now (function_of f.now) (option_map spot_seen spot.entry) element.now }
{
    match spot {
        None => true,
        Some(spot) => match spot.node {
            NodeRef::Action(instr) => is_gone(types, f, spot.place, instr, element),
            NodeRef::Question(_) => false,
            NodeRef::Return => false,
            NodeRef::Stop => false,
        },
    }
}

/// Whether the elements of the location are targets: the point changes an owner through a pointer there,
/// or hands it over to a function that may. `callee` is the function that the point calls, if it calls one.
pub fn is_target_at(
    types: &TypeTable,
    f: &CoreFn,
    spot: Option<SpotRef>,
    callee: Option<&Callee<'_>>,
    location: &AbsPlace,
) -> bool
    ensures { (sigs : List Signature) → IsCallee types.now (callee_in sigs (option_map spot_seen spot.entry)) (option_copied callee.entry)
        → result ≡ spot_targets sigs types.now (function_of f.now) (option_map spot_seen spot.entry) location.now }
{
    match spot {
        None => false,
        Some(spot) => match spot.node {
            NodeRef::Action(instr) => targets(types, f, instr, callee, location),
            NodeRef::Question(_) => false,
            NodeRef::Return => false,
            NodeRef::Stop => false,
        },
    }
}

/// Whether a target makes another element invalid, at each location that isn't written.
pub fn is_marked(spot: Option<SpotRef>, target: &Element, victim: &Element) -> bool
    ensures { result ≡ marks (option_map spot_seen spot.entry) target.now victim.now }
{
    match spot {
        None => false,
        Some(spot) => match spot.node {
            NodeRef::Action(instr) => marks(instr, target, victim),
            NodeRef::Question(_) => false,
            NodeRef::Return => false,
            NodeRef::Stop => false,
        },
    }
}

/// What takes the place of an element that a target makes invalid; None where the point has no targets.
pub fn mark_at(spot: Option<SpotRef>) -> Option<Element>
    ensures { result ≡ mark (option_map spot_seen spot.entry) }
{
    match spot {
        None => None,
        Some(spot) => match spot.node {
            NodeRef::Action(instr) => mark(spot.place, instr),
            NodeRef::Question(_) => None,
            NodeRef::Return => None,
            NodeRef::Stop => None,
        },
    }
}
