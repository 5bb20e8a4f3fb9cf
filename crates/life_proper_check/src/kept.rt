// Locals that are given over: nothing else takes what they hold, and nothing points into them.
ghost use Rattle.std.specs.Prelude.{◌≡◌, flat_map, map, nat_eq, option_map, IfOk, Some};
ghost use Rattle.std.specs.List.{list_all, list_any};
ghost use Rattle.life_core.specs.Function.{function_of, program_of};
ghost use Rattle.life_core.specs.Node.{node_seen, spot_seen};
ghost use Rattle.life_core.specs.Operands.{argument_of, base_of, location_of, operand_of, source_of};
ghost use Rattle.life_core.specs.Step.{change_of, step_of};
ghost use Rattle.life_core.specs.Tree.{spots};
ghost use Rattle.life_proper.specs.GivenOver.{all_keep_given, given_argument, given_change, given_made, given_node, given_spot, given_step, is_handed_in, is_kept, is_kept_argument, is_kept_base, is_kept_change, is_kept_place, is_kept_source, keeps_all_given, keeps_given, keeps_target, node_keeps_given, spot_keeps_given};

use crate::forms::is_whole;
use crate::placed::is_object_at;
use crate::scope::Scope;
use life_core::{
    Argument, Base, Change, CoreProgram, Instr, Location, Made, NodeRef, Operand, Source, SpotRef,
    spots,
};
use life_types::NoMemory;
use std::alloc::Global;

// ---- which they are

// Whether the call gives the local over.
fn is_handed(arguments: &[Argument], x: u32) -> bool
    ensures { result ≡ is_handed_in (map argument_of arguments.now) x }
{
    for argument in arguments {
        if is_given_as(argument, x) {
            return true;
        }
    }
    false
}

#[tactic(auto, using(crate::proofs::Given::alone))]
fn is_given_as(argument: &Argument, x: u32) -> bool
    ensures { result ≡ list_any (nat_eq x) (given_argument (argument_of argument.now)) }
{
    match argument {
        Argument::Given(y) => x == *y,
        _ => false,
    }
}

#[tactic(auto, using(crate::proofs::Given::alone))]
fn is_added(change: &Change, x: u32) -> bool
    ensures { result ≡ list_any (nat_eq x) (given_change (change_of change.now)) }
{
    match change {
        Change::PushBack(y) => x == *y,
        _ => false,
    }
}

#[tactic(auto, using(crate::proofs::Given::alone))]
fn is_owned_by(made: Made, x: u32) -> bool
    ensures { result ≡ list_any (nat_eq x) (given_made made) }
{
    match made {
        Made::Of(y) => x == y,
        _ => false,
    }
}

// Whether the instruction consumes the local.
fn is_consumed(instr: &Instr, x: u32) -> bool
    ensures { result ≡ list_any (nat_eq x) (given_step (step_of instr.now)) }
{
    match instr {
        Instr::Change { change, .. } => is_added(change, x),
        Instr::Make { made, .. } => is_owned_by(*made, x),
        Instr::Call { arguments, .. } => is_handed(arguments, x),
        _ => false,
    }
}

fn is_given_at(node: NodeRef, x: u32) -> bool
    ensures { result ≡ list_any (nat_eq x) (given_node (node_seen node.entry)) }
{
    match node {
        NodeRef::Action(instr) => is_consumed(instr, x),
        _ => false,
    }
}

// Whether one of the points does.
fn is_given_over(points: &[SpotRef], x: u32) -> bool
    ensures { result ≡ list_any (nat_eq x) (flat_map given_spot (map spot_seen points.now)) }
{
    for point in points {
        if is_given_at(point.node, x) {
            return true;
        }
    }
    false
}

// ---- what doesn't touch them

fn is_kept(at: &Scope, points: &[SpotRef], x: u32) -> bool
    requires { map spot_seen points.now ≡ spots (function_of at.now.function.now).body }
    ensures { result ≡ is_kept at.now.types.now (function_of at.now.function.now) x }
{
    !(is_object_at(at.function, x) && is_given_over(points, x))
}

fn is_kept_place(at: &Scope, points: &[SpotRef], o: &Operand) -> bool
    requires { map spot_seen points.now ≡ spots (function_of at.now.function.now).body }
    ensures { result ≡ is_kept_place at.now.types.now (function_of at.now.function.now) (operand_of o.now) }
{
    match o {
        Operand::Name(l) => is_kept(at, points, l.local),
        Operand::Through { .. } => true,
    }
}

fn is_kept_source(at: &Scope, points: &[SpotRef], source: &Source) -> bool
    requires { map spot_seen points.now ≡ spots (function_of at.now.function.now).body }
    ensures { result ≡ is_kept_source at.now.types.now (function_of at.now.function.now) (source_of source.now) }
{
    match source {
        Source::Place(o) => is_kept_place(at, points, o),
        Source::Whole(o) => is_kept_place(at, points, o),
        Source::Get(l) => is_kept(at, points, l.local),
        _ => true,
    }
}

fn is_kept_base(at: &Scope, points: &[SpotRef], base: &Base) -> bool
    requires { map spot_seen points.now ≡ spots (function_of at.now.function.now).body }
    ensures { result ≡ is_kept_base at.now.types.now (function_of at.now.function.now) (base_of base.now) }
{
    match base {
        Base::Owner(o) => is_kept_place(at, points, o),
        Base::Pointer(_) => true,
    }
}

fn is_kept_argument(at: &Scope, points: &[SpotRef], argument: &Argument) -> bool
    requires { map spot_seen points.now ≡ spots (function_of at.now.function.now).body }
    ensures { result ≡ is_kept_argument at.now.types.now (function_of at.now.function.now) (argument_of argument.now) }
{
    match argument {
        Argument::Slot(l) => is_kept(at, points, l.local),
        _ => true,
    }
}

fn are_kept_arguments(at: &Scope, points: &[SpotRef], arguments: &[Argument]) -> bool
    requires { map spot_seen points.now ≡ spots (function_of at.now.function.now).body }
    ensures { result ≡ list_all (is_kept_argument at.now.types.now (function_of at.now.function.now)) (map argument_of arguments.now) }
{
    for argument in arguments {
        if !is_kept_argument(at, points, argument) {
            return false;
        }
    }
    true
}

// A call that writes a member gives over no object that the member is of.
#[tactic(auto, using(crate::proofs::Given::target_kept))]
fn is_kept_location(l: &Location, arguments: &[Argument]) -> bool
    ensures { result ≡ keeps_target (Some (location_of l.now)) (map argument_of arguments.now) }
{
    is_whole(l) || !is_handed(arguments, l.local)
}

fn is_kept_target(target: &Option<Location>, arguments: &[Argument]) -> bool
    ensures { result ≡ keeps_target (option_map location_of target.now) (map argument_of arguments.now) }
{
    match target {
        None => true,
        Some(l) => is_kept_location(l, arguments),
    }
}

fn is_kept_change(at: &Scope, points: &[SpotRef], place: &Operand, change: &Change) -> bool
    requires { map spot_seen points.now ≡ spots (function_of at.now.function.now).body }
    ensures { result ≡ is_kept_change at.now.types.now (function_of at.now.function.now) (operand_of place.now) (change_of change.now) }
{
    match change {
        Change::Erase { .. } => is_kept_place(at, points, place),
        _ => true,
    }
}

fn keeps_given(at: &Scope, points: &[SpotRef], instr: &Instr) -> bool
    requires { map spot_seen points.now ≡ spots (function_of at.now.function.now).body }
    ensures { result ≡ keeps_given at.now.types.now (function_of at.now.function.now) (step_of instr.now) }
{
    match instr {
        Instr::Move { from, .. } => is_kept(at, points, *from),
        Instr::Aim { source, .. } => is_kept_source(at, points, source),
        Instr::Element { base, .. } => is_kept_base(at, points, base),
        Instr::Cursor { base, .. } => is_kept_base(at, points, base),
        Instr::Change { place, change } => is_kept_change(at, points, place, change),
        Instr::Call {
            target,
            arguments,
            ..
        } => are_kept_arguments(at, points, arguments) && is_kept_target(target, arguments),
        _ => true,
    }
}

fn is_keeping(at: &Scope, points: &[SpotRef], node: NodeRef) -> bool
    requires { map spot_seen points.now ≡ spots (function_of at.now.function.now).body }
    ensures { result ≡ node_keeps_given at.now.types.now (function_of at.now.function.now) (node_seen node.entry) }
{
    match node {
        NodeRef::Action(instr) => keeps_given(at, points, instr),
        _ => true,
    }
}

// Whether each of the points, which are the function's, leaves alone what is given over.
fn keep_given(at: &Scope, points: &[SpotRef]) -> bool
    requires { map spot_seen points.now ≡ spots (function_of at.now.function.now).body }
    ensures { result ≡ list_all (spot_keeps_given at.now.types.now (function_of at.now.function.now)) (map spot_seen points.now) }
{
    for point in points {
        if !is_keeping(at, points, point.node) {
            return false;
        }
    }
    true
}

fn keeps_all(alloc: Global, at: &Scope) -> Result<bool, NoMemory>
    ensures { IfOk result (λ answer. answer ≡ all_keep_given at.now.types.now (function_of at.now.function.now)) }
{
    let points = spots(alloc, at.function)?;
    Ok(keep_given(at, &points))
}

/// Whether each point of the program leaves alone what its function gives over.
pub(crate) fn keeps_all_given(alloc: Global, p: &CoreProgram) -> Result<bool, NoMemory>
    ensures { IfOk result (λ answer. answer ≡ keeps_all_given (program_of p.now)) }
{
    for f in &p.functions {
        let at = Scope {
            types: &p.types,
            texts: p.texts.len(),
            functions: &p.functions,
            function: f,
        };
        if !keeps_all(alloc, &at)? {
            return Ok(false);
        }
    }
    Ok(true)
}
