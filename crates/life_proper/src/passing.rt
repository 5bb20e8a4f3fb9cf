// One instruction: whether it is ready, and what is known behind it.
ghost use Rattle.std.specs.Prelude.{◌≡◌, ◌&&◌, [], ◌∷◌, flat_map, map, option_map};
ghost use Rattle.life_core.specs.Function.{function_of};
ghost use Rattle.life_core.specs.Operands.{argument_of, location_of};
ghost use Rattle.life_core.specs.Step.{change_of, port_of, step_of};
ghost use Rattle.life_core.specs.Touched.{argument_leaves, by_members, change_leaves, change_writes, if_object, made_leaves, port_writes, target_births, target_writes, touched_by, unless_object, written};
ghost use Rattle.life_proper.specs.ReadyKnown.{are_known, are_ready, can_leave, is_known, known_after, set_known};
ghost use Rattle.life_proper.specs.declared.known.Known.TheVariants as variant;

use crate::knowing::{is_known, set};
use crate::known::Known;
use crate::uses::{are_uses_ready, is_object_at, is_ready};
use life_core::{Argument, Change, CoreFn, Instr, Location, Made, Port};

fn both(first: bool, second: bool) -> bool
    ensures { result ≡ (first && second) }
{
    first && second
}

// ---- what goes

#[tactic(auto, using(crate::proofs::Lists::leave_one))]
fn leave(known: &mut Vec<Known>, x: u32) -> bool
    ensures ready { result ≡ can_leave known.old.items (x ∷ []) }
    ensures known { known.new.items ≡ set_known variant.Blank (x ∷ []) known.old.items }
{
    let ready = is_ready(known, x);
    set(known, x, Known::Blank);
    ready
}

// One after the other.
#[tactic(auto, using(crate::proofs::Joining::and_assoc, crate::proofs::Joining::and_true))]
fn end_all(known: &mut Vec<Known>, locals: &[u32]) -> bool
    ensures ready { result ≡ can_leave known.old.items locals.now }
    ensures known { known.new.items ≡ set_known variant.Blank locals.now known.old.items }
{
    let mut ready = true;
    for x in locals {
        ready = both(ready, leave(known, *x));
    }
    ready
}

// What is given over goes, where it lies in memory.
fn give(known: &mut Vec<Known>, x: u32, f: &CoreFn) -> bool
    ensures ready { result ≡ can_leave known.old.items (if_object (function_of f.now) x) }
    ensures known { known.new.items ≡ set_known variant.Blank (if_object (function_of f.now) x) known.old.items }
{
    if is_object_at(f, x) {
        leave(known, x)
    } else {
        true
    }
}

fn give_argument(known: &mut Vec<Known>, argument: &Argument, f: &CoreFn) -> bool
    ensures ready { result ≡ can_leave known.old.items (argument_leaves (function_of f.now) (argument_of argument.now)) }
    ensures known { known.new.items ≡ set_known variant.Blank (argument_leaves (function_of f.now) (argument_of argument.now)) known.old.items }
{
    match argument {
        Argument::Given(x) => give(known, *x, f),
        _ => true,
    }
}

#[tactic(auto, using(crate::proofs::Joining::and_assoc, crate::proofs::Joining::and_true, crate::proofs::Lists::leave_both, crate::proofs::Lists::set_both))]
fn give_all(known: &mut Vec<Known>, arguments: &[Argument], f: &CoreFn) -> bool
    ensures ready { result ≡ can_leave known.old.items (flat_map (argument_leaves (function_of f.now)) (map argument_of arguments.now)) }
    ensures known { known.new.items ≡ set_known variant.Blank (flat_map (argument_leaves (function_of f.now)) (map argument_of arguments.now)) known.old.items }
{
    let mut ready = true;
    for argument in arguments {
        ready = both(ready, give_argument(known, argument, f));
    }
    ready
}

fn give_made(known: &mut Vec<Known>, made: Made, f: &CoreFn) -> bool
    ensures ready { result ≡ can_leave known.old.items (made_leaves (function_of f.now) made) }
    ensures known { known.new.items ≡ set_known variant.Blank (made_leaves (function_of f.now) made) known.old.items }
{
    match made {
        Made::Of(x) => give(known, x, f),
        _ => true,
    }
}

fn give_change(known: &mut Vec<Known>, change: &Change, f: &CoreFn) -> bool
    ensures ready { result ≡ can_leave known.old.items (change_leaves (function_of f.now) (change_of change.now)) }
    ensures known { known.new.items ≡ set_known variant.Blank (change_leaves (function_of f.now) (change_of change.now)) known.old.items }
{
    match change {
        Change::PushBack(x) => give(known, *x, f),
        _ => true,
    }
}

fn take_leave(known: &mut Vec<Known>, instr: &Instr, f: &CoreFn) -> bool
    ensures ready { result ≡ can_leave known.old.items (touched_by (function_of f.now) (step_of instr.now)).leaves }
    ensures known { known.new.items ≡ set_known variant.Blank (touched_by (function_of f.now) (step_of instr.now)).leaves known.old.items }
{
    match instr {
        Instr::End { locals } => end_all(known, locals),
        Instr::Change { change, .. } => give_change(known, change, f),
        Instr::Make { made, .. } => give_made(known, *made, f),
        Instr::Call { arguments, .. } => give_all(known, arguments, f),
        _ => true,
    }
}

// ---- what is born

#[tactic(auto, using(crate::proofs::Lists::known_one))]
fn is_one_blank(known: &[Known], x: u32) -> bool
    ensures { result ≡ are_known variant.Blank known.now (x ∷ []) }
{
    is_known(known, x, Known::Blank)
}

fn is_object_blank(known: &[Known], x: u32, f: &CoreFn) -> bool
    ensures { result ≡ are_known variant.Blank known.now (if_object (function_of f.now) x) }
{
    if is_object_at(f, x) {
        is_one_blank(known, x)
    } else {
        true
    }
}

fn is_whole_blank(known: &[Known], members: &[u32], x: u32, f: &CoreFn) -> bool
    ensures { result ≡ are_known variant.Blank known.now (by_members members.now (if_object (function_of f.now) x) []) }
{
    match members {
        [] => is_object_blank(known, x, f),
        _ => true,
    }
}

fn is_target_blank(known: &[Known], target: &Option<Location>, f: &CoreFn) -> bool
    ensures { result ≡ are_known variant.Blank known.now (target_births (function_of f.now) (option_map location_of target.now)) }
{
    match target {
        None => true,
        Some(l) => is_whole_blank(known, &l.members, l.local, f),
    }
}

fn are_births_blank(known: &[Known], instr: &Instr, f: &CoreFn) -> bool
    ensures { result ≡ are_known variant.Blank known.now (touched_by (function_of f.now) (step_of instr.now)).births }
{
    match instr {
        Instr::Live { local, .. } => is_one_blank(known, *local),
        Instr::Call { target, .. } => is_target_blank(known, target, f),
        _ => true,
    }
}

// ---- what is there behind

fn set_ready(known: &mut Vec<Known>, x: u32)
    ensures { known.new.items ≡ set_known variant.Ready (x ∷ []) known.old.items }
{
    set(known, x, Known::Ready);
}

fn set_whole(known: &mut Vec<Known>, members: &[u32], x: u32)
    ensures { known.new.items ≡ set_known variant.Ready (by_members members.now (x ∷ []) []) known.old.items }
{
    match members {
        [] => set_ready(known, x),
        _ => {}
    }
}

fn set_written(known: &mut Vec<Known>, l: &Location)
    ensures { known.new.items ≡ set_known variant.Ready (written (location_of l.now)) known.old.items }
{
    set_whole(known, &l.members, l.local);
}

fn set_target_born(known: &mut Vec<Known>, target: &Option<Location>, f: &CoreFn)
    ensures { known.new.items ≡ set_known variant.Ready (target_births (function_of f.now) (option_map location_of target.now)) known.old.items }
{
    if let Some(l) = target {
        set_object(known, &l.members, l.local, f);
    }
}

fn set_object(known: &mut Vec<Known>, members: &[u32], x: u32, f: &CoreFn)
    ensures { known.new.items ≡ set_known variant.Ready (by_members members.now (if_object (function_of f.now) x) []) known.old.items }
{
    match members {
        [] => {
            if is_object_at(f, x) {
                set_ready(known, x);
            }
        }
        _ => {}
    }
}

fn set_target_written(known: &mut Vec<Known>, target: &Option<Location>, f: &CoreFn)
    ensures { known.new.items ≡ set_known variant.Ready (target_writes (function_of f.now) (option_map location_of target.now)) known.old.items }
{
    if let Some(l) = target {
        set_register(known, &l.members, l.local, f);
    }
}

fn set_register(known: &mut Vec<Known>, members: &[u32], x: u32, f: &CoreFn)
    ensures { known.new.items ≡ set_known variant.Ready (by_members members.now (unless_object (function_of f.now) x) []) known.old.items }
{
    match members {
        [] => {
            if !is_object_at(f, x) {
                set_ready(known, x);
            }
        }
        _ => {}
    }
}

fn set_changed(known: &mut Vec<Known>, change: &Change)
    ensures { known.new.items ≡ set_known variant.Ready (change_writes (change_of change.now)) known.old.items }
{
    match change {
        Change::Erase { into, .. } => set_written(known, into),
        _ => {}
    }
}

fn set_taken(known: &mut Vec<Known>, port: &Port)
    ensures { known.new.items ≡ set_known variant.Ready (port_writes (port_of port.now)) known.old.items }
{
    match port {
        Port::Take(r) => set_ready(known, *r),
        _ => {}
    }
}

fn set_births(known: &mut Vec<Known>, instr: &Instr, f: &CoreFn)
    ensures { known.new.items ≡ set_known variant.Ready (touched_by (function_of f.now) (step_of instr.now)).births known.old.items }
{
    match instr {
        Instr::Live { local, .. } => set_ready(known, *local),
        Instr::Call { target, .. } => set_target_born(known, target, f),
        _ => {}
    }
}

fn set_writes(known: &mut Vec<Known>, instr: &Instr, f: &CoreFn)
    ensures { known.new.items ≡ set_known variant.Ready (touched_by (function_of f.now) (step_of instr.now)).writes known.old.items }
{
    match instr {
        Instr::Eval { into, .. } => set_ready(known, *into),
        Instr::Load { into, .. } => set_ready(known, *into),
        Instr::Aim { pointer, .. } => set_written(known, pointer),
        Instr::Repoint { pointer, .. } => set_written(known, pointer),
        Instr::Element { pointer, .. } => set_written(known, pointer),
        Instr::Cursor { pointer, .. } => set_written(known, pointer),
        Instr::Advance { pointer, .. } => set_written(known, pointer),
        Instr::Cut { pointer, .. } => set_written(known, pointer),
        Instr::Size { into, .. } => set_ready(known, *into),
        Instr::Same { into, .. } => set_ready(known, *into),
        Instr::Change { change, .. } => set_changed(known, change),
        Instr::Call { target, .. } => set_target_written(known, target, f),
        Instr::Port(port) => set_taken(known, port),
        _ => {}
    }
}

/// Takes the instruction's step, and says whether it is ready.
#[tactic(auto, using(crate::proofs::Lists::set_both))]
pub(crate) fn pass(known: &mut Vec<Known>, instr: &Instr, f: &CoreFn) -> bool
    ensures ready { result ≡ are_ready known.old.items (touched_by (function_of f.now) (step_of instr.now)) }
    ensures known { known.new.items ≡ known_after (touched_by (function_of f.now) (step_of instr.now)) known.old.items }
{
    let used = are_uses_ready(known, instr, f);
    let born = are_births_blank(known, instr, f);
    let gone = take_leave(known, instr, f);
    set_births(known, instr, f);
    set_writes(known, instr, f);
    both(used, both(gone, born))
}
