// What becomes of an element, at the locations that an instruction doesn't write.
ghost use Rattle.std.specs.Option.{option_copied};
ghost use Rattle.std.specs.Prelude.{◌≡◌, ◌++◌, ◌∷◌, [], cond, map, OnOk};
ghost use Rattle.life_core.specs.Function.{function_of};
ghost use Rattle.life_core.specs.Step.{step_of};
ghost use Rattle.life_pset.specs.Elements.{end_causes, end_if};
ghost use Rattle.life_pset.specs.declared.element.Element.TheVariants as element;
ghost use Rattle.life_rules.specs.Staying.{after_change, after_changes, after_end, becomes, ended_in, has_kill, moves, stays, step_keeps};

use crate::kill::{Kill, KillPair, is_gone, kills};
use crate::matching::points_under;
use life_core::{CoreFn, Instr, Local, LocalKind};
use life_pset::{Cause, Element, Root, ended};
use life_types::{NoMemory, Place, TypeTable};

/// Adds what stays of an element: itself, unless it is gone, and what it becomes.
#[tactic(auto, using(std::proofs::Common::append_assoc))]
pub fn push_stays(
    types: &TypeTable,
    f: &CoreFn,
    place: Place,
    instr: &Instr,
    element: &Element,
    out: &mut Vec<Element>,
) -> Result<(), NoMemory>
    ensures { OnOk result
        (out.new.items ≡ out.old.items ++ stays types.now (function_of f.now) place (step_of instr.now) element.now) }
{
    push_kept(is_gone(types, f, place, instr, element), *element, out)?;
    push_becomes(types, f, place, instr, element, out)
}

fn push_kept(gone: bool, element: Element, out: &mut Vec<Element>) -> Result<(), NoMemory>
    ensures { OnOk result (out.new.items ≡ out.old.items ++ cond gone [] (element ∷ [])) }
{
    if !gone {
        out.push(element)?;
    }
    Ok(())
}

fn push_becomes(
    types: &TypeTable,
    f: &CoreFn,
    place: Place,
    instr: &Instr,
    element: &Element,
    out: &mut Vec<Element>,
) -> Result<(), NoMemory>
    ensures { OnOk result
        (out.new.items ≡ out.old.items ++ becomes types.now (function_of f.now) place (step_of instr.now) element.now) }
{
    match instr {
        Instr::End { locals } => push_after_end(f, place, locals, element, out),
        _ => push_after_changes(kills(types, f, place, instr), element, out),
    }
}

// ---- ends

// Adds that a pointer to what ended is invalid (ISO/IEC 14882:2017 [basic.stc]).
fn push_after_end(
    f: &CoreFn,
    place: Place,
    locals: &[u32],
    element: &Element,
    out: &mut Vec<Element>,
) -> Result<(), NoMemory>
    ensures { OnOk result
        (out.new.items ≡ out.old.items ++ after_end (function_of f.now) place locals.now element.now) }
{
    match element {
        Element::At(target) => push_ended_in(f, place, locals, target.root, out),
        _ => Ok(()),
    }
}

fn push_ended_in(
    f: &CoreFn,
    place: Place,
    locals: &[u32],
    root: Root,
    out: &mut Vec<Element>,
) -> Result<(), NoMemory>
    ensures { OnOk result
        (out.new.items ≡ out.old.items ++ ended_in (function_of f.now) place locals.now root) }
{
    match root {
        Root::Local(number) => {
            if locals.contains(&number) {
                push_invalid(place, number, f.locals.get(number as usize), out)?;
            }
        }
        Root::Input { .. } => {}
    }
    Ok(())
}

// Adds that the local with this number ended, if that is an object.
fn push_invalid(
    place: Place,
    number: u32,
    local: Option<&Local>,
    out: &mut Vec<Element>,
) -> Result<(), NoMemory>
    ensures { OnOk result
        (out.new.items ≡ out.old.items ++ map element.Invalid (end_causes place number (option_copied local.entry))) }
{
    match local {
        None => {}
        Some(local) => push_invalid_object(local.kind, ended(place, number, local), out)?,
    }
    Ok(())
}

fn push_invalid_object(
    kind: LocalKind,
    cause: Cause,
    out: &mut Vec<Element>,
) -> Result<(), NoMemory>
    ensures { OnOk result (out.new.items ≡ out.old.items ++ map element.Invalid (end_if kind cause)) }
{
    match kind {
        LocalKind::Object => out.push(Element::Invalid(cause))?,
        LocalKind::Register => {}
        LocalKind::Range => {}
    }
    Ok(())
}

// ---- changes by name

// Adds that a pointer under what an instruction changes by its name is invalid.
#[tactic(auto, using(std::proofs::Common::append_assoc))]
fn push_after_changes(
    kills: KillPair,
    element: &Element,
    out: &mut Vec<Element>,
) -> Result<(), NoMemory>
    ensures { OnOk result (out.new.items ≡ out.old.items ++ after_changes kills element.now) }
{
    push_after_change(kills.first, element, out)?;
    push_after_change(kills.second, element, out)
}

fn push_after_change(
    kill: Option<Kill>,
    element: &Element,
    out: &mut Vec<Element>,
) -> Result<(), NoMemory>
    ensures { OnOk result (out.new.items ≡ out.old.items ++ after_change kill element.now) }
{
    match kill {
        None => {}
        Some(kill) => {
            if points_under(&kill.owner, element) {
                out.push(Element::Invalid(kill.cause))?;
            }
        }
    }
    Ok(())
}

// ---- whether anything moves

fn has_kill(kill: Option<Kill>) -> bool
    ensures { result ≡ has_kill kill }
{
    match kill {
        None => false,
        Some(_) => true,
    }
}

/// Whether an element may stay otherwise than as itself: an instruction ends locals, or changes something
/// by its name.
pub fn moves(types: &TypeTable, f: &CoreFn, place: Place, instr: &Instr) -> bool
    ensures { result ≡ moves types.now (function_of f.now) place (step_of instr.now) }
{
    match instr {
        Instr::End { .. } => true,
        _ => has_kill(kills(types, f, place, instr).first),
    }
}

/// Whether the instruction leaves all facts as they are.
pub fn keeps(instr: &Instr) -> bool
    ensures { result ≡ step_keeps (step_of instr.now) }
{
    match instr {
        Instr::Eval { .. } => true,
        Instr::Load { .. } => true,
        Instr::Save { .. } => true,
        Instr::Size { .. } => true,
        Instr::Same { .. } => true,
        Instr::Port(_) => true,
        _ => false,
    }
}
