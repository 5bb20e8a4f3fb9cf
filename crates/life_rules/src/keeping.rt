// Owners that a parameter of the function keeps as they are: what changes one of them.
ghost use Rattle.std.specs.Option.{option_copied};
ghost use Rattle.std.specs.Prelude.{◌≡◌, ◌++◌, map, option_map, slice_get, OnOk, Some};
ghost use Rattle.life_core.specs.Function.{function_of};
ghost use Rattle.life_core.specs.Node.{node_seen};
ghost use Rattle.life_core.specs.Operands.{argument_of, operand_of};
ghost use Rattle.life_core.specs.Step.{step_of};
ghost use Rattle.life_core.specs.Tree.{Action};
ghost use Rattle.life_pset.specs.Inputs.{input_seen};
ghost use Rattle.life_rules.specs.Keeping.{is_kept, keeping_diags, kept_by_call, kept_input, kept_parameter, kept_root, kept_target, kept_through};

use crate::context::PointContext;
use crate::diag::{Diag, DiagKind, Why};
use crate::matching::is_location;
use crate::telling::push_told;
use crate::texts::input_of;
use life_contract::Callee;
use life_core::{Argument, CoreFn, FnId, Instr, Local, Operand};
use life_pset::{
    Cause, Element, Fact, InputPointer, Root, called, holds_owner_if, operand_type, owner_changed,
};
use life_types::{NoMemory, Place};

/// Adds that an instruction changes an owner that a parameter of the function keeps, if it does so where
/// the fact says that a pointer points.
pub fn push_keeping_diags(
    at: &PointContext<'_>,
    instr: &Instr,
    fact: &Fact,
    out: &mut Vec<Diag>,
) -> Result<(), NoMemory>
    requires { node_seen at.now.spot.node ≡ Action (step_of instr.now) }
    ensures { OnOk result
        (out.new.items
        ≡ out.old.items ++ keeping_diags at.now.sigs.now at.now.types.now at.now.function (function_of at.now.f.now) at.now.spot.place (step_of instr.now) fact.now) }
{
    match instr {
        Instr::Copy { to, .. } => {
            if holds_owner_if(at.types, operand_type(at.types, at.f, to)) {
                push_kept_through(at, fact, to, out)?;
            }
        }
        Instr::Move { to, .. } => {
            push_kept_through(at, fact, to, out)?;
        }
        Instr::Change { place: operand, .. } => {
            push_kept_through(at, fact, operand, out)?;
        }
        Instr::Call {
            function,
            arguments,
            ..
        } => match &at.callee {
            None => {}
            Some(callee) => push_kept_by_call(at, callee, *function, arguments, fact, out)?,
        },
        _ => {}
    }
    Ok(())
}

fn push_kept_through(
    at: &PointContext<'_>,
    fact: &Fact,
    operand: &Operand,
    out: &mut Vec<Diag>,
) -> Result<(), NoMemory>
    ensures { OnOk result
        (out.new.items
        ≡ out.old.items ++ kept_through at.now.types.now at.now.function (function_of at.now.f.now) at.now.spot.place fact.now (operand_of operand.now)) }
{
    match operand {
        Operand::Name(_) => {}
        Operand::Through { pointer, .. } => {
            if is_location(pointer, &fact.location) {
                let cause = owner_changed(at.spot.place);
                push_kept_target(at, cause, fact.element, out)?;
            }
        }
    }
    Ok(())
}

fn push_kept_by_call(
    at: &PointContext<'_>,
    callee: &Callee<'_>,
    function: FnId,
    arguments: &[Argument],
    fact: &Fact,
    out: &mut Vec<Diag>,
) -> Result<(), NoMemory>
    requires { callee.now.types.now ≡ at.now.types.now }
    ensures { OnOk result
        (out.new.items
        ≡ out.old.items ++ kept_by_call at.now.types.now at.now.function (function_of at.now.f.now) at.now.spot.place function.0 (Some callee.now.sig.now) (map argument_of arguments.now) fact.now) }
{
    if callee.is_mutating_argument(arguments, &fact.location) {
        let cause = called(at.spot.place, function);
        push_kept_target(at, cause, fact.element, out)?;
    }
    Ok(())
}

// Adds that what the element says changes, if a parameter keeps it.
fn push_kept_target(
    at: &PointContext<'_>,
    cause: Cause,
    element: Element,
    out: &mut Vec<Diag>,
) -> Result<(), NoMemory>
    ensures { OnOk result
        (out.new.items ≡ out.old.items ++ kept_target at.now.types.now at.now.function (function_of at.now.f.now) at.now.spot.place cause element) }
{
    match element {
        Element::At(target) => {
            push_kept_root(at, cause, target.root, out)?;
        }
        _ => {}
    }
    Ok(())
}

fn push_kept_root(
    at: &PointContext<'_>,
    cause: Cause,
    root: Root,
    out: &mut Vec<Diag>,
) -> Result<(), NoMemory>
    ensures { OnOk result
        (out.new.items ≡ out.old.items ++ kept_root at.now.types.now at.now.function (function_of at.now.f.now) at.now.spot.place cause root) }
{
    match root {
        Root::Local(_) => {}
        Root::Input { parameter, member } => {
            push_kept_parameter(at, cause, parameter, member, out)?;
        }
    }
    Ok(())
}

fn push_kept_parameter(
    at: &PointContext<'_>,
    cause: Cause,
    parameter: u32,
    member: Option<u8>,
    out: &mut Vec<Diag>,
) -> Result<(), NoMemory>
    ensures { OnOk result
        (out.new.items ≡ out.old.items ++ kept_parameter at.now.types.now at.now.function (function_of at.now.f.now) at.now.spot.place cause parameter member) }
{
    if keeps(at.f, parameter) {
        let input = input_of(at.alloc, at.f, at.types, parameter, member)?;
        push_kept_input(at.function, at.spot.place, cause, input, out)?;
    }
    Ok(())
}

// Whether the parameter bears `keeps`.
fn keeps(f: &CoreFn, parameter: u32) -> bool
    ensures { result ≡ is_kept (slice_get (function_of f.now).locals parameter) }
{
    is_kept(f.locals.get(parameter as usize))
}

fn is_kept(local: Option<&Local>) -> bool
    ensures { result ≡ is_kept (option_copied local.entry) }
{
    match local {
        None => false,
        Some(local) => local.keeps,
    }
}

fn push_kept_input(
    function: u32,
    place: Place,
    cause: Cause,
    input: Option<InputPointer>,
    out: &mut Vec<Diag>,
) -> Result<(), NoMemory>
    ensures { OnOk result
        (out.new.items ≡ out.old.items ++ kept_input function place cause (option_map input_seen input)) }
{
    match input {
        None => {}
        Some(input) => push_told(
            function,
            place,
            DiagKind::KeepsBroken,
            input.pointer,
            Why::Cause(cause),
            out,
        )?,
    }
    Ok(())
}
