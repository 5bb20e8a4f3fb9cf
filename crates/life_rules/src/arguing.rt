// What is wrong with the arguments of a call.
ghost use Rattle.std.specs.List.{flat_map};
ghost use Rattle.std.specs.Option.{option_copied};
ghost use Rattle.std.specs.Prelude.{◌≡◌, ◌++◌, map, OnOk};
ghost use Rattle.life_core.specs.Function.{function_of};
ghost use Rattle.life_core.specs.Node.{node_seen};
ghost use Rattle.life_core.specs.Step.{step_of};
ghost use Rattle.life_core.specs.Tree.{Action};
ghost use Rattle.life_pset.specs.Inputs.{input_seen};
ghost use Rattle.life_contract.specs.Breaking.{breaks_at, of_pairs};
ghost use Rattle.life_rules.specs.Arguing.{argument_diags, argument_diags_of_two, known_name, told_break};
ghost use Rattle.life_rules.specs.CallsAt.{broken_in};
ghost use Rattle.life_rules.specs.Given.{broken_by_two_in, moved_by, moved_given, overlapping_given};
ghost use Rattle.life_rules.specs.Pairs.{Adds, IsOfPair};
ghost use Rattle.life_rules.specs.Telling.{told_of};

use crate::context::PointContext;
use crate::diag::{Diag, DiagKind, Why};
use crate::given::{Given, given_for};
use crate::telling::push_told_of;
use life_contract::{Callee, Param, admits_null, input_parameter, is_argument_of};
use life_core::{Argument, Instr};
use life_pset::{AbsPlace, Element, Fact, InputPointer, is_variable_place};
use life_types::{NameId, NoMemory};

/// A call at a point of a function: what is called, with its number, and what is handed over.
#[derive(Drop)]
pub struct CallAt<'a> {
    pub(crate) at: &'a PointContext<'a>,
    pub(crate) callee: &'a Callee<'a>,
    number: u32,
    pub(crate) arguments: &'a [Argument],
}

// Adds that something is wrong with what is given for an input.
fn push_told_of_call(
    call: &CallAt<'_>,
    kind: DiagKind,
    input: InputPointer,
    why: Why,
    out: &mut Vec<Diag>,
) -> Result<(), NoMemory>
    ensures { OnOk result
        (out.new.items
        ≡ out.old.items ++ told_of call.now.at.now.function call.now.at.now.spot.place call.now.number kind (input_seen input).pointer why) }
{
    let at = call.at;
    push_told_of(
        at.function,
        at.spot.place,
        call.number,
        kind,
        input.pointer,
        why,
        out,
    )
}

// ---- one fact

/// Adds what is wrong with the fact, if it is about an argument of the instruction at the point: null
/// where the input doesn't admit it, or invalid.
pub fn push_argument_diags(
    at: &PointContext<'_>,
    instr: &Instr,
    fact: &Fact,
    out: &mut Vec<Diag>,
) -> Result<(), NoMemory>
    requires { node_seen at.now.spot.node ≡ Action (step_of instr.now) }
    ensures { OnOk result
        (out.new.items
        ≡ out.old.items ++ argument_diags at.now.sigs.now at.now.types.now at.now.function at.now.spot.place (step_of instr.now) fact.now) }
{
    match instr {
        Instr::Call {
            function,
            arguments,
            ..
        } => match &at.callee {
            None => Ok(()),
            Some(callee) => {
                let call = CallAt {
                    at,
                    callee,
                    number: function.0,
                    arguments,
                };
                push_broken(&call, fact, callee.inputs(), out)
            }
        },
        _ => Ok(()),
    }
}

fn push_broken(
    call: &CallAt<'_>,
    fact: &Fact,
    inputs: &[InputPointer],
    out: &mut Vec<Diag>,
) -> Result<(), NoMemory>
    ensures { OnOk result
        (out.new.items ≡ out.old.items ++ flat_map (broken_in call.now fact.now) (map input_seen inputs.now)) }
{
    for input in inputs {
        push_broken_at(call, fact, *input, out)?;
    }
    Ok(())
}

fn push_broken_at(
    call: &CallAt<'_>,
    fact: &Fact,
    input: InputPointer,
    out: &mut Vec<Diag>,
) -> Result<(), NoMemory>
    ensures { OnOk result
        (out.new.items ≡ out.old.items ++ broken_in call.now fact.now (input_seen input)) }
{
    if is_argument_of(call.arguments, input, &fact.location) {
        push_breaks(call, input, fact.element, out)?;
    }
    Ok(())
}

fn push_breaks(
    call: &CallAt<'_>,
    input: InputPointer,
    element: Element,
    out: &mut Vec<Diag>,
) -> Result<(), NoMemory>
    ensures { OnOk result
        (out.new.items
        ≡ out.old.items ++ flat_map (told_break call.now.at.now.function call.now.at.now.spot.place call.now.number (input_seen input)) (breaks_at call.now.callee.now.types.now call.now.callee.now.sig.now (input_seen input) element)) }
{
    let callee = call.callee;
    match element {
        Element::Null => {
            if !admits_null(callee.sig, callee.types, input) {
                push_told_of_call(call, DiagKind::ArgNull, input, Why::Null, out)?;
            }
        }
        Element::Invalid(cause) => {
            push_told_of_call(call, DiagKind::ArgDangling, input, Why::Cause(cause), out)?
        }
        _ => {}
    }
    Ok(())
}

// ---- two facts

/// Adds what each two of these facts make wrong with the arguments of the instruction at the point: a
/// whole vector or string to which one points may be moved from, or two of them overlap. Each argument is
/// asked once where it may point.
pub fn push_argument_diags_of_pairs(
    at: &PointContext<'_>,
    instr: &Instr,
    facts: &[Fact],
    out: &mut Vec<Diag>,
) -> Result<(), NoMemory>
    requires { node_seen at.now.spot.node ≡ Action (step_of instr.now) }
    ensures { OnOk result
        (Adds (IsOfPair (argument_diags_of_two at.now.sigs.now at.now.types.now at.now.function (function_of at.now.f.now) at.now.spot.place (step_of instr.now)) facts.now) out.old.items out.new.items) }
{
    match instr {
        Instr::Call {
            function,
            arguments,
            ..
        } => match &at.callee {
            None => Ok(()),
            Some(callee) => {
                let call = CallAt {
                    at,
                    callee,
                    number: function.0,
                    arguments,
                };
                push_broken_by_pairs(&call, facts, out)
            }
        },
        _ => Ok(()),
    }
}

fn push_broken_by_pairs(
    call: &CallAt<'_>,
    facts: &[Fact],
    out: &mut Vec<Diag>,
) -> Result<(), NoMemory>
    ensures { OnOk result (Adds (IsOfPair (broken_by_two_in call.now) facts.now) out.old.items out.new.items) }
{
    let given = given_for(call, facts)?;
    push_moved(call, facts, &given, out)?;
    push_overlapping(call, &given, out)
}

// ---- an owner that is moved from

fn push_moved(
    call: &CallAt<'_>,
    facts: &[Fact],
    given: &[Given],
    out: &mut Vec<Diag>,
) -> Result<(), NoMemory>
    ensures { OnOk result
        (out.new.items ≡ out.old.items ++ flat_map (λ g. flat_map (moved_given call.now g) facts.now) given.now) }
{
    for one in given {
        push_moved_at(call, one, facts, out)?;
    }
    Ok(())
}

fn push_moved_at(
    call: &CallAt<'_>,
    given: &Given,
    owners: &[Fact],
    out: &mut Vec<Diag>,
) -> Result<(), NoMemory>
    ensures { OnOk result
        (out.new.items ≡ out.old.items ++ flat_map (moved_given call.now given.now) owners.now) }
{
    for owner in owners {
        push_moved_by(call, given, &owner.location, owner.element, out)?;
    }
    Ok(())
}

fn push_moved_by(
    call: &CallAt<'_>,
    given: &Given,
    owner: &AbsPlace,
    element: Element,
    out: &mut Vec<Diag>,
) -> Result<(), NoMemory>
    ensures { OnOk result
        (out.new.items ≡ out.old.items ++ moved_by call.now given.now owner.now element) }
{
    match element {
        Element::Moved(cause) => {
            if given.may_be_at(owner) && is_variable_place(call.callee.types, call.at.f, owner) {
                push_told_of_call(
                    call,
                    DiagKind::ArgDangling,
                    given.input,
                    Why::Cause(cause),
                    out,
                )?;
            }
        }
        _ => {}
    }
    Ok(())
}

// ---- arguments that overlap

// Adds what is wrong with each argument and each behind it.
fn push_overlapping(call: &CallAt<'_>, given: &[Given], out: &mut Vec<Diag>) -> Result<(), NoMemory>
    ensures { OnOk result
        (out.new.items ≡ out.old.items ++ of_pairs (overlapping_given call.now) given.now) }
{
    for (number, first) in given.iter().enumerate() {
        push_overlapping_with(call, first, &given[number + 1..], out)?;
    }
    Ok(())
}

fn push_overlapping_with(
    call: &CallAt<'_>,
    first: &Given,
    others: &[Given],
    out: &mut Vec<Diag>,
) -> Result<(), NoMemory>
    ensures { OnOk result
        (out.new.items ≡ out.old.items ++ flat_map (overlapping_given call.now first.now) others.now) }
{
    for second in others {
        push_overlapping_at(call, first, second, out)?;
    }
    Ok(())
}

fn push_overlapping_at(
    call: &CallAt<'_>,
    first: &Given,
    second: &Given,
    out: &mut Vec<Diag>,
) -> Result<(), NoMemory>
    ensures { OnOk result
        (out.new.items ≡ out.old.items ++ overlapping_given call.now first.now second.now) }
{
    let sig = call.callee.sig;
    if (first.is_mutating || second.is_mutating) && first.may_overlap(second) {
        let name = known_name(sig.name, input_parameter(sig, second.input));
        push_told_of_call(
            call,
            DiagKind::ArgOverlap,
            first.input,
            Why::Overlap(name),
            out,
        )?;
    }
    Ok(())
}

fn known_name(other: NameId, parameter: Option<&Param>) -> NameId
    ensures { result ≡ known_name other (option_copied parameter.entry) }
{
    match parameter {
        None => other,
        Some(parameter) => parameter.name.unwrap_or(other),
    }
}
