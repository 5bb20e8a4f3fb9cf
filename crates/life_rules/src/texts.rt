// The texts of places, of elements and of reasons.
ghost use Rattle.std.specs.Option.{option_copied};
ghost use Rattle.std.specs.Prelude.{◌≡◌, ◌++◌, map, option_map, IfOk, OnOk, Some};
ghost use Rattle.life_core.specs.Function.{function_of, member_name, member_names};
ghost use Rattle.life_types.specs.Places.{position_text};
ghost use Rattle.life_pset.specs.Inputs.{input_seen};
ghost use Rattle.life_rules.specs.Lines.{kind_text, line_of, line_seen};
ghost use Rattle.life_rules.specs.Texts.{behind_type, called_text, cause_subject, cause_text, diag_name, element_text, function_text, input_number, input_of, input_text, inputs_at, is_result, local_text, member_text, name_if, name_text, named, nameless, naming_of, parameter_at, parameter_text, part_text, place_text, points_text, spelling_of, step_text, steps_text, why_text};

use crate::diag::{Diag, DiagKind, PrintedLine, Why};
use life_contract::{Param, Signature, Signatures, parameter_in, pointed_type, step_type};
use life_core::{CoreFn, FnId, Local, LocalKind, Names};
use life_pset::{
    AbsPlace, Cause, CauseKind, Element, InputPointer, OWNED_STEP, Root, local_type,
    push_local_inputs, ty_at, ty_if,
};
use life_types::{NameId, NoMemory, Place, Ty, TypeTable};
use std::alloc::Global;

/// The name of a kind of diagnostic, as reports print it.
pub fn kind_name(kind: DiagKind) -> &'static str
    ensures { result.now ≡ kind_text kind }
{
    match kind {
        DiagKind::NullUse => "null-use",
        DiagKind::DanglingUse => "dangling-use",
        DiagKind::MovedUse => "moved-use",
        DiagKind::ArgNull => "arg-null",
        DiagKind::ArgDangling => "arg-dangling",
        DiagKind::ArgOverlap => "arg-overlap",
        DiagKind::ReturnDangling => "return-dangling",
        DiagKind::ReturnWidens => "return-widens",
        DiagKind::KeepsBroken => "keeps-broken",
    }
}

/// The text of an abstract place of a function: the name of the variable at its root, then a dot and the
/// name for each member, and a `'` for each step from an owner to what it owns. The local that holds a
/// function's result prints as `result`, the hidden range or iterator of a loop over a range as `range`,
/// any other without a name as `temporary`, and what the caller passed for a parameter P as `in(P)`, for
/// a member `in(P.m)`. A local that the function doesn't have has an empty text. The only error is the
/// want of memory.
pub fn place_text(
    alloc: Global,
    names: &Names,
    f: &CoreFn,
    types: &TypeTable,
    place: &AbsPlace,
) -> Result<Vec<u8>, NoMemory>
    ensures { IfOk result (λ text.
        text.items ≡ place_text (spelling_of names.now) types.now (function_of f.now) place.now) }
{
    let mut text = Vec::new(alloc);
    push_place(alloc, names, f, types, place, &mut text)?;
    Ok(text)
}

/// The text of an element of a points-to set. `sigs` are the signatures of the program's functions. The only
/// error is the want of memory.
pub fn element_text(
    alloc: Global,
    names: &Names,
    f: &CoreFn,
    sigs: &Signatures,
    types: &TypeTable,
    element: &Element,
) -> Result<Vec<u8>, NoMemory>
    ensures { IfOk result (λ text.
        text.items ≡ element_text (naming_of names.now sigs.now) types.now (function_of f.now) element.now) }
{
    let mut text = Vec::new(alloc);
    push_element(alloc, names, f, sigs, types, *element, &mut text)?;
    Ok(text)
}

/// The line that a diagnostic of a function prints: its place and kind, the text of its location, or of
/// that of the called function's parameter, which is the parameter's name with a dot and a name for each
/// member, and the reason: that it may be null, what made the pointer invalid or the owner moved from, and
/// where, with which parameter another one overlaps, or what a result may point to. The only error is the
/// want of memory.
pub fn line_of(
    alloc: Global,
    names: &Names,
    f: &CoreFn,
    sigs: &Signatures,
    types: &TypeTable,
    d: &Diag,
) -> Result<PrintedLine, NoMemory>
    ensures { IfOk result (λ line.
        line_seen line ≡ line_of (naming_of names.now sigs.now) types.now (function_of f.now) d.now) }
{
    let mut name = Vec::new(alloc);
    push_diag_name(alloc, names, f, sigs, types, d.called, &d.name, &mut name)?;
    let mut why = Vec::new(alloc);
    push_why(alloc, names, f, sigs, types, d.why, &mut why)?;
    Ok(PrintedLine {
        line: d.place.line,
        column: d.place.column,
        kind: d.kind,
        name,
        why,
    })
}

// ---- names

// The line and the column, with a colon between.
fn push_position(alloc: Global, place: Place, out: &mut Vec<u8>) -> Result<(), NoMemory>
    ensures { OnOk result (out.new.items ≡ out.old.items ++ position_text place) }
{
    let line = place.line;
    let column = place.column;
    let text = format!(in alloc; "{line}:{column}")?;
    out.extend_from_slice(text.as_bytes())?;
    Ok(())
}

fn push_name(names: &Names, name: NameId, out: &mut Vec<u8>) -> Result<(), NoMemory>
    ensures { OnOk result
        (out.new.items ≡ out.old.items ++ name_text (spelling_of names.now) name) }
{
    if let Some(text) = names.texts.get(name.0 as usize) {
        out.extend_from_slice(text)?;
    }
    Ok(())
}

fn push_name_if(names: &Names, name: Option<NameId>, out: &mut Vec<u8>) -> Result<(), NoMemory>
    ensures { OnOk result
        (out.new.items ≡ out.old.items ++ name_if (spelling_of names.now) name) }
{
    match name {
        None => Ok(()),
        Some(id) => push_name(names, id, out),
    }
}

// ---- locals

/// Whether the local with this number holds the function's result.
pub fn is_result(f: &CoreFn, types: &TypeTable, local: u32) -> bool
    ensures { result ≡ is_result types.now (function_of f.now) local }
{
    local == f.parameters && !matches!(types.get(f.result), None | Some(Ty::Void))
}

fn push_nameless(is_result: bool, kind: LocalKind, out: &mut Vec<u8>) -> Result<(), NoMemory>
    ensures { OnOk result (out.new.items ≡ out.old.items ++ nameless is_result kind) }
{
    let text = match kind {
        LocalKind::Range => "range",
        _ => { if is_result { "result" } else { "temporary" } }
    };
    out.extend_from_slice(text.as_bytes())?;
    Ok(())
}

fn push_named(
    names: &Names,
    is_result: bool,
    kind: LocalKind,
    name: Option<NameId>,
    out: &mut Vec<u8>,
) -> Result<(), NoMemory>
    ensures { OnOk result
        (out.new.items ≡ out.old.items ++ named (spelling_of names.now) is_result kind name) }
{
    match name {
        None => push_nameless(is_result, kind, out),
        Some(name) => push_name(names, name, out),
    }
}

fn push_local(
    names: &Names,
    f: &CoreFn,
    types: &TypeTable,
    local: u32,
    out: &mut Vec<u8>,
) -> Result<(), NoMemory>
    ensures { OnOk result
        (out.new.items
        ≡ out.old.items ++ local_text (spelling_of names.now) types.now (function_of f.now) local) }
{
    match f.locals.get(local as usize) {
        None => Ok(()),
        Some(found) => push_named(
            names,
            is_result(f, types, local),
            found.kind,
            found.name,
            out,
        ),
    }
}

// ---- steps

// The name of a member, by the numbers of the struct and the member.
fn member_name(names: &Names, number: u32, member: usize) -> Option<NameId>
    ensures { result ≡ member_name (map member_names names.now.members.items) number member }
{
    match names.members.get(number as usize) {
        None => None,
        Some(members) => members.get(member).copied(),
    }
}

fn push_member(names: &Names, ty: Ty, member: usize, out: &mut Vec<u8>) -> Result<(), NoMemory>
    ensures { OnOk result
        (out.new.items ≡ out.old.items ++ member_text (spelling_of names.now) ty member) }
{
    match ty {
        Ty::Struct(number) => {
            out.extend_from_slice(b".")?;
            push_name_if(names, member_name(names, number, member), out)?;
        }
        _ => {}
    }
    Ok(())
}

fn push_step(names: &Names, ty: Ty, step: u8, out: &mut Vec<u8>) -> Result<(), NoMemory>
    ensures { OnOk result
        (out.new.items ≡ out.old.items ++ step_text (spelling_of names.now) ty step) }
{
    if step == OWNED_STEP {
        out.extend_from_slice(b"'")?;
        Ok(())
    } else {
        push_member(names, ty, step as usize, out)
    }
}

fn push_steps(
    names: &Names,
    types: &TypeTable,
    ty: Ty,
    steps: &[u8],
    out: &mut Vec<u8>,
) -> Result<(), NoMemory>
    ensures { OnOk result
        (out.new.items ≡ out.old.items ++ steps_text (spelling_of names.now) types.now ty steps.now) }
{
    let mut here = ty;
    for step in steps {
        push_step(names, here, *step, out)?;
        here = step_type(types, here, *step);
    }
    Ok(())
}

// ---- places

#[tactic(auto, using(std::proofs::Common::append_assoc))]
fn push_part(
    names: &Names,
    f: &CoreFn,
    types: &TypeTable,
    local: u32,
    steps: &[u8],
    out: &mut Vec<u8>,
) -> Result<(), NoMemory>
    ensures { OnOk result
        (out.new.items
        ≡ out.old.items ++ part_text (spelling_of names.now) types.now (function_of f.now) local steps.now) }
{
    push_local(names, f, types, local, out)?;
    push_steps(
        names,
        types,
        ty_if(types, local_type(types, f, local)),
        steps,
        out,
    )
}

/// The pointer for which a caller passed what this root stands for.
pub(crate) fn input_of(
    alloc: Global,
    f: &CoreFn,
    types: &TypeTable,
    parameter: u32,
    member: Option<u8>,
) -> Result<Option<InputPointer>, NoMemory>
    ensures { IfOk result (λ input.
        option_map input_seen input ≡ input_of types.now (function_of f.now) parameter member) }
{
    let mut inputs = Vec::new(alloc);
    push_inputs_at(
        alloc,
        types,
        f.parameters,
        parameter,
        f.locals.get(parameter as usize),
        &mut inputs,
    )?;
    Ok(inputs.get(input_number(member)).copied())
}

fn push_inputs_at(
    alloc: Global,
    types: &TypeTable,
    parameters: u32,
    number: u32,
    local: Option<&Local>,
    out: &mut Vec<InputPointer>,
) -> Result<(), NoMemory>
    ensures { OnOk result
        (map input_seen out.new.items ≡ map input_seen out.old.items ++ inputs_at types.now parameters number (option_copied local.entry)) }
{
    match local {
        None => Ok(()),
        Some(local) => push_local_inputs(alloc, types, parameters, number, local, out),
    }
}

fn input_number(member: Option<u8>) -> usize
    ensures { result ≡ input_number member }
{
    match member {
        None => 0,
        Some(number) => number as usize,
    }
}

fn push_input(
    names: &Names,
    f: &CoreFn,
    types: &TypeTable,
    parameter: u32,
    input: Option<InputPointer>,
    out: &mut Vec<u8>,
) -> Result<(), NoMemory>
    ensures { OnOk result
        (out.new.items
        ≡ out.old.items ++ input_text (spelling_of names.now) types.now (function_of f.now) parameter (option_map input_seen input)) }
{
    out.extend_from_slice(b"in(")?;
    match input {
        None => push_local(names, f, types, parameter, out)?,
        Some(input) => push_part(names, f, types, parameter, input.pointer.path(), out)?,
    }
    out.extend_from_slice(b")")?;
    Ok(())
}

fn behind_type(types: &TypeTable, input: Option<InputPointer>) -> Ty
    ensures { result ≡ behind_type types.now (option_map input_seen input) }
{
    match input {
        None => Ty::Void,
        Some(input) => pointed_type(types, ty_if(types, input.ty)),
    }
}

fn push_place(
    alloc: Global,
    names: &Names,
    f: &CoreFn,
    types: &TypeTable,
    place: &AbsPlace,
    out: &mut Vec<u8>,
) -> Result<(), NoMemory>
    ensures { OnOk result
        (out.new.items
        ≡ out.old.items ++ place_text (spelling_of names.now) types.now (function_of f.now) place.now) }
{
    match place.root {
        Root::Local(local) => push_part(names, f, types, local, place.path(), out),
        Root::Input { parameter, member } => {
            let input = input_of(alloc, f, types, parameter, member)?;
            push_behind(names, f, types, parameter, input, place.path(), out)
        }
    }
}

#[tactic(auto, using(std::proofs::Common::append_assoc))]
fn push_behind(
    names: &Names,
    f: &CoreFn,
    types: &TypeTable,
    parameter: u32,
    input: Option<InputPointer>,
    steps: &[u8],
    out: &mut Vec<u8>,
) -> Result<(), NoMemory>
    ensures { OnOk result
        (out.new.items
        ≡ out.old.items ++ (input_text (spelling_of names.now) types.now (function_of f.now) parameter (option_map input_seen input) ++ steps_text (spelling_of names.now) types.now (behind_type types.now (option_map input_seen input)) steps.now)) }
{
    push_input(names, f, types, parameter, input, out)?;
    push_steps(names, types, behind_type(types, input), steps, out)
}

// ---- called functions

fn push_called(names: &Names, sig: Option<&Signature>, out: &mut Vec<u8>) -> Result<(), NoMemory>
    ensures { OnOk result
        (out.new.items ≡ out.old.items ++ called_text (spelling_of names.now) (option_copied sig.entry)) }
{
    match sig {
        None => Ok(()),
        Some(sig) => push_name(names, sig.name, out),
    }
}

fn push_function(
    names: &Names,
    sigs: &Signatures,
    number: u32,
    out: &mut Vec<u8>,
) -> Result<(), NoMemory>
    ensures { OnOk result
        (out.new.items ≡ out.old.items ++ function_text (naming_of names.now sigs.now) number) }
{
    push_called(names, sigs.get(FnId(number)), out)
}

// Adds the text of a location of a parameter.
fn push_parameter(
    names: &Names,
    types: &TypeTable,
    parameter: Option<&Param>,
    steps: &[u8],
    out: &mut Vec<u8>,
) -> Result<(), NoMemory>
    ensures { OnOk result
        (out.new.items
        ≡ out.old.items ++ parameter_text (spelling_of names.now) types.now (option_copied parameter.entry) steps.now) }
{
    match parameter {
        None => Ok(()),
        Some(parameter) => push_parameter_part(names, types, *parameter, steps, out),
    }
}

#[tactic(auto, using(std::proofs::Common::append_assoc))]
fn push_parameter_part(
    names: &Names,
    types: &TypeTable,
    parameter: Param,
    steps: &[u8],
    out: &mut Vec<u8>,
) -> Result<(), NoMemory>
    ensures { OnOk result
        (out.new.items
        ≡ out.old.items ++ parameter_text (spelling_of names.now) types.now (Some parameter) steps.now) }
{
    push_name_if(names, parameter.name, out)?;
    push_steps(names, types, ty_at(types, parameter.ty), steps, out)
}

fn parameter_at(sig: Option<&Signature>, root: Root) -> Option<&Param>
    ensures { option_copied result ≡ parameter_at (option_copied sig.entry) root }
{
    match sig {
        None => None,
        Some(sig) => sig.parameters.get(parameter_in(root) as usize),
    }
}

// Adds what a diagnostic names: a location of the function, or of a parameter of the called one.
fn push_diag_name(
    alloc: Global,
    names: &Names,
    f: &CoreFn,
    sigs: &Signatures,
    types: &TypeTable,
    called: Option<u32>,
    location: &AbsPlace,
    out: &mut Vec<u8>,
) -> Result<(), NoMemory>
    ensures { OnOk result
        (out.new.items
        ≡ out.old.items ++ diag_name (naming_of names.now sigs.now) types.now (function_of f.now) called location.now) }
{
    match called {
        None => push_place(alloc, names, f, types, location, out),
        Some(number) => push_parameter(
            names,
            types,
            parameter_at(sigs.get(FnId(number)), location.root),
            location.path(),
            out,
        ),
    }
}

// ---- causes, elements and reasons

// What became of the pointer or of the variable, or what was done.
#[tactic(auto, using(std::proofs::Common::append_assoc))]
fn push_subject(
    names: &Names,
    f: &CoreFn,
    sigs: &Signatures,
    types: &TypeTable,
    root: u32,
    kind: CauseKind,
    out: &mut Vec<u8>,
) -> Result<(), NoMemory>
    ensures { OnOk result
        (out.new.items
        ≡ out.old.items ++ cause_subject (naming_of names.now sigs.now) types.now (function_of f.now) root kind) }
{
    match kind {
        CauseKind::Uninitialised => {
            push_local(names, f, types, root, out)?;
            out.extend_from_slice(b" uninitialised at ")?;
        }
        CauseKind::Ended => {
            push_local(names, f, types, root, out)?;
            out.extend_from_slice(b" ended at ")?;
        }
        CauseKind::TemporaryEnded => out.extend_from_slice(b"temporary ended at ")?,
        CauseKind::Changed => {
            push_local(names, f, types, root, out)?;
            out.extend_from_slice(b" changed at ")?;
        }
        CauseKind::OwnerChanged => out.extend_from_slice(b"owner changed at ")?,
        CauseKind::Moved => {
            push_local(names, f, types, root, out)?;
            out.extend_from_slice(b" moved at ")?;
        }
        CauseKind::Called => {
            out.extend_from_slice(b"call of ")?;
            push_function(names, sigs, root, out)?;
            out.extend_from_slice(b" at ")?;
        }
    }
    Ok(())
}

#[tactic(auto, using(std::proofs::Common::append_assoc))]
fn push_cause(
    alloc: Global,
    names: &Names,
    f: &CoreFn,
    sigs: &Signatures,
    types: &TypeTable,
    cause: Cause,
    out: &mut Vec<u8>,
) -> Result<(), NoMemory>
    ensures { OnOk result
        (out.new.items
        ≡ out.old.items ++ cause_text (naming_of names.now sigs.now) types.now (function_of f.now) cause) }
{
    push_subject(names, f, sigs, types, cause.root, cause.kind, out)?;
    push_position(alloc, cause.place, out)
}

#[tactic(auto, using(std::proofs::Common::append_assoc))]
fn push_element(
    alloc: Global,
    names: &Names,
    f: &CoreFn,
    sigs: &Signatures,
    types: &TypeTable,
    element: Element,
    out: &mut Vec<u8>,
) -> Result<(), NoMemory>
    ensures { OnOk result
        (out.new.items
        ≡ out.old.items ++ element_text (naming_of names.now sigs.now) types.now (function_of f.now) element) }
{
    match element {
        Element::Null => out.extend_from_slice(b"null")?,
        Element::Invalid(cause) => {
            out.extend_from_slice(b"invalid(")?;
            push_cause(alloc, names, f, sigs, types, cause, out)?;
            out.extend_from_slice(b")")?;
        }
        Element::Moved(cause) => {
            out.extend_from_slice(b"moved(")?;
            push_cause(alloc, names, f, sigs, types, cause, out)?;
            out.extend_from_slice(b")")?;
        }
        Element::Own => out.extend_from_slice(b"own")?,
        Element::Static => out.extend_from_slice(b"static")?,
        Element::At(place) => push_place(alloc, names, f, types, &place, out)?,
    }
    Ok(())
}

// What a result may be that it shouldn't.
#[tactic(auto, using(std::proofs::Common::append_assoc))]
fn push_points(
    alloc: Global,
    names: &Names,
    f: &CoreFn,
    sigs: &Signatures,
    types: &TypeTable,
    element: Element,
    out: &mut Vec<u8>,
) -> Result<(), NoMemory>
    ensures { OnOk result
        (out.new.items
        ≡ out.old.items ++ points_text (naming_of names.now sigs.now) types.now (function_of f.now) element) }
{
    match element {
        Element::Null => {
            out.extend_from_slice(b"may be null")?;
            Ok(())
        }
        _ => {
            out.extend_from_slice(b"may point to ")?;
            push_element(alloc, names, f, sigs, types, element, out)
        }
    }
}

#[tactic(auto, using(std::proofs::Common::append_assoc))]
fn push_why(
    alloc: Global,
    names: &Names,
    f: &CoreFn,
    sigs: &Signatures,
    types: &TypeTable,
    why: Why,
    out: &mut Vec<u8>,
) -> Result<(), NoMemory>
    ensures { OnOk result
        (out.new.items
        ≡ out.old.items ++ why_text (naming_of names.now sigs.now) types.now (function_of f.now) why) }
{
    match why {
        Why::Null => out.extend_from_slice(b"may be null")?,
        Why::Cause(cause) => push_cause(alloc, names, f, sigs, types, cause, out)?,
        Why::Overlap(name) => {
            out.extend_from_slice(b"overlaps ")?;
            push_name(names, name, out)?;
        }
        Why::Points(element) => push_points(alloc, names, f, sigs, types, element, out)?,
    }
    Ok(())
}
