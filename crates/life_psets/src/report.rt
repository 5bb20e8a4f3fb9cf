// The table of sets as text.
ghost use Rattle.std.specs.List.{flat_map, prefix_len};
ghost use Rattle.std.specs.Prelude.{◌≡◌, ◌++◌, map, IfOk, OnOk};
ghost use Rattle.life_core.specs.Function.{function_of, program_of};
ghost use Rattle.life_pset.specs.Limits.{IsProgramWithinLimits};
ghost use Rattle.life_rules.specs.Texts.{name_text, naming_of, spelling_of};
ghost use Rattle.life_psets.specs.Sets.{set_seen};
ghost use Rattle.life_psets.specs.SetTexts.{behind_text, function_text, is_own, joined, set_text, shown_seen, table_text};

use crate::line::SetLine;
use crate::order::{ElementText, ordered_texts};
use life_contract::Signatures;
use life_core::{CoreFn, CoreProgram, Names};
use life_rules::place_text;
use life_types::{NameId, NoMemory, TypeTable};
use std::alloc::Global;

/// The table of the sets of a program as text: for each function a line `function NAME`, and behind it a
/// line `POINT L:C LOCATION = {E, E}` for each of its sets. The sets of a function stand together, and the
/// functions in their order. POINT is the number of the point, counted from 1, L and C are its line and
/// column, and LOCATION is the location's text. The elements stand by kind, null, invalid, moved, own,
/// static and then places, and by bytes within one kind; two that have one text print twice. The only error
/// is the want of memory.
pub fn sets_report(
    alloc: Global,
    program: &CoreProgram,
    sets: &[SetLine],
) -> Result<Vec<u8>, NoMemory>
    requires { IsProgramWithinLimits (program_of program.now) }
    ensures { IfOk result (λ text. text.items ≡ table_text (program_of program.now) (map set_seen sets.now)) }
{
    let sigs = Signatures::of(alloc, program)?;
    let mut text = Vec::new(alloc);
    let mut left = sets;
    for (index, f) in program.functions.iter().enumerate() {
        let count = leading(left, index as u32);
        let (own, others) = left.split_at(count);
        push_function(
            alloc,
            &program.names,
            f,
            &sigs,
            &program.types,
            own,
            &mut text,
        )?;
        left = others;
    }
    Ok(text)
}

// How many sets at the front are those of the function with this number.
fn leading(sets: &[SetLine], function: u32) -> usize
    ensures { result ≡ prefix_len (is_own function) sets.now }
{
    for (index, set) in sets.iter().enumerate() {
        if !is_own(set, function) {
            return index;
        }
    }
    sets.len()
}

fn is_own(set: &SetLine, function: u32) -> bool
    ensures { result ≡ is_own function set.now }
{
    set.function == function
}

#[tactic(auto, using(std::proofs::Common::append_assoc))]
fn push_function(
    alloc: Global,
    names: &Names,
    f: &CoreFn,
    sigs: &Signatures,
    types: &TypeTable,
    sets: &[SetLine],
    out: &mut Vec<u8>,
) -> Result<(), NoMemory>
    ensures { OnOk result (out.new.items ≡ out.old.items
        ++ function_text (naming_of names.now sigs.now) types.now (function_of f.now) (map set_seen sets.now)) }
{
    out.extend_from_slice(b"function ")?;
    push_name(names, f.name, out)?;
    out.extend_from_slice(b"\n")?;
    push_sets(alloc, names, f, sigs, types, sets, out)
}

fn push_name(names: &Names, name: NameId, out: &mut Vec<u8>) -> Result<(), NoMemory>
    ensures { OnOk result
        (out.new.items ≡ out.old.items ++ name_text (spelling_of names.now) name) }
{
    if let Some(text) = names.texts.get(name.0 as usize) {
        out.extend_from_slice(text)?;
    }
    Ok(())
}

fn push_sets(
    alloc: Global,
    names: &Names,
    f: &CoreFn,
    sigs: &Signatures,
    types: &TypeTable,
    sets: &[SetLine],
    out: &mut Vec<u8>,
) -> Result<(), NoMemory>
    ensures { OnOk result (out.new.items ≡ out.old.items
        ++ flat_map (set_text (naming_of names.now sigs.now) types.now (function_of f.now)) (map set_seen sets.now)) }
{
    for set in sets {
        push_set(alloc, names, f, sigs, types, set, out)?;
    }
    Ok(())
}

#[tactic(auto, using(std::proofs::Common::append_assoc))]
fn push_set(
    alloc: Global,
    names: &Names,
    f: &CoreFn,
    sigs: &Signatures,
    types: &TypeTable,
    set: &SetLine,
    out: &mut Vec<u8>,
) -> Result<(), NoMemory>
    ensures { OnOk result (out.new.items ≡ out.old.items
        ++ set_text (naming_of names.now sigs.now) types.now (function_of f.now) (set_seen set.now)) }
{
    let point = set.point.0;
    let line = set.place.line;
    let column = set.place.column;
    let head = format!(in alloc; "{point} {line}:{column} ")?;
    let location = place_text(alloc, names, f, types, &set.location)?;
    let elements = ordered_texts(alloc, names, f, sigs, types, &set.elements)?;
    out.extend_from_slice(head.as_bytes())?;
    out.extend_from_slice(&location)?;
    out.extend_from_slice(b" = {")?;
    push_joined(&elements, out)?;
    out.extend_from_slice(b"}\n")?;
    Ok(())
}

// The texts with commas between them.
#[tactic(auto, using(std::proofs::Common::append_assoc))]
fn push_joined(texts: &[ElementText], out: &mut Vec<u8>) -> Result<(), NoMemory>
    ensures { OnOk result (out.new.items ≡ out.old.items ++ joined (map shown_seen texts.now)) }
{
    match texts {
        [] => Ok(()),
        [first, others @ ..] => {
            out.extend_from_slice(&first.text)?;
            push_others(others, out)
        }
    }
}

fn push_others(texts: &[ElementText], out: &mut Vec<u8>) -> Result<(), NoMemory>
    ensures { OnOk result
        (out.new.items ≡ out.old.items ++ flat_map behind_text (map shown_seen texts.now)) }
{
    for text in texts {
        push_behind(text, out)?;
    }
    Ok(())
}

fn push_behind(text: &ElementText, out: &mut Vec<u8>) -> Result<(), NoMemory>
    ensures { OnOk result
        (out.new.items ≡ out.old.items ++ behind_text (shown_seen text.now)) }
{
    out.extend_from_slice(b", ")?;
    out.extend_from_slice(&text.text)?;
    Ok(())
}
