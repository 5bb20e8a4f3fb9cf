// The report as lines of text.
ghost use Rattle.std.specs.Prelude.{◌≡◌, ◌++◌, IfOk, OnOk};
ghost use Rattle.std.specs.List.{flat_map};
ghost use Rattle.life_report.specs.Reports.{accepted_text, diagnosed_text, listed_report, listed_text};

use life_rules::{ListedDiag, kind_name};
use life_types::NoMemory;
use std::alloc::Global;

/// The report on a program of so many functions as text. Without diagnostics it is the line
/// `accepted, functions: N`, N being the number of functions. Else it is a line `L:C: KIND: NAME: WHY` for
/// each diagnostic, in the order of the list, and then the line `diagnosed: N`, N being their number. L and
/// C are line and column, KIND is the name of the kind, NAME the text of the location and WHY the reason,
/// as the diagnostic's line has them. The only error is the want of memory.
pub fn text_report(
    alloc: Global,
    functions: usize,
    found: &[ListedDiag],
) -> Result<Vec<u8>, NoMemory>
    ensures { IfOk result (λ text. text.items ≡ listed_report functions found.now) }
{
    let mut text = Vec::new(alloc);
    if found.is_empty() {
        push_accepted(alloc, functions, &mut text)?;
    } else {
        push_lines(alloc, found, &mut text)?;
        push_diagnosed(alloc, found.len(), &mut text)?;
    }
    Ok(text)
}

fn push_accepted(alloc: Global, functions: usize, out: &mut Vec<u8>) -> Result<(), NoMemory>
    ensures { OnOk result (out.new.items ≡ out.old.items ++ accepted_text functions) }
{
    let line = format!(in alloc; "accepted, functions: {functions}\n")?;
    out.extend_from_slice(line.as_bytes())?;
    Ok(())
}

fn push_diagnosed(alloc: Global, diagnostics: usize, out: &mut Vec<u8>) -> Result<(), NoMemory>
    ensures { OnOk result (out.new.items ≡ out.old.items ++ diagnosed_text diagnostics) }
{
    let line = format!(in alloc; "diagnosed: {diagnostics}\n")?;
    out.extend_from_slice(line.as_bytes())?;
    Ok(())
}

fn push_lines(alloc: Global, found: &[ListedDiag], out: &mut Vec<u8>) -> Result<(), NoMemory>
    ensures { OnOk result (out.new.items ≡ out.old.items ++ flat_map listed_text found.now) }
{
    for listed in found {
        push_line(alloc, listed, out)?;
    }
    Ok(())
}

fn push_line(alloc: Global, listed: &ListedDiag, out: &mut Vec<u8>) -> Result<(), NoMemory>
    ensures { OnOk result (out.new.items ≡ out.old.items ++ listed_text listed.now) }
{
    let line = listed.diag.place.line;
    let column = listed.diag.place.column;
    let kind = kind_name(listed.diag.kind);
    let head = format!(in alloc; "{line}:{column}: {kind}: ")?;
    out.extend_from_slice(head.as_bytes())?;
    out.extend_from_slice(&listed.line.name)?;
    out.extend_from_slice(b": ")?;
    out.extend_from_slice(&listed.line.why)?;
    out.extend_from_slice(b"\n")?;
    Ok(())
}
