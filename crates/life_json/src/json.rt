// The report as a value of JSON, and its text.
ghost use Rattle.std.specs.Prelude.{◌≡◌, ◌++◌, codes, string_bytes, IfOk};
ghost use Rattle.serde_json.specs.View.{view};
ghost use Rattle.serde_json.specs.Written.{compact_text};
ghost use Rattle.life_json.specs.JsonReports.{listed_data, listed_json, listed_report_data, listed_verdict};

use life_rules::{ListedDiag, kind_name};
use life_types::NoMemory;
use serde_json::{Value, json};
use std::alloc::{AllocError, Global};

/// The report on a program of so many functions as one line of JSON (RFC 8259): an object without spaces
/// whose keys stand in the order of their bytes. Its members are `diagnostics`, `functions`, the number of
/// functions, and `verdict`, which is `accepted` without diagnostics and else `diagnosed`. `diagnostics` is
/// a list in the order of `found` of objects with the members `cause`, `column`, `kind`, `line` and `name`:
/// the reason, the column, the name of the kind, the line, and the text of the location. What isn't UTF-8 in
/// a reason or a location, which no program has that was read from a file, is written as U+FFFD. The only
/// error is the want of memory.
pub fn json_report(
    alloc: Global,
    functions: usize,
    found: &[ListedDiag],
) -> Result<Vec<u8>, NoMemory>
    ensures { IfOk result (λ text. text.items ≡ listed_json functions found.now) }
{
    let mut text = report_text(alloc, functions, found)?.into_bytes();
    text.push(b'\n')?;
    Ok(text)
}

fn report_text(alloc: Global, functions: usize, found: &[ListedDiag]) -> Result<String, AllocError>
    ensures { IfOk result
        (λ text. string_bytes text ≡ compact_text (listed_report_data functions found.now)) }
{
    report_value(alloc, functions, found)?.to_string(alloc)
}

fn report_value(alloc: Global, functions: usize, found: &[ListedDiag]) -> Result<Value, AllocError>
    ensures { IfOk result (λ value. view value ≡ listed_report_data functions found.now) }
{
    let mut values = Vec::with_capacity(alloc, found.len())?;
    for listed in found {
        values.push(diag_value(alloc, listed)?)?;
    }
    let diagnostics = Value::Array(values);
    let verdict = verdict(found);
    json!(in alloc; {"diagnostics": diagnostics, "functions": functions, "verdict": verdict})
}

fn verdict(found: &[ListedDiag]) -> &'static str
    ensures { result.now ≡ listed_verdict found.now }
{
    match found {
        [] => "accepted",
        [_, ..] => "diagnosed",
    }
}

fn diag_value(alloc: Global, listed: &ListedDiag) -> Result<Value, AllocError>
    ensures { IfOk result (λ value. view value ≡ listed_data listed.now) }
{
    let cause = String::from_utf8_lossy(alloc, &listed.line.why)?;
    let name = String::from_utf8_lossy(alloc, &listed.line.name)?;
    let place = listed.diag.place;
    let kind = kind_name(listed.diag.kind);
    json!(in alloc; {
        "cause": cause,
        "column": place.column,
        "kind": kind,
        "line": place.line,
        "name": name
    })
}
