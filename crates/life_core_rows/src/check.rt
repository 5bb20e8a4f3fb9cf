// A row as it is asked for, against what is derived.
ghost use Rattle.life_core.specs.Function.{function_of};
ghost use Rattle.life_pset.specs.Elements.{IsWithinLimits};

use crate::asked::{Ask, Asked, PROGRAM, compare, count_of};
use crate::derive::{Found, Given, MOST_POINTS, found_by_bits, found_by_sets};
use crate::joins::joined_line;
use crate::row::AskedRow;
use crate::show::{
    carried_line, diagnostic_line, edge_line, element_line, place_line, point_line, stretch_line,
    stretches,
};
use life_contract::Signatures;
use life_core::{CoreFn, FnId, Point, edges, links, points};
use life_proper::is_proper;
use life_pset::{elements, is_within_limits, locations};
use life_report::text_report;
use life_row_text::{Refusal, index, say};
use life_rules::ListedDiag;
use life_types::NoMemory;
use std::alloc::Global;

/// How much was derived.
#[derive(Clone, Copy)]
pub struct Counts {
    pub points: u32,
    pub facts: usize,
    pub diagnostics: usize,
}

/// Adds to what is said what differs in a row, and tells how much was derived.
pub fn check(alloc: Global, row: &AskedRow, said: &mut Vec<u8>) -> Result<Counts, Refusal> {
    let sigs = Signatures::of(alloc, &row.written.program)?;
    let mut counts = Counts {
        points: 0,
        facts: 0,
        diagnostics: 0,
    };
    let mut all = Vec::new(alloc);
    for (count, (f, named)) in row
        .written
        .program
        .functions
        .iter()
        .zip(&row.written.named)
        .enumerate()
    {
        let number = index(count)?;
        let given = Given {
            alloc,
            f,
            id: FnId(number),
            sigs: &sigs,
            types: &row.written.program.types,
            names: &row.written.program.names,
        };
        let more = check_function(given, named, &row.asked, said, &mut all)?;
        counts.points = counts.points.saturating_add(more.points);
        counts.facts = counts.facts.saturating_add(more.facts);
    }
    counts.diagnostics = all.len();
    compare_program(alloc, row, &all, said)?;
    Ok(counts)
}

// ---- the whole program

fn compare_program(
    alloc: Global,
    row: &AskedRow,
    all: &[ListedDiag],
    said: &mut Vec<u8>,
) -> Result<(), Refusal> {
    if count_of(&row.asked, PROGRAM, Ask::Report) > 0 {
        let text = text_report(alloc, row.written.program.functions.len(), all)?;
        let lines = lines_of(alloc, &text)?;
        compare(&row.asked, PROGRAM, Ask::Report, &lines, said)?;
    }
    if count_of(&row.asked, PROGRAM, Ask::Proper) > 0 {
        let proper = is_proper(alloc, &row.written.program)?;
        compare_answer(alloc, row, Ask::Proper, proper, said)?;
    }
    compare_joined(alloc, &row.asked, said)
}

fn compare_joined(alloc: Global, asked: &[Asked], said: &mut Vec<u8>) -> Result<(), Refusal> {
    let mut lines = Vec::new(alloc);
    for one in asked {
        if one.ask == Ask::Join {
            lines.push(joined_line(alloc, &one.text)?)?;
        }
    }
    compare(asked, PROGRAM, Ask::Join, &lines, said)
}

fn compare_answer(
    alloc: Global,
    row: &AskedRow,
    ask: Ask,
    answer: bool,
    said: &mut Vec<u8>,
) -> Result<(), Refusal> {
    let mut lines = Vec::new(alloc);
    let text = if answer { "yes" } else { "no" };
    let line = text.as_bytes().to_vec(alloc)?;
    lines.push(line)?;
    compare(&row.asked, PROGRAM, ask, &lines, said)
}

// The lines of a text, without their ends.
fn lines_of(alloc: Global, text: &[u8]) -> Result<Vec<Vec<u8>>, NoMemory> {
    let mut lines = Vec::new(alloc);
    let mut line = Vec::new(alloc);
    for byte in text {
        if *byte == b'\n' {
            let whole = std::mem::replace(&mut line, Vec::new(alloc));
            lines.push(whole)?;
        } else {
            line.push(*byte)?;
        }
    }
    Ok(lines)
}

// ---- one function

fn check_function(
    given: Given,
    named: &CoreFn,
    asked: &[Asked],
    said: &mut Vec<u8>,
    all: &mut Vec<ListedDiag>,
) -> Result<Counts, Refusal> {
    if !is_within_limits(given.alloc, given.f, given.types)? {
        return Err(Refusal::PastLimit);
    }
    let mut found = found_by_sets(given)?;
    let again = found_by_bits(given)?;
    if found != again {
        say(said, "  rows of bits have something else", b"")?;
    }
    if !found.gains {
        say(said, "  an edge said wrongly what was gained", b"")?;
    }
    compare_facts(given, named, &found, asked, said)?;
    compare_diagnostics(given, named, &found, asked, said)?;
    compare_carried(given, named, &found, asked, said)?;
    compare_edges(given, asked, said)?;
    compare_points(given, asked, said)?;
    compare_table(given, asked, said)?;
    let diagnostics = found.diagnostics.len();
    all.append(&mut found.diagnostics)?;
    Ok(Counts {
        points: points(given.f),
        facts: found.facts.len(),
        diagnostics,
    })
}

// Whether something of the kind is asked for.
fn asks(given: Given, asked: &[Asked], ask: Ask) -> bool {
    count_of(asked, given.id.0, ask) > 0
}

fn compare_facts(
    given: Given,
    named: &CoreFn,
    found: &Found,
    asked: &[Asked],
    said: &mut Vec<u8>,
) -> Result<(), Refusal> {
    if !asks(given, asked, Ask::Fact) && !asks(given, asked, Ask::NoFacts) {
        return Ok(());
    }
    let mut lines = Vec::new(given.alloc);
    let stretches = stretches(given.alloc, &found.facts)?;
    for stretch in &stretches {
        lines.push(stretch_line(given, named, *stretch)?)?;
    }
    compare(asked, given.id.0, Ask::Fact, &lines, said)
}

fn compare_diagnostics(
    given: Given,
    named: &CoreFn,
    found: &Found,
    asked: &[Asked],
    said: &mut Vec<u8>,
) -> Result<(), Refusal> {
    let mut lines = Vec::new(given.alloc);
    for diagnostic in &found.diagnostics {
        lines.push(diagnostic_line(given, named, &diagnostic.diag)?)?;
    }
    compare(asked, given.id.0, Ask::Wrong, &lines, said)
}

fn compare_carried(
    given: Given,
    named: &CoreFn,
    found: &Found,
    asked: &[Asked],
    said: &mut Vec<u8>,
) -> Result<(), Refusal> {
    if !asks(given, asked, Ask::Carry) {
        return Ok(());
    }
    let mut lines = Vec::new(given.alloc);
    for carried in &found.carried {
        lines.push(carried_line(given, named, *carried)?)?;
    }
    compare(asked, given.id.0, Ask::Carry, &lines, said)
}

fn compare_edges(given: Given, asked: &[Asked], said: &mut Vec<u8>) -> Result<(), Refusal>
    requires { IsWithinLimits given.types.now (function_of given.f.now) }
{
    if !asks(given, asked, Ask::Edge) {
        return Ok(());
    }
    let mut lines = Vec::new(given.alloc);
    let edges = edges(given.alloc, given.f)?;
    for edge in &edges {
        lines.push(edge_line(given.alloc, *edge)?)?;
    }
    compare(asked, given.id.0, Ask::Edge, &lines, said)
}

fn compare_points(given: Given, asked: &[Asked], said: &mut Vec<u8>) -> Result<(), Refusal>
    requires { IsWithinLimits given.types.now (function_of given.f.now) }
{
    if !asks(given, asked, Ask::Point) {
        return Ok(());
    }
    let mut lines = Vec::new(given.alloc);
    let links = links(given.alloc, given.f)?;
    for (link, number) in links.iter().zip(1..=MOST_POINTS) {
        lines.push(point_line(given, Point(number), link)?)?;
    }
    compare(asked, given.id.0, Ask::Point, &lines, said)
}

fn compare_table(given: Given, asked: &[Asked], said: &mut Vec<u8>) -> Result<(), Refusal>
    requires { IsWithinLimits given.types.now (function_of given.f.now) }
{
    if asks(given, asked, Ask::Location) {
        compare_locations(given, asked, said)?;
    }
    if asks(given, asked, Ask::Element) {
        compare_elements(given, asked, said)?;
    }
    Ok(())
}

// The locations, as reports print them.
fn compare_locations(given: Given, asked: &[Asked], said: &mut Vec<u8>) -> Result<(), Refusal>
    requires { IsWithinLimits given.types.now (function_of given.f.now) }
{
    let mut lines = Vec::new(given.alloc);
    let locations = locations(given.alloc, given.f, given.types)?;
    for location in &locations {
        lines.push(place_line(given, given.f, *location)?)?;
    }
    compare(asked, given.id.0, Ask::Location, &lines, said)
}

// The elements, as reports print them.
fn compare_elements(given: Given, asked: &[Asked], said: &mut Vec<u8>) -> Result<(), Refusal>
    requires { IsWithinLimits given.types.now (function_of given.f.now) }
{
    let mut lines = Vec::new(given.alloc);
    let elements = elements(given.alloc, given.f, given.types)?;
    for element in &elements {
        lines.push(element_line(given, given.f, *element)?)?;
    }
    compare(asked, given.id.0, Ask::Element, &lines, said)
}
