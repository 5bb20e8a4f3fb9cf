// What a signature says of a call, as lines.
use crate::row::CallRow;
use crate::side::Side;
use life_calls::{ArgFact, ArgRows, CallBreak, Found, check_call, post_of, pre_of};
use life_contract::{Signature, Signatures, parameter_in};
use life_core::FnId;
use life_pset::{AbsPlace, Cause, Element};
use life_row_text::{Refusal, index};
use life_types::NoMemory;
use std::alloc::Global;

/// What comes of a row: what holds of each parameter of the first function at its entry, what its result may be, and what
/// is broken where the last one gives it these arguments.
pub fn answers(alloc: Global, row: &CallRow) -> Result<Vec<Vec<u8>>, Refusal> {
    let sigs = Signatures::of(alloc, &row.written.program)?;
    let last = row.written.last_function()?;
    let called = side(alloc, row, &sigs, 0)?;
    let calling = side(alloc, row, &sigs, last)?;
    let sig = sigs.get(FnId(0)).ok_or(Refusal::NotBegun)?;
    let mut lines = Vec::new(alloc);
    push_pre(called, sig, &mut lines)?;
    push_facts(
        called,
        "post ",
        &post_of(alloc, sig, called.types)?,
        &mut lines,
    )?;
    let args = given(called, calling, &row.given)?;
    push_breaks(called, calling, sig, &args, &mut lines)?;
    Ok(lines)
}

// The function with this number.
fn side<'a>(
    alloc: Global,
    row: &'a CallRow,
    sigs: &'a Signatures,
    number: u32,
) -> Result<Side<'a>, Refusal> {
    let written = &row.written;
    let f = written.program.functions.get(number as usize);
    let named = written.named.get(number as usize);
    Ok(Side {
        alloc,
        names: &written.program.names,
        types: &written.program.types,
        sigs,
        f: f.ok_or(Refusal::NotBegun)?,
        named: named.ok_or(Refusal::NotBegun)?,
    })
}

// ---- what is given

// The facts of these lines.
fn given(called: Side, calling: Side, lines: &[String]) -> Result<ArgRows, Refusal> {
    let mut facts = Vec::new(called.alloc);
    for line in lines {
        facts.push(fact_of(called, calling, line)?)?;
    }
    Ok(ArgRows { facts })
}

// `LOCATION: ELEMENT`, and behind a comma with `moved(..)` why it may be moved from.
fn fact_of(called: Side, calling: Side, line: &str) -> Result<ArgFact, Refusal> {
    let (location, element) = line.split_once(": ").ok_or(Refusal::NoForm)?;
    let place = called.location(location)?;
    let (element, moved) = match element.split_once(", ") {
        None => (calling.element(element)?, None),
        Some((element, moved)) => (calling.element(element)?, Some(cause_of(calling, moved)?)),
    };
    Ok(ArgFact {
        parameter: parameter_in(place.root),
        place,
        element,
        moved,
    })
}

fn cause_of(calling: Side, text: &str) -> Result<Cause, Refusal> {
    match calling.element(text)? {
        Element::Moved(cause) => Ok(cause),
        _ => Err(Refusal::NoForm),
    }
}

// ---- lines

fn push_pre(called: Side, sig: &Signature, lines: &mut Vec<Vec<u8>>) -> Result<(), Refusal> {
    for parameter in 0..sig.parameters.len() {
        let facts = pre_of(called.alloc, sig, called.types, index(parameter)?)?;
        push_facts(called, "pre ", &facts, lines)?;
    }
    Ok(())
}

fn push_facts(
    side: Side,
    head: &str,
    facts: &[(AbsPlace, Element)],
    lines: &mut Vec<Vec<u8>>,
) -> Result<(), NoMemory> {
    for (place, element) in facts {
        let mut line = head.as_bytes().to_vec(side.alloc)?;
        line.extend_from_slice(&side.place_text(place)?)?;
        line.extend_from_slice(b": ")?;
        line.extend_from_slice(&side.element_text(element)?)?;
        lines.push(line)?;
    }
    Ok(())
}

// What is broken, where nothing was found before.
fn push_breaks(
    called: Side,
    calling: Side,
    sig: &Signature,
    args: &ArgRows,
    lines: &mut Vec<Vec<u8>>,
) -> Result<(), NoMemory> {
    let mut found = Found::new(called.alloc);
    check_call(sig, called.types, args, &mut found)?;
    for one in found.list() {
        lines.push(break_line(called, calling, one)?)?;
    }
    Ok(())
}

fn break_line(called: Side, calling: Side, one: &CallBreak) -> Result<Vec<u8>, NoMemory> {
    match one {
        CallBreak::Null { parameter, place } => {
            broken_line(called, calling, *parameter, place, &Element::Null)
        }
        CallBreak::Dangling {
            parameter,
            place,
            cause,
        } => broken_line(
            called,
            calling,
            *parameter,
            place,
            &Element::Invalid(*cause),
        ),
        CallBreak::Overlap { first, second } => {
            let text = format!(in called.alloc; "break {first} overlaps {second}")?;
            Ok(text.into_bytes())
        }
    }
}

// What is wrong with one argument.
fn broken_line(
    called: Side,
    calling: Side,
    parameter: u32,
    place: &AbsPlace,
    element: &Element,
) -> Result<Vec<u8>, NoMemory> {
    let head = format!(in called.alloc; "break {parameter} ")?;
    let mut line = head.into_bytes();
    line.extend_from_slice(&called.place_text(place)?)?;
    line.extend_from_slice(b": ")?;
    line.extend_from_slice(&calling.element_text(element)?)?;
    Ok(line)
}
