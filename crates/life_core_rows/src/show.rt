// What is derived, as lines.
ghost use Rattle.std.specs.Prelude.{◌<◌, ◌^◌};
ghost use Rattle.life_core.specs.Function.{function_of};
ghost use Rattle.life_core.specs.Linked.{points_of};
ghost use Rattle.life_pset.specs.Elements.{IsWithinLimits};

use crate::derive::{Carried, Given};
use life_core::{CoreFn, Edge, Leads, LinkRef, Point, instr_at, place_at, returns_at, test_at};
use life_pset::{AbsPlace, Cause, CauseKind, Element, Fact};
use life_rules::{Diag, Why, element_text, kind_name, line_of, place_text};
use life_types::NoMemory;
use std::alloc::Global;

/// A fact that is derived from one point to another, and at all between.
#[derive(Clone, Copy)]
pub struct Stretch {
    fact: Fact,
    from: u32,
    to: u32,
}

/// The longest stretches of points of facts, which stand in the order of their points.
pub fn stretches(alloc: Global, facts: &[(Fact, u32)]) -> Result<Vec<Stretch>, NoMemory> {
    let mut all = Vec::new(alloc);
    for (fact, point) in facts {
        push_point(&mut all, *fact, *point)?;
    }
    Ok(all)
}

fn push_point(all: &mut Vec<Stretch>, fact: Fact, point: u32) -> Result<(), NoMemory> {
    match reaching(all, fact, point) {
        None => all.push(Stretch {
            fact,
            from: point,
            to: point,
        })?,
        Some(index) => {
            if let Some(stretch) = all.get_mut(index) {
                stretch.to = point;
            }
        }
    }
    Ok(())
}

// The stretch of the fact that ends right before the point.
fn reaching(all: &[Stretch], fact: Fact, point: u32) -> Option<usize> {
    for (index, stretch) in all.iter().enumerate() {
        if stretch.fact == fact && stretch.to.checked_add(1) == Some(point) {
            return Some(index);
        }
    }
    None
}

fn push_text(out: &mut Vec<u8>, text: &str) -> Result<(), NoMemory> {
    out.extend_from_slice(text.as_bytes())?;
    Ok(())
}

// A point, or the first and the last of a stretch.
fn push_span(alloc: Global, out: &mut Vec<u8>, from: u32, to: u32) -> Result<(), NoMemory> {
    let text = if from == to {
        format!(in alloc; "{from} ")?
    } else {
        format!(in alloc; "{from}-{to} ")?
    };
    push_text(out, &text)
}

// ---- facts

/// `FROM-TO LOCATION: ELEMENT`, with the names of the function that has one for each local.
pub fn stretch_line(g: Given, named: &CoreFn, stretch: Stretch) -> Result<Vec<u8>, NoMemory> {
    let mut out = Vec::new(g.alloc);
    push_span(g.alloc, &mut out, stretch.from, stretch.to)?;
    push_fact(g, named, stretch.fact, &mut out)?;
    Ok(out)
}

/// .. of a fact that an edge carries.
pub fn carried_line(g: Given, named: &CoreFn, carried: Carried) -> Result<Vec<u8>, NoMemory> {
    let mut out = Vec::new(g.alloc);
    let Carried { from, to, fact } = carried;
    let head = format!(in g.alloc; "{from}-{to} ")?;
    push_text(&mut out, &head)?;
    push_fact(g, named, fact, &mut out)?;
    Ok(out)
}

fn push_fact(g: Given, named: &CoreFn, fact: Fact, out: &mut Vec<u8>) -> Result<(), NoMemory> {
    let place = place_line(g, named, fact.location)?;
    let element = element_line(g, named, fact.element)?;
    out.extend_from_slice(&place)?;
    push_text(out, ": ")?;
    out.extend_from_slice(&element)?;
    Ok(())
}

pub fn place_line(g: Given, named: &CoreFn, place: AbsPlace) -> Result<Vec<u8>, NoMemory> {
    place_text(g.alloc, g.names, named, g.types, &place)
}

/// An element; behind one whose cause is that a temporary ended stands which one.
pub fn element_line(g: Given, named: &CoreFn, element: Element) -> Result<Vec<u8>, NoMemory> {
    let mut out = element_text(g.alloc, g.names, named, g.sigs, g.types, &element)?;
    match element {
        Element::Invalid(cause) | Element::Moved(cause) => push_ended(g, named, cause, &mut out)?,
        _ => {}
    }
    Ok(out)
}

fn push_ended(g: Given, named: &CoreFn, cause: Cause, out: &mut Vec<u8>) -> Result<(), NoMemory> {
    if cause.kind == CauseKind::TemporaryEnded {
        push_text(out, " (")?;
        let which = place_line(g, named, AbsPlace::of_local(cause.root))?;
        out.extend_from_slice(&which)?;
        push_text(out, ")")?;
    }
    Ok(())
}

// ---- diagnostics

/// `LINE:COLUMN: KIND: NAME: WHY`, with the names of the function that has one for each local; behind the cause
/// that a temporary ended which one.
pub fn diagnostic_line(g: Given, named: &CoreFn, d: &Diag) -> Result<Vec<u8>, NoMemory> {
    let mut out = Vec::new(g.alloc);
    let line = d.place.line;
    let column = d.place.column;
    let kind = kind_name(d.kind);
    let head = format!(in g.alloc; "{line}:{column}: {kind}: ")?;
    push_text(&mut out, &head)?;
    let text = line_of(g.alloc, g.names, named, g.sigs, g.types, d)?;
    out.extend_from_slice(&text.name)?;
    push_text(&mut out, ": ")?;
    out.extend_from_slice(&text.why)?;
    if let Why::Cause(cause) = d.why {
        push_ended(g, named, cause, &mut out)?;
    }
    Ok(out)
}

// ---- points and edges

/// `FROM-TO`, behind a test with `held` or `failed`.
pub fn edge_line(alloc: Global, edge: Edge) -> Result<Vec<u8>, NoMemory> {
    let mut out = Vec::new(alloc);
    let from = edge.from.0;
    let to = edge.to.0;
    let branch = match edge.branch {
        None => "",
        Some(true) => " held",
        Some(false) => " failed",
    };
    let text = format!(in alloc; "{from}-{to}{branch}")?;
    push_text(&mut out, &text)?;
    Ok(out)
}

/// `NUMBER LINE:COLUMN WHAT LEADS`: whether the function does, asks or returns something there or stops, and to
/// which points it leads from there.
pub fn point_line(g: Given, point: Point, link: &LinkRef) -> Result<Vec<u8>, NoMemory>
    requires { IsWithinLimits g.types.now (function_of g.f.now) }
{
    let mut out = Vec::new(g.alloc);
    let number = point.0;
    let head = format!(in g.alloc; "{number} ")?;
    push_text(&mut out, &head)?;
    if let Some(place) = place_at(g.f, point) {
        let line = place.line;
        let column = place.column;
        let text = format!(in g.alloc; "{line}:{column} ")?;
        push_text(&mut out, &text)?;
    }
    push_text(&mut out, what_stands(g.f, point))?;
    push_leads(g.alloc, &mut out, link.leads)?;
    Ok(out)
}

fn what_stands(f: &CoreFn, point: Point) -> &'static str
    requires { points_of (function_of f.now) < 2 ^ 31 }
{
    if instr_at(f, point).is_some() {
        "does"
    } else if test_at(f, point).is_some() {
        "asks"
    } else if returns_at(f, point) {
        "returns"
    } else {
        "stops"
    }
}

fn push_leads(alloc: Global, out: &mut Vec<u8>, leads: Leads) -> Result<(), NoMemory> {
    match leads {
        Leads::Nowhere => push_text(out, " nowhere"),
        Leads::On(to) => push_way(alloc, out, " on", to),
        Leads::Parts { held, failed } => {
            push_way(alloc, out, " held", held)?;
            push_way(alloc, out, " failed", failed)
        }
    }
}

fn push_way(alloc: Global, out: &mut Vec<u8>, how: &str, to: Option<u32>) -> Result<(), NoMemory> {
    let text = match to {
        None => format!(in alloc; "{how} out")?,
        Some(to) => format!(in alloc; "{how} {to}")?,
    };
    push_text(out, &text)
}
