// What is derived of a function, by rows of either kind.
ghost use Rattle.std.specs.Prelude.{◌≡◌, ◌<◌, length};
ghost use Rattle.life_core.specs.Function.{function_of};
ghost use Rattle.life_pset.specs.Elements.{IsWithinLimits};
ghost use Rattle.life_pset.specs.Table.{table_of};
ghost use Rattle.life_fix.specs.Solution.{AllLimited};

use life_base::Steps;
use life_contract::Signatures;
use life_core::{CoreFn, Edge, FnId, Names, Point, edges, spots};
use life_fix::{Solution, diagnostics, solve};
use life_plan::{facts_in, transfer};
use life_pset::{ElementTable, Fact};
use life_rules::ListedDiag;
use life_sets::{BitRows, Rows, SetRows};
use life_types::{NoMemory, TypeTable};
use std::alloc::Global;
use std::marker::Brand;
use std::sync::ledger::{Blank, Ledger};

/// A fact that an edge carries.
#[derive(Clone, Copy, PartialEq, Eq)]
pub struct Carried {
    pub from: u32,
    pub to: u32,
    pub fact: Fact,
}

/// What is derived of a function.
#[derive(Drop, PartialEq, Eq)]
pub struct Found {
    /// Each fact with its points.
    pub facts: Vec<(Fact, u32)>,
    pub diagnostics: Vec<ListedDiag>,
    pub carried: Vec<Carried>,
    /// Whether each edge said of what it carried that a row gained it, and the second time that it
    /// gained nothing.
    pub gains: bool,
}

/// A function of a program.
#[derive(Clone, Copy)]
pub struct Given<'a> {
    pub alloc: Global,
    pub f: &'a CoreFn,
    pub id: FnId,
    pub sigs: &'a Signatures,
    pub types: &'a TypeTable,
    pub names: &'a Names,
}

/// .. by rows that are lists.
pub fn found_by_sets(given: Given) -> Result<Found, NoMemory>
    requires { IsWithinLimits given.types.now (function_of given.f.now) }
{
    found_by::<SetRows, Brand>(given, Blank::new(1))
}

/// .. by rows of bits.
pub fn found_by_bits(given: Given) -> Result<Found, NoMemory>
    requires { IsWithinLimits given.types.now (function_of given.f.now) }
{
    found_by::<BitRows, Brand>(given, Blank::new(1))
}

fn found_by<R: Rows, L: Ledger>(given: Given, blank: Blank) -> Result<Found, NoMemory>
    requires limits { IsWithinLimits given.types.now (function_of given.f.now) }
    requires name { blank.name ≡ L.name }
    requires parts { blank.parts ≡ L.parts }
    requires some { 0 < blank.parts }
{
    let mut steps = Steps::<L>::new(blank);
    let sol = solve::<R, L>(given.alloc, given.f, given.sigs, given.types, &mut steps)?;
    let mut carried = Vec::new(given.alloc);
    let gains = push_all_carried(given, &sol, &mut steps, &mut carried)?;
    let facts = facts_of(given.alloc, &sol)?;
    let diagnostics = diagnostics(
        given.alloc,
        given.f,
        given.id,
        given.sigs,
        given.types,
        given.names,
        &sol,
    )?;
    Ok(Found {
        facts,
        diagnostics,
        carried,
        gains,
    })
}

/// The most points of a function.
pub const MOST_POINTS: u32 = 1024;

fn facts_of<R: Rows>(alloc: Global, sol: &Solution<R>) -> Result<Vec<(Fact, u32)>, NoMemory> {
    let mut all = Vec::new(alloc);
    for point in 1..=MOST_POINTS {
        push_facts(alloc, sol, point, &mut all)?;
    }
    Ok(all)
}

fn push_facts<R: Rows>(
    alloc: Global,
    sol: &Solution<R>,
    point: u32,
    all: &mut Vec<(Fact, u32)>,
) -> Result<(), NoMemory> {
    if let Some(row) = sol.row(Point(point)) {
        let facts = facts_in(alloc, sol.table(), row)?;
        for fact in &facts {
            all.push((*fact, point))?;
        }
    }
    Ok(())
}

// ---- edges

fn push_all_carried<R: Rows, L: Ledger>(
    given: Given,
    sol: &Solution<R>,
    steps: &mut Steps<L>,
    all: &mut Vec<Carried>,
) -> Result<bool, NoMemory>
    requires limits { IsWithinLimits given.types.now (function_of given.f.now) }
    requires locations { AllLimited R.location_limit (length (table_of given.types.now (function_of given.f.now)).locations) sol.now.rows }
    requires elements { AllLimited R.element_limit (length (table_of given.types.now (function_of given.f.now)).elements) sol.now.rows }
{
    let mut right = true;
    let edges = edges(given.alloc, given.f)?;
    for edge in &edges {
        if !push_carried(given, sol, *edge, steps, all)? {
            right = false;
        }
    }
    Ok(right)
}

// Adds what an edge carries from its point's row into an empty one, and says whether it gained what it had to.
fn push_carried<R: Rows, L: Ledger>(
    given: Given,
    sol: &Solution<R>,
    edge: Edge,
    steps: &mut Steps<L>,
    all: &mut Vec<Carried>,
) -> Result<bool, NoMemory>
    requires limits { IsWithinLimits given.types.now (function_of given.f.now) }
    requires locations { AllLimited R.location_limit (length (table_of given.types.now (function_of given.f.now)).locations) sol.now.rows }
    requires elements { AllLimited R.element_limit (length (table_of given.types.now (function_of given.f.now)).elements) sol.now.rows }
{
    match sol.row(edge.from) {
        None => Ok(true),
        Some(row) => push_from(given, row, edge, steps, all),
    }
}

fn push_from<R: Rows, L: Ledger>(
    given: Given,
    row: &R,
    edge: Edge,
    steps: &mut Steps<L>,
    all: &mut Vec<Carried>,
) -> Result<bool, NoMemory>
    requires limits { IsWithinLimits given.types.now (function_of given.f.now) }
    requires locations { R.location_limit row.now ≡ length (table_of given.types.now (function_of given.f.now)).locations }
    requires elements { R.element_limit row.now ≡ length (table_of given.types.now (function_of given.f.now)).elements }
{
    let spots = spots(given.alloc, given.f)?;
    let table = ElementTable::of(given.alloc, given.f, given.types, &spots)?;
    let mut into = R::empty(given.alloc, table.location_count(), table.element_count())?;
    let first = carry(given, &table, edge, row, &mut into, steps)?;
    let second = carry(given, &table, edge, row, &mut into, steps)?;
    let facts = facts_in(given.alloc, &table, &into)?;
    push_named(edge, &facts, all)?;
    Ok(first != facts.is_empty() && !second)
}

fn carry<R: Rows, L: Ledger>(
    given: Given,
    table: &ElementTable,
    edge: Edge,
    row: &R,
    into: &mut R,
    steps: &mut Steps<L>,
) -> Result<bool, NoMemory>
    requires limits { IsWithinLimits given.types.now (function_of given.f.now) }
    requires table { table.now ≡ table_of given.types.now (function_of given.f.now) }
    requires from_locations { R.location_limit row.now ≡ length table.now.locations }
    requires from_elements { R.element_limit row.now ≡ length table.now.elements }
    requires locations { R.location_limit into.old ≡ length table.now.locations }
    requires elements { R.element_limit into.old ≡ length table.now.elements }
    ensures locations { R.location_limit into.new ≡ R.location_limit into.old }
    ensures elements { R.element_limit into.new ≡ R.element_limit into.old }
{
    transfer(
        given.alloc,
        given.f,
        given.sigs,
        given.types,
        table,
        edge,
        row,
        into,
        steps,
    )
}

fn push_named(edge: Edge, facts: &[Fact], all: &mut Vec<Carried>) -> Result<(), NoMemory> {
    for fact in facts {
        all.push(Carried {
            from: edge.from.0,
            to: edge.to.0,
            fact: *fact,
        })?;
    }
    Ok(())
}
