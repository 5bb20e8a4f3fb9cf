// The state at the start: rows with what holds at the entry, and edges that weren't run.
ghost use Rattle.std.specs.Prelude.{◌≡◌, ◌≢◌, ◌↔◌, ◌≤◌, ◌<◌, ℕ, true, false, length, IfOk, IsTrue, OnOk};
ghost use Rattle.life_core.specs.Function.{function_of};
ghost use Rattle.life_core.specs.Linked.{points_of};
ghost use Rattle.life_rules.specs.FactSets.{IsPairOf};
ghost use Rattle.life_sets.specs.NumberSets.{holds};
ghost use Rattle.life_plan.specs.Carried.{is_whole};
ghost use Rattle.life_fix.specs.Solution.{AllLimited};
ghost use Rattle.life_fix.specs.Solving.{pairs_at, set_at, AreMade, AreSized, IsFirstDue, IsFlow, IsStart};

use crate::flow::{Flow, plan_of};
use life_core::Edge;
use life_plan::{Plan, add_facts};
use life_pset::{ElementTable, Fact};
use life_rules::entry_facts;
use life_sets::{NumberSet, Rows};
use life_types::NoMemory;
use std::alloc::Global;

/// A row for each point: that of the first has what holds at the entry, and the others are empty.
pub fn first_rows<R: Rows>(alloc: Global, flow: &Flow) -> Result<Vec<R>, NoMemory>
    requires { IsFlow flow.now }
    ensures count { IfOk result (λ rows. length rows.items ≡ points_of (function_of flow.now.f.now)) }
    ensures start { IfOk result (λ rows. IsStart flow.now.types.now (function_of flow.now.f.now) (pairs_at R.has rows.items)) }
    ensures locations { IfOk result (λ rows. AllLimited R.location_limit (length flow.now.table.now.locations) rows.items) }
    ensures elements { IfOk result (λ rows. AllLimited R.element_limit (length flow.now.table.now.elements) rows.items) }
{
    let facts = entry_facts(alloc, flow.f, flow.types)?;
    let mut rows = empty_rows(alloc, flow.table, flow.spots.len())?;
    start(alloc, flow.table, &facts, &mut rows)?;
    Ok(rows)
}

// Empty rows for the points.
fn empty_rows<R: Rows>(
    alloc: Global,
    table: &ElementTable,
    count: usize,
) -> Result<Vec<R>, NoMemory>
    ensures count { IfOk result (λ rows. length rows.items ≡ count) }
    ensures none { IfOk result (λ rows. (p l e : ℕ) → pairs_at R.has rows.items p l e ≡ false) }
    ensures locations { IfOk result (λ rows. AllLimited R.location_limit (length table.now.locations) rows.items) }
    ensures elements { IfOk result (λ rows. AllLimited R.element_limit (length table.now.elements) rows.items) }
{
    let mut rows = Vec::with_capacity(alloc, count)?;
    for _ in 0..count {
        rows.push(R::empty(alloc, table.location_count(), table.element_count())?)?;
    }
    Ok(rows)
}

// Adds facts to the row of the first point, if there is one.
fn start<R: Rows>(
    alloc: Global,
    table: &ElementTable,
    facts: &[Fact],
    rows: &mut [R],
) -> Result<(), NoMemory>
    requires none { (p l e : ℕ) → pairs_at R.has rows.old p l e ≡ false }
    requires locations { AllLimited R.location_limit (length table.now.locations) rows.old }
    requires elements { AllLimited R.element_limit (length table.now.elements) rows.old }
    ensures starts { OnOk result ((p l e : ℕ) → IsTrue (pairs_at R.has rows.new p l e) ↔ (((p ≡ 1) × (1 ≤ length rows.old)) × IsPairOf table.now facts.now l e)) }
    ensures locations { AllLimited R.location_limit (length table.now.locations) rows.new }
    ensures elements { AllLimited R.element_limit (length table.now.elements) rows.new }
{
    if rows.is_empty() {
        return Ok(());
    }
    let mut gained = NumberSet::empty(alloc, table.location_count())?;
    add_facts(table, facts, &mut rows[0], &mut gained)?;
    Ok(())
}

/// The plan of each edge.
pub fn plans_of(alloc: Global, flow: &Flow) -> Result<Vec<Plan>, NoMemory>
    requires { IsFlow flow.now }
    ensures count { IfOk result (λ plans. length plans.items ≡ length flow.now.edges.now) }
    ensures made { IfOk result (λ plans. AreMade flow.now.sigs.now flow.now.types.now (function_of flow.now.f.now) flow.now.edges.now plans.items) }
{
    let mut plans = Vec::with_capacity(alloc, flow.edges.len())?;
    for edge in flow.edges {
        plans.push(plan_of(alloc, flow, *edge)?)?;
    }
    Ok(plans)
}

/// What is due at first, for the edges of these plans: all locations, or none for an edge that carries
/// each fact whole from a point other than the first, where no fact is yet.
pub fn first_dues(alloc: Global, flow: &Flow, plans: &[Plan]) -> Result<Vec<NumberSet>, NoMemory>
    requires { length plans.now ≡ length flow.now.edges.now }
    ensures count { IfOk result (λ dues. length dues.items ≡ length flow.now.edges.now) }
    ensures sized { IfOk result (λ dues. AreSized (length flow.now.table.now.locations) dues.items) }
    ensures due { IfOk result (λ dues. (k : ℕ) → IsFirstDue (length flow.now.table.now.locations) flow.now.edges.now plans.now k (set_at dues.items k)) }
{
    let all = all_below(alloc, flow.table.location_count())?;
    let none = NumberSet::empty(alloc, flow.table.location_count())?;
    let mut dues = Vec::with_capacity(alloc, plans.len())?;
    for k in 0..plans.len() {
        dues.push(first_due(alloc, &all, &none, flow.edges, plans, k)?)?;
    }
    Ok(dues)
}

// What is due at first for the edge with this number: one of these sets.
fn first_due(
    alloc: Global,
    all: &NumberSet,
    none: &NumberSet,
    edges: &[Edge],
    plans: &[Plan],
    k: usize,
) -> Result<NumberSet, NoMemory>
    requires edge { k < length edges.now }
    requires plan { k < length plans.now }
    requires all { (n : ℕ) → n < all.now.limit → IsTrue (holds all.now n) }
    requires limit { none.now.limit ≡ all.now.limit }
    ensures limit { IfOk result (λ set. set.limit ≡ all.now.limit) }
    ensures due { IfOk result (λ set. IsFirstDue all.now.limit edges.now plans.now k (holds set)) }
{
    if starts_quiet(edges[k], &plans[k]) {
        return none.copy(alloc);
    }
    all.copy(alloc)
}

// Whether an edge has nothing to carry at first.
fn starts_quiet(edge: Edge, plan: &Plan) -> bool
    ensures { result ≡ true → (edge.from.0 ≢ 1) × IsTrue (is_whole plan.now) }
{
    edge.from.0 != 1 && plan.is_whole()
}

// All numbers below a limit.
fn all_below(alloc: Global, limit: u32) -> Result<NumberSet, NoMemory>
    ensures all { IfOk result (λ set. (n : ℕ) → n < limit → IsTrue (holds set n)) }
    ensures limit { IfOk result (λ set. set.limit ≡ limit) }
{
    let mut all = NumberSet::empty(alloc, limit)?;
    for n in 0..limit {
        all.insert(n);
    }
    Ok(all)
}
