// The worklist: for each edge, the locations of its first point that gained a pair since it was run.
ghost use Rattle.std.specs.Prelude.{◌≡◌, ◌+◌, ◌<◌, ◌≤◌, ℕ, false, length, true, IfNone, IfSome, IsTrue, OnOk};
ghost use Rattle.life_core.specs.Function.{function_of};
ghost use Rattle.life_core.specs.Linked.{points_of};
ghost use Rattle.life_sets.specs.NumberSets.{holds};
ghost use Rattle.life_plan.specs.Carried.{IsRoom};
ghost use Rattle.life_fix.specs.Solution.{AllLimited};
ghost use Rattle.life_fix.specs.Solving.{left_of, most_steps, pairs_at, set_at, AreSized, IsFlow, IsLeaving, IsPartial, IsSolved};

use crate::flow::{Flow, run_edge};
use crate::leaving::Leaving;
use life_base::Steps;
use life_plan::{Plan, Workspace};
use life_sets::{NumberSet, Rows};
use life_types::NoMemory;
use std::alloc::Global;
use std::sync::ledger::Ledger;

/// Runs edges that are due until none is. An edge is due where a location is due for it: one that was due
/// at first, and later those of its first point that gained a pair since it was run.
pub fn run_all<R: Rows, L: Ledger>(
    alloc: Global,
    flow: &Flow,
    rows: &mut [R],
    plans: &mut [Plan],
    dues: &mut [NumberSet],
    steps: &mut Steps<L>,
) -> Result<(), NoMemory>
    requires flow { IsFlow flow.now }
    requires count { length rows.old ≡ points_of (function_of flow.now.f.now) }
    requires plans { length plans.old ≡ length flow.now.edges.now }
    requires dues { length dues.old ≡ length flow.now.edges.now }
    requires sized { AreSized (length flow.now.table.now.locations) dues.old }
    requires locations { AllLimited R.location_limit (length flow.now.table.now.locations) rows.old }
    requires elements { AllLimited R.element_limit (length flow.now.table.now.elements) rows.old }
    requires partial { IsPartial flow.now.sigs.now flow.now.types.now (function_of flow.now.f.now) flow.now.edges.now plans.old (set_at dues.old) (pairs_at R.has rows.old) }
    ensures solved { OnOk result (IsSolved flow.now.sigs.now flow.now.types.now (function_of flow.now.f.now) (pairs_at R.has rows.new)) }
    ensures ticks { steps.new ≤ steps.old + most_steps flow.now.types.now (function_of flow.now.f.now) }
    ensures locations { OnOk result (AllLimited R.location_limit (length flow.now.table.now.locations) rows.new) }
    ensures elements { OnOk result (AllLimited R.element_limit (length flow.now.table.now.elements) rows.new) }
{
    let leaving = Leaving::of(alloc, flow)?;
    let mut gained = NumberSet::empty(alloc, flow.table.location_count())?;
    let mut workspace = Workspace::new(alloc, flow.table.element_count())?;
    let mut next = 0;
    while let Some(k) = next_due(dues, next) {
        visit(
            alloc,
            flow,
            &leaving,
            k,
            rows,
            plans,
            dues,
            &mut gained,
            &mut workspace,
            steps,
        )?;
        next = k + 1;
    }
    Ok(())
}

// Runs an edge that is due, and puts what its second point gained back to those that leave it.
fn visit<R: Rows, L: Ledger>(
    alloc: Global,
    flow: &Flow,
    leaving: &Leaving,
    k: usize,
    rows: &mut [R],
    plans: &mut [Plan],
    dues: &mut [NumberSet],
    gained: &mut NumberSet,
    workspace: &mut Workspace,
    steps: &mut Steps<L>,
) -> Result<(), NoMemory>
    requires flow { IsFlow flow.now }
    requires leaving { IsLeaving flow.now.edges.now leaving.now }
    requires count { length rows.old ≡ points_of (function_of flow.now.f.now) }
    requires plans { length plans.old ≡ length flow.now.edges.now }
    requires dues { length dues.old ≡ length flow.now.edges.now }
    requires k { k < length flow.now.edges.now }
    requires due { (l : ℕ) × IsTrue (set_at dues.old k l) }
    requires sized { AreSized (length flow.now.table.now.locations) dues.old }
    requires gained { gained.old.limit ≡ length flow.now.table.now.locations }
    requires room { IsRoom (length flow.now.table.now.elements) workspace.old }
    requires locations { AllLimited R.location_limit (length flow.now.table.now.locations) rows.old }
    requires elements { AllLimited R.element_limit (length flow.now.table.now.elements) rows.old }
    requires partial { IsPartial flow.now.sigs.now flow.now.types.now (function_of flow.now.f.now) flow.now.edges.now plans.old (set_at dues.old) (pairs_at R.has rows.old) }
    ensures partial { OnOk result
        (IsPartial flow.now.sigs.now flow.now.types.now (function_of flow.now.f.now) flow.now.edges.now plans.new (set_at dues.new) (pairs_at R.has rows.new)) }
    ensures left { 1 ≤ left_of flow.now.table.now flow.now.edges.now (set_at dues.old) (pairs_at R.has rows.old) }
    ensures falls { OnOk result
        (left_of flow.now.table.now flow.now.edges.now (set_at dues.new) (pairs_at R.has rows.new) + 1 ≤ left_of flow.now.table.now flow.now.edges.now (set_at dues.old) (pairs_at R.has rows.old)) }
    ensures tick { OnOk result (steps.new ≡ steps.old + 1) }
    ensures few { steps.new ≤ steps.old + 1 }
    ensures sized { OnOk result (AreSized (length flow.now.table.now.locations) dues.new) }
    ensures gained { gained.new.limit ≡ gained.old.limit }
    ensures room { IsRoom (length flow.now.table.now.elements) workspace.new }
    ensures locations { OnOk result (AllLimited R.location_limit (length flow.now.table.now.locations) rows.new) }
    ensures elements { OnOk result (AllLimited R.element_limit (length flow.now.table.now.elements) rows.new) }
{
    let edge = flow.edges[k];
    run_edge(
        alloc,
        flow,
        edge,
        &mut plans[k],
        &dues[k],
        rows,
        gained,
        workspace,
        steps,
    )?;
    leaving.put_back(flow.edges, k, gained, dues);
    Ok(())
}

// An edge that is due: the first from this one on, or else the first of all. So the edges are run in
// sweeps along the function, and none is looked at more than once in a sweep.
fn next_due(dues: &[NumberSet], start: usize) -> Option<usize>
    ensures within { IfSome result (λ k. k < length dues.now) }
    ensures some { IfSome result (λ k. (l : ℕ) × IsTrue (set_at dues.now k l)) }
    ensures none { IfNone result ((k l : ℕ) → set_at dues.now k l ≡ false) }
{
    match due_from(dues, start) {
        Some(k) => Some(k),
        None => due_from(dues, 0),
    }
}

// The first edge from this one on that is due.
fn due_from(dues: &[NumberSet], start: usize) -> Option<usize>
    ensures within { IfSome result (λ k. k < length dues.now) }
    ensures some { IfSome result (λ k. (l : ℕ) × IsTrue (set_at dues.now k l)) }
    ensures none { IfNone result ((k l : ℕ) → start ≤ k → set_at dues.now k l ≡ false) }
{
    for k in start..dues.len() {
        if !dues[k].is_empty() {
            return Some(k);
        }
    }
    None
}
