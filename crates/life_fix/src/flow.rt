// What is solved, and one step along an edge.
ghost use Rattle.std.specs.Prelude.{◌≡◌, ◌+◌, ◌≤◌, length, IfOk, OnOk};
ghost use Rattle.life_core.specs.Function.{function_of};
ghost use Rattle.life_core.specs.Linked.{IsJoined};
ghost use Rattle.life_sets.specs.NumberSets.{holds};
ghost use Rattle.life_plan.specs.Carried.{IsCarried, IsRoom};
ghost use Rattle.life_plan.specs.Crossing.{crossing_of};
ghost use Rattle.life_fix.specs.Solution.{AllLimited};
ghost use Rattle.life_fix.specs.Solving.{pairs_at, IsFlow, IsMade, RunsEdge, RunsRow};

use life_base::Steps;
use life_contract::{Callee, Signatures};
use life_core::{CoreFn, Edge, Point, SpotRef};
use life_plan::{EdgeContext, Plan, Workspace};
use life_pset::ElementTable;
use life_rules::{callee_in, spot_in};
use life_sets::{NumberSet, Rows};
use life_types::{NoMemory, TypeTable};
use std::alloc::Global;
use std::sync::ledger::Ledger;

/// A function, with its table, its edges, what stands at its points, and the functions that are called
/// there.
#[derive(Clone, Copy)]
pub struct Flow<'a> {
    pub f: &'a CoreFn,
    pub sigs: &'a Signatures,
    pub types: &'a TypeTable,
    pub table: &'a ElementTable,
    pub edges: &'a [Edge],
    pub spots: &'a [SpotRef<'a>],
    pub callees: &'a [Option<Callee<'a>>],
}

/// The plan of an edge, which has carried nothing yet.
pub fn plan_of(alloc: Global, flow: &Flow, edge: Edge) -> Result<Plan, NoMemory>
    requires { IsFlow flow.now }
    ensures { IfOk result (λ plan. IsMade flow.now.sigs.now flow.now.types.now (function_of flow.now.f.now) edge plan) }
{
    let context = EdgeContext {
        f: flow.f,
        sigs: flow.sigs,
        types: flow.types,
        table: flow.table,
        edge,
        spot: spot_in(flow.spots, edge.from),
        callee: callee_in(flow.callees, edge.from),
    };
    Plan::of(alloc, &context)
}

/// Runs an edge: adds to the row of its second point what it carries from its first, of which these
/// locations are due, and tells at which locations that row gained a pair. It takes one step.
pub fn run_edge<R: Rows, L: Ledger>(
    alloc: Global,
    flow: &Flow,
    edge: Edge,
    plan: &mut Plan,
    due: &NumberSet,
    rows: &mut [R],
    gained: &mut NumberSet,
    workspace: &mut Workspace,
    steps: &mut Steps<L>,
) -> Result<(), NoMemory>
    requires flow { IsFlow flow.now }
    requires join { IsJoined (length rows.old) edge }
    requires due { due.now.limit ≡ length flow.now.table.now.locations }
    requires gained { gained.old.limit ≡ length flow.now.table.now.locations }
    requires room { IsRoom (length flow.now.table.now.elements) workspace.old }
    requires locations { AllLimited R.location_limit (length flow.now.table.now.locations) rows.old }
    requires elements { AllLimited R.element_limit (length flow.now.table.now.elements) rows.old }
    requires carried { IsCarried (crossing_of flow.now.sigs.now flow.now.types.now (function_of flow.now.f.now) edge) plan.old (holds due.now) (pairs_at R.has rows.old edge.from.0) (pairs_at R.has rows.old edge.to.0) }
    ensures runs { OnOk result
        (RunsEdge flow.now.sigs.now flow.now.types.now (function_of flow.now.f.now) edge plan.new (holds gained.new) (pairs_at R.has rows.old) (pairs_at R.has rows.new)) }
    ensures tick { OnOk result (steps.new ≡ steps.old + 1) }
    ensures few { steps.new ≤ steps.old + 1 }
    ensures gained { gained.new.limit ≡ gained.old.limit }
    ensures room { IsRoom (length flow.now.table.now.elements) workspace.new }
    ensures locations { AllLimited R.location_limit (length flow.now.table.now.locations) rows.new }
    ensures elements { AllLimited R.element_limit (length flow.now.table.now.elements) rows.new }
{
    let from = row_index(edge.from);
    let to = row_index(edge.to);
    if from < to {
        let (front, back) = rows.split_at_mut(to);
        run_row(
            alloc,
            flow,
            edge,
            plan,
            due,
            &front[from],
            &mut back[0],
            gained,
            workspace,
            steps,
        )?;
    } else if to < from {
        let (front, back) = rows.split_at_mut(from);
        run_row(
            alloc,
            flow,
            edge,
            plan,
            due,
            &back[0],
            &mut front[to],
            gained,
            workspace,
            steps,
        )?;
    } else {
        run_around(
            alloc,
            flow,
            edge,
            plan,
            due,
            &mut rows[to],
            gained,
            workspace,
            steps,
        )?;
    }
    Ok(())
}

// Runs an edge whose ends are one point: from a copy of its row.
fn run_around<R: Rows, L: Ledger>(
    alloc: Global,
    flow: &Flow,
    edge: Edge,
    plan: &mut Plan,
    due: &NumberSet,
    row: &mut R,
    gained: &mut NumberSet,
    workspace: &mut Workspace,
    steps: &mut Steps<L>,
) -> Result<(), NoMemory>
    requires flow { IsFlow flow.now }
    requires due { due.now.limit ≡ length flow.now.table.now.locations }
    requires gained { gained.old.limit ≡ length flow.now.table.now.locations }
    requires room { IsRoom (length flow.now.table.now.elements) workspace.old }
    requires locations { R.location_limit row.old ≡ length flow.now.table.now.locations }
    requires elements { R.element_limit row.old ≡ length flow.now.table.now.elements }
    requires carried { IsCarried (crossing_of flow.now.sigs.now flow.now.types.now (function_of flow.now.f.now) edge) plan.old (holds due.now) (R.has row.old) (R.has row.old) }
    ensures runs { OnOk result
        (RunsRow flow.now.sigs.now flow.now.types.now (function_of flow.now.f.now) edge plan.new (holds gained.new) (R.has row.old) (R.has row.old) (R.has row.new)) }
    ensures tick { OnOk result (steps.new ≡ steps.old + 1) }
    ensures few { steps.new ≤ steps.old + 1 }
    ensures gained { gained.new.limit ≡ gained.old.limit }
    ensures room { IsRoom (length flow.now.table.now.elements) workspace.new }
    ensures locations { R.location_limit row.new ≡ R.location_limit row.old }
    ensures elements { R.element_limit row.new ≡ R.element_limit row.old }
{
    let mut copy = R::empty(
        alloc,
        flow.table.location_count(),
        flow.table.element_count(),
    )?;
    row.join_into(&mut copy)?;
    run_row(
        alloc, flow, edge, plan, due, &copy, row, gained, workspace, steps,
    )?;
    Ok(())
}

// Runs an edge from the row of its first point into that of its second.
fn run_row<R: Rows, L: Ledger>(
    alloc: Global,
    flow: &Flow,
    edge: Edge,
    plan: &mut Plan,
    due: &NumberSet,
    from: &R,
    into: &mut R,
    gained: &mut NumberSet,
    workspace: &mut Workspace,
    steps: &mut Steps<L>,
) -> Result<(), NoMemory>
    requires flow { IsFlow flow.now }
    requires due { due.now.limit ≡ length flow.now.table.now.locations }
    requires gained { gained.old.limit ≡ length flow.now.table.now.locations }
    requires room { IsRoom (length flow.now.table.now.elements) workspace.old }
    requires from_locations { R.location_limit from.now ≡ length flow.now.table.now.locations }
    requires from_elements { R.element_limit from.now ≡ length flow.now.table.now.elements }
    requires locations { R.location_limit into.old ≡ length flow.now.table.now.locations }
    requires elements { R.element_limit into.old ≡ length flow.now.table.now.elements }
    requires carried { IsCarried (crossing_of flow.now.sigs.now flow.now.types.now (function_of flow.now.f.now) edge) plan.old (holds due.now) (R.has from.now) (R.has into.old) }
    ensures runs { OnOk result
        (RunsRow flow.now.sigs.now flow.now.types.now (function_of flow.now.f.now) edge plan.new (holds gained.new) (R.has from.now) (R.has into.old) (R.has into.new)) }
    ensures tick { steps.new ≡ steps.old + 1 }
    ensures gained { gained.new.limit ≡ gained.old.limit }
    ensures room { IsRoom (length flow.now.table.now.elements) workspace.new }
    ensures locations { R.location_limit into.new ≡ R.location_limit into.old }
    ensures elements { R.element_limit into.new ≡ R.element_limit into.old }
{
    gained.clear();
    let context = EdgeContext {
        f: flow.f,
        sigs: flow.sigs,
        types: flow.types,
        table: flow.table,
        edge,
        spot: spot_in(flow.spots, edge.from),
        callee: callee_in(flow.callees, edge.from),
    };
    plan.run(alloc, &context, due, from, into, gained, workspace, steps)?;
    Ok(())
}

// Where the row of a point stands.
fn row_index(point: Point) -> usize
    requires { 1 ≤ point.0 }
    ensures { result + 1 ≡ point.0 }
{
    point.0 as usize - 1
}
