// The solver.
ghost use Rattle.std.specs.Prelude.{◌≡◌, ◌+◌, ◌≤◌, length, map, IfOk};
ghost use Rattle.life_core.specs.Function.{function_of};
ghost use Rattle.life_core.specs.Linked.{points_of};
ghost use Rattle.life_core.specs.Node.{spot_seen};
ghost use Rattle.life_pset.specs.Causes.{AreSpotsOf};
ghost use Rattle.life_pset.specs.Elements.{IsWithinLimits};
ghost use Rattle.life_pset.specs.Table.{table_of};
ghost use Rattle.life_rules.specs.Callees.{AreCallees};
ghost use Rattle.life_fix.specs.Solution.{AllLimited, IsSolution};
ghost use Rattle.life_fix.specs.Solving.{most_steps, pairs_at, IsSolved};

use crate::beginning::{first_dues, first_rows, plans_of};
use crate::flow::Flow;
use crate::solution::Solution;
use crate::worklist::run_all;
use life_base::Steps;
use life_contract::{Callee, Signatures};
use life_core::{CoreFn, SpotRef, edges, spots};
use life_pset::ElementTable;
use life_rules::callees_of;
use life_sets::Rows;
use life_types::{NoMemory, TypeTable};
use std::alloc::Global;
use std::sync::ledger::Ledger;

/// The derived facts at each point of the function. Each run of an edge takes one step, and each edge is run
/// once and then at most once for each pair of a location and an element.
pub fn solve<R: Rows, L: Ledger>(
    alloc: Global,
    f: &CoreFn,
    sigs: &Signatures,
    types: &TypeTable,
    steps: &mut Steps<L>,
) -> Result<Solution<R>, NoMemory>
    requires { IsWithinLimits types.now (function_of f.now) }
    ensures solution { IfOk result
        (λ solution. IsSolution R.has R.location_limit R.element_limit sigs.now types.now (function_of f.now) solution) }
    ensures ticks { steps.new ≤ steps.old + most_steps types.now (function_of f.now) }
{
    let spots = spots(alloc, f)?;
    solve_listed(alloc, f, sigs, types, &spots, steps)
}

/// As `solve`, for a function whose points are listed already.
pub(crate) fn solve_listed<R: Rows, L: Ledger>(
    alloc: Global,
    f: &CoreFn,
    sigs: &Signatures,
    types: &TypeTable,
    spots: &[SpotRef],
    steps: &mut Steps<L>,
) -> Result<Solution<R>, NoMemory>
    requires limits { IsWithinLimits types.now (function_of f.now) }
    requires spots { AreSpotsOf (function_of f.now) spots.now }
    requires count { length spots.now ≡ points_of (function_of f.now) }
    ensures solution { IfOk result
        (λ solution. IsSolution R.has R.location_limit R.element_limit sigs.now types.now (function_of f.now) solution) }
    ensures ticks { steps.new ≤ steps.old + most_steps types.now (function_of f.now) }
{
    let table = ElementTable::of(alloc, f, types, spots)?;
    let rows = solved_rows(alloc, f, sigs, types, &table, spots, steps)?;
    Ok(Solution::new(table, rows))
}

// A row for each point, with exactly the pairs that are derived there.
fn solved_rows<'a, R: Rows, L: Ledger>(
    alloc: Global,
    f: &CoreFn,
    sigs: &'a Signatures,
    types: &'a TypeTable,
    table: &ElementTable,
    spots: &[SpotRef],
    steps: &mut Steps<L>,
) -> Result<Vec<R>, NoMemory>
    requires limits { IsWithinLimits types.now (function_of f.now) }
    requires spots { AreSpotsOf (function_of f.now) spots.now }
    requires count { length spots.now ≡ points_of (function_of f.now) }
    requires table { table.now ≡ table_of types.now (function_of f.now) }
    ensures count { IfOk result (λ rows. length rows.items ≡ points_of (function_of f.now)) }
    ensures solved { IfOk result (λ rows. IsSolved sigs.now types.now (function_of f.now) (pairs_at R.has rows.items)) }
    ensures ticks { steps.new ≤ steps.old + most_steps types.now (function_of f.now) }
    ensures locations { IfOk result (λ rows. AllLimited R.location_limit (length table.now.locations) rows.items) }
    ensures elements { IfOk result (λ rows. AllLimited R.element_limit (length table.now.elements) rows.items) }
{
    let callees = callees_of(alloc, sigs, types, spots)?;
    rows_with(alloc, f, sigs, types, table, spots, &callees, steps)
}

// .. where the functions that are called at the points are known.
fn rows_with<R: Rows, L: Ledger>(
    alloc: Global,
    f: &CoreFn,
    sigs: &Signatures,
    types: &TypeTable,
    table: &ElementTable,
    spots: &[SpotRef],
    callees: &[Option<Callee>],
    steps: &mut Steps<L>,
) -> Result<Vec<R>, NoMemory>
    requires limits { IsWithinLimits types.now (function_of f.now) }
    requires spots { AreSpotsOf (function_of f.now) spots.now }
    requires count { length spots.now ≡ points_of (function_of f.now) }
    requires table { table.now ≡ table_of types.now (function_of f.now) }
    requires callees { AreCallees types.now sigs.now (map spot_seen spots.now) callees.now }
    ensures count { IfOk result (λ rows. length rows.items ≡ points_of (function_of f.now)) }
    ensures solved { IfOk result (λ rows. IsSolved sigs.now types.now (function_of f.now) (pairs_at R.has rows.items)) }
    ensures ticks { steps.new ≤ steps.old + most_steps types.now (function_of f.now) }
    ensures locations { IfOk result (λ rows. AllLimited R.location_limit (length table.now.locations) rows.items) }
    ensures elements { IfOk result (λ rows. AllLimited R.element_limit (length table.now.elements) rows.items) }
{
    let edges = edges(alloc, f)?;
    let flow = Flow {
        f,
        sigs,
        types,
        table,
        edges: &edges,
        spots,
        callees,
    };
    let mut rows = first_rows(alloc, &flow)?;
    let mut plans = plans_of(alloc, &flow)?;
    let mut dues = first_dues(alloc, &flow, &plans)?;
    run_all(alloc, &flow, &mut rows, &mut plans, &mut dues, steps)?;
    Ok(rows)
}
