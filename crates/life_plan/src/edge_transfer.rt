// Facts carried from row to row along an edge.
ghost use Rattle.std.specs.Prelude.{◌≡◌, ◌+◌, ◌<◌, ◌↔◌, ℕ, true, length, Contains, IfOk, IsTrue, OnOk};
ghost use Rattle.life_core.specs.Function.{function_of};
ghost use Rattle.life_pset.specs.Elements.{IsWithinLimits};
ghost use Rattle.life_pset.specs.Table.{table_of};
ghost use Rattle.life_sets.specs.Pairs.{HasNew};
ghost use Rattle.life_rules.specs.FactSets.{CarriesPair, Gains, GainsSome};
ghost use Rattle.life_sets.specs.NumberSets.{holds};

use crate::context::EdgeContext;
use crate::plan::Plan;
use crate::workspace::Workspace;
use life_base::Steps;
use life_contract::Signatures;
use life_core::{CoreFn, Edge};
use life_pset::ElementTable;
use life_rules::{callee_in, callees_of, spot_in};
use life_sets::{NumberSet, Rows};
use life_types::{NoMemory, TypeTable};
use std::alloc::Global;
use std::sync::ledger::Ledger;

/// Adds to a row exactly what the edge carries from the facts of another row, and says whether it
/// gained one. Takes one step. After `NoMemory` the row has some of what is carried.
pub fn transfer<'a, R: Rows, L: Ledger>(
    alloc: Global,
    f: &'a CoreFn,
    sigs: &'a Signatures,
    types: &'a TypeTable,
    table: &'a ElementTable,
    edge: Edge,
    from: &R,
    into: &mut R,
    steps: &mut Steps<L>,
) -> Result<bool, NoMemory>
    requires limits { IsWithinLimits types.now (function_of f.now) }
    requires table { table.now ≡ table_of types.now (function_of f.now) }
    requires from_locations { R.location_limit from.now ≡ length table.now.locations }
    requires from_elements { R.element_limit from.now ≡ length table.now.elements }
    requires locations { R.location_limit into.old ≡ length table.now.locations }
    requires elements { R.element_limit into.old ≡ length table.now.elements }
    ensures carried { OnOk result
        (Gains (R.has into.old) (R.has into.new) (CarriesPair sigs.now types.now (function_of f.now) edge (R.has from.now))) }
    ensures gained { IfOk result (λ gained. IsTrue gained ↔ HasNew (R.has into.old) (R.has into.new)) }
    ensures between { GainsSome (R.has into.old) (R.has into.new) (CarriesPair sigs.now types.now (function_of f.now) edge (R.has from.now)) }
    ensures tick { steps.new ≡ steps.old + 1 }
    ensures locations { R.location_limit into.new ≡ R.location_limit into.old }
    ensures elements { R.element_limit into.new ≡ R.element_limit into.old }
{
    steps.tick();
    let spots = life_core::spots(alloc, f)?;
    let callees = callees_of(alloc, sigs, types, &spots)?;
    let context = EdgeContext {
        f,
        sigs,
        types,
        table,
        edge,
        spot: spot_in(&spots, edge.from),
        callee: callee_in(&callees, edge.from),
    };
    let mut plan = Plan::of(alloc, &context)?;
    let due = all_numbers(alloc, table.location_count())?;
    let mut gained = NumberSet::empty(alloc, table.location_count())?;
    let mut workspace = Workspace::new(alloc, table.element_count())?;
    plan.carry(
        alloc,
        &context,
        &due,
        from,
        into,
        &mut gained,
        &mut workspace,
    )?;
    Ok(gained.next(0).is_some())
}

// A set of all numbers below the limit.
fn all_numbers(alloc: Global, limit: u32) -> Result<NumberSet, NoMemory>
    ensures each { IfOk result (λ set. (n : ℕ) → n < limit → holds set n ≡ true) }
    ensures limit { IfOk result (λ set. set.limit ≡ limit) }
{
    let mut set = NumberSet::empty(alloc, limit)?;
    for n in 0..limit {
        set.insert(n);
    }
    Ok(set)
}
