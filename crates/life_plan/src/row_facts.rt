// The facts of rows.
ghost use Rattle.std.specs.List.{flat_map};
ghost use Rattle.std.specs.Option.{option_copied};
ghost use Rattle.std.specs.Prelude.{◌≡◌, ◌++◌, ◌==◌, ◌&&◌, ◌||◌, ◌↔◌, ◌<◌, ℕ, length, slice_get, Contains, IfOk, OnErr, OnOk};
ghost use Rattle.life_sets.specs.NumberSets.{holds};
ghost use Rattle.life_pset.specs.Table.{Names};
ghost use Rattle.life_pset.specs.declared.element.Fact.{Fact};
ghost use Rattle.life_rules.specs.FactSets.{named_fact, pair_facts, Gains, GainsSome, Holds, IsPairOf};
ghost use Rattle.life_plan.specs.Noted.{Notes};

use crate::numbers::insert_if;
use life_pset::{AbsPlace, Element, ElementTable, Fact};
use life_sets::{NumberSet, Rows};
use life_types::NoMemory;
use std::alloc::Global;

/// The facts for which the row's pairs stand.
pub fn facts_in<R: Rows>(
    alloc: Global,
    table: &ElementTable,
    row: &R,
) -> Result<Vec<Fact>, NoMemory>
    ensures { IfOk result (λ facts. (x : Fact) → Contains facts.items x ↔ Holds table.now (R.has row.now) x) }
{
    let mut facts = Vec::new(alloc);
    let pairs = row.facts(alloc)?;
    push_pairs(table, &pairs, &mut facts)?;
    Ok(facts)
}

// Adds the facts for which pairs of numbers stand.
fn push_pairs(
    table: &ElementTable,
    pairs: &[(u32, u32)],
    facts: &mut Vec<Fact>,
) -> Result<(), NoMemory>
    ensures { OnOk result
        (facts.new.items ≡ facts.old.items ++ flat_map (pair_facts table.now) pairs.now) }
{
    for pair in pairs {
        push_named(table.location_at(pair.0), table.element(pair.1), facts)?;
    }
    Ok(())
}

// Adds the fact of a location and an element, where both are there.
fn push_named(
    location: Option<&AbsPlace>,
    element: Option<&Element>,
    facts: &mut Vec<Fact>,
) -> Result<(), NoMemory>
    ensures { OnOk result
        (facts.new.items ≡ facts.old.items ++ named_fact (option_copied location.entry) (option_copied element.entry)) }
{
    match location {
        None => {}
        Some(location) => match element {
            None => {}
            Some(element) => facts.push(Fact {
                location: *location,
                element: *element,
            })?,
        },
    }
    Ok(())
}

/// Adds to a row those facts that are the function's, and notes the locations at which the row gained
/// one. After `NoMemory` it has some of them.
pub fn add_facts<R: Rows>(
    table: &ElementTable,
    facts: &[Fact],
    row: &mut R,
    gained: &mut NumberSet,
) -> Result<(), NoMemory>
    requires locations { R.location_limit row.old ≡ length table.now.locations }
    requires elements { R.element_limit row.old ≡ length table.now.elements }
    requires gained { gained.old.limit ≡ length table.now.locations }
    ensures added { OnOk result (Gains (R.has row.old) (R.has row.new) (IsPairOf table.now facts.now)) }
    ensures between { GainsSome (R.has row.old) (R.has row.new) (IsPairOf table.now facts.now) }
    ensures noted { OnOk result (Notes (R.has row.old) (R.has row.new) (holds gained.old) (holds gained.new)) }
    ensures locations { R.location_limit row.new ≡ R.location_limit row.old }
    ensures elements { R.element_limit row.new ≡ R.element_limit row.old }
    ensures gained { gained.new.limit ≡ gained.old.limit }
{
    for fact in facts {
        add_fact(table, fact, row, gained)?;
    }
    Ok(())
}

// Adds the fact, if it is the function's.
fn add_fact<R: Rows>(
    table: &ElementTable,
    fact: &Fact,
    row: &mut R,
    gained: &mut NumberSet,
) -> Result<(), NoMemory>
    requires locations { R.location_limit row.old ≡ length table.now.locations }
    requires elements { R.element_limit row.old ≡ length table.now.elements }
    requires gained { gained.old.limit ≡ length table.now.locations }
    ensures added { OnOk result (Gains (R.has row.old) (R.has row.new) (λ l e. Names table.now l e fact.now)) }
    ensures between { GainsSome (R.has row.old) (R.has row.new) (λ l e. Names table.now l e fact.now) }
    ensures noted { OnOk result (Notes (R.has row.old) (R.has row.new) (holds gained.old) (holds gained.new)) }
    ensures locations { R.location_limit row.new ≡ R.location_limit row.old }
    ensures elements { R.element_limit row.new ≡ R.element_limit row.old }
    ensures gained { gained.new.limit ≡ gained.old.limit }
{
    match table.location(&fact.location) {
        None => Ok(()),
        Some(location) => match table.number(&fact.element) {
            None => Ok(()),
            Some(element) => add_pair(location, element, row, gained),
        },
    }
}

// Adds the pair.
fn add_pair<R: Rows>(
    location: u32,
    element: u32,
    row: &mut R,
    gained: &mut NumberSet,
) -> Result<(), NoMemory>
    requires location { location < R.location_limit row.old }
    requires element { element < R.element_limit row.old }
    requires gained { gained.old.limit ≡ R.location_limit row.old }
    ensures added { OnOk result ((l e : ℕ) → R.has row.new l e ≡ ((l == location && e == element) || R.has row.old l e)) }
    ensures err { OnErr result ((l e : ℕ) → R.has row.new l e ≡ R.has row.old l e) }
    ensures noted { OnOk result (Notes (R.has row.old) (R.has row.new) (holds gained.old) (holds gained.new)) }
    ensures locations { R.location_limit row.new ≡ R.location_limit row.old }
    ensures elements { R.element_limit row.new ≡ R.element_limit row.old }
    ensures gained { gained.new.limit ≡ gained.old.limit }
{
    let fresh = row.insert(location, element)?;
    insert_if(fresh, location, gained);
    Ok(())
}
