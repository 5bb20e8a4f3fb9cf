// The facts that may make something wrong at a point.
ghost use Rattle.std.specs.Option.{option_copied};
ghost use Rattle.std.specs.Prelude.{◌≡◌, ◌++◌, ◌⊎◌, ◌↔◌, ◌<◌, Contains, IfOk, OnOk, Some, length, slice_get};
ghost use Rattle.life_core.specs.Function.{function_of};
ghost use Rattle.life_core.specs.Node.{spot_seen};
ghost use Rattle.life_pset.specs.declared.element.Fact.{Fact};
ghost use Rattle.life_sets.specs.NumberSets.{holds};
ghost use Rattle.life_rules.specs.FactSets.{named_fact};
ghost use Rattle.life_fix.specs.Told.{AreTold, IsOfElements, IsToldOf};

use life_core::{CoreFn, SpotRef};
use life_pset::{AbsPlace, Element, ElementTable, Fact};
use life_rules::is_told_at;
use life_sets::{NumberSet, Rows};
use life_types::{NoMemory, TypeTable};
use std::alloc::Global;

/// Those facts of a row that may make something wrong at a point: it reads the locations alone that are
/// told there, by way of `elements`.
pub(crate) fn told_facts<R: Rows>(
    alloc: Global,
    types: &TypeTable,
    f: &CoreFn,
    spot: SpotRef,
    table: &ElementTable,
    row: &R,
    elements: &mut NumberSet,
) -> Result<Vec<Fact>, NoMemory>
    requires locations { R.location_limit row.now ≡ length table.now.locations }
    requires elements { R.element_limit row.now ≡ length table.now.elements }
    requires limit { elements.old.limit ≡ length table.now.elements }
    ensures limit { elements.new.limit ≡ elements.old.limit }
    ensures told { IfOk result (λ facts. AreTold types.now (function_of f.now) (spot_seen spot.entry) table.now (R.has row.now) facts.items) }
{
    let mut facts = Vec::new(alloc);
    for number in 0..table.location_count() {
        push_told(types, f, spot, table, row, number, elements, &mut facts)?;
    }
    Ok(facts)
}

// Adds those about one location.
fn push_told<R: Rows>(
    types: &TypeTable,
    f: &CoreFn,
    spot: SpotRef,
    table: &ElementTable,
    row: &R,
    number: u32,
    elements: &mut NumberSet,
    facts: &mut Vec<Fact>,
) -> Result<(), NoMemory>
    requires location { number < R.location_limit row.now }
    requires limit { elements.old.limit ≡ R.element_limit row.now }
    ensures told { OnOk result ((x : Fact) → Contains facts.new.items x
        ↔ (Contains facts.old.items x ⊎ IsToldOf types.now (function_of f.now) (spot_seen spot.entry) table.now (R.has row.now) number x)) }
    ensures limit { elements.new.limit ≡ elements.old.limit }
{
    match table.location_at(number) {
        None => Ok(()),
        Some(location) => {
            if is_told_at(types, f, spot, location) {
                row.read(number, elements);
                push_elements(table, location, elements, facts)
            } else {
                Ok(())
            }
        }
    }
}

// Adds the facts of a location and each of these elements.
fn push_elements(
    table: &ElementTable,
    location: &AbsPlace,
    elements: &NumberSet,
    facts: &mut Vec<Fact>,
) -> Result<(), NoMemory>
    ensures { OnOk result ((x : Fact) → Contains facts.new.items x
        ↔ (Contains facts.old.items x ⊎ IsOfElements table.now location.now (holds elements.now) x)) }
{
    let end = elements.limit();
    let mut from = 0;
    while from < end {
        match elements.next(from) {
            None => return Ok(()),
            Some(number) => {
                push_element(location, table.element(number), facts)?;
                from = number + 1;
            }
        }
    }
    Ok(())
}

fn push_element(
    location: &AbsPlace,
    element: Option<&Element>,
    facts: &mut Vec<Fact>,
) -> Result<(), NoMemory>
    ensures { OnOk result
        (facts.new.items ≡ facts.old.items ++ named_fact (Some location.now) (option_copied element.entry)) }
{
    match element {
        None => {}
        Some(element) => facts.push(Fact {
            location: *location,
            element: *element,
        })?,
    }
    Ok(())
}
