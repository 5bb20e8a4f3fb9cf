// What is made of the facts of locations that are read.
ghost use Rattle.std.specs.Prelude.{◌≡◌, ◌↔◌, ◌⊎◌, ◌||◌, ◌&&◌, ◌++◌, ◌∷◌, [], ℕ, ◌<◌, Some, false, not, IfOk, OnOk, IsTrue, Contains, length, slice_get, option_map};
ghost use Rattle.life_core.specs.Node.{spot_seen};
ghost use Rattle.life_pset.specs.declared.element.Fact.{Fact};
ghost use Rattle.life_sets.specs.NumberSets.{holds};
ghost use Rattle.life_rules.specs.FactSets.{GainsSome};
ghost use Rattle.life_rules.specs.Matching.{fact_at};
ghost use Rattle.life_rules.specs.Staying.{spot_reads};
ghost use Rattle.life_plan.specs.Carried.{none_due, AreMade};
ghost use Rattle.life_plan.specs.Crossing.{crossing_in};
ghost use Rattle.life_plan.specs.Noted.{Notes};
ghost use Rattle.life_plan.specs.Numbered.{passes, made_by, made_facts, AreReadings, IsMadeAt, IsUnseen, MakesAt, MakesFrom};
ghost use Rattle.life_plan.specs.declared.reading.Reading.{Reading};

use crate::context::EdgeContext;
use crate::row_facts::add_facts;
use life_pset::{AbsPlace, Element, Fact};
use life_rules::{is_read_at, push_made};
use life_sets::{NumberSet, Rows};
use life_types::NoMemory;
use std::alloc::Global;

/// A location of whose facts something is made, and its elements of which it was made.
#[derive(Drop)]
pub struct Reading {
    pub(crate) location: u32,
    pub(crate) seen: NumberSet,
}

/// The locations that the edge's first point reads; no element was seen yet.
pub(crate) fn readings_of(alloc: Global, context: &EdgeContext) -> Result<Vec<Reading>, NoMemory>
    ensures are { IfOk result (λ readings. AreReadings (crossing_in context.now) readings.items) }
    ensures seen { IfOk result (λ readings. (k : ℕ) (r : Reading) → slice_get readings.items k ≡ Some r → (e : ℕ) → holds r.seen e ≡ false) }
{
    let mut readings = Vec::new(alloc);
    for n in 0..context.table.location_count() {
        if is_read(context, n) {
            push_reading(alloc, context, n, &mut readings)?;
        }
    }
    Ok(readings)
}

// Whether the location with this number is read.
fn is_read(context: &EdgeContext, n: u32) -> bool
    ensures { result ≡ passes (spot_reads (option_map spot_seen context.now.spot)) (slice_get context.now.table.now.locations n) }
{
    match context.table.location_at(n) {
        None => false,
        Some(location) => is_read_at(context.spot, location),
    }
}

/// Adds to a row what is made of those locations of another row that are due and read.
pub(crate) fn make_due<R: Rows>(
    alloc: Global,
    context: &EdgeContext,
    due: &NumberSet,
    from: &R,
    readings: &mut Vec<Reading>,
    into: &mut R,
    gained: &mut NumberSet,
    elements: &mut NumberSet,
) -> Result<(), NoMemory>
    requires from_locations { R.location_limit from.now ≡ length context.now.table.now.locations }
    requires from_elements { R.element_limit from.now ≡ length context.now.table.now.elements }
    requires locations { R.location_limit into.old ≡ length context.now.table.now.locations }
    requires elements { R.element_limit into.old ≡ length context.now.table.now.elements }
    requires gained { gained.old.limit ≡ length context.now.table.now.locations }
    requires limit { elements.old.limit ≡ length context.now.table.now.elements }
    requires are { AreReadings (crossing_in context.now) readings.old.items }
    requires made { AreMade (crossing_in context.now) readings.old.items (holds due.now) (R.has from.now) (R.has into.old) }
    ensures are { AreReadings (crossing_in context.now) readings.new.items }
    ensures made { OnOk result (AreMade (crossing_in context.now) readings.new.items none_due (R.has from.now) (R.has into.new)) }
    ensures some { GainsSome (R.has into.old) (R.has into.new) (MakesFrom (crossing_in context.now) readings.old.items (R.has from.now)) }
    ensures noted { OnOk result (Notes (R.has into.old) (R.has into.new) (holds gained.old) (holds gained.new)) }
    ensures locations { R.location_limit into.new ≡ R.location_limit into.old }
    ensures elements { R.element_limit into.new ≡ R.element_limit into.old }
    ensures gained { gained.new.limit ≡ gained.old.limit }
    ensures limit { elements.new.limit ≡ elements.old.limit }
{
    for k in 0..readings.len() {
        if due.contains(readings[k].location) {
            readings[k].make(alloc, context, from, into, gained, elements)?;
        }
    }
    Ok(())
}

impl Reading {
    // Adds what is made of the elements that weren't seen, and sees them.
    fn make<R: Rows>(
        &mut self,
        alloc: Global,
        context: &EdgeContext,
        from: &R,
        into: &mut R,
        gained: &mut NumberSet,
        elements: &mut NumberSet,
    ) -> Result<(), NoMemory>
        requires location { self.old.location < R.location_limit from.now }
        requires from_elements { R.element_limit from.now ≡ length context.now.table.now.elements }
        requires seen { self.old.seen.limit ≡ length context.now.table.now.elements }
        requires locations { R.location_limit into.old ≡ length context.now.table.now.locations }
        requires elements { R.element_limit into.old ≡ length context.now.table.now.elements }
        requires gained { gained.old.limit ≡ length context.now.table.now.locations }
        requires limit { elements.old.limit ≡ length context.now.table.now.elements }
        ensures location { self.new.location ≡ self.old.location }
        ensures seen_limit { self.new.seen.limit ≡ self.old.seen.limit }
        ensures seen { OnOk result ((e : ℕ) → holds self.new.seen e ≡ (R.has from.now self.old.location e || holds self.old.seen e)) }
        ensures made { OnOk result ((l m : ℕ) → MakesAt (crossing_in context.now) self.old.location (λ e. R.has from.now self.old.location e && not (holds self.old.seen e)) l m → IsTrue (R.has into.new l m)) }
        ensures some { GainsSome (R.has into.old) (R.has into.new) (MakesAt (crossing_in context.now) self.old.location (R.has from.now self.old.location)) }
        ensures noted { OnOk result (Notes (R.has into.old) (R.has into.new) (holds gained.old) (holds gained.new)) }
        ensures locations { R.location_limit into.new ≡ R.location_limit into.old }
        ensures elements { R.element_limit into.new ≡ R.element_limit into.old }
        ensures gained { gained.new.limit ≡ gained.old.limit }
        ensures limit { elements.new.limit ≡ elements.old.limit }
    {
        from.read(self.location, elements);
        elements.remove_all(&self.seen);
        make_of(alloc, context, self.location, elements, into, gained)?;
        self.seen.add_all(elements);
        Ok(())
    }
}

// Adds what is made of these elements at a location.
fn make_of<R: Rows>(
    alloc: Global,
    context: &EdgeContext,
    location: u32,
    elements: &NumberSet,
    into: &mut R,
    gained: &mut NumberSet,
) -> Result<(), NoMemory>
    requires locations { R.location_limit into.old ≡ length context.now.table.now.locations }
    requires elements { R.element_limit into.old ≡ length context.now.table.now.elements }
    requires gained { gained.old.limit ≡ length context.now.table.now.locations }
    ensures made { OnOk result ((l m : ℕ) → MakesAt (crossing_in context.now) location (holds elements.now) l m → IsTrue (R.has into.new l m)) }
    ensures some { GainsSome (R.has into.old) (R.has into.new) (MakesAt (crossing_in context.now) location (holds elements.now)) }
    ensures noted { OnOk result (Notes (R.has into.old) (R.has into.new) (holds gained.old) (holds gained.new)) }
    ensures locations { R.location_limit into.new ≡ R.location_limit into.old }
    ensures elements { R.element_limit into.new ≡ R.element_limit into.old }
    ensures gained { gained.new.limit ≡ gained.old.limit }
{
    let mut facts = Vec::new(alloc);
    push_all_made(alloc, context, location, elements, &mut facts)?;
    add_facts(context.table, &facts, into, gained)
}

// Adds the facts that are made of these elements at a location.
fn push_all_made(
    alloc: Global,
    context: &EdgeContext,
    location: u32,
    elements: &NumberSet,
    facts: &mut Vec<Fact>,
) -> Result<(), NoMemory>
    ensures { OnOk result ((x : Fact) → Contains facts.new.items x ↔ (Contains facts.old.items x ⊎ IsMadeAt (crossing_in context.now) location (holds elements.now) x)) }
{
    let end = elements.limit();
    let mut from = 0;
    while from < end {
        match elements.next(from) {
            None => return Ok(()),
            Some(e) => {
                push_made_of(alloc, context, location, e, facts)?;
                from = e + 1;
            }
        }
    }
    Ok(())
}

// Adds the facts that are made of an element at a location.
fn push_made_of(
    alloc: Global,
    context: &EdgeContext,
    location: u32,
    element: u32,
    facts: &mut Vec<Fact>,
) -> Result<(), NoMemory>
    ensures { OnOk result
        (facts.new.items ≡ facts.old.items ++ made_facts (crossing_in context.now) location element) }
{
    match context.table.location_at(location) {
        None => Ok(()),
        Some(location) => match context.table.element(element) {
            None => Ok(()),
            Some(element) => push_made_fact(alloc, context, location, element, facts),
        },
    }
}

// Adds the facts that are made of one.
fn push_made_fact(
    alloc: Global,
    context: &EdgeContext,
    location: &AbsPlace,
    element: &Element,
    facts: &mut Vec<Fact>,
) -> Result<(), NoMemory>
    ensures { OnOk result
        (facts.new.items ≡ facts.old.items ++ made_by (crossing_in context.now) (fact_at location.now element.now)) }
{
    let fact = Fact {
        location: *location,
        element: *element,
    };
    push_made(
        alloc,
        context.types,
        context.f,
        context.edge.branch,
        context.spot,
        context.callee,
        &fact,
        facts,
    )
}

// Adds a location that is read.
fn push_reading(
    alloc: Global,
    context: &EdgeContext,
    n: u32,
    readings: &mut Vec<Reading>,
) -> Result<(), NoMemory>
    ensures { OnOk result ((r : Reading) × ((readings.new.items ≡ readings.old.items ++ r ∷ []) × IsUnseen (length context.now.table.now.elements) n r)) }
{
    let seen = NumberSet::empty(alloc, context.table.element_count())?;
    readings.push(Reading { location: n, seen })?;
    Ok(())
}
