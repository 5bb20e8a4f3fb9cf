// What becomes of elements at a location that isn't written.
ghost use Rattle.std.specs.Prelude.{◌≡◌, ◌≢◌, ◌↔◌, ◌⊎◌, ◌+◌, ◌++◌, ◌∷◌, ℕ, ◌<◌, [], Some, false, true, Contains, IfOk, IfSome, OnOk, IsTrue, length, slice_get, option_map};
ghost use Rattle.life_core.specs.Node.{spot_seen};
ghost use Rattle.life_pset.specs.Table.{Table};
ghost use Rattle.life_pset.specs.declared.element.Element.{Element};
ghost use Rattle.life_sets.specs.NumberSets.{holds};
ghost use Rattle.life_rules.specs.Staying.{spot_writes};
ghost use Rattle.life_plan.specs.Crossing.{crossing_in, IsContext};
ghost use Rattle.life_plan.specs.Noting.{AreNoted, IsOnly, NamesOther};
ghost use Rattle.life_plan.specs.Numbered.{passes, AreSized, Becomes, IsStaying};
ghost use Rattle.life_plan.specs.declared.staying.Becoming.{Becoming};

use crate::context::EdgeContext;
use crate::numbers::insert_if;
use life_pset::{Element, ElementTable};
use life_rules::{is_removed, is_written_at, moves_elements, push_staying};
use life_sets::NumberSet;
use life_types::NoMemory;
use std::alloc::Global;

/// What becomes of elements at the locations that aren't written.
#[derive(Drop)]
pub struct Staying {
    // the locations that are written
    pub(crate) written: NumberSet,
    // the elements that don't stay as they are
    pub(crate) gone: NumberSet,
    // what they become
    pub(crate) becoming: Vec<Becoming>,
}

/// An element, and those that become it.
#[derive(Drop)]
pub struct Becoming {
    pub(crate) element: u32,
    pub(crate) from: NumberSet,
}

impl Staying {
    /// What stays along the edge.
    pub(crate) fn of(alloc: Global, context: &EdgeContext) -> Result<Staying, NoMemory>
        requires { IsContext context.now }
        ensures { IfOk result (λ staying. IsStaying (crossing_in context.now) staying) }
    {
        let written = written_locations(alloc, context)?;
        let mut gone = NumberSet::empty(alloc, context.table.element_count())?;
        let mut becoming = Vec::new(alloc);
        if moves_elements(context.types, context.f, context.spot) {
            note_all(alloc, context, &mut gone, &mut becoming)?;
        }
        Ok(Staying {
            written,
            gone,
            becoming,
        })
    }
}

// The locations that the edge's first point writes.
fn written_locations(alloc: Global, context: &EdgeContext) -> Result<NumberSet, NoMemory>
    ensures limit { IfOk result (λ set. set.limit ≡ length context.now.table.now.locations) }
    ensures each { IfOk result (λ set. (n : ℕ) → holds set n ≡ passes (spot_writes (option_map spot_seen context.now.spot)) (slice_get context.now.table.now.locations n)) }
{
    let mut set = NumberSet::empty(alloc, context.table.location_count())?;
    for n in 0..context.table.location_count() {
        insert_if(is_written(context, n), n, &mut set);
    }
    Ok(set)
}

// Whether the location with this number is written.
pub(crate) fn is_written(context: &EdgeContext, n: u32) -> bool
    ensures { result ≡ passes (spot_writes (option_map spot_seen context.now.spot)) (slice_get context.now.table.now.locations n) }
{
    match context.table.location_at(n) {
        None => false,
        Some(location) => is_written_at(context.spot, location),
    }
}

// Adds what becomes of each element of the function.
fn note_all(
    alloc: Global,
    context: &EdgeContext,
    gone: &mut NumberSet,
    becoming: &mut Vec<Becoming>,
) -> Result<(), NoMemory>
    requires limit { gone.old.limit ≡ length context.now.table.now.elements }
    requires none { (n : ℕ) → holds gone.old n ≡ false }
    requires empty { becoming.old.items ≡ [] }
    ensures noted { OnOk result (AreNoted (crossing_in context.now) (length context.now.table.now.elements) gone.new becoming.new.items) }
    ensures limit { gone.new.limit ≡ gone.old.limit }
{
    for e in 0..context.table.element_count() {
        note_element(alloc, context, e, gone, becoming)?;
    }
    Ok(())
}

// Adds what becomes of the element with this number. Most stay as they are.
fn note_element(
    alloc: Global,
    context: &EdgeContext,
    e: u32,
    gone: &mut NumberSet,
    becoming: &mut Vec<Becoming>,
) -> Result<(), NoMemory>
    requires within { e < length context.now.table.now.elements }
    requires limit { gone.old.limit ≡ length context.now.table.now.elements }
    requires noted { AreNoted (crossing_in context.now) e gone.old becoming.old.items }
    ensures noted { OnOk result (AreNoted (crossing_in context.now) (e + 1) gone.new becoming.new.items) }
    ensures limit { gone.new.limit ≡ gone.old.limit }
{
    match context.table.element(e) {
        None => Ok(()),
        Some(element) => {
            if is_removed(context.types, context.f, context.spot, element) {
                note_removed(alloc, context, e, element, gone, becoming)
            } else {
                Ok(())
            }
        }
    }
}

// Adds what becomes of the element with this number, which may not stay.
fn note_removed(
    alloc: Global,
    context: &EdgeContext,
    e: u32,
    element: &Element,
    gone: &mut NumberSet,
    becoming: &mut Vec<Becoming>,
) -> Result<(), NoMemory>
    requires at { slice_get context.now.table.now.elements e ≡ Some element.now }
    requires within { e < length context.now.table.now.elements }
    requires limit { gone.old.limit ≡ length context.now.table.now.elements }
    requires noted { AreNoted (crossing_in context.now) e gone.old becoming.old.items }
    ensures noted { OnOk result (AreNoted (crossing_in context.now) (e + 1) gone.new becoming.new.items) }
    ensures limit { gone.new.limit ≡ gone.old.limit }
{
    let mut stays = Vec::new(alloc);
    push_staying(context.types, context.f, context.spot, element, &mut stays)?;
    insert_if(!is_among(element, &stays), e, gone);
    note_changes(alloc, context.table, e, element, &stays, becoming)?;
    Ok(())
}

// Whether the element is one of these.
fn is_among(element: &Element, elements: &[Element]) -> bool
    ensures { IsTrue result ↔ Contains elements.now element.now }
{
    elements.contains(element)
}

// Adds that the element with this number becomes those of these that are others.
fn note_changes(
    alloc: Global,
    table: &ElementTable,
    e: u32,
    element: &Element,
    stays: &[Element],
    becoming: &mut Vec<Becoming>,
) -> Result<(), NoMemory>
    requires within { e < length table.now.elements }
    requires sized { AreSized (length table.now.elements) becoming.old.items }
    ensures noted { OnOk result ((d m : ℕ) → Becomes becoming.new.items d m ↔ (Becomes becoming.old.items d m ⊎ ((d ≡ e) × NamesOther table.now element.now stays.now m))) }
    ensures sized { OnOk result (AreSized (length table.now.elements) becoming.new.items) }
{
    for other in stays {
        if is_other(other, element) {
            note_named(alloc, table, e, other, becoming)?;
        }
    }
    Ok(())
}

// Whether these are two elements.
fn is_other(first: &Element, second: &Element) -> bool
    ensures other { result ≡ true → first.now ≢ second.now }
    ensures same { result ≡ false → first.now ≡ second.now }
{
    first != second
}

// Adds that the element with this number becomes another, if that is the function's.
fn note_named(
    alloc: Global,
    table: &ElementTable,
    e: u32,
    other: &Element,
    becoming: &mut Vec<Becoming>,
) -> Result<(), NoMemory>
    requires within { e < length table.now.elements }
    requires sized { AreSized (length table.now.elements) becoming.old.items }
    ensures noted { OnOk result ((d m : ℕ) → Becomes becoming.new.items d m ↔ (Becomes becoming.old.items d m ⊎ ((d ≡ e) × (slice_get table.now.elements m ≡ Some other.now)))) }
    ensures sized { OnOk result (AreSized (length table.now.elements) becoming.new.items) }
{
    match table.number(other) {
        None => Ok(()),
        Some(m) => note_change(alloc, table.element_count(), e, m, becoming),
    }
}

// Adds that one element becomes another.
fn note_change(
    alloc: Global,
    count: u32,
    e: u32,
    m: u32,
    becoming: &mut Vec<Becoming>,
) -> Result<(), NoMemory>
    requires first { e < count }
    requires second { m < count }
    requires sized { AreSized count becoming.old.items }
    ensures noted { OnOk result ((d n : ℕ) → Becomes becoming.new.items d n ↔ (Becomes becoming.old.items d n ⊎ ((d ≡ e) × (n ≡ m)))) }
    ensures sized { OnOk result (AreSized count becoming.new.items) }
{
    match place_of(becoming, m) {
        Some(k) => {
            becoming[k].from.insert(e);
        }
        None => {
            let change = only(alloc, count, e, m)?;
            becoming.push(change)?;
        }
    }
    Ok(())
}

// Where the change to an element stands.
fn place_of(becoming: &[Becoming], m: u32) -> Option<usize>
    ensures { IfSome result (λ k. (k < length becoming.now) × ((b : Becoming) → slice_get becoming.now k ≡ Some b → b.element ≡ m)) }
{
    for k in 0..becoming.len() {
        if becoming[k].element == m {
            return Some(k);
        }
    }
    None
}

// The change of one element to another.
fn only(alloc: Global, count: u32, e: u32, m: u32) -> Result<Becoming, NoMemory>
    requires { e < count }
    ensures { IfOk result (λ change. IsOnly count e m change) }
{
    let mut from = NumberSet::empty(alloc, count)?;
    from.insert(e);
    Ok(Becoming { element: m, from })
}
