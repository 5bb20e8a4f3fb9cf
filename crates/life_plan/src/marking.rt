// What targets mark.
ghost use Rattle.std.specs.Prelude.{◌≡◌, ◌||◌, ◌↔◌, ◌⊎◌, ℕ, ◌<◌, Some, None, false, IfOk, IfSome, OnOk, IsTrue, length, slice_get, option_map};
ghost use Rattle.life_core.specs.Function.{function_of};
ghost use Rattle.life_core.specs.Node.{spot_seen};
ghost use Rattle.life_pset.specs.declared.element.Element.{Element};
ghost use Rattle.life_sets.specs.NumberSets.{holds};
ghost use Rattle.life_rules.specs.Staying.{mark, marks, spot_targets};
ghost use Rattle.life_plan.specs.Carried.{none_due, AreSeen};
ghost use Rattle.life_plan.specs.Crossing.{crossing_in};
ghost use Rattle.life_plan.specs.Numbered.{passes, IsMarking, IsNew, MarksNumber};

use crate::context::EdgeContext;
use crate::numbers::insert_if;
use life_core::SpotRef;
use life_pset::Element;
use life_rules::{is_marked, is_target_at, mark_at};
use life_sets::{NumberSet, Rows};
use life_types::NoMemory;
use std::alloc::Global;

/// What the elements of some locations, the targets, make of other elements at each location that
/// isn't written.
#[derive(Drop)]
pub struct Marking {
    // the locations of targets, and the targets that were seen there
    pub(crate) targets: NumberSet,
    pub(crate) seen: NumberSet,
    // what an element becomes that a target marks; None where nothing does
    pub(crate) mark: Option<u32>,
    // what the targets that were seen mark
    pub(crate) mask: NumberSet,
}

impl Marking {
    /// What is marked along the edge; no target was seen yet.
    pub(crate) fn of(alloc: Global, context: &EdgeContext) -> Result<Marking, NoMemory>
        ensures is { IfOk result (λ marking. IsMarking (crossing_in context.now) marking) }
        ensures seen { IfOk result (λ marking. (n : ℕ) → holds marking.seen n ≡ false) }
        ensures mask { IfOk result (λ marking. (n : ℕ) → holds marking.mask n ≡ false) }
    {
        let targets = target_locations(alloc, context)?;
        let seen = NumberSet::empty(alloc, context.table.element_count())?;
        let mark = mark_number(context);
        let mask = NumberSet::empty(alloc, context.table.element_count())?;
        Ok(Marking {
            targets,
            seen,
            mark,
            mask,
        })
    }

    /// Sees the targets at the locations that are due, and says whether the mask grew.
    pub(crate) fn see<R: Rows>(
        &mut self,
        context: &EdgeContext,
        due: &NumberSet,
        from: &R,
        elements: &mut NumberSet,
    ) -> bool
        requires is { IsMarking (crossing_in context.now) self.old }
        requires locations { R.location_limit from.now ≡ length context.now.table.now.locations }
        requires elements { R.element_limit from.now ≡ length context.now.table.now.elements }
        requires due { due.now.limit ≡ length context.now.table.now.locations }
        requires limit { elements.old.limit ≡ length context.now.table.now.elements }
        requires seen { AreSeen (crossing_in context.now) self.old (holds due.now) (R.has from.now) }
        ensures is { IsMarking (crossing_in context.now) self.new }
        ensures seen { AreSeen (crossing_in context.now) self.new none_due (R.has from.now) }
        ensures mark { self.new.mark ≡ self.old.mark }
        ensures grew { result ≡ false → (e : ℕ) → IsTrue (holds self.new.mask e) → IsTrue (holds self.old.mask e) }
        ensures limit { elements.new.limit ≡ elements.old.limit }
    {
        let met = due.meets(&self.targets);
        if !met {
            return false;
        }
        let mut grew = false;
        for q in 0..context.table.location_count() {
            let is_due = due.contains(q) & self.targets.contains(q);
            if is_due {
                grew |= self.see_at(context, q, from, elements);
            }
        }
        grew
    }

    // Sees the targets at a location.
    fn see_at<R: Rows>(
        &mut self,
        context: &EdgeContext,
        q: u32,
        from: &R,
        elements: &mut NumberSet,
    ) -> bool
        requires is { IsMarking (crossing_in context.now) self.old }
        requires location { q < R.location_limit from.now }
        requires elements { R.element_limit from.now ≡ length context.now.table.now.elements }
        requires limit { elements.old.limit ≡ length context.now.table.now.elements }
        ensures is { IsMarking (crossing_in context.now) self.new }
        ensures targets { self.new.targets ≡ self.old.targets }
        ensures mark { self.new.mark ≡ self.old.mark }
        ensures seen { (e : ℕ) → holds self.new.seen e ≡ (R.has from.now q e || holds self.old.seen e) }
        ensures mask { (e : ℕ) → IsTrue (holds self.new.mask e) ↔ (IsTrue (holds self.old.mask e) ⊎ IsNew (crossing_in context.now) (holds self.old.seen) (R.has from.now q) e) }
        ensures grew { result ≡ false → (e : ℕ) → IsTrue (holds self.new.mask e) → IsTrue (holds self.old.mask e) }
        ensures limit { elements.new.limit ≡ elements.old.limit }
    {
        from.read(q, elements);
        elements.remove_all(&self.seen);
        let grew = mark_all(context, elements, &mut self.mask);
        self.seen.add_all(elements);
        grew
    }
}

// Whether the point may mark elements: at most points nothing is marked, and so nothing is a target.
fn marks_some(spot: Option<SpotRef>) -> bool
    ensures { result ≡ false → mark (option_map spot_seen spot.entry) ≡ None }
{
    match mark_at(spot) {
        None => false,
        Some(_) => true,
    }
}

// The locations of targets.
fn target_locations(alloc: Global, context: &EdgeContext) -> Result<NumberSet, NoMemory>
    ensures limit { IfOk result (λ set. set.limit ≡ length context.now.table.now.locations) }
    ensures each { IfOk result (λ set. (n : ℕ) → holds set n
        ≡ passes (spot_targets context.now.sigs.now context.now.types.now (function_of context.now.f.now) (option_map spot_seen context.now.spot)) (slice_get context.now.table.now.locations n)) }
{
    let mut set = NumberSet::empty(alloc, context.table.location_count())?;
    if !marks_some(context.spot) {
        return Ok(set);
    }
    for n in 0..context.table.location_count() {
        insert_if(is_target(context, n), n, &mut set);
    }
    Ok(set)
}

// Whether the elements of the location with this number are targets.
fn is_target(context: &EdgeContext, n: u32) -> bool
    ensures { result
        ≡ passes (spot_targets context.now.sigs.now context.now.types.now (function_of context.now.f.now) (option_map spot_seen context.now.spot)) (slice_get context.now.table.now.locations n) }
{
    match context.table.location_at(n) {
        None => false,
        Some(location) => is_target_at(
            context.types,
            context.f,
            context.spot,
            context.callee,
            location,
        ),
    }
}

// The number of what an element becomes that is marked, if the function has that element.
fn mark_number(context: &EdgeContext) -> Option<u32>
    ensures within { IfSome result (λ n. n < length context.now.table.now.elements) }
    ensures each { (n : ℕ) (y : Element) → slice_get context.now.table.now.elements n ≡ Some y
        → (result ≡ Some n) ↔ (mark (option_map spot_seen context.now.spot) ≡ Some y) }
{
    match mark_at(context.spot) {
        None => None,
        Some(mark) => context.table.number(&mark),
    }
}

// Adds what each of these targets marks, and says whether one of that is new.
fn mark_all(context: &EdgeContext, targets: &NumberSet, mask: &mut NumberSet) -> bool
    requires limit { mask.old.limit ≡ length context.now.table.now.elements }
    ensures mask { (e : ℕ) → IsTrue (holds mask.new e) ↔ (IsTrue (holds mask.old e) ⊎ ((d : ℕ) × (IsTrue (holds targets.now d) × MarksNumber (crossing_in context.now) d e))) }
    ensures grew { result ≡ false → (e : ℕ) → IsTrue (holds mask.new e) → IsTrue (holds mask.old e) }
    ensures limit { mask.new.limit ≡ mask.old.limit }
{
    let mut grew = false;
    for d in 0..targets.limit() {
        if targets.contains(d) {
            grew |= mark_by(context, d, mask);
        }
    }
    grew
}

// Adds what the target with this number marks.
fn mark_by(context: &EdgeContext, d: u32, mask: &mut NumberSet) -> bool
    requires limit { mask.old.limit ≡ length context.now.table.now.elements }
    ensures mask { (e : ℕ) → IsTrue (holds mask.new e) ↔ (IsTrue (holds mask.old e) ⊎ MarksNumber (crossing_in context.now) d e) }
    ensures grew { result ≡ false → (e : ℕ) → IsTrue (holds mask.new e) → IsTrue (holds mask.old e) }
    ensures limit { mask.new.limit ≡ mask.old.limit }
{
    match context.table.element(d) {
        None => false,
        Some(target) => mark_under(context, target, mask),
    }
}

// Adds what a target marks.
fn mark_under(context: &EdgeContext, target: &Element, mask: &mut NumberSet) -> bool
    requires limit { mask.old.limit ≡ length context.now.table.now.elements }
    ensures mask { (e : ℕ) → holds mask.new e ≡ (passes (marks (option_map spot_seen context.now.spot) target.now) (slice_get context.now.table.now.elements e) || holds mask.old e) }
    ensures grew { result ≡ false → (e : ℕ) → IsTrue (holds mask.new e) → IsTrue (holds mask.old e) }
    ensures limit { mask.new.limit ≡ mask.old.limit }
{
    let mut grew = false;
    for e in 0..context.table.element_count() {
        grew |= insert_if(is_victim(context, target, e), e, mask);
    }
    grew
}

// Whether a target marks the element with this number.
fn is_victim(context: &EdgeContext, target: &Element, e: u32) -> bool
    ensures { result ≡ passes (marks (option_map spot_seen context.now.spot) target.now) (slice_get context.now.table.now.elements e) }
{
    match context.table.element(e) {
        None => false,
        Some(victim) => is_marked(context.spot, target, victim),
    }
}
