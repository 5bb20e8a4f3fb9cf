// A row as an ordered set.
ghost use Rattle.std.specs.Prelude.{◌≡◌, ℕ, ◌<◌, ◌||◌, false, IsTrue, IfOk, OnOk, OnErr, not, ◌↔◌};
ghost use Rattle.life_sets.specs.NumberSets.{holds, pairs_at};
ghost use Rattle.life_sets.specs.PairSets.{contains_pair, AddsPair, AddsKeys, IsAmong, IsPairWithin};
ghost use Rattle.life_sets.specs.Pairs.{pairs_from, IsAscending, HasNew, IsBetween};

use crate::number_set::NumberSet;
use crate::rows::Rows;
use life_types::NoMemory;
use std::alloc::{AllocError, Global};
use std::collections::BTreeSet;

// Adds a pair, and says whether it is new.
fn insert_pair(pairs: &mut BTreeSet<(u32, u32)>, l: u32, e: u32) -> Result<bool, NoMemory>
    ensures added { OnOk result (AddsPair l e (contains_pair pairs.old) (contains_pair pairs.new)) }
    ensures fresh { IfOk result (λ fresh. fresh ≡ not (contains_pair pairs.old l e)) }
    ensures err { OnErr result ((p q : ℕ) → contains_pair pairs.new p q ≡ contains_pair pairs.old p q) }
{
    let fresh = pairs.insert((l, e))?;
    Ok(fresh)
}

// The pairs in order, in one pass.
fn pairs_of(alloc: Global, pairs: &BTreeSet<(u32, u32)>) -> Result<Vec<(u32, u32)>, AllocError>
    ensures items { IfOk result (λ all. all.items ≡ pairs.now.keys) }
    ensures ascending { IfOk result (λ all. IsAscending all.items) }
{
    pairs.iter().copied().collect(alloc)
}

// Adds the first set's pairs to the second, and says whether one was new there.
fn join_pairs(
    from: &BTreeSet<(u32, u32)>,
    into: &mut BTreeSet<(u32, u32)>,
) -> Result<bool, NoMemory>
    ensures joined { OnOk result (AddsKeys from.now.keys (contains_pair into.old) (contains_pair into.new)) }
    ensures gained { IfOk result (λ gained. IsTrue gained ↔ HasNew (contains_pair into.old) (contains_pair into.new)) }
    ensures among { IsAmong from.now.keys (contains_pair into.old) (contains_pair into.new) }
{
    let mut gained = false;
    for pair in from.iter() {
        gained |= insert_pair(into, pair.0, pair.1)?;
    }
    Ok(gained)
}

// Adds the second numbers of the pairs that begin with the location.
fn read_pairs(pairs: &BTreeSet<(u32, u32)>, location: u32, into: &mut NumberSet)
    requires { (e : ℕ) → holds into.old e ≡ false }
    ensures read { (e : ℕ) → e < into.old.limit → holds into.new e ≡ contains_pair pairs.now location e }
    ensures limit { into.new.limit ≡ into.old.limit }
{
    for element in 0..into.limit() {
        if pairs.contains(&(location, element)) {
            into.insert(element);
        }
    }
}

// Adds a pair for each number of a set, and says whether one was new.
fn join_elements(
    location: u32,
    elements: &NumberSet,
    pairs: &mut BTreeSet<(u32, u32)>,
) -> Result<bool, NoMemory>
    ensures joined { OnOk result ((l e : ℕ) → contains_pair pairs.new l e ≡ (pairs_at location elements.now l e || contains_pair pairs.old l e)) }
    ensures gained { IfOk result (λ gained. IsTrue gained ↔ HasNew (contains_pair pairs.old) (contains_pair pairs.new)) }
    ensures between { IsBetween (pairs_at location elements.now) (contains_pair pairs.old) (contains_pair pairs.new) }
{
    let mut gained = false;
    for element in 0..elements.limit() {
        if elements.contains(element) {
            gained |= insert_pair(pairs, location, element)?;
        }
    }
    Ok(gained)
}

// Adds the first set's pairs of a location, with elements below a limit, and says whether one was new.
fn join_location(
    from: &BTreeSet<(u32, u32)>,
    location: u32,
    limit: u32,
    into: &mut BTreeSet<(u32, u32)>,
) -> Result<bool, NoMemory>
    requires { (e : ℕ) → IsTrue (contains_pair from.now location e) → e < limit }
    ensures joined { OnOk result ((l e : ℕ) → contains_pair into.new l e ≡ (pairs_from (contains_pair from.now) location l e || contains_pair into.old l e)) }
    ensures gained { IfOk result (λ gained. IsTrue gained ↔ HasNew (contains_pair into.old) (contains_pair into.new)) }
    ensures between { IsBetween (pairs_from (contains_pair from.now) location) (contains_pair into.old) (contains_pair into.new) }
{
    let mut gained = false;
    for element in 0..limit {
        if from.contains(&(location, element)) {
            gained |= insert_pair(into, location, element)?;
        }
    }
    Ok(gained)
}

/// A row as an ordered set of its pairs: small where few facts hold. It takes memory for each pair.
#[derive(Drop)]
pub struct SetRows {
    locations: u32,
    elements: u32,
    pairs: BTreeSet<(u32, u32)>,
    ghost within: { IsPairWithin locations elements pairs },
}

impl Rows for SetRows {
    ghost has = { λ row. contains_pair row.pairs };

    ghost location_limit = { λ row. row.locations };

    ghost element_limit = { λ row. row.elements };

    fn empty(alloc: Global, locations: u32, elements: u32) -> Result<Self, NoMemory> {
        Ok(SetRows {
            locations,
            elements,
            pairs: BTreeSet::new(alloc),
        })
    }

    fn insert(&mut self, location: u32, element: u32) -> Result<bool, NoMemory> {
        insert_pair(&mut self.pairs, location, element)
    }

    fn contains(&self, location: u32, element: u32) -> bool {
        self.pairs.contains(&(location, element))
    }

    fn facts(&self, alloc: Global) -> Result<Vec<(u32, u32)>, NoMemory> {
        let facts = pairs_of(alloc, &self.pairs)?;
        Ok(facts)
    }

    fn join_into(&self, into: &mut Self) -> Result<bool, NoMemory> {
        let gained = join_pairs(&self.pairs, &mut into.pairs)?;
        Ok(gained)
    }

    fn read(&self, location: u32, into: &mut NumberSet) {
        into.clear();
        read_pairs(&self.pairs, location, into)
    }

    fn join_at(&mut self, location: u32, elements: &NumberSet) -> Result<bool, NoMemory> {
        join_elements(location, elements, &mut self.pairs)
    }

    fn join_from(&mut self, other: &Self, location: u32) -> Result<bool, NoMemory> {
        join_location(&other.pairs, location, self.elements, &mut self.pairs)
    }
}
