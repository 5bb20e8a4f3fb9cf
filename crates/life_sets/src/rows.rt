// Rows: the facts at one point, as pairs of numbers.
ghost use Rattle.std.specs.Prelude.{◌≡◌, ℕ, ◌<◌, ◌||◌, ◌&&◌, ◌==◌, Bool, true, false, not, ◌↔◌, IfOk, OnOk, OnErr, IsTrue, Contains};
ghost use Rattle.life_sets.specs.NumberSets.{holds, pairs_at};
ghost use Rattle.life_sets.specs.Pairs.{pairs_from, AllWithin, IsAscending, HasNew, IsBetween};

use crate::number_set::NumberSet;
use life_types::NoMemory;
use std::alloc::Global;

/// The facts that may hold at a point: a set of pairs of a location's number and an element's number.
/// The numbers are those of an `ElementTable`, each below the limit that the row was made with.
pub trait Rows: Sized + Drop {
    /// Whether the pair is in the row.
    ghost has: { Self → ℕ → ℕ → Bool };

    /// How many locations there are.
    ghost location_limit: { Self → ℕ };

    /// How many elements there are.
    ghost element_limit: { Self → ℕ };

    /// A row without pairs, for this many locations and elements.
    fn empty(alloc: Global, locations: u32, elements: u32) -> Result<Self, NoMemory>
        ensures none { IfOk result (λ row. (l e : ℕ) → has row l e ≡ false) }
        ensures locations { IfOk result (λ row. location_limit row ≡ locations) }
        ensures elements { IfOk result (λ row. element_limit row ≡ elements) };

    /// Adds a pair, and says whether it is new. After `NoMemory` the row has the pairs that it had.
    fn insert(&mut self, location: u32, element: u32) -> Result<bool, NoMemory>
        requires location { location < location_limit self.old }
        requires element { element < element_limit self.old }
        ensures added { OnOk result ((l e : ℕ) → has self.new l e ≡ ((l == location && e == element) || has self.old l e)) }
        ensures fresh { IfOk result (λ fresh. fresh ≡ not (has self.old location element)) }
        ensures err { OnErr result ((l e : ℕ) → has self.new l e ≡ has self.old l e) }
        ensures locations { location_limit self.new ≡ location_limit self.old }
        ensures elements { element_limit self.new ≡ element_limit self.old };

    /// Whether the pair is in the row. One with a number past a limit isn't.
    fn contains(&self, location: u32, element: u32) -> bool
        ensures { result ≡ has self.now location element };

    /// The pairs, each once: in ascending order of their locations, those of a location in ascending
    /// order of their elements.
    fn facts(&self, alloc: Global) -> Result<Vec<(u32, u32)>, NoMemory>
        ensures each { IfOk result (λ facts. (l e : ℕ) → Contains facts.items (l, e) ↔ IsTrue (has self.now l e)) }
        ensures within { IfOk result (λ facts. AllWithin (location_limit self.now) (element_limit self.now) facts.items) }
        ensures ascending { IfOk result (λ facts. IsAscending facts.items) };

    /// Adds the pairs of this row to another row with the same limits, and says whether that one
    /// gained a pair. After `NoMemory` it has its own pairs and some of this row's.
    fn join_into(&self, into: &mut Self) -> Result<bool, NoMemory>
        requires locations { location_limit self.now ≡ location_limit into.old }
        requires elements { element_limit self.now ≡ element_limit into.old }
        ensures joined { OnOk result ((l e : ℕ) → has into.new l e ≡ (has self.now l e || has into.old l e)) }
        ensures gained { IfOk result (λ gained. IsTrue gained ↔ HasNew (has into.old) (has into.new)) }
        ensures between { IsBetween (has self.now) (has into.old) (has into.new) }
        ensures locations { location_limit into.new ≡ location_limit into.old }
        ensures elements { element_limit into.new ≡ element_limit into.old };

    /// Takes the elements that the row has at a location in place of what `into` held.
    fn read(&self, location: u32, into: &mut NumberSet)
        requires location { location < location_limit self.now }
        requires limit { into.old.limit ≡ element_limit self.now }
        ensures read { (e : ℕ) → holds into.new e ≡ has self.now location e }
        ensures limit { into.new.limit ≡ into.old.limit };

    /// Adds the elements of a set at a location, and says whether the row gained a pair. After
    /// `NoMemory` it has its own pairs and some of those.
    fn join_at(&mut self, location: u32, elements: &NumberSet) -> Result<bool, NoMemory>
        requires location { location < location_limit self.old }
        requires limit { elements.now.limit ≡ element_limit self.old }
        ensures joined { OnOk result ((l e : ℕ) → has self.new l e ≡ (pairs_at location elements.now l e || has self.old l e)) }
        ensures gained { IfOk result (λ gained. IsTrue gained ↔ HasNew (has self.old) (has self.new)) }
        ensures between { IsBetween (pairs_at location elements.now) (has self.old) (has self.new) }
        ensures locations { location_limit self.new ≡ location_limit self.old }
        ensures elements { element_limit self.new ≡ element_limit self.old };

    /// Adds the elements that another row with the same limits has at a location, and says whether
    /// this row gained a pair. After `NoMemory` it has its own pairs and some of those.
    fn join_from(&mut self, other: &Self, location: u32) -> Result<bool, NoMemory>
        requires location { location < location_limit self.old }
        requires locations { location_limit other.now ≡ location_limit self.old }
        requires elements { element_limit other.now ≡ element_limit self.old }
        ensures joined { OnOk result ((l e : ℕ) → has self.new l e ≡ (pairs_from (has other.now) location l e || has self.old l e)) }
        ensures gained { IfOk result (λ gained. IsTrue gained ↔ HasNew (has self.old) (has self.new)) }
        ensures between { IsBetween (pairs_from (has other.now) location) (has self.old) (has self.new) }
        ensures within { (e : ℕ) → IsTrue (has other.now location e) → e < element_limit other.now }
        ensures locations { location_limit self.new ≡ location_limit self.old }
        ensures elements { element_limit self.new ≡ element_limit self.old };
}
