// A row as one bit for each pair.
ghost use Rattle.std.specs.Prelude.{◌≡◌, ◌||◌, ◌&&◌, ◌==◌, ◌++◌, ◌∷◌, [], cond, ℕ, ◌+◌, ◌*◌, ◌/◌, ◌%◌, ◌<◌, ◌≤◌, ◌^◌, IsTrue, IfOk, OnOk, not, ◌↔◌, Contains, length, min, slice_index, bit_or};
ghost use Rattle.life_sets.specs.BitSets.{words_for, has_bit, word_of, contains_bit, IsClean, IsFilled, IsJoined, TellsGain, AreWords};
ghost use Rattle.life_sets.specs.Listed.{IsListed};
ghost use Rattle.life_sets.specs.Pairs.{IsAscending};

use crate::bit_pairs::{set_pair, test_pair, word_of, words_for};
use crate::number_set::NumberSet;
use crate::rows::Rows;
use crate::words::{join_words, join_words_at, words_at, zeros};
use life_types::NoMemory;
use smallvec::SmallVec;
use std::alloc::Global;
use std::marker::Model;

/// A row as one bit for each pair: quick to join. It takes all of its memory when it is made, and none
/// for up to 16 words, which serve most functions.
#[derive(Drop)]
pub struct BitRows {
    locations: u32,
    elements: u32,
    words: SmallVec<u64, 16>,
}

impl Model for BitRows {
    ghost use Rattle.life_sets.specs.BitSets.{BitSet, IsLaidOut};

    ghost Value = { BitSet };

    ghost view = { λ row. record { locations = row.locations; elements = row.elements; words = row.words.items } };

    ghost invariant = { λ row. IsLaidOut row.locations row.elements row.words.items };
}

impl BitRows {
    /// How many words each location has: the least number that have a bit for each element.
    pub fn words_per_location(&self) -> usize
        ensures { result ≡ words_for self.now.elements }
    {
        words_for(self.elements)
    }

    /// The words, with bit 0 as the lowest: where a location has W words, the pair (l, e) is in the
    /// row exactly where bit e % 64 of the word l * W + e / 64 is set. The bits of no pair are 0.
    pub fn words(&self) -> &[u64]
        ensures length { length result.now ≡ self.now.locations * words_for self.now.elements }
        ensures layout { (l e : ℕ) → l < self.now.locations → e < self.now.elements →
            ⟦<BitRows as Rows>⟧.has self.now l e ≡ has_bit (slice_index result.now (l * words_for self.now.elements + e / 64)) (e % 64) }
        ensures clean { IsClean self.now.elements result.now }
    {
        &self.words
    }
}

impl Rows for BitRows {
    ghost use Rattle.life_sets.specs.BitSets.{contains};

    ghost has = { contains };

    ghost location_limit = { λ row. row.locations };

    ghost element_limit = { λ row. row.elements };

    fn empty(alloc: Global, locations: u32, elements: u32) -> Result<Self, NoMemory> {
        let count = locations as usize * words_for(elements);
        let words = zeros(alloc, count)?;
        Ok(BitRows {
            locations,
            elements,
            words,
        })
    }

    fn insert(&mut self, location: u32, element: u32) -> Result<bool, NoMemory> {
        let fresh = set_pair(
            &mut self.words,
            self.locations,
            self.elements,
            location,
            element,
        );
        Ok(fresh)
    }

    fn contains(&self, location: u32, element: u32) -> bool {
        test_pair(
            &self.words,
            self.locations,
            self.elements,
            location,
            element,
        )
    }

    fn facts(&self, alloc: Global) -> Result<Vec<(u32, u32)>, NoMemory> {
        let facts = pairs_of(alloc, &self.words, self.locations, self.elements)?;
        Ok(facts)
    }

    fn join_into(&self, into: &mut Self) -> Result<bool, NoMemory> {
        let gained = join_words(&self.words, &mut into.words);
        Ok(gained)
    }

    fn read(&self, location: u32, into: &mut NumberSet) {
        into.set_words(words_at(&self.words, self.locations, self.elements, location))
    }

    fn join_at(&mut self, location: u32, elements: &NumberSet) -> Result<bool, NoMemory> {
        let gained = join_words_at(
            elements.words(),
            &mut self.words,
            self.locations,
            self.elements,
            location,
        );
        Ok(gained)
    }

    fn join_from(&mut self, other: &Self, location: u32) -> Result<bool, NoMemory> {
        let gained = join_words_at(
            words_at(&other.words, other.locations, other.elements, location),
            &mut self.words,
            self.locations,
            self.elements,
            location,
        );
        Ok(gained)
    }
}

// The pairs in order.
fn pairs_of(
    alloc: Global,
    words: &[u64],
    locations: u32,
    elements: u32,
) -> Result<Vec<(u32, u32)>, NoMemory>
    requires { IsFilled locations elements words.now }
    ensures each { IfOk result (λ all. (l e : ℕ) → Contains all.items (l, e) ↔ IsTrue (contains_bit locations elements words.now l e)) }
    ensures ascending { IfOk result (λ all. IsAscending all.items) }
{
    let mut all = Vec::new(alloc);
    for l in 0..locations {
        push_location(words, locations, elements, l, &mut all)?;
    }
    Ok(all)
}

// Lists the pairs of one location, and skips words without a bit.
fn push_location(
    words: &[u64],
    locations: u32,
    elements: u32,
    l: u32,
    all: &mut Vec<(u32, u32)>,
) -> Result<(), NoMemory>
    requires filled { IsFilled locations elements words.now }
    requires location { l < locations }
    requires listed { IsListed (contains_bit locations elements words.now) l 0 all.old.items }
    ensures { OnOk result (IsListed (contains_bit locations elements words.now) (l + 1) 0 all.new.items) }
{
    for k in 0..words_for(elements) {
        let start = k as u32 * 64;
        let end = start + (elements - start).min(64);
        push_word(words, locations, elements, l, start, end, all)?;
    }
    Ok(())
}

// Lists the pairs of one word.
fn push_word(
    words: &[u64],
    locations: u32,
    elements: u32,
    l: u32,
    start: u32,
    end: u32,
    all: &mut Vec<(u32, u32)>,
) -> Result<(), NoMemory>
    requires filled { IsFilled locations elements words.now }
    requires location { l < locations }
    requires first { start % 64 ≡ 0 }
    requires last { end ≤ min (start + 64) elements }
    requires some { start < end }
    requires listed { IsListed (contains_bit locations elements words.now) l start all.old.items }
    ensures { OnOk result (IsListed (contains_bit locations elements words.now) l end all.new.items) }
{
    if words[word_of(elements, l, start)] == 0 {
        return Ok(());
    }
    for e in start..end {
        push_where(test_pair(words, locations, elements, l, e), (l, e), all)?;
    }
    Ok(())
}

// Adds the pair where the test holds.
fn push_where(test: bool, pair: (u32, u32), all: &mut Vec<(u32, u32)>) -> Result<(), NoMemory>
    ensures { OnOk result (all.new.items ≡ all.old.items ++ cond test (pair ∷ []) []) }
{
    if test {
        all.push(pair)?;
    }
    Ok(())
}
