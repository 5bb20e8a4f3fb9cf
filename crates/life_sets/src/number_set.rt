// A set of numbers as one bit for each.
ghost use Rattle.std.specs.Prelude.{◌≡◌, ◌==◌, ◌||◌, ◌&&◌, ℕ, ◌<◌, ◌≤◌, true, false, not, ◌↔◌, IsTrue, IfOk, IfSome, IfNone};
ghost use Rattle.life_sets.specs.BitSets.{IsLaidOut};
ghost use Rattle.life_sets.specs.NumberSets.{holds, HasMore, HasCommon, IsNext};

use crate::bit_pairs::{set_pair, test_pair, words_for};
use crate::words::{are_clear, clear_words, cut_words, join_words_at, meet_words, next_bit, zeros};
use life_types::NoMemory;
use smallvec::SmallVec;
use std::alloc::Global;
use std::marker::Model;

/// A set of numbers below a limit, one bit for each. It takes all of its memory when it is made, and
/// none for up to 128 numbers, which is as many as the locations and elements of most functions.
#[derive(Drop)]
pub struct NumberSet {
    limit: u32,
    words: SmallVec<u64, 2>,
}

impl Model for NumberSet {
    ghost use Rattle.life_sets.specs.BitSets.{IsLaidOut};
    ghost use Rattle.life_sets.specs.NumberSets.{Numbers};

    ghost Value = { Numbers };

    ghost view = { λ set. record { limit = set.limit; words = set.words.items } };

    ghost invariant = { λ set. IsLaidOut 1 set.limit set.words.items };
}

impl NumberSet {
    /// A set without numbers, for those below the limit.
    pub fn empty(alloc: Global, limit: u32) -> Result<Self, NoMemory>
        ensures none { IfOk result (λ set. (n : ℕ) → holds set n ≡ false) }
        ensures limit { IfOk result (λ set. set.limit ≡ limit) }
    {
        let words = zeros(alloc, words_for(limit))?;
        Ok(NumberSet { limit, words })
    }

    /// A set with the same limit and the same numbers.
    pub fn copy(&self, alloc: Global) -> Result<Self, NoMemory>
        ensures { IfOk result (λ set. set ≡ self.now) }
    {
        let words = SmallVec::from_slice(alloc, &self.words)?;
        Ok(NumberSet {
            limit: self.limit,
            words,
        })
    }

    /// What all of its numbers are below.
    pub fn limit(&self) -> u32
        ensures { result ≡ self.now.limit }
    {
        self.limit
    }

    /// Whether it has no number.
    pub fn is_empty(&self) -> bool
        ensures none { result ≡ true → (n : ℕ) → holds self.now n ≡ false }
        ensures some { result ≡ false → (n : ℕ) × IsTrue (holds self.now n) }
    {
        are_clear(&self.words)
    }

    /// Whether the number is in the set. One past the limit isn't.
    pub fn contains(&self, n: u32) -> bool
        ensures { result ≡ holds self.now n }
    {
        test_pair(&self.words, 1, self.limit, 0, n)
    }

    /// Adds a number, and says whether it is new.
    pub fn insert(&mut self, n: u32) -> bool
        requires { n < self.old.limit }
        ensures added { (m : ℕ) → holds self.new m ≡ ((m == n) || holds self.old m) }
        ensures fresh { result ≡ not (holds self.old n) }
        ensures limit { self.new.limit ≡ self.old.limit }
    {
        set_pair(&mut self.words, 1, self.limit, 0, n)
    }

    /// Takes all numbers away.
    pub fn clear(&mut self)
        ensures none { (n : ℕ) → holds self.new n ≡ false }
        ensures limit { self.new.limit ≡ self.old.limit }
    {
        clear_words(&mut self.words)
    }

    /// Adds the numbers of a set with the same limit, and says whether one of them is new.
    pub fn add_all(&mut self, other: &NumberSet) -> bool
        requires { other.now.limit ≡ self.old.limit }
        ensures added { (n : ℕ) → holds self.new n ≡ (holds other.now n || holds self.old n) }
        ensures gained { IsTrue result ↔ HasMore (holds self.old) (holds self.new) }
        ensures limit { self.new.limit ≡ self.old.limit }
    {
        join_words_at(&other.words, &mut self.words, 1, self.limit, 0)
    }

    /// Takes the numbers of a set with the same limit away.
    pub fn remove_all(&mut self, other: &NumberSet)
        requires { other.now.limit ≡ self.old.limit }
        ensures left { (n : ℕ) → holds self.new n ≡ (holds self.old n && not (holds other.now n)) }
        ensures limit { self.new.limit ≡ self.old.limit }
    {
        cut_words(&other.words, &mut self.words)
    }

    /// Whether a number is in this set and in another with the same limit.
    pub fn meets(&self, other: &NumberSet) -> bool
        requires { other.now.limit ≡ self.now.limit }
        ensures { IsTrue result ↔ HasCommon (holds self.now) (holds other.now) }
    {
        meet_words(&self.words, &other.words)
    }

    /// The least number of the set that isn't below `from`, if there is one.
    pub fn next(&self, from: u32) -> Option<u32>
        ensures some { IfSome result (λ n. IsNext (holds self.now) from n) }
        ensures none { IfNone result ((n : ℕ) → from ≤ n → holds self.now n ≡ false) }
        ensures below { IfSome result (λ n. n < self.now.limit) }
    {
        next_bit(&self.words, self.limit, from)
    }

    // The words, as `BitRows` has them for one location.
    pub(crate) fn words(&self) -> &[u64]
        ensures words { result.now ≡ self.now.words }
        ensures laid_out { IsLaidOut 1 self.now.limit result.now }
    {
        &self.words
    }

    // Takes the numbers of such words in place of those that it held.
    pub(crate) fn set_words(&mut self, words: &[u64])
        requires { IsLaidOut 1 self.old.limit words.now }
        ensures words { self.new.words ≡ words.now }
        ensures limit { self.new.limit ≡ self.old.limit }
    {
        self.words.copy_from_slice(words)
    }
}
