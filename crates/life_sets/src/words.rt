// Whole words of bits: joined, cut, compared, and the words of one location.
ghost use Rattle.std.specs.Prelude.{◌≡◌, ◌≢◌, ◌&&◌, ◌||◌, ◌==◌, ◌^◌, ℕ, ◌<◌, ◌≤◌, true, IsTrue, IfOk, IfSome, IfNone, ◌↔◌, false, length, replicate, slice_index};
ghost use Rattle.life_sets.specs.BitSets.{has_bit, words_for, contains_bit, IsClean, IsFilled, IsLaidOut, IsJoined, TellsGain, AreWords};
ghost use Rattle.life_sets.specs.NumberSets.{holds_bit, IsNext, IsCut, TellsCommon};
ghost use Rattle.life_sets.specs.Pairs.{HasNew};

use crate::bit_pairs::words_for;
use smallvec::SmallVec;
use std::alloc::{AllocError, Global};

// So many words without a bit. They take memory only where there are more than N, which stand in the
// value itself.
pub fn zeros<const N: usize>(alloc: Global, count: usize) -> Result<SmallVec<u64, N>, AllocError>
    ensures { IfOk result (λ words. words.items ≡ replicate count 0) }
{
    let mut words = SmallVec::with_capacity(alloc, count)?;
    for _ in 0..count {
        words.push_reserved(0);
    }
    Ok(words)
}

// Adds the bits of the first, and says whether a word changed.
pub fn join_words(from: &[u64], into: &mut [u64]) -> bool
    requires { length from.now ≡ length into.old }
    ensures each { IsJoined from.now into.old into.new }
    ensures tells { TellsGain from.now into.old result }
    ensures from_words { AreWords from.now }
    ensures into_words { AreWords into.old }
{
    let mut gained = false;
    for i in 0..into.len() {
        let word = into[i];
        let joined = from[i] | word;
        gained |= joined != word;
        into[i] = joined;
    }
    gained
}

// Takes the bits of the first away.
pub fn cut_words(from: &[u64], into: &mut [u64])
    requires { length from.now ≡ length into.old }
    ensures each { IsCut from.now into.old into.new }
    ensures from_words { AreWords from.now }
{
    for i in 0..into.len() {
        into[i] &= !from[i];
    }
}

// Whether some bit is in both.
pub fn meet_words(one: &[u64], other: &[u64]) -> bool
    requires { length one.now ≡ length other.now }
    ensures tells { TellsCommon one.now other.now result }
    ensures words { AreWords one.now }
{
    for i in 0..one.len() {
        if one[i] & other[i] != 0 {
            return true;
        }
    }
    false
}

// Takes all bits away.
pub fn clear_words(words: &mut [u64])
    ensures { (k : ℕ) → slice_index words.new k ≡ 0 }
{
    for i in 0..words.len() {
        words[i] = 0;
    }
}

// Whether no bit is set.
pub fn are_clear(words: &[u64]) -> bool
    ensures none { result ≡ true → (k : ℕ) → slice_index words.now k ≡ 0 }
    ensures some { result ≡ false → (k : ℕ) × ((slice_index words.now k ≢ 0) × (slice_index words.now k < 2 ^ 64)) }
{
    for i in 0..words.len() {
        if words[i] != 0 {
            return false;
        }
    }
    true
}

// The least bit of a word from a place on.
fn bit_from(word: u64, place: u32) -> Option<u32>
    requires { place < 64 }
    ensures some { IfSome result (λ b. IsNext (has_bit word) place b) }
    ensures none { IfNone result ((b : ℕ) → place ≤ b → b < 64 → has_bit word b ≡ false) }
    ensures below { IfSome result (λ b. b < 64) }
{
    let rest = word >> place;
    if rest == 0 {
        None
    } else {
        Some(place + rest.trailing_zeros())
    }
}

// The least number of a set from a number on; words without a bit are passed over.
pub fn next_bit(words: &[u64], limit: u32, from: u32) -> Option<u32>
    requires filled { IsFilled 1 limit words.now }
    requires clean { IsClean limit words.now }
    ensures some { IfSome result (λ n. IsNext (holds_bit limit words.now) from n) }
    ensures none { IfNone result ((n : ℕ) → from ≤ n → holds_bit limit words.now n ≡ false) }
    ensures below { IfSome result (λ n. n < limit) }
{
    for k in from as usize / 64..words_for(limit) {
        let start = k as u32 * 64;
        if let Some(place) = bit_from(words[k], from.saturating_sub(start)) {
            return Some(start + place);
        }
    }
    None
}

// The words of a location.
pub fn words_at(words: &[u64], locations: u32, elements: u32, l: u32) -> &[u64]
    requires laid_out { IsLaidOut locations elements words.now }
    requires location { l < locations }
    ensures laid_out { IsLaidOut 1 elements result.now }
    ensures each { (e : ℕ) → holds_bit elements result.now e ≡ contains_bit locations elements words.now l e }
{
    let width = words_for(elements);
    let start = l as usize * width;
    &words[start..start + width]
}

// Adds bits to those of a location, and says whether a word changed.
pub fn join_words_at(from: &[u64], into: &mut [u64], locations: u32, elements: u32, l: u32) -> bool
    requires from { IsLaidOut 1 elements from.now }
    requires into { IsLaidOut locations elements into.old }
    requires location { l < locations }
    ensures joined { (x e : ℕ) → contains_bit locations elements into.new x e ≡ ((x == l && holds_bit elements from.now e) || contains_bit locations elements into.old x e) }
    ensures gained { IsTrue result ↔ HasNew (contains_bit locations elements into.old) (contains_bit locations elements into.new) }
    ensures laid_out { IsLaidOut locations elements into.new }
{
    let width = words_for(elements);
    let start = l as usize * width;
    join_words(from, &mut into[start..start + width])
}
