// What is known of all locals of a function, in the order of their numbers.
ghost use Rattle.std.specs.Prelude.{◌≡◌, if◌then◌else◌, IfOk, slice_get, slice_set};
ghost use Rattle.life_proper.specs.Knowing.{agreed, agreed_all, are_implied, at_head, comes_back, forgotten, is_blank, is_forgotten, is_lost, known_at, met, same};
ghost use Rattle.life_proper.specs.Seen.{state_seen};
ghost use Rattle.life_proper.specs.Turns.{kept_by};
ghost use Rattle.life_proper.specs.declared.known.Known.TheVariants as known;

use crate::known::Known;
use life_core::{Local, LocalKind};
use life_types::NoMemory;
use std::alloc::Global;

/// What is known where some way comes, and nothing where none does.
pub(crate) type State = Option<Vec<Known>>;

/// What is known of the local with this number.
pub(crate) fn known_at(known: &[Known], x: u32) -> Known
    ensures { result ≡ known_at known.now x }
{
    known_in(known, x as usize)
}

fn known_in(known: &[Known], i: usize) -> Known
    ensures { result ≡ known_at known.now i }
{
    match known.get(i) {
        Some(k) => *k,
        None => Known::Unknown,
    }
}

/// Whether this is known of the local.
pub(crate) fn is_known(known: &[Known], x: u32, what: Known) -> bool
    ensures { result ≡ same (known_at known.now x) what }
{
    known_at(known, x).same(what)
}

/// From here on this is known of the local.
pub(crate) fn set(known: &mut Vec<Known>, x: u32, what: Known)
    ensures { known.new.items ≡ slice_set known.old.items x what }
{
    if let Some(k) = known.get_mut(x as usize) {
        *k = what;
    }
}

/// What is known where two ways meet. It takes no memory.
pub(crate) fn met(first: State, second: State) -> State
    ensures { state_seen result ≡ met (state_seen first) (state_seen second) }
{
    let Some(known) = first else {
        return second;
    };
    let Some(other) = second else {
        return Some(known);
    };
    Some(agreed_all(known, &other))
}

#[tactic(auto, using(crate::proofs::Loops::agreed_step, crate::proofs::Loops::agreed_done, crate::proofs::Loops::agreed_begin))]
fn agreed_all(first: Vec<Known>, second: &[Known]) -> Vec<Known>
    ensures { result.items ≡ agreed_all first.items second.now }
{
    let mut known = first;
    known.truncate(second.len());
    for i in 0..known.len() {
        agree_at(&mut known, i, known_in(second, i));
    }
    known
}

fn agree_at(known: &mut Vec<Known>, i: usize, other: Known)
    ensures { known.new.items ≡ slice_set known.old.items i (agreed (known_at known.old.items i) other) }
{
    if let Some(k) = known.get_mut(i) {
        *k = k.agreed(other);
    }
}

/// Whether what is known at the head of a loop is known on the way back.
pub(crate) fn comes_back(head: &State, back: &State) -> bool
    ensures { result ≡ comes_back (state_seen head.now) (state_seen back.now) }
{
    match back {
        None => true,
        Some(other) => match head {
            None => false,
            Some(known) => are_implied(known, other),
        },
    }
}

#[tactic(auto, using(crate::proofs::Loops::implied_step, crate::proofs::Loops::implied_short, crate::proofs::Loops::implied_done))]
fn are_implied(known: &[Known], other: &[Known]) -> bool
    ensures { result ≡ are_implied known.now other.now }
{
    if other.len() < known.len() {
        return false;
    }
    for i in 0..known.len() {
        if !known_in(known, i).is_implied(known_in(other, i)) {
            return false;
        }
    }
    true
}

/// What is known at the head of a loop, where nothing is kept of intermediate values.
pub(crate) fn at_head(alloc: Global, locals: &[Local], here: &State) -> Result<State, NoMemory>
    ensures { IfOk result (λ s. state_seen s ≡ at_head locals.now (state_seen here.now)) }
{
    match here {
        None => Ok(None),
        Some(known) => Ok(Some(forgotten(alloc, locals, known)?)),
    }
}

#[tactic(auto, using(crate::proofs::Loops::forgotten_step, crate::proofs::Loops::forgotten_done))]
fn forgotten(alloc: Global, locals: &[Local], known: &[Known]) -> Result<Vec<Known>, NoMemory>
    ensures { IfOk result (λ made. made.items ≡ forgotten locals.now known.now) }
{
    let mut made = Vec::with_capacity(alloc, known.len())?;
    for i in 0..known.len() {
        made.push(kept_at(locals, i, known_in(known, i)))?;
    }
    Ok(made)
}

fn kept_at(locals: &[Local], i: usize, k: Known) -> Known
    ensures { result ≡ kept_by (slice_get locals.now i) k }
{
    match locals.get(i) {
        None => k,
        Some(l) => unless(is_forgotten(l, k), k),
    }
}

fn unless(forgets: bool, k: Known) -> Known
    ensures { result ≡ (if forgets then known.Unknown else k) }
{
    if forgets { Known::Unknown } else { k }
}

/// The same once more.
pub(crate) fn copied(alloc: Global, here: &State) -> Result<State, NoMemory>
    ensures { IfOk result (λ s. state_seen s ≡ state_seen here.now) }
{
    match here {
        None => Ok(None),
        Some(known) => Ok(Some(Vec::from_slice(alloc, known)?)),
    }
}

// Whether nothing is known of it at the head of a loop: it has no name, and holds an intermediate value or
// the result, or a hidden range or iterator that isn't there.
fn is_forgotten(local: &Local, k: Known) -> bool
    ensures { result ≡ is_forgotten local.now k }
{
    local.name.is_none() && is_lost(local.kind, k)
}

fn is_lost(kind: LocalKind, k: Known) -> bool
    ensures { result ≡ is_lost kind k }
{
    match kind {
        LocalKind::Object => false,
        LocalKind::Register => true,
        LocalKind::Range => is_blank(k),
    }
}

fn is_blank(k: Known) -> bool
    ensures { result ≡ is_blank k }
{
    match k {
        Known::Blank => true,
        _ => false,
    }
}
