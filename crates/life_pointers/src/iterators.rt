// Steps of iterators.
ghost use Rattle.std.specs.Prelude.{◌≡◌, ◌<◌, ◌≤◌, ◌+◌, ◌^◌, ◌+ℤ◌, map, neg_ℤ, pos, IfOk};
ghost use Rattle.life_core.specs.Function.{name_bytes};
ghost use Rattle.life_store.specs.Content.{CanCount};
ghost use Rattle.life_store.specs.Edits.{size_of};
ghost use Rattle.life_store.specs.Iterators as spec;
ghost use Rattle.life_store.specs.Views as views;
ghost use Rattle.life_seen.specs.Housed.{IsHoused, IsRef};
ghost use Rattle.life_seen.specs.Kinds.{Kinds};
ghost use Rattle.life_seen.specs.Seen.{seen};
ghost use Rattle.life_pointers.specs.Attempts.{itself, tried};
ghost use Rattle.life_pointers.specs.Made.{alike, moved};
ghost use Rattle.life_pointers.specs.Pointers.{characters_seen, pointer_seen, IsNarrow, IsShort, PointerFits};
ghost use Rattle.life_pointers.specs.Steps.{step_seen};

use crate::pointer::{Characters, Pointer, at_index, start_of};
use crate::stop::Stop;
use crate::texts::text_length;
use crate::valid::{length, standing};
use life_core::Direction;
use life_store::{ObjRef, Store, TrapKind};
use life_types::Ty;

/// How an iterator is moved.
#[derive(Clone, Copy)]
pub struct Step {
    /// Whether it goes towards the begin.
    pub back: bool,
    /// How many positions it goes.
    pub by: u64,
}

/// The step by a number, which a `size_t` has without a sign.
pub fn step_of(ty: Option<Ty>, number: i64, direction: Direction) -> Step
    ensures { step_seen result ≡ spec.directed direction (spec.count_of ty number) }
{
    let step = counted(ty, number);
    match direction {
        Direction::Forward => step,
        Direction::Backward => Step {
            back: !step.back,
            by: step.by,
        },
    }
}

// A number is read as its type says.
fn counted(ty: Option<Ty>, number: i64) -> Step
    ensures { step_seen result ≡ spec.count_of ty number }
{
    match ty {
        Some(Ty::Size) => Step {
            back: false,
            by: number.cast_unsigned(),
        },
        _ => Step {
            back: number < 0,
            by: number.unsigned_abs(),
        },
    }
}

/// The iterator a step further. Past the begin or the end is the trap of bounds.
pub fn moved<S: Store>(
    store: &S,
    texts: &[Vec<u8>],
    iterator: Pointer,
    step: Step,
) -> Result<Pointer, Stop>
    requires { PointerFits (S.content store.now) (S.rows store.now) iterator }
    ensures is { (kinds : Kinds) → IsHoused kinds (S.content store.now) (S.rows store.now)
        → tried pointer_seen result ≡ moved (map name_bytes texts.now) (seen kinds (S.content store.now) (S.rows store.now)) (step_seen step) (pointer_seen iterator) }
    ensures fits { CanCount (S.content store.now) → IfOk result (PointerFits (S.content store.now) (S.rows store.now)) }
{
    let iterator = standing(store, iterator)?;
    let index = stepped(store, texts, iterator, step)?;
    Ok(at_index(store.now(), index, iterator))
}

// The index that is a step further.
fn stepped<S: Store>(
    store: &S,
    texts: &[Vec<u8>],
    iterator: Pointer,
    step: Step,
) -> Result<u64, Stop>
    requires { PointerFits (S.content store.now) (S.rows store.now) iterator }
    ensures is { (kinds : Kinds) → IsHoused kinds (S.content store.now) (S.rows store.now)
        → tried itself result ≡ spec.stepped (map name_bytes texts.now) (seen kinds (S.content store.now) (S.rows store.now)) (pointer_seen iterator) (step_seen step) }
    ensures narrow { IfOk result (λ index. IsNarrow index iterator) }
    ensures short { IfOk result (λ index. IsShort (index + 1) iterator) }
{
    match iterator {
        Pointer::Null => Err(Stop::Lost),
        Pointer::Wild => Err(Stop::Lost),
        Pointer::To { index, object, .. } => {
            up_to(index as u64, step, length(store, object) as u64)
        }
        Pointer::Static(characters) => {
            up_to(characters.index, step, text_size(texts, characters))
        }
    }
}

// The index a step further, if it is one from 0 to the length.
fn up_to(index: u64, step: Step, length: u64) -> Result<u64, Stop>
    ensures is { tried itself result ≡ spec.up_to length (pos index +ℤ step_seen step) }
    ensures within { IfOk result (λ to. to ≤ length) }
{
    if step.back {
        back_to(index, step.by, length)
    } else {
        on_to(index, step.by, length)
    }
}

fn back_to(index: u64, by: u64, length: u64) -> Result<u64, Stop>
    ensures is { tried itself result ≡ spec.up_to length (pos index +ℤ neg_ℤ (pos by)) }
    ensures within { IfOk result (λ to. to ≤ length) }
{
    if by <= index && index - by <= length {
        Ok(index - by)
    } else {
        Err(Stop::Trap(TrapKind::Bounds))
    }
}

fn on_to(index: u64, by: u64, length: u64) -> Result<u64, Stop>
    ensures is { tried itself result ≡ spec.up_to length (pos index +ℤ pos by) }
    ensures within { IfOk result (λ to. to ≤ length) }
{
    if index <= length && by <= length - index {
        Ok(index + by)
    } else {
        Err(Stop::Trap(TrapKind::Bounds))
    }
}

// How many characters the whole text has.
fn text_size(texts: &[Vec<u8>], characters: Characters) -> u64
    ensures is { result ≡ views.text_size (map name_bytes texts.now) (characters_seen characters) }
    ensures small { result < 2 ^ 63 }
{
    match characters.text {
        None => 0,
        Some(number) => text_length(texts, number),
    }
}

/// Whether two iterators stand at the same position. Those of two objects are the trap of foreign
/// iterators (ISO/IEC 14882:2017 [forward.iterators]).
pub fn alike<S: Store>(store: &S, left: Pointer, right: Pointer) -> Result<bool, Stop>
    requires left { PointerFits (S.content store.now) (S.rows store.now) left }
    requires right { PointerFits (S.content store.now) (S.rows store.now) right }
    ensures { (kinds : Kinds) → IsHoused kinds (S.content store.now) (S.rows store.now)
        → tried itself result ≡ alike (seen kinds (S.content store.now) (S.rows store.now)) (pointer_seen left) (pointer_seen right) }
{
    let left = standing(store, left)?;
    let right = standing(store, right)?;
    same_position(left, right)
}

fn same_position(left: Pointer, right: Pointer) -> Result<bool, Stop>
    ensures { tried itself result ≡ spec.same_position (pointer_seen left) (pointer_seen right) }
{
    if is_one_object(left, right) {
        Ok(start_of(left) == start_of(right))
    } else {
        Err(Stop::Trap(TrapKind::ForeignIterator))
    }
}

fn is_one_object(left: Pointer, right: Pointer) -> bool
    ensures { result ≡ spec.is_one_object (pointer_seen left) (pointer_seen right) }
{
    match (left, right) {
        (Pointer::To { object: left, .. }, Pointer::To { object: right, .. }) => {
            left.birth == right.birth
        }
        (Pointer::Static(left), Pointer::Static(right)) => same_text(left.text, right.text),
        _ => false,
    }
}

fn same_text(left: Option<u32>, right: Option<u32>) -> bool
    ensures { result ≡ spec.same_text left right }
{
    match (left, right) {
        (None, None) => true,
        (Some(left), Some(right)) => left == right,
        _ => false,
    }
}

/// The index of an iterator at an element of this buffer. One of another object is the trap of foreign
/// iterators, and the end that of bounds.
pub fn erasable<S: Store>(store: &S, buffer: ObjRef, iterator: Pointer) -> Result<u32, Stop>
    ensures { (kinds : Kinds) → IsHoused kinds (S.content store.now) (S.rows store.now) → IsRef (S.content store.now) (S.rows store.now) buffer
        → tried itself result ≡ spec.erasable (seen kinds (S.content store.now) (S.rows store.now)) buffer.birth (pointer_seen iterator) }
{
    match iterator {
        Pointer::To { index, object, .. } => {
            if object.birth == buffer.birth {
                element_index(store, buffer, index)
            } else {
                Err(Stop::Trap(TrapKind::ForeignIterator))
            }
        }
        Pointer::Null => Err(Stop::Trap(TrapKind::ForeignIterator)),
        Pointer::Wild => Err(Stop::Trap(TrapKind::ForeignIterator)),
        Pointer::Static(_) => Err(Stop::Trap(TrapKind::ForeignIterator)),
    }
}

fn element_index<S: Store>(store: &S, buffer: ObjRef, index: u32) -> Result<u32, Stop>
    ensures { (kinds : Kinds) → IsHoused kinds (S.content store.now) (S.rows store.now) → IsRef (S.content store.now) (S.rows store.now) buffer
        → tried itself result ≡ spec.below index (size_of (seen kinds (S.content store.now) (S.rows store.now)) buffer.birth) }
{
    if index < length(store, buffer) {
        Ok(index)
    } else {
        Err(Stop::Trap(TrapKind::Bounds))
    }
}
