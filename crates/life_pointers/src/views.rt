// What is made of spans and views.
ghost use Rattle.std.specs.Prelude.{◌≡◌, ◌<◌, ◌≤◌, ◌+◌, ◌^◌, true, false, IfOk, Some};
ghost use Rattle.life_store.specs.Content.{CanCount};
ghost use Rattle.life_store.specs.Iterators as iterators;
ghost use Rattle.life_store.specs.Views as spec;
ghost use Rattle.life_seen.specs.Housed.{IsHoused};
ghost use Rattle.life_seen.specs.Kinds.{Kinds};
ghost use Rattle.life_seen.specs.Seen.{seen};
ghost use Rattle.life_pointers.specs.Attempts.{itself, tried};
ghost use Rattle.life_pointers.specs.Made.{viewed_element, viewed_end, viewed_part, viewed_size};
ghost use Rattle.life_pointers.specs.Pointers.{pointer_seen, starts_at, IsShort, PointerFits};

use crate::choosing::{Choice, chosen};
use crate::pointer::{Pointer, element_of, part_of, seen_count};
use crate::stop::Stop;
use crate::valid::usable;
use life_core::RangeEnd;
use life_store::{Store, TrapKind};

/// An element that the view sees.
pub fn viewed_element<S: Store>(store: &S, view: Pointer, choice: Choice) -> Result<Pointer, Stop>
    requires { PointerFits (S.content store.now) (S.rows store.now) view }
    ensures is { (kinds : Kinds) → IsHoused kinds (S.content store.now) (S.rows store.now)
        → tried pointer_seen result ≡ viewed_element (seen kinds (S.content store.now) (S.rows store.now)) choice (pointer_seen view) }
    ensures fits { CanCount (S.content store.now) → IfOk result (PointerFits (S.content store.now) (S.rows store.now)) }
{
    let view = usable(store, view)?;
    let index = chosen(choice, seen_count(view))?;
    Ok(element_of(store.now(), index, view))
}

/// An iterator at an end of what the view sees.
pub fn viewed_end<S: Store>(store: &S, view: Pointer, end: RangeEnd) -> Result<Pointer, Stop>
    requires { PointerFits (S.content store.now) (S.rows store.now) view }
    ensures is { (kinds : Kinds) → IsHoused kinds (S.content store.now) (S.rows store.now)
        → tried pointer_seen result ≡ viewed_end (seen kinds (S.content store.now) (S.rows store.now)) end (pointer_seen view) }
    ensures fits { CanCount (S.content store.now) → IsShort (starts_at view + spec.seen_count (pointer_seen view) + 1) view
        → IfOk result (PointerFits (S.content store.now) (S.rows store.now)) }
{
    let view = usable(store, view)?;
    Ok(element_of(store.now(), end_index(end, seen_count(view)), view))
}

/// How many the view sees.
pub fn viewed_size<S: Store>(store: &S, view: Pointer) -> Result<u64, Stop>
    requires { PointerFits (S.content store.now) (S.rows store.now) view }
    ensures is { (kinds : Kinds) → IsHoused kinds (S.content store.now) (S.rows store.now)
        → tried itself result ≡ viewed_size (seen kinds (S.content store.now) (S.rows store.now)) (pointer_seen view) }
    ensures small { IfOk result (λ n. n < 2 ^ 63) }
{
    let view = usable(store, view)?;
    Ok(seen_count(view))
}

/// So many that the view sees from an index on, or all that are left. A span has as many as are
/// asked for, and a view at most those that are left.
pub fn viewed_part<S: Store>(
    store: &S,
    view: Pointer,
    is_span: bool,
    index: u64,
    count: Option<u64>,
) -> Result<Pointer, Stop>
    requires { PointerFits (S.content store.now) (S.rows store.now) view }
    ensures is { (kinds : Kinds) → IsHoused kinds (S.content store.now) (S.rows store.now)
        → tried pointer_seen result ≡ viewed_part (seen kinds (S.content store.now) (S.rows store.now)) is_span index count (pointer_seen view) }
    ensures fits { CanCount (S.content store.now) → IfOk result (PointerFits (S.content store.now) (S.rows store.now)) }
{
    let view = usable(store, view)?;
    let count = part_count(is_span, index, count, seen_count(view))?;
    Ok(part_of(store.now(), index, count, view))
}

// Where the end is.
pub(crate) fn end_index(end: RangeEnd, size: u64) -> u64
    ensures is { result ≡ iterators.end_index end size }
    ensures within { result ≤ size }
{
    match end {
        RangeEnd::Begin => 0,
        RangeEnd::End => size,
    }
}

// How many the part has, of so many.
fn part_count(is_span: bool, index: u64, count: Option<u64>, size: u64) -> Result<u64, Stop>
    ensures is { tried itself result ≡ spec.part_count is_span index count size }
    ensures within { IfOk result (λ n. index + n ≤ size) }
{
    match count {
        None => left_from(index, size),
        Some(count) => {
            if is_span {
                exactly(index, count, size)
            } else {
                at_most(index, count, size)
            }
        }
    }
}

fn left_from(index: u64, size: u64) -> Result<u64, Stop>
    ensures is { tried itself result ≡ spec.left_from index size }
    ensures within { IfOk result (λ n. index + n ≤ size) }
{
    if index <= size {
        Ok(size - index)
    } else {
        Err(Stop::Trap(TrapKind::Bounds))
    }
}

fn exactly(index: u64, count: u64, size: u64) -> Result<u64, Stop>
    ensures is { tried itself result ≡ spec.part_count true index (Some count) size }
    ensures within { IfOk result (λ n. index + n ≤ size) }
{
    if index <= size && count <= size - index {
        Ok(count)
    } else {
        Err(Stop::Trap(TrapKind::Bounds))
    }
}

fn at_most(index: u64, count: u64, size: u64) -> Result<u64, Stop>
    ensures is { tried itself result ≡ spec.part_count false index (Some count) size }
    ensures within { IfOk result (λ n. index + n ≤ size) }
{
    if index <= size {
        Ok(count.min(size - index))
    } else {
        Err(Stop::Trap(TrapKind::Bounds))
    }
}
