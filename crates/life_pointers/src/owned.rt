// What owners own, and what is made of it.
ghost use Rattle.std.specs.Prelude.{◌≡◌, ◌+◌, ◌<◌, ◌^◌, option_map, IfOk, IfSome};
ghost use Rattle.life_store.specs.Content.{CanCount, Content, Object};
ghost use Rattle.life_store.specs.Doing as spec;
ghost use Rattle.life_store.specs.Edits.{buffer_of, owned_at};
ghost use Rattle.life_store.specs.References.{object_of, HasWord, Rows};
ghost use Rattle.life_store.specs.State.{To};
ghost use Rattle.life_seen.specs.Housed.{IsHoused, IsRef};
ghost use Rattle.life_seen.specs.Kinds.{Kinds};
ghost use Rattle.life_seen.specs.Seen.{seen};
ghost use Rattle.life_words.specs.Owning.{number_of, IsOwner};
ghost use Rattle.life_pointers.specs.Attempts.{itself, tried};
ghost use Rattle.life_pointers.specs.Owned.{element_in, owned_element, owned_end, owned_size, owned_target, owned_whole, spot_seen};
ghost use Rattle.life_pointers.specs.Pointers.{pointer_seen, PointerFits};

use crate::choosing::{Choice, chosen};
use crate::pointer::Pointer;
use crate::stop::Stop;
use crate::valid::length;
use crate::views::end_index;
use life_core::RangeEnd;
use life_store::{FaultKind, ObjRef, Store};
use life_words::owned;

/// The place of a value: an object, a slot of it, and the word there at which the value begins.
#[derive(Clone, Copy)]
pub struct Spot {
    pub object: ObjRef,
    /// The slot's number.
    pub index: u32,
    pub word: u32,
}

/// What the owner owns, if it owns something.
#[inline(always)]
pub fn owned_by<S: Store>(store: &S, owner: Spot) -> Option<ObjRef>
    requires { IfSome (object_of (S.content store.now) (S.rows store.now) owner.object) (HasWord owner.index owner.word) }
    ensures is { (kinds : Kinds) (o : Object) → IsOwner kinds (S.content store.now) (S.rows store.now) owner.object owner.word o
        → option_map number_of result ≡ owned_at (seen kinds (S.content store.now) (S.rows store.now)) (spot_seen owner) }
    ensures fits { (kinds : Kinds) (o : Object) → IsOwner kinds (S.content store.now) (S.rows store.now) owner.object owner.word o
        → IfSome result (IsRef (S.content store.now) (S.rows store.now)) }
{
    owned(store, owner.object, owner.index, owner.word as u64)
}

/// The buffer of a vector or a string, which one that was moved from doesn't have.
#[inline(always)]
pub fn buffer<S: Store>(store: &S, owner: Spot) -> Result<ObjRef, Stop>
    requires { IfSome (object_of (S.content store.now) (S.rows store.now) owner.object) (HasWord owner.index owner.word) }
    ensures is { (kinds : Kinds) (o : Object) → IsOwner kinds (S.content store.now) (S.rows store.now) owner.object owner.word o
        → tried number_of result ≡ buffer_of (seen kinds (S.content store.now) (S.rows store.now)) (spot_seen owner) }
    ensures fits { (kinds : Kinds) (o : Object) → IsOwner kinds (S.content store.now) (S.rows store.now) owner.object owner.word o
        → IfOk result (IsRef (S.content store.now) (S.rows store.now)) }
{
    match owned_by(store, owner) {
        None => Err(Stop::Fault(FaultKind::Moved)),
        Some(buffer) => Ok(buffer),
    }
}

/// A pointer of this moment to what begins at the place.
pub fn place_pointer(now: u64, place: Spot) -> Pointer
    ensures is { pointer_seen result ≡ To (record { object = place.object.birth; index = place.index; word = place.word; count = 1; moment = now }) }
    ensures fits { (c : Content) (rows : Rows) → IsRef c rows place.object → now + 1 < 2 ^ 64 → PointerFits c rows result }
{
    Pointer::To {
        index: place.index,
        count: 1,
        word: place.word,
        object: place.object,
        moment: now,
    }
}

// A pointer of this moment to so many positions of an object.
#[inline(always)]
fn pointer_to(now: u64, object: ObjRef, index: u32, count: u32) -> Pointer
    ensures is { pointer_seen result ≡ To (record { object = object.birth; index = index; word = 0; count = count; moment = now }) }
    ensures fits { (c : Content) (rows : Rows) → IsRef c rows object → now + 1 < 2 ^ 64 → PointerFits c rows result }
{
    Pointer::To {
        index,
        count,
        word: 0,
        object,
        moment: now,
    }
}

/// An element of a vector or a string.
#[inline(always)]
pub fn owned_element<S: Store>(store: &S, owner: Spot, choice: Choice) -> Result<Pointer, Stop>
    requires { IfSome (object_of (S.content store.now) (S.rows store.now) owner.object) (HasWord owner.index owner.word) }
    ensures is { (kinds : Kinds) (o : Object) → IsOwner kinds (S.content store.now) (S.rows store.now) owner.object owner.word o
        → tried pointer_seen result ≡ owned_element (seen kinds (S.content store.now) (S.rows store.now)) choice (spot_seen owner) }
    ensures fits { (kinds : Kinds) (o : Object) → IsOwner kinds (S.content store.now) (S.rows store.now) owner.object owner.word o
        → CanCount (S.content store.now) → IfOk result (PointerFits (S.content store.now) (S.rows store.now)) }
{
    let buffer = buffer(store, owner)?;
    element_in(store, buffer, choice)
}

#[inline(always)]
fn element_in<S: Store>(store: &S, buffer: ObjRef, choice: Choice) -> Result<Pointer, Stop>
    ensures is { (kinds : Kinds) → IsHoused kinds (S.content store.now) (S.rows store.now) → IsRef (S.content store.now) (S.rows store.now) buffer
        → tried pointer_seen result ≡ element_in (seen kinds (S.content store.now) (S.rows store.now)) choice buffer.birth }
    ensures fits { IsRef (S.content store.now) (S.rows store.now) buffer → CanCount (S.content store.now) → IfOk result (PointerFits (S.content store.now) (S.rows store.now)) }
{
    let index = chosen(choice, length(store, buffer) as u64)?;
    Ok(pointer_to(store.now(), buffer, index as u32, 1))
}

/// An iterator at an end of a vector or a string.
pub fn owned_end<S: Store>(store: &S, owner: Spot, end: RangeEnd) -> Result<Pointer, Stop>
    requires { IfSome (object_of (S.content store.now) (S.rows store.now) owner.object) (HasWord owner.index owner.word) }
    ensures is { (kinds : Kinds) (o : Object) → IsOwner kinds (S.content store.now) (S.rows store.now) owner.object owner.word o
        → tried pointer_seen result ≡ owned_end (seen kinds (S.content store.now) (S.rows store.now)) end (spot_seen owner) }
    ensures fits { (kinds : Kinds) (o : Object) → IsOwner kinds (S.content store.now) (S.rows store.now) owner.object owner.word o
        → CanCount (S.content store.now) → IfOk result (PointerFits (S.content store.now) (S.rows store.now)) }
{
    let buffer = buffer(store, owner)?;
    let index = end_index(end, length(store, buffer) as u64);
    Ok(pointer_to(store.now(), buffer, index as u32, 1))
}

/// All that a vector or a string has.
pub fn owned_whole<S: Store>(store: &S, owner: Spot) -> Result<Pointer, Stop>
    requires { IfSome (object_of (S.content store.now) (S.rows store.now) owner.object) (HasWord owner.index owner.word) }
    ensures is { (kinds : Kinds) (o : Object) → IsOwner kinds (S.content store.now) (S.rows store.now) owner.object owner.word o
        → tried pointer_seen result ≡ owned_whole (seen kinds (S.content store.now) (S.rows store.now)) (spot_seen owner) }
    ensures fits { (kinds : Kinds) (o : Object) → IsOwner kinds (S.content store.now) (S.rows store.now) owner.object owner.word o
        → CanCount (S.content store.now) → IfOk result (PointerFits (S.content store.now) (S.rows store.now)) }
{
    let buffer = buffer(store, owner)?;
    Ok(pointer_to(store.now(), buffer, 0, length(store, buffer)))
}

/// How many a vector or a string has.
pub fn owned_size<S: Store>(store: &S, owner: Spot) -> Result<u32, Stop>
    requires { IfSome (object_of (S.content store.now) (S.rows store.now) owner.object) (HasWord owner.index owner.word) }
    ensures { (kinds : Kinds) (o : Object) → IsOwner kinds (S.content store.now) (S.rows store.now) owner.object owner.word o
        → tried itself result ≡ owned_size (seen kinds (S.content store.now) (S.rows store.now)) (spot_seen owner) }
{
    let buffer = buffer(store, owner)?;
    Ok(length(store, buffer))
}

/// A pointer to what a `std::unique_ptr` owns, or the null pointer.
pub fn owned_pointer<S: Store>(store: &S, owner: Spot) -> Pointer
    requires { IfSome (object_of (S.content store.now) (S.rows store.now) owner.object) (HasWord owner.index owner.word) }
    ensures is { (kinds : Kinds) (o : Object) → IsOwner kinds (S.content store.now) (S.rows store.now) owner.object owner.word o
        → pointer_seen result ≡ spec.owned_pointer (seen kinds (S.content store.now) (S.rows store.now)) (owned_at (seen kinds (S.content store.now) (S.rows store.now)) (spot_seen owner)) }
    ensures fits { (kinds : Kinds) (o : Object) → IsOwner kinds (S.content store.now) (S.rows store.now) owner.object owner.word o
        → CanCount (S.content store.now) → PointerFits (S.content store.now) (S.rows store.now) result }
{
    match owned_by(store, owner) {
        None => Pointer::Null,
        Some(target) => pointer_to(store.now(), target, 0, 1),
    }
}

/// A pointer to what a `std::unique_ptr` owns. Going through one that owns nothing is the fault of a
/// null pointer.
pub fn owned_target<S: Store>(store: &S, owner: Spot) -> Result<Pointer, Stop>
    requires { IfSome (object_of (S.content store.now) (S.rows store.now) owner.object) (HasWord owner.index owner.word) }
    ensures is { (kinds : Kinds) (o : Object) → IsOwner kinds (S.content store.now) (S.rows store.now) owner.object owner.word o
        → tried pointer_seen result ≡ owned_target (seen kinds (S.content store.now) (S.rows store.now)) (owned_at (seen kinds (S.content store.now) (S.rows store.now)) (spot_seen owner)) }
    ensures fits { (kinds : Kinds) (o : Object) → IsOwner kinds (S.content store.now) (S.rows store.now) owner.object owner.word o
        → CanCount (S.content store.now) → IfOk result (PointerFits (S.content store.now) (S.rows store.now)) }
{
    match owned_by(store, owner) {
        None => Err(Stop::Fault(FaultKind::Null)),
        Some(target) => Ok(pointer_to(store.now(), target, 0, 1)),
    }
}
