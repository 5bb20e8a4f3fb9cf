// Whether a pointer may be used.
ghost use Rattle.std.specs.Prelude.{◌≡◌, ◌+◌, ◌<◌, ◌≤◌, ◌^◌, length, IfOk, IfSome, IsTrue};
ghost use Rattle.life_store.specs.Edits.{size_of};
ghost use Rattle.life_store.specs.Iterators as spec;
ghost use Rattle.life_store.specs.References.{object_of};
ghost use Rattle.life_store.specs.Views as views;
ghost use Rattle.life_seen.specs.Housed.{IsHoused, IsRef};
ghost use Rattle.life_seen.specs.Kinds.{Kinds};
ghost use Rattle.life_seen.specs.Seen.{seen};
ghost use Rattle.life_pointers.specs.Attempts.{tried};
ghost use Rattle.life_pointers.specs.Bytes.{HasPositions, IsInside};
ghost use Rattle.life_pointers.specs.Pointers.{pointer_seen, IsThere, PointerFits};
ghost use Rattle.life_pointers.specs.Valid.{sees_there};

use crate::pointer::Pointer;
use crate::stop::Stop;
use life_store::{FaultKind, ObjRef, Store};

/// How many slots the object has, and 0 where it doesn't live.
#[inline(always)]
pub fn length<S: Store>(store: &S, object: ObjRef) -> u32
    ensures is { (kinds : Kinds) → IsHoused kinds (S.content store.now) (S.rows store.now) → IsRef (S.content store.now) (S.rows store.now) object
        → result ≡ size_of (seen kinds (S.content store.now) (S.rows store.now)) object.birth }
    ensures slots { IfSome (object_of (S.content store.now) (S.rows store.now) object) (λ o. result ≡ length o.slots) }
    ensures wide { IfSome (object_of (S.content store.now) (S.rows store.now) object) (λ o. 1 ≤ o.width) }
{
    match store.shape(object) {
        Ok(shape) => shape.length,
        Err(_) => 0,
    }
}

/// An iterator, if it is one that may be used: it may stand at the end.
pub fn standing<S: Store>(store: &S, pointer: Pointer) -> Result<Pointer, Stop>
    ensures is { (kinds : Kinds) → IsHoused kinds (S.content store.now) (S.rows store.now) → PointerFits (S.content store.now) (S.rows store.now) pointer
        → tried pointer_seen result ≡ spec.standing (seen kinds (S.content store.now) (S.rows store.now)) (pointer_seen pointer) }
    ensures same { IfOk result (λ p. p ≡ pointer) }
{
    match pointer {
        Pointer::Null => Err(Stop::Lost),
        Pointer::Wild => Err(Stop::Fault(FaultKind::Dangling)),
        Pointer::Static(_) => Ok(pointer),
        Pointer::To {
            object,
            index,
            moment,
            ..
        } => {
            if store.valid(object, index, 1, moment) {
                Ok(pointer)
            } else {
                Err(Stop::Fault(FaultKind::Dangling))
            }
        }
    }
}

/// A span or a view, if it is one that may be used.
pub fn usable<S: Store>(store: &S, pointer: Pointer) -> Result<Pointer, Stop>
    ensures is { (kinds : Kinds) → IsHoused kinds (S.content store.now) (S.rows store.now) → PointerFits (S.content store.now) (S.rows store.now) pointer
        → tried pointer_seen result ≡ views.usable (seen kinds (S.content store.now) (S.rows store.now)) (pointer_seen pointer) }
    ensures same { IfOk result (λ p. p ≡ pointer) }
    ensures there { IfOk result IsThere }
    ensures inside { IfOk result (IsInside (S.content store.now) (S.rows store.now)) }
{
    match pointer {
        Pointer::Null => Err(Stop::Lost),
        Pointer::Wild => Err(Stop::Fault(FaultKind::Dangling)),
        Pointer::Static(_) => Ok(pointer),
        Pointer::To {
            object,
            index,
            count,
            moment,
            ..
        } => {
            if has_positions(store, object, index, count, moment) {
                Ok(pointer)
            } else {
                Err(Stop::Fault(FaultKind::Dangling))
            }
        }
    }
}

// Whether the object lives and each of the positions has stood there since the moment.
fn has_positions<S: Store>(store: &S, object: ObjRef, index: u32, count: u32, moment: u64) -> bool
    ensures is { (kinds : Kinds) → IsHoused kinds (S.content store.now) (S.rows store.now) → IsRef (S.content store.now) (S.rows store.now) object
        → result ≡ views.is_valid_range (seen kinds (S.content store.now) (S.rows store.now)) (record { object = object.birth; index = index; word = 0; count = count; moment = moment }) }
    ensures there { IsTrue result → index + count < 2 ^ 32 }
    ensures inside { IsTrue result → HasPositions (S.content store.now) (S.rows store.now) object index count }
{
    store.valid(object, index, count, moment) && is_within(index, count, length(store, object))
}

// Whether the positions are there. What sees nothing may begin anywhere.
fn is_within(index: u32, count: u32, length: u32) -> bool
    ensures is { result ≡ sees_there index count length }
    ensures there { IsTrue result → index + count < 2 ^ 32 }
{
    count == 0 || index as u64 + count as u64 <= length as u64
}
