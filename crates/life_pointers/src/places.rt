// What is behind a pointer.
ghost use Rattle.std.specs.Prelude.{◌≡◌, IfOk, IsSome, MatchResult, Some};
ghost use Rattle.life_store.specs.Places as spec;
ghost use Rattle.life_store.specs.References.{object_of};
ghost use Rattle.life_store.specs.State.{Points};
ghost use Rattle.life_seen.specs.Housed.{IsHoused, IsRef};
ghost use Rattle.life_seen.specs.Kinds.{Kinds};
ghost use Rattle.life_seen.specs.Seen.{seen};
ghost use Rattle.life_pointers.specs.Places.{reached_at, BeginsAt, IsPlace, TellsMiss};
ghost use Rattle.life_pointers.specs.Pointers.{pointer_seen, PointerFits};

use crate::owned::Spot;
use crate::pointer::{Characters, Pointer};
use crate::stop::Stop;
use crate::valid::length;
use life_store::{FaultKind, Store, TrapKind};

/// What may be read behind a pointer, and written if it lies in an object.
#[derive(Clone, Copy)]
pub enum Place {
    /// A word of a slot that is there.
    Here(Spot),
    /// Characters that never end.
    Fixed(Characters),
}

/// What is behind the pointer, if that may be used and stands at no end.
#[inline(always)]
pub fn behind<S: Store>(store: &S, pointer: Pointer) -> Result<Place, Stop>
    ensures is { (kinds : Kinds) → IsHoused kinds (S.content store.now) (S.rows store.now) → PointerFits (S.content store.now) (S.rows store.now) pointer
        → MatchResult result
        (IsPlace kinds (S.content store.now) (S.rows store.now) (spec.behind_pointer (seen kinds (S.content store.now) (S.rows store.now)) (pointer_seen pointer)))
        (TellsMiss (spec.behind_pointer (seen kinds (S.content store.now) (S.rows store.now)) (pointer_seen pointer))) }
    ensures word { IfOk result (BeginsAt (spec.pointer_word (Some (Points (pointer_seen pointer))))) }
{
    match pointer {
        Pointer::Null => Err(Stop::Fault(FaultKind::Null)),
        Pointer::Wild => Err(Stop::Fault(FaultKind::Dangling)),
        Pointer::To {
            index,
            word,
            object,
            moment,
            ..
        } => {
            if store.valid(object, index, 1, moment) {
                reached(
                    store,
                    Spot {
                        object,
                        index,
                        word,
                    },
                )
            } else {
                Err(Stop::Fault(FaultKind::Dangling))
            }
        }
        Pointer::Static(characters) => match characters.text {
            None => Err(Stop::Trap(TrapKind::Bounds)),
            Some(_) => Ok(Place::Fixed(characters)),
        },
    }
}

// The position of an object that lives, if it isn't the end.
#[inline(always)]
fn reached<S: Store>(store: &S, spot: Spot) -> Result<Place, Stop>
    requires { IsSome (object_of (S.content store.now) (S.rows store.now) spot.object) }
    ensures is { (kinds : Kinds) → IsHoused kinds (S.content store.now) (S.rows store.now) → IsRef (S.content store.now) (S.rows store.now) spot.object
        → MatchResult result
        (IsPlace kinds (S.content store.now) (S.rows store.now) (reached_at (seen kinds (S.content store.now) (S.rows store.now)) spot.object.birth spot.index))
        (TellsMiss (reached_at (seen kinds (S.content store.now) (S.rows store.now)) spot.object.birth spot.index)) }
    ensures word { IfOk result (BeginsAt spot.word) }
{
    if spot.index < length(store, spot.object) {
        Ok(Place::Here(spot))
    } else {
        Err(Stop::Trap(TrapKind::Bounds))
    }
}
