// What operands name.
ghost use Rattle.std.specs.Prelude.{◌≡◌, IfOk, MatchResult};
ghost use Rattle.life_core.specs.Operands.{location_of, operand_of, Name, Through};
ghost use Rattle.life_store.specs.Places as spec;
ghost use Rattle.life_seen.specs.Housed.{IsHoused, IsRef};
ghost use Rattle.life_seen.specs.Kinds.{kinds_of, Kinds};
ghost use Rattle.life_seen.specs.Seen.{seen};
ghost use Rattle.life_pointers.specs.Places.{BeginsAt, IsHere, IsPlace, TellsMiss};
ghost use Rattle.life_cells.specs.Cells.{state_in};
ghost use Rattle.life_cells.specs.Fits.{meant, IsFit};
ghost use Rattle.life_cells.specs.Scopes.{function_in, types_in};
ghost use Rattle.life_cells.specs.Typed.{IsPlaced};

use crate::cell::Cell;
use crate::frame::object_at;
use crate::locations::pointer_at;
use crate::members::{location_type, member_word, target_type, word_within};
use crate::scope::Scope;
use life_core::{Location, Operand};
use life_pointers::{Place, Spot, Stop, behind};
use life_store::{ObjRef, Store};

/// What the operand names: a word of a slot that is there, or characters that never end.
#[inline(always)]
pub fn locate<S: Store>(
    scope: &Scope<'_>,
    store: &S,
    cells: &[Cell],
    operand: &Operand,
) -> Result<Place, Stop>
    requires fits { IsFit (types_in scope.now) (S.content store.now) (S.rows store.now) cells.now }
    requires placed { IsPlaced (types_in scope.now) (function_in scope.now) (operand_of operand.now) (state_in (meant (types_in scope.now) (S.content store.now) (S.rows store.now)) cells.now) }
    ensures is { MatchResult result
        (IsPlace (kinds_of (types_in scope.now)) (S.content store.now) (S.rows store.now) (spec.locate (types_in scope.now) (function_in scope.now) (operand_of operand.now) (state_in (meant (types_in scope.now) (S.content store.now) (S.rows store.now)) cells.now)))
        (TellsMiss (spec.locate (types_in scope.now) (function_in scope.now) (operand_of operand.now) (state_in (meant (types_in scope.now) (S.content store.now) (S.rows store.now)) cells.now))) }
    ensures word { IfOk result (BeginsAt (spec.operand_word (types_in scope.now) (function_in scope.now) (operand_of operand.now) (state_in (meant (types_in scope.now) (S.content store.now) (S.rows store.now)) cells.now))) }
{
    match operand {
        Operand::Name(location) => named(scope, store, cells, location),
        Operand::Through { pointer, members } => through(scope, store, cells, pointer, members),
    }
}

// An object of the function, or a member of it.
#[inline(always)]
fn named<S: Store>(
    scope: &Scope<'_>,
    store: &S,
    cells: &[Cell],
    location: &Location,
) -> Result<Place, Stop>
    requires fits { IsFit (types_in scope.now) (S.content store.now) (S.rows store.now) cells.now }
    requires placed { IsPlaced (types_in scope.now) (function_in scope.now) (Name (location_of location.now)) (state_in (meant (types_in scope.now) (S.content store.now) (S.rows store.now)) cells.now) }
    ensures is { MatchResult result
        (IsPlace (kinds_of (types_in scope.now)) (S.content store.now) (S.rows store.now) (spec.locate (types_in scope.now) (function_in scope.now) (Name (location_of location.now)) (state_in (meant (types_in scope.now) (S.content store.now) (S.rows store.now)) cells.now)))
        (TellsMiss (spec.locate (types_in scope.now) (function_in scope.now) (Name (location_of location.now)) (state_in (meant (types_in scope.now) (S.content store.now) (S.rows store.now)) cells.now))) }
    ensures word { IfOk result (BeginsAt (spec.operand_word (types_in scope.now) (function_in scope.now) (Name (location_of location.now)) (state_in (meant (types_in scope.now) (S.content store.now) (S.rows store.now)) cells.now))) }
{
    match object_at(cells, location.local) {
        None => Err(Stop::Lost),
        Some(object) => match first_slot(store, object) {
            Err(stop) => Err(stop),
            Ok(spot) => {
                let word = member_word(scope, location);
                Ok(Place::Here(Spot {
                    object: spot.object,
                    index: spot.index,
                    word,
                }))
            }
        },
    }
}

// The first slot, if the object lives and has one.
#[inline(always)]
fn first_slot<S: Store>(store: &S, object: ObjRef) -> Result<Spot, Stop>
    ensures { (kinds : Kinds) → IsHoused kinds (S.content store.now) (S.rows store.now) → IsRef (S.content store.now) (S.rows store.now) object
        → MatchResult result
        (IsHere kinds (S.content store.now) (S.rows store.now) (spec.found_at (seen kinds (S.content store.now) (S.rows store.now)) object.birth 0))
        (TellsMiss (spec.found_at (seen kinds (S.content store.now) (S.rows store.now)) object.birth 0)) }
{
    match store.shape(object) {
        Err(_) => Err(Stop::Lost),
        Ok(shape) => {
            if 0 < shape.length {
                Ok(Spot {
                    object,
                    index: 0,
                    word: 0,
                })
            } else {
                Err(Stop::Lost)
            }
        }
    }
}

// What a pointer points to, or a member of that.
#[inline(always)]
fn through<S: Store>(
    scope: &Scope<'_>,
    store: &S,
    cells: &[Cell],
    pointer: &Location,
    members: &[u32],
) -> Result<Place, Stop>
    requires fits { IsFit (types_in scope.now) (S.content store.now) (S.rows store.now) cells.now }
    requires placed { IsPlaced (types_in scope.now) (function_in scope.now) (Through (location_of pointer.now) members.now) (state_in (meant (types_in scope.now) (S.content store.now) (S.rows store.now)) cells.now) }
    ensures is { MatchResult result
        (IsPlace (kinds_of (types_in scope.now)) (S.content store.now) (S.rows store.now) (spec.locate (types_in scope.now) (function_in scope.now) (Through (location_of pointer.now) members.now) (state_in (meant (types_in scope.now) (S.content store.now) (S.rows store.now)) cells.now)))
        (TellsMiss (spec.locate (types_in scope.now) (function_in scope.now) (Through (location_of pointer.now) members.now) (state_in (meant (types_in scope.now) (S.content store.now) (S.rows store.now)) cells.now))) }
    ensures word { IfOk result (BeginsAt (spec.operand_word (types_in scope.now) (function_in scope.now) (Through (location_of pointer.now) members.now) (state_in (meant (types_in scope.now) (S.content store.now) (S.rows store.now)) cells.now))) }
{
    match pointer_at(scope, store, cells, pointer) {
        None => Err(Stop::Lost),
        Some(to) => match behind(store, to) {
            Err(stop) => Err(stop),
            Ok(Place::Fixed(characters)) => Ok(Place::Fixed(characters)),
            Ok(Place::Here(spot)) => {
                let ty = target_type(scope, location_type(scope, pointer));
                let inner = word_within(scope, ty, members);
                let word = spot.word + inner;
                Ok(Place::Here(Spot {
                    object: spot.object,
                    index: spot.index,
                    word,
                }))
            }
        },
    }
}
