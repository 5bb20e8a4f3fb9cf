// Locations of pointers: locals that hold one themselves, and members of objects.
ghost use Rattle.std.specs.Prelude.{◌≡◌, [], option_map, IfSome, OnErr, OnOk};
ghost use Rattle.life_core.specs.Operands.{location_of};
ghost use Rattle.life_store.specs.Held as words;
ghost use Rattle.life_store.specs.Kinds.{Pointing};
ghost use Rattle.life_store.specs.Places.{location_cell, pointed};
ghost use Rattle.life_seen.specs.Housed.{IsRef};
ghost use Rattle.life_pointers.specs.Pointers.{pointer_seen, PointerFits};
ghost use Rattle.life_cells.specs.Cells.{pointer_in, state_in};
ghost use Rattle.life_cells.specs.Fits.{meant, IsFit, Keeps};
ghost use Rattle.life_cells.specs.Scopes.{function_in, types_in};
ghost use Rattle.life_cells.specs.Steps.{Comes};
ghost use Rattle.life_cells.specs.Typed.{is_nil, member_of, Holds, HoldsPointer};

use crate::cell::{Cell, holding};
use crate::frame::{object_at, own_pointer, put_cell};
use crate::members::member_word;
use crate::scope::Scope;
use life_core::Location;
use life_pointers::{Pointer, Stop, read_pointer, write_pointer};
use life_store::{ObjRef, Store};

/// The pointer that the location holds, if it holds one.
#[inline(always)]
pub fn pointer_at<S: Store>(
    scope: &Scope<'_>,
    store: &S,
    cells: &[Cell],
    location: &Location,
) -> Option<Pointer>
    requires fits { IsFit (types_in scope.now) (S.content store.now) (S.rows store.now) cells.now }
    requires holds { HoldsPointer (types_in scope.now) (function_in scope.now) (location_of location.now) (state_in (meant (types_in scope.now) (S.content store.now) (S.rows store.now)) cells.now) }
    ensures is { option_map pointer_seen result ≡ pointer_in (location_cell (types_in scope.now) (function_in scope.now) (location_of location.now) (state_in (meant (types_in scope.now) (S.content store.now) (S.rows store.now)) cells.now)) }
    ensures fits { IfSome result (PointerFits (S.content store.now) (S.rows store.now)) }
{
    if is_whole(location) {
        return own_pointer(cells, location.local);
    }
    match object_at(cells, location.local) {
        None => None,
        Some(object) => Some(member_pointer(scope, store, object, location)),
    }
}

// The pointer that is a member of the object.
fn member_pointer<S: Store>(
    scope: &Scope<'_>,
    store: &S,
    object: ObjRef,
    location: &Location,
) -> Pointer
    requires fits { IsFit (types_in scope.now) (S.content store.now) (S.rows store.now) [] }
    requires object { IsRef (S.content store.now) (S.rows store.now) object }
    requires holds { Holds (types_in scope.now) (Pointing 0) 5 object.birth (member_of (types_in scope.now) (function_in scope.now) (location_of location.now)) (meant (types_in scope.now) (S.content store.now) (S.rows store.now)) }
    ensures is { pointer_seen result ≡ words.pointer_in (words.words_at (meant (types_in scope.now) (S.content store.now) (S.rows store.now)) object.birth 0 (member_of (types_in scope.now) (function_in scope.now) (location_of location.now)) 5) }
    ensures fits { PointerFits (S.content store.now) (S.rows store.now) result }
{
    let word = member_word(scope, location);
    read_pointer(store, object, 0, word as u64)
}

/// Gives the location a pointer.
#[inline(always)]
pub fn point<S: Store>(
    scope: &Scope<'_>,
    store: &mut S,
    cells: &mut Vec<Cell>,
    location: &Location,
    pointer: Pointer,
) -> Result<(), Stop>
    requires fits { IsFit (types_in scope.now) (S.content store.old) (S.rows store.old) cells.old.items }
    requires holds { HoldsPointer (types_in scope.now) (function_in scope.now) (location_of location.now) (state_in (meant (types_in scope.now) (S.content store.old) (S.rows store.old)) cells.old.items) }
    requires pointer { PointerFits (S.content store.old) (S.rows store.old) pointer }
    ensures step { Comes (pointed (types_in scope.now) (function_in scope.now) (location_of location.now) (pointer_seen pointer)) (meant (types_in scope.now) (S.content store.old) (S.rows store.old)) cells.old.items (meant (types_in scope.now) (S.content store.new) (S.rows store.new)) cells.new.items result }
    ensures fits { OnOk result (IsFit (types_in scope.now) (S.content store.new) (S.rows store.new) cells.new.items) }
    ensures keeps { Keeps (S.content store.old) (S.content store.new) (S.rows store.old) (S.rows store.new) }
    ensures stays { OnErr result (cells.new ≡ cells.old) }
    ensures content_stays { OnErr result (S.content store.new ≡ S.content store.old) }
    ensures limit { S.limit store.new ≡ S.limit store.old }
{
    if is_whole(location) {
        put_cell(cells, location.local, holding(pointer));
        return Ok(());
    }
    match object_at(cells, location.local) {
        None => Err(Stop::Lost),
        Some(object) => {
            write_member(scope, store, object, location, pointer);
            Ok(())
        }
    }
}

// Writes the pointer into the member of the object.
fn write_member<S: Store>(
    scope: &Scope<'_>,
    store: &mut S,
    object: ObjRef,
    location: &Location,
    pointer: Pointer,
)
    requires fits { IsFit (types_in scope.now) (S.content store.old) (S.rows store.old) [] }
    requires object { IsRef (S.content store.old) (S.rows store.old) object }
    requires holds { Holds (types_in scope.now) (Pointing 0) 5 object.birth (member_of (types_in scope.now) (function_in scope.now) (location_of location.now)) (meant (types_in scope.now) (S.content store.old) (S.rows store.old)) }
    requires pointer { PointerFits (S.content store.old) (S.rows store.old) pointer }
    ensures is { meant (types_in scope.now) (S.content store.new) (S.rows store.new) ≡ words.wrote object.birth 0 (member_of (types_in scope.now) (function_in scope.now) (location_of location.now)) (words.pointer_words (pointer_seen pointer)) (meant (types_in scope.now) (S.content store.old) (S.rows store.old)) }
    ensures fits { IsFit (types_in scope.now) (S.content store.new) (S.rows store.new) [] }
    ensures keeps { Keeps (S.content store.old) (S.content store.new) (S.rows store.old) (S.rows store.new) }
    ensures limit { S.limit store.new ≡ S.limit store.old }
{
    let word = member_word(scope, location);
    write_pointer(store, object, 0, word as u64, pointer);
}

// Whether the location is a local itself.
#[inline(always)]
pub(crate) fn is_whole(location: &Location) -> bool
    ensures { result ≡ is_nil (location_of location.now).members }
{
    location.members.is_empty()
}
