// Values of whole locals and of what pointers point to, read and written at once or not at all.
ghost use Rattle.std.specs.Prelude.{◌≡◌, IfSome};
ghost use Rattle.std.specs.declared.alloc.Global.{Global};
ghost use Rattle.std.specs.declared.vec.Vec.{Vec as Frame};
ghost use Rattle.life_types.specs.Types.{Types};
ghost use Rattle.life_core.specs.Function.{Function};
ghost use Rattle.life_core.specs.Operands.{behind, object_named, whole, Operand, Owner};
ghost use Rattle.life_core.specs.Step.{Element, Load, Save};
ghost use Rattle.life_core.specs.declared.operand.Which.TheVariants as which;
ghost use Rattle.life_store.specs.Content.{CanCount, Object};
ghost use Rattle.life_store.specs.Effects.{Got};
ghost use Rattle.life_store.specs.Places.{found_at};
ghost use Rattle.life_store.specs.References.{object_of, HasWord};
ghost use Rattle.life_seen.specs.Housed.{IsHoused, IsRef};
ghost use Rattle.life_seen.specs.Kinds.{Kinds};
ghost use Rattle.life_seen.specs.Seen.{seen};
ghost use Rattle.life_words.specs.Owning.{IsOwner};
ghost use Rattle.life_pointers.specs.Owned.{owned_element, spot_seen};
ghost use Rattle.life_pointers.specs.Places.{IsHere};
ghost use Rattle.life_pointers.specs.Pointers.{pointer_seen, PointerFits};
ghost use Rattle.life_pointers.specs.declared.choosing.Choice.TheVariants as choice;
ghost use Rattle.life_cells.specs.Cells.{state_in};
ghost use Rattle.life_cells.specs.Fits.{meant, IsFit};
ghost use Rattle.life_cells.specs.Scopes.{function_in, texts_in, types_in};
ghost use Rattle.life_cells.specs.declared.cell.Cell.{Cell as Held};
ghost use Rattle.life_cells.specs.Typed.{IsOwnerPlace};
ghost use Rattle.life_interp.specs.Accessed.{IsNumberPlace};
ghost use Rattle.life_interp.specs.Quick.{Attempts};
ghost use Rattle.life_interp.specs.Spots.{IsNumberSpot, IsOwnerSpot, IsSpotAt};

use life_cells::{Cell, Scope, holding, number_at, object_at, own_pointer, put_cell};
use life_pointers::{Place, Pointer, Spot, behind, buffer, length, place_pointer};
use life_store::{ObjRef, Store};
use life_words::{number, put_number};

/// Reads the number of a local into a register, if nothing stops that; else nothing changes.
#[inline(always)]
pub(crate) fn load_named<S: Store>(
    scope: &Scope<'_>,
    store: &S,
    cells: &mut Vec<Cell>,
    into: u32,
    local: u32,
) -> bool
    requires fits { IsFit (types_in scope.now) (S.content store.now) (S.rows store.now) cells.old.items }
    requires place { IsNumberPlace (types_in scope.now) (function_in scope.now) (object_named local) (state_in (meant (types_in scope.now) (S.content store.now) (S.rows store.now)) cells.old.items) }
    ensures { Attempts (types_in scope.now) (function_in scope.now) (S.limit store.now) (texts_in scope.now) (Load into (object_named local)) (S.content store.now) (S.content store.now) (S.rows store.now) (S.rows store.now) cells.old cells.new result }
{
    let spot = named_spot(store, cells, local);
    load_at_once(scope, store, cells, into, spot)
}

/// .. or of what a pointer points to.
#[inline(always)]
pub(crate) fn load_pointed<S: Store>(
    scope: &Scope<'_>,
    store: &S,
    cells: &mut Vec<Cell>,
    into: u32,
    pointer: u32,
) -> bool
    requires fits { IsFit (types_in scope.now) (S.content store.now) (S.rows store.now) cells.old.items }
    requires place { IsNumberPlace (types_in scope.now) (function_in scope.now) (behind pointer) (state_in (meant (types_in scope.now) (S.content store.now) (S.rows store.now)) cells.old.items) }
    ensures { Attempts (types_in scope.now) (function_in scope.now) (S.limit store.now) (texts_in scope.now) (Load into (behind pointer)) (S.content store.now) (S.content store.now) (S.rows store.now) (S.rows store.now) cells.old cells.new result }
{
    let spot = pointed_spot(store, cells, pointer);
    load_at_once(scope, store, cells, into, spot)
}

/// Writes a register's number to a local, if nothing stops that; else nothing changes.
#[inline(always)]
pub(crate) fn save_named<S: Store>(
    scope: &Scope<'_>,
    store: &mut S,
    cells: &mut Vec<Cell>,
    local: u32,
    from: u32,
) -> bool
    requires fits { IsFit (types_in scope.now) (S.content store.old) (S.rows store.old) cells.old.items }
    requires place { IsNumberPlace (types_in scope.now) (function_in scope.now) (object_named local) (state_in (meant (types_in scope.now) (S.content store.old) (S.rows store.old)) cells.old.items) }
    ensures done { Attempts (types_in scope.now) (function_in scope.now) (S.limit store.old) (texts_in scope.now) (Save (object_named local) from) (S.content store.old) (S.content store.new) (S.rows store.old) (S.rows store.new) cells.old cells.new result }
    ensures limit { S.limit store.new ≡ S.limit store.old }
{
    let spot = named_spot(store, cells, local);
    save_at_once(scope, store, cells, spot, from)
}

/// .. or to what a pointer points to.
#[inline(always)]
pub(crate) fn save_pointed<S: Store>(
    scope: &Scope<'_>,
    store: &mut S,
    cells: &mut Vec<Cell>,
    pointer: u32,
    from: u32,
) -> bool
    requires fits { IsFit (types_in scope.now) (S.content store.old) (S.rows store.old) cells.old.items }
    requires place { IsNumberPlace (types_in scope.now) (function_in scope.now) (behind pointer) (state_in (meant (types_in scope.now) (S.content store.old) (S.rows store.old)) cells.old.items) }
    ensures done { Attempts (types_in scope.now) (function_in scope.now) (S.limit store.old) (texts_in scope.now) (Save (behind pointer) from) (S.content store.old) (S.content store.new) (S.rows store.old) (S.rows store.new) cells.old cells.new result }
    ensures limit { S.limit store.new ≡ S.limit store.old }
{
    let spot = pointed_spot(store, cells, pointer);
    save_at_once(scope, store, cells, spot, from)
}

/// Makes the pointer that a local is point to an element of what another local owns, if nothing stops that; else nothing
/// changes.
#[inline(always)]
pub(crate) fn index_named<S: Store>(
    scope: &Scope<'_>,
    store: &S,
    cells: &mut Vec<Cell>,
    pointer: u32,
    owner: u32,
    index: u32,
) -> bool
    requires fits { IsFit (types_in scope.now) (S.content store.now) (S.rows store.now) cells.old.items }
    requires place { IsOwnerPlace (types_in scope.now) (function_in scope.now) (object_named owner) (state_in (meant (types_in scope.now) (S.content store.now) (S.rows store.now)) cells.old.items) }
    ensures { Attempts (types_in scope.now) (function_in scope.now) (S.limit store.now) (texts_in scope.now) (Element (whole pointer) (Owner (object_named owner)) (which.Index index)) (S.content store.now) (S.content store.now) (S.rows store.now) (S.rows store.now) cells.old cells.new result }
{
    let spot = named_spot(store, cells, owner);
    index_at_once(scope, store, cells, pointer, spot, index)
}

// The slot of the object that the local has, if it is there.
#[inline(always)]
fn named_spot<S: Store>(store: &S, cells: &[Cell], local: u32) -> Option<Spot>
    ensures { (types : Types) (f : Function) → IsFit types (S.content store.now) (S.rows store.now) cells.now
        → IfSome result (IsSpotAt types f (object_named local) (state_in (meant types (S.content store.now) (S.rows store.now)) cells.now) (S.content store.now) (S.rows store.now)) }
{
    match object_at(cells, local) {
        None => None,
        Some(object) => first_spot(store, object),
    }
}

// The first slot, if the object lives and has one.
#[inline(always)]
fn first_spot<S: Store>(store: &S, object: ObjRef) -> Option<Spot>
    ensures here { (kinds : Kinds) → IsHoused kinds (S.content store.now) (S.rows store.now) → IsRef (S.content store.now) (S.rows store.now) object
        → IfSome result (IsHere kinds (S.content store.now) (S.rows store.now) (found_at (seen kinds (S.content store.now) (S.rows store.now)) object.birth 0)) }
    ensures word { IfSome result (λ spot. spot.word ≡ 0) }
{
    match store.shape(object) {
        Err(_) => None,
        Ok(shape) => {
            if 0 < shape.length {
                Some(Spot {
                    object,
                    index: 0,
                    word: 0,
                })
            } else {
                None
            }
        }
    }
}

// The slot to which the pointer that the local holds points, if that may be used.
#[inline(always)]
fn pointed_spot<S: Store>(store: &S, cells: &[Cell], pointer: u32) -> Option<Spot>
    ensures { (types : Types) (f : Function) → IsFit types (S.content store.now) (S.rows store.now) cells.now
        → IfSome result (IsSpotAt types f (behind pointer) (state_in (meant types (S.content store.now) (S.rows store.now)) cells.now) (S.content store.now) (S.rows store.now)) }
{
    match own_pointer(cells, pointer) {
        None => None,
        Some(to) => match behind(store, to) {
            Err(_) => None,
            Ok(Place::Fixed(_)) => None,
            Ok(Place::Here(spot)) => Some(spot),
        },
    }
}

// Reads a number into a register, if it was found.
#[inline(always)]
fn load_at_once<S: Store>(
    scope: &Scope<'_>,
    store: &S,
    cells: &mut Vec<Cell>,
    into: u32,
    spot: Option<Spot>,
) -> bool
    requires fits { IsFit (types_in scope.now) (S.content store.now) (S.rows store.now) cells.old.items }
    requires number { (o : Operand) × IsNumberSpot (types_in scope.now) (function_in scope.now) o (state_in (meant (types_in scope.now) (S.content store.now) (S.rows store.now)) cells.old.items) (S.content store.now) (S.rows store.now) spot }
    ensures { (o : Operand) → IsNumberSpot (types_in scope.now) (function_in scope.now) o (state_in (meant (types_in scope.now) (S.content store.now) (S.rows store.now)) cells.old.items) (S.content store.now) (S.rows store.now) spot
        → Attempts (types_in scope.now) (function_in scope.now) (S.limit store.now) (texts_in scope.now) (Load into o) (S.content store.now) (S.content store.now) (S.rows store.now) (S.rows store.now) cells.old cells.new result }
{
    match spot {
        None => false,
        Some(spot) => {
            let word = number(store, spot.object, spot.index, spot.word as u64);
            put_cell(cells, into, Cell::Number(word.cast_signed()));
            true
        }
    }
}

// Writes a register's number to a place, if that was found.
#[inline(always)]
fn save_at_once<S: Store>(
    scope: &Scope<'_>,
    store: &mut S,
    cells: &[Cell],
    spot: Option<Spot>,
    from: u32,
) -> bool
    requires fits { IsFit (types_in scope.now) (S.content store.old) (S.rows store.old) cells.now }
    requires number { (o : Operand) × IsNumberSpot (types_in scope.now) (function_in scope.now) o (state_in (meant (types_in scope.now) (S.content store.old) (S.rows store.old)) cells.now) (S.content store.old) (S.rows store.old) spot }
    ensures done { (o : Operand) → IsNumberSpot (types_in scope.now) (function_in scope.now) o (state_in (meant (types_in scope.now) (S.content store.old) (S.rows store.old)) cells.now) (S.content store.old) (S.rows store.old) spot
        → (frame : Frame Held Global) → frame.items ≡ cells.now
        → Attempts (types_in scope.now) (function_in scope.now) (S.limit store.old) (texts_in scope.now) (Save o from) (S.content store.old) (S.content store.new) (S.rows store.old) (S.rows store.new) frame frame result }
    ensures limit { S.limit store.new ≡ S.limit store.old }
{
    match spot {
        None => false,
        Some(spot) => match number_at(cells, from) {
            None => false,
            Some(value) => {
                let word = value.cast_unsigned();
                put_number(store, spot.object, spot.index, spot.word as u64, word);
                true
            }
        },
    }
}

// Makes the pointer that a local is point to an element of an owner, if that was found.
#[inline(always)]
fn index_at_once<S: Store>(
    scope: &Scope<'_>,
    store: &S,
    cells: &mut Vec<Cell>,
    pointer: u32,
    owner: Option<Spot>,
    index: u32,
) -> bool
    requires fits { IsFit (types_in scope.now) (S.content store.now) (S.rows store.now) cells.old.items }
    requires owner { (o : Operand) × IsOwnerSpot (types_in scope.now) (function_in scope.now) o (state_in (meant (types_in scope.now) (S.content store.now) (S.rows store.now)) cells.old.items) (S.content store.now) (S.rows store.now) owner }
    ensures { (o : Operand) → IsOwnerSpot (types_in scope.now) (function_in scope.now) o (state_in (meant (types_in scope.now) (S.content store.now) (S.rows store.now)) cells.old.items) (S.content store.now) (S.rows store.now) owner
        → Attempts (types_in scope.now) (function_in scope.now) (S.limit store.now) (texts_in scope.now) (Element (whole pointer) (Owner o) (which.Index index)) (S.content store.now) (S.content store.now) (S.rows store.now) (S.rows store.now) cells.old cells.new result }
{
    match owner {
        None => false,
        Some(owner) => match number_at(cells, index) {
            None => false,
            Some(number) => match element_at(store, owner, number) {
                None => false,
                Some(to) => {
                    put_cell(cells, pointer, holding(to));
                    true
                }
            },
        },
    }
}

// A pointer to the element of an owner with this index, if there is one.
#[inline(always)]
fn element_at<S: Store>(store: &S, owner: Spot, number: i64) -> Option<Pointer>
    requires { IfSome (object_of (S.content store.now) (S.rows store.now) owner.object) (HasWord owner.index owner.word) }
    ensures is { (kinds : Kinds) (o : Object) → IsOwner kinds (S.content store.now) (S.rows store.now) owner.object owner.word o
        → IfSome result (λ to. Got (pointer_seen to) ≡ owned_element (seen kinds (S.content store.now) (S.rows store.now)) (choice.At number) (spot_seen owner)) }
    ensures fits { (kinds : Kinds) (o : Object) → IsOwner kinds (S.content store.now) (S.rows store.now) owner.object owner.word o
        → CanCount (S.content store.now) → IfSome result (PointerFits (S.content store.now) (S.rows store.now)) }
{
    match buffer(store, owner) {
        Err(_) => None,
        Ok(object) => {
            let index = number.cast_unsigned();
            if index < length(store, object) as u64 {
                let index = index as u32;
                Some(place_pointer(
                    store.now(),
                    Spot {
                        object,
                        index,
                        word: 0,
                    },
                ))
            } else {
                None
            }
        }
    }
}
