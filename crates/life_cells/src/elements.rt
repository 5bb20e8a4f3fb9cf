// Elements of what has some.
ghost use Rattle.std.specs.Prelude.{◌≡◌, IfOk, IfSome, OnErr, OnOk};
ghost use Rattle.life_core.specs.Function.{Function};
ghost use Rattle.life_core.specs.Operands.{base_of, location_of, operand_of, Owner, Pointer as Leading};
ghost use Rattle.life_types.specs.Types.{Types};
ghost use Rattle.life_store.specs.Content.{Object};
ghost use Rattle.life_store.specs.Doing as spec;
ghost use Rattle.life_seen.specs.Kinds.{kinds_of};
ghost use Rattle.life_pointers.specs.Owned.{spot_seen};
ghost use Rattle.life_pointers.specs.Pointers.{PointerFits};
ghost use Rattle.life_cells.specs.Cells.{state_in};
ghost use Rattle.life_cells.specs.Fits.{meant, IsFit, Keeps};
ghost use Rattle.life_cells.specs.Owners.{OwnsAt};
ghost use Rattle.life_cells.specs.Scopes.{function_in, types_in};
ghost use Rattle.life_cells.specs.Steps.{Comes, Makes};
ghost use Rattle.life_cells.specs.Typed.{HoldsPointer, IsBase, IsOwnerPlace};

use crate::cell::Cell;
use crate::frame::number_at;
use crate::locations::{point, pointer_at};
use crate::owners::owner_at;
use crate::scope::Scope;
use crate::stops::lost_behind;
use life_core::{Base, Location, Operand, Which};
use life_pointers::{
    Choice, Pointer, Spot, Stop, buffer, owned_element, owned_target, usable, viewed_element,
};
use life_store::Store;

/// Makes a pointer point to an element.
#[inline(always)]
pub fn element<S: Store>(
    scope: &Scope<'_>,
    store: &mut S,
    cells: &mut Vec<Cell>,
    pointer: &Location,
    base: &Base,
    which: Which,
) -> Result<(), Stop>
    requires fits { IsFit (types_in scope.now) (S.content store.old) (S.rows store.old) cells.old.items }
    requires pointer { HoldsPointer (types_in scope.now) (function_in scope.now) (location_of pointer.now) (state_in (meant (types_in scope.now) (S.content store.old) (S.rows store.old)) cells.old.items) }
    requires base { IsBase (types_in scope.now) (function_in scope.now) (base_of base.now) (state_in (meant (types_in scope.now) (S.content store.old) (S.rows store.old)) cells.old.items) }
    ensures step { Comes (spec.element (types_in scope.now) (function_in scope.now) (location_of pointer.now) (base_of base.now) which) (meant (types_in scope.now) (S.content store.old) (S.rows store.old)) cells.old.items (meant (types_in scope.now) (S.content store.new) (S.rows store.new)) cells.new.items result }
    ensures fits { OnOk result (IsFit (types_in scope.now) (S.content store.new) (S.rows store.new) cells.new.items) }
    ensures keeps { Keeps (S.content store.old) (S.content store.new) (S.rows store.old) (S.rows store.new) }
    ensures stays { OnErr result (cells.new ≡ cells.old) }
    ensures content_stays { OnErr result (S.content store.new ≡ S.content store.old) }
    ensures limit { S.limit store.new ≡ S.limit store.old }
{
    let to = chosen(scope, store, cells, base, which)?;
    point(scope, store, cells, pointer, to)
}

// The element.
#[inline(always)]
fn chosen<S: Store>(
    scope: &Scope<'_>,
    store: &S,
    cells: &[Cell],
    base: &Base,
    which: Which,
) -> Result<Pointer, Stop>
    requires fits { IsFit (types_in scope.now) (S.content store.now) (S.rows store.now) cells.now }
    requires base { IsBase (types_in scope.now) (function_in scope.now) (base_of base.now) (state_in (meant (types_in scope.now) (S.content store.now) (S.rows store.now)) cells.now) }
    ensures is { Makes (types_in scope.now) (function_in scope.now) (λ p. spec.element (types_in scope.now) (function_in scope.now) p (base_of base.now) which) (meant (types_in scope.now) (S.content store.now) (S.rows store.now)) cells.now result }
    ensures fits { IfOk result (PointerFits (S.content store.now) (S.rows store.now)) }
{
    match base {
        Base::Owner(operand) => of_owner(scope, store, cells, operand, which),
        Base::Pointer(location) => of_view(scope, store, cells, location, which),
    }
}

// An element of what an operand names.
#[inline(always)]
fn of_owner<S: Store>(
    scope: &Scope<'_>,
    store: &S,
    cells: &[Cell],
    operand: &Operand,
    which: Which,
) -> Result<Pointer, Stop>
    requires fits { IsFit (types_in scope.now) (S.content store.now) (S.rows store.now) cells.now }
    requires owner { IsOwnerPlace (types_in scope.now) (function_in scope.now) (operand_of operand.now) (state_in (meant (types_in scope.now) (S.content store.now) (S.rows store.now)) cells.now) }
    ensures is { Makes (types_in scope.now) (function_in scope.now) (λ p. spec.element (types_in scope.now) (function_in scope.now) p (Owner (operand_of operand.now)) which) (meant (types_in scope.now) (S.content store.now) (S.rows store.now)) cells.now result }
    ensures fits { IfOk result (PointerFits (S.content store.now) (S.rows store.now)) }
{
    match owner_at(scope, store, cells, operand) {
        Err(stop) => Err(stop),
        Ok(owner) => of_spot(scope, store, cells, owner, which),
    }
}

// An element of an owner.
#[inline(always)]
fn of_spot<S: Store>(
    scope: &Scope<'_>,
    store: &S,
    cells: &[Cell],
    owner: Spot,
    which: Which,
) -> Result<Pointer, Stop>
    requires fits { IsFit (types_in scope.now) (S.content store.now) (S.rows store.now) cells.now }
    requires owns { OwnsAt (kinds_of (types_in scope.now)) (S.content store.now) (S.rows store.now) owner }
    ensures is { Makes (types_in scope.now) (function_in scope.now) (λ p. spec.owner_element (types_in scope.now) (function_in scope.now) p (spot_seen owner) which) (meant (types_in scope.now) (S.content store.now) (S.rows store.now)) cells.now result }
    ensures fits { IfOk result (PointerFits (S.content store.now) (S.rows store.now)) }
{
    match which {
        Which::Target => owned_target(store, owner),
        Which::First => owned_element(store, owner, Choice::First),
        Which::Last => owned_element(store, owner, Choice::Last),
        Which::Index(register) => match number_at(cells, register) {
            None => match buffer(store, owner) {
                Err(stop) => Err(stop),
                Ok(_) => Err(Stop::Lost),
            },
            Some(index) => owned_element(store, owner, Choice::At(index)),
        },
    }
}

// An element of what a span or a view sees.
fn of_view<S: Store>(
    scope: &Scope<'_>,
    store: &S,
    cells: &[Cell],
    location: &Location,
    which: Which,
) -> Result<Pointer, Stop>
    requires fits { IsFit (types_in scope.now) (S.content store.now) (S.rows store.now) cells.now }
    requires holds { HoldsPointer (types_in scope.now) (function_in scope.now) (location_of location.now) (state_in (meant (types_in scope.now) (S.content store.now) (S.rows store.now)) cells.now) }
    ensures is { Makes (types_in scope.now) (function_in scope.now) (λ p. spec.element (types_in scope.now) (function_in scope.now) p (Leading (location_of location.now)) which) (meant (types_in scope.now) (S.content store.now) (S.rows store.now)) cells.now result }
    ensures fits { IfOk result (PointerFits (S.content store.now) (S.rows store.now)) }
{
    match pointer_at(scope, store, cells, location) {
        None => Err(Stop::Lost),
        Some(view) => match which {
            Which::Target => lost_behind(usable(store, view)),
            Which::First => viewed_element(store, view, Choice::First),
            Which::Last => viewed_element(store, view, Choice::Last),
            Which::Index(register) => match number_at(cells, register) {
                None => lost_behind(usable(store, view)),
                Some(index) => viewed_element(store, view, Choice::At(index)),
            },
        },
    }
}
