// What unique_ptrs are made to own.
ghost use Rattle.std.specs.Prelude.{◌≡◌, ◌∷◌, [], None, OnOk};
ghost use Rattle.life_types.specs.declared.ty.TyId.{TyId as Id};
ghost use Rattle.life_core.specs.Operands.{location_of};
ghost use Rattle.life_core.specs.Step.{Make};
ghost use Rattle.life_core.specs.declared.instr.Made.TheVariants as made;
ghost use Rattle.life_store.specs.Doing as spec;
ghost use Rattle.life_store.specs.Effects.{cell, Setting};
ghost use Rattle.life_store.specs.Held.{owner_word};
ghost use Rattle.life_store.specs.Parts.{parts_at, Unique};
ghost use Rattle.life_seen.specs.Housed.{Later};
ghost use Rattle.life_forest.proofs.StandingSteps.{IsGivenTo, IsTypedStep};
ghost use Rattle.life_pointers.specs.Owned.{spot_seen};
ghost use Rattle.life_cells.specs.Cells.{state_in};
ghost use Rattle.life_cells.specs.Fits.{meant, IsFit};
ghost use Rattle.life_cells.specs.Scopes.{function_in, types_in};
ghost use Rattle.life_cells.specs.Typed.{HoldsOwner};
ghost use Rattle.life_changes.specs.Bounded.{Grows, IsBounded};
ghost use Rattle.life_changes.specs.Owners.{OwnerAt};
ghost use Rattle.life_changes.specs.Ready.{AreServed, IsReady};
ghost use Rattle.life_changes.specs.Steps.{Goes};

use crate::failure::Failure;
use crate::owner::{first_part, target_of, wide};
use crate::owning::{own_fresh, own_number, own_taken};
use life_cells::{Cell, Scope, cell_at, local_owner, location_type, put_cell};
use life_core::{Location, Made};
use life_pointers::{Spot, Stop};
use life_store::Store;
use life_types::TyId;
use life_values::end_words;

/// Gives a `std::unique_ptr` what it is made to own: what it owned ends.
pub fn make<S: Store>(
    scope: &Scope<'_>,
    store: &mut S,
    cells: &mut Vec<Cell>,
    owner: &Location,
    made: Made,
    depth: u32,
) -> Result<(), Failure>
    requires served { AreServed (types_in scope.now) (S.limit store.old) depth }
    requires ready { IsReady (types_in scope.now) (function_in scope.now) (S.limit store.old) (S.content store.old) (S.rows store.old) cells.old.items }
    requires owner { HoldsOwner (types_in scope.now) (function_in scope.now) (location_of owner.now) (state_in (meant (types_in scope.now) (S.content store.old) (S.rows store.old)) cells.old.items) }
    requires typed { IsTypedStep (types_in scope.now) (function_in scope.now) (state_in (meant (types_in scope.now) (S.content store.old) (S.rows store.old)) cells.old.items) (Make (location_of owner.now) made) }
    ensures step { (s : Setting) → s.given.cells ≡ S.limit store.old
        → Goes (spec.makes s (types_in scope.now) (function_in scope.now) (location_of owner.now) made) (meant (types_in scope.now) (S.content store.old) (S.rows store.old)) cells.old.items (meant (types_in scope.now) (S.content store.new) (S.rows store.new)) cells.new.items result }
    ensures fits { OnOk result (IsFit (types_in scope.now) (S.content store.new) (S.rows store.new) cells.new.items) }
    ensures bounded { OnOk result (IsBounded (S.limit store.old) (meant (types_in scope.now) (S.content store.new) (S.rows store.new))) }
    ensures later { OnOk result (Later (S.content store.old) (S.content store.new) (S.rows store.old) (S.rows store.new)) }
    ensures grows { OnOk result (Grows (S.content store.old) (S.content store.new)) }
    ensures limit { S.limit store.new ≡ S.limit store.old }
{
    match made {
        Made::Null => make_null(scope, store, cells, owner, depth),
        Made::Zero => make_zero(scope, store, cells, owner, depth),
        Made::Of(value) => make_of(scope, store, cells, owner, value, depth),
    }
}

// Nothing.
fn make_null<S: Store>(
    scope: &Scope<'_>,
    store: &mut S,
    cells: &[Cell],
    owner: &Location,
    depth: u32,
) -> Result<(), Failure>
    requires served { AreServed (types_in scope.now) (S.limit store.old) depth }
    requires ready { IsReady (types_in scope.now) (function_in scope.now) (S.limit store.old) (S.content store.old) (S.rows store.old) cells.now }
    requires owner { HoldsOwner (types_in scope.now) (function_in scope.now) (location_of owner.now) (state_in (meant (types_in scope.now) (S.content store.old) (S.rows store.old)) cells.now) }
    requires typed { IsTypedStep (types_in scope.now) (function_in scope.now) (state_in (meant (types_in scope.now) (S.content store.old) (S.rows store.old)) cells.now) (Make (location_of owner.now) made.Null) }
    ensures step { (s : Setting) → Goes (spec.makes s (types_in scope.now) (function_in scope.now) (location_of owner.now) made.Null) (meant (types_in scope.now) (S.content store.old) (S.rows store.old)) cells.now (meant (types_in scope.now) (S.content store.new) (S.rows store.new)) cells.now result }
    ensures fits { OnOk result (IsFit (types_in scope.now) (S.content store.new) (S.rows store.new) cells.now) }
    ensures bounded { OnOk result (IsBounded (S.limit store.old) (meant (types_in scope.now) (S.content store.new) (S.rows store.new))) }
    ensures later { OnOk result (Later (S.content store.old) (S.content store.new) (S.rows store.old) (S.rows store.new)) }
    ensures grows { OnOk result (Grows (S.content store.old) (S.content store.new)) }
    ensures limit { S.limit store.new ≡ S.limit store.old }
{
    match local_owner(scope, store, cells, owner) {
        Err(stop) => Err(Failure::Stopped(stop)),
        Ok(spot) => match location_type(scope, owner) {
            None => Err(Failure::Stopped(Stop::Lost)),
            Some(ty) => {
                empty(scope, store, cells, spot, ty, depth);
                Ok(())
            }
        },
    }
}

// What the owner at a spot owns ends.
fn empty<S: Store>(
    scope: &Scope<'_>,
    store: &mut S,
    cells: &[Cell],
    spot: Spot,
    ty: TyId,
    depth: u32,
)
    requires at { OwnerAt (types_in scope.now) (function_in scope.now) (S.limit store.old) depth ty spot (S.content store.old) (S.rows store.old) cells.now }
    requires unique { (id : Id) × (parts_at (types_in scope.now) ty ≡ Unique id (parts_at (types_in scope.now) id)) }
    ensures emptied { meant (types_in scope.now) (S.content store.new) (S.rows store.new)
        ≡ spec.replaced (parts_at (types_in scope.now) ty) (spot_seen spot) (owner_word None ∷ [], meant (types_in scope.now) (S.content store.old) (S.rows store.old)) }
    ensures fits { IsFit (types_in scope.now) (S.content store.new) (S.rows store.new) cells.now }
    ensures bounded { IsBounded (S.limit store.old) (meant (types_in scope.now) (S.content store.new) (S.rows store.new)) }
    ensures later { Later (S.content store.old) (S.content store.new) (S.rows store.old) (S.rows store.new) }
    ensures grows { Grows (S.content store.old) (S.content store.new) }
    ensures limit { S.limit store.new ≡ S.limit store.old }
{
    let place = wide(spot);
    end_words(scope.types, scope.layouts, store, place, &[0], depth);
}

// A new object, as an empty list leaves it.
fn make_zero<S: Store>(
    scope: &Scope<'_>,
    store: &mut S,
    cells: &[Cell],
    owner: &Location,
    depth: u32,
) -> Result<(), Failure>
    requires served { AreServed (types_in scope.now) (S.limit store.old) depth }
    requires ready { IsReady (types_in scope.now) (function_in scope.now) (S.limit store.old) (S.content store.old) (S.rows store.old) cells.now }
    requires owner { HoldsOwner (types_in scope.now) (function_in scope.now) (location_of owner.now) (state_in (meant (types_in scope.now) (S.content store.old) (S.rows store.old)) cells.now) }
    requires typed { IsTypedStep (types_in scope.now) (function_in scope.now) (state_in (meant (types_in scope.now) (S.content store.old) (S.rows store.old)) cells.now) (Make (location_of owner.now) made.Zero) }
    ensures step { (s : Setting) → s.given.cells ≡ S.limit store.old
        → Goes (spec.makes s (types_in scope.now) (function_in scope.now) (location_of owner.now) made.Zero) (meant (types_in scope.now) (S.content store.old) (S.rows store.old)) cells.now (meant (types_in scope.now) (S.content store.new) (S.rows store.new)) cells.now result }
    ensures fits { OnOk result (IsFit (types_in scope.now) (S.content store.new) (S.rows store.new) cells.now) }
    ensures bounded { OnOk result (IsBounded (S.limit store.old) (meant (types_in scope.now) (S.content store.new) (S.rows store.new))) }
    ensures later { OnOk result (Later (S.content store.old) (S.content store.new) (S.rows store.old) (S.rows store.new)) }
    ensures grows { OnOk result (Grows (S.content store.old) (S.content store.new)) }
    ensures limit { S.limit store.new ≡ S.limit store.old }
{
    match local_owner(scope, store, cells, owner) {
        Err(stop) => Err(Failure::Stopped(stop)),
        Ok(spot) => match location_type(scope, owner) {
            None => Err(Failure::Stopped(Stop::Lost)),
            Some(ty) => zero_at(scope, store, cells, spot, ty, depth),
        },
    }
}

// .. the one at a spot.
fn zero_at<S: Store>(
    scope: &Scope<'_>,
    store: &mut S,
    cells: &[Cell],
    spot: Spot,
    ty: TyId,
    depth: u32,
) -> Result<(), Failure>
    requires at { OwnerAt (types_in scope.now) (function_in scope.now) (S.limit store.old) depth ty spot (S.content store.old) (S.rows store.old) cells.now }
    requires unique { (id : Id) × (parts_at (types_in scope.now) ty ≡ Unique id (parts_at (types_in scope.now) id)) }
    ensures step { (s : Setting) → s.given.cells ≡ S.limit store.old
        → Goes (spec.made_fresh s (parts_at (types_in scope.now) ty) (spot_seen spot)) (meant (types_in scope.now) (S.content store.old) (S.rows store.old)) cells.now (meant (types_in scope.now) (S.content store.new) (S.rows store.new)) cells.now result }
    ensures fits { OnOk result (IsFit (types_in scope.now) (S.content store.new) (S.rows store.new) cells.now) }
    ensures bounded { OnOk result (IsBounded (S.limit store.old) (meant (types_in scope.now) (S.content store.new) (S.rows store.new))) }
    ensures later { OnOk result (Later (S.content store.old) (S.content store.new) (S.rows store.old) (S.rows store.new)) }
    ensures grows { OnOk result (Grows (S.content store.old) (S.content store.new)) }
    ensures limit { S.limit store.new ≡ S.limit store.old }
{
    match target_of(first_part(scope, ty)) {
        None => Err(Failure::Stopped(Stop::Lost)),
        Some(target) => own_fresh(scope, store, spot, ty, target, depth),
    }
}

// A new object with a register's value, or with that of a temporary, which is given over.
fn make_of<S: Store>(
    scope: &Scope<'_>,
    store: &mut S,
    cells: &mut Vec<Cell>,
    owner: &Location,
    value: u32,
    depth: u32,
) -> Result<(), Failure>
    requires served { AreServed (types_in scope.now) (S.limit store.old) depth }
    requires ready { IsReady (types_in scope.now) (function_in scope.now) (S.limit store.old) (S.content store.old) (S.rows store.old) cells.old.items }
    requires owner { HoldsOwner (types_in scope.now) (function_in scope.now) (location_of owner.now) (state_in (meant (types_in scope.now) (S.content store.old) (S.rows store.old)) cells.old.items) }
    requires typed { IsTypedStep (types_in scope.now) (function_in scope.now) (state_in (meant (types_in scope.now) (S.content store.old) (S.rows store.old)) cells.old.items) (Make (location_of owner.now) (made.Of value)) }
    ensures step { (s : Setting) → s.given.cells ≡ S.limit store.old
        → Goes (spec.makes s (types_in scope.now) (function_in scope.now) (location_of owner.now) (made.Of value)) (meant (types_in scope.now) (S.content store.old) (S.rows store.old)) cells.old.items (meant (types_in scope.now) (S.content store.new) (S.rows store.new)) cells.new.items result }
    ensures fits { OnOk result (IsFit (types_in scope.now) (S.content store.new) (S.rows store.new) cells.new.items) }
    ensures bounded { OnOk result (IsBounded (S.limit store.old) (meant (types_in scope.now) (S.content store.new) (S.rows store.new))) }
    ensures later { OnOk result (Later (S.content store.old) (S.content store.new) (S.rows store.old) (S.rows store.new)) }
    ensures grows { OnOk result (Grows (S.content store.old) (S.content store.new)) }
    ensures limit { S.limit store.new ≡ S.limit store.old }
{
    match local_owner(scope, store, cells, owner) {
        Err(stop) => Err(Failure::Stopped(stop)),
        Ok(spot) => match location_type(scope, owner) {
            None => Err(Failure::Stopped(Stop::Lost)),
            Some(ty) => of_at(scope, store, cells, spot, ty, value, depth),
        },
    }
}

// .. the one at a spot.
fn of_at<S: Store>(
    scope: &Scope<'_>,
    store: &mut S,
    cells: &mut Vec<Cell>,
    spot: Spot,
    ty: TyId,
    value: u32,
    depth: u32,
) -> Result<(), Failure>
    requires at { OwnerAt (types_in scope.now) (function_in scope.now) (S.limit store.old) depth ty spot (S.content store.old) (S.rows store.old) cells.old.items }
    requires unique { (id : Id) × (parts_at (types_in scope.now) ty ≡ Unique id (parts_at (types_in scope.now) id)) × IsGivenTo (types_in scope.now) (function_in scope.now) (state_in (meant (types_in scope.now) (S.content store.old) (S.rows store.old)) cells.old.items) id value }
    ensures step { (s : Setting) → s.given.cells ≡ S.limit store.old
        → Goes (λ st. spec.made_of s (types_in scope.now) (function_in scope.now) (parts_at (types_in scope.now) ty) (spot_seen spot) value (cell st value) st) (meant (types_in scope.now) (S.content store.old) (S.rows store.old)) cells.old.items (meant (types_in scope.now) (S.content store.new) (S.rows store.new)) cells.new.items result }
    ensures fits { OnOk result (IsFit (types_in scope.now) (S.content store.new) (S.rows store.new) cells.new.items) }
    ensures bounded { OnOk result (IsBounded (S.limit store.old) (meant (types_in scope.now) (S.content store.new) (S.rows store.new))) }
    ensures later { OnOk result (Later (S.content store.old) (S.content store.new) (S.rows store.old) (S.rows store.new)) }
    ensures grows { OnOk result (Grows (S.content store.old) (S.content store.new)) }
    ensures limit { S.limit store.new ≡ S.limit store.old }
{
    match target_of(first_part(scope, ty)) {
        None => Err(Failure::Stopped(Stop::Lost)),
        Some(target) => of_target(scope, store, cells, spot, ty, target, value, depth),
    }
}

// .. whose target has the type.
fn of_target<S: Store>(
    scope: &Scope<'_>,
    store: &mut S,
    cells: &mut Vec<Cell>,
    spot: Spot,
    ty: TyId,
    target: TyId,
    value: u32,
    depth: u32,
) -> Result<(), Failure>
    requires at { OwnerAt (types_in scope.now) (function_in scope.now) (S.limit store.old) depth ty spot (S.content store.old) (S.rows store.old) cells.old.items }
    requires unique { parts_at (types_in scope.now) ty ≡ Unique target (parts_at (types_in scope.now) target) }
    requires given { IsGivenTo (types_in scope.now) (function_in scope.now) (state_in (meant (types_in scope.now) (S.content store.old) (S.rows store.old)) cells.old.items) target value }
    ensures step { (s : Setting) → s.given.cells ≡ S.limit store.old
        → Goes (λ st. spec.made_of s (types_in scope.now) (function_in scope.now) (parts_at (types_in scope.now) ty) (spot_seen spot) value (cell st value) st) (meant (types_in scope.now) (S.content store.old) (S.rows store.old)) cells.old.items (meant (types_in scope.now) (S.content store.new) (S.rows store.new)) cells.new.items result }
    ensures fits { OnOk result (IsFit (types_in scope.now) (S.content store.new) (S.rows store.new) cells.new.items) }
    ensures bounded { OnOk result (IsBounded (S.limit store.old) (meant (types_in scope.now) (S.content store.new) (S.rows store.new))) }
    ensures later { OnOk result (Later (S.content store.old) (S.content store.new) (S.rows store.old) (S.rows store.new)) }
    ensures grows { OnOk result (Grows (S.content store.old) (S.content store.new)) }
    ensures limit { S.limit store.new ≡ S.limit store.old }
{
    match cell_at(cells, value) {
        Some(Cell::Number(number)) => {
            let word = number.cast_unsigned();
            own_number(scope, store, spot, ty, target, word, depth)
        }
        Some(Cell::Object(temporary)) => {
            match own_taken(scope, store, spot, ty, target, temporary, depth) {
                Err(failure) => Err(failure),
                Ok(()) => {
                    put_cell(cells, value, Cell::Empty);
                    Ok(())
                }
            }
        }
        Some(Cell::Empty) => Err(Failure::Stopped(Stop::Lost)),
        Some(Cell::Null) => Err(Failure::Stopped(Stop::Lost)),
        Some(Cell::Wild) => Err(Failure::Stopped(Stop::Lost)),
        Some(Cell::To { .. }) => Err(Failure::Stopped(Stop::Lost)),
        Some(Cell::Static(_)) => Err(Failure::Stopped(Stop::Lost)),
        None => Err(Failure::Stopped(Stop::Lost)),
    }
}
