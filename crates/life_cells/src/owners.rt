// Owners that instructions name.
ghost use Rattle.std.specs.Prelude.{◌≡◌, IfOk};
ghost use Rattle.life_core.specs.Operands.{location_of, operand_of};
ghost use Rattle.life_seen.specs.Kinds.{kinds_of};
ghost use Rattle.life_store.specs.Effects.{cell, on_got};
ghost use Rattle.life_store.specs.Places as spec;
ghost use Rattle.life_pointers.specs.Attempts.{tried};
ghost use Rattle.life_pointers.specs.Owned.{spot_seen};
ghost use Rattle.life_cells.specs.Cells.{state_in, state_of};
ghost use Rattle.life_cells.specs.Fits.{meant, IsFit};
ghost use Rattle.life_cells.specs.Owners.{IsSpot, OwnsAt};
ghost use Rattle.life_cells.specs.Scopes.{function_in, types_in};
ghost use Rattle.life_cells.specs.Typed.{HoldsOwner, IsOwnerPlace};

use crate::cell::Cell;
use crate::frame::object_at;
use crate::members::member_word;
use crate::places::locate;
use crate::scope::Scope;
use life_core::{Location, Operand};
use life_pointers::{Place, Spot, Stop};
use life_store::Store;

/// The owner that the operand names.
#[inline(always)]
pub fn owner_at<S: Store>(
    scope: &Scope<'_>,
    store: &S,
    cells: &[Cell],
    operand: &Operand,
) -> Result<Spot, Stop>
    requires fits { IsFit (types_in scope.now) (S.content store.now) (S.rows store.now) cells.now }
    requires owner { IsOwnerPlace (types_in scope.now) (function_in scope.now) (operand_of operand.now) (state_in (meant (types_in scope.now) (S.content store.now) (S.rows store.now)) cells.now) }
    ensures is { IsSpot (types_in scope.now) (function_in scope.now) (operand_of operand.now) (meant (types_in scope.now) (S.content store.now) (S.rows store.now)) cells.now result }
    ensures owns { IfOk result (OwnsAt (kinds_of (types_in scope.now)) (S.content store.now) (S.rows store.now)) }
{
    match locate(scope, store, cells, operand) {
        Err(stop) => Err(stop),
        Ok(Place::Fixed(_)) => Err(Stop::Lost),
        Ok(Place::Here(spot)) => Ok(spot),
    }
}

/// The owner that is a local or a member of one.
pub fn local_owner<S: Store>(
    scope: &Scope<'_>,
    store: &S,
    cells: &[Cell],
    location: &Location,
) -> Result<Spot, Stop>
    requires fits { IsFit (types_in scope.now) (S.content store.now) (S.rows store.now) cells.now }
    requires owner { HoldsOwner (types_in scope.now) (function_in scope.now) (location_of location.now) (state_in (meant (types_in scope.now) (S.content store.now) (S.rows store.now)) cells.now) }
    ensures is { tried spot_seen result ≡ spec.owner_spot_if (types_in scope.now) (function_in scope.now) (location_of location.now) (cell (state_in (meant (types_in scope.now) (S.content store.now) (S.rows store.now)) cells.now) location.now.local) }
    ensures owns { IfOk result (OwnsAt (kinds_of (types_in scope.now)) (S.content store.now) (S.rows store.now)) }
{
    match object_at(cells, location.local) {
        None => Err(Stop::Lost),
        Some(object) => {
            let word = member_word(scope, location);
            Ok(Spot {
                object,
                index: 0,
                word,
            })
        }
    }
}
