// Places of values.
ghost use Rattle.std.specs.Prelude.{◌≡◌, false, OnErr, OnOk};
ghost use Rattle.life_core.specs.Operands.{operand_of};
ghost use Rattle.life_cells.specs.Cells.{state_in};
ghost use Rattle.life_cells.specs.Fits.{meant, IsFit};
ghost use Rattle.life_cells.specs.Owners.{IsSpot};
ghost use Rattle.life_cells.specs.Scopes.{function_in, types_in};
ghost use Rattle.life_cells.specs.Typed.{IsPlaced};
ghost use Rattle.life_copies.specs.Values.{AreApart, IsFoundAt};

use life_cells::{Cell, Scope, locate};
use life_core::Operand;
use life_pointers::{Place, Spot, Stop};
use life_store::Store;

/// The place in an object that the operand names.
pub(crate) fn spot_at<S: Store>(
    scope: &Scope<'_>,
    store: &S,
    cells: &[Cell],
    operand: &Operand,
) -> Result<Spot, Stop>
    requires fits { IsFit (types_in scope.now) (S.content store.now) (S.rows store.now) cells.now }
    requires placed { IsPlaced (types_in scope.now) (function_in scope.now) (operand_of operand.now) (state_in (meant (types_in scope.now) (S.content store.now) (S.rows store.now)) cells.now) }
    ensures is { IsSpot (types_in scope.now) (function_in scope.now) (operand_of operand.now) (meant (types_in scope.now) (S.content store.now) (S.rows store.now)) cells.now result }
    ensures found { IsFoundAt (types_in scope.now) (function_in scope.now) (operand_of operand.now) (S.content store.now) (S.rows store.now) cells.now result }
{
    match locate(scope, store, cells, operand) {
        Err(stop) => Err(stop),
        Ok(Place::Fixed(_)) => Err(Stop::Lost),
        Ok(Place::Here(spot)) => Ok(spot),
    }
}

/// Whether words that are written to one place, from the first on, are read of the other one later on.
pub(crate) fn overlaps(from: Spot, to: Spot, count: u64) -> bool
    ensures { result ≡ false → AreApart from to count }
{
    if from.object.birth != to.object.birth {
        return false;
    }
    if from.index != to.index {
        return false;
    }
    if to.word <= from.word {
        return false;
    }
    ((to.word - from.word) as u64) < count
}
