// How an owner gives what it has.
ghost use Rattle.std.specs.Prelude.{◌≡◌, OnOk};
ghost use Rattle.life_core.specs.Operands.{operand_of};
ghost use Rattle.life_core.specs.Step.{Move};
ghost use Rattle.life_store.specs.Doing as spec;
ghost use Rattle.life_store.specs.Parts.{local_parts, parts_at};
ghost use Rattle.life_seen.specs.Housed.{Later};
ghost use Rattle.life_seen.specs.Kinds.{kinds_of};
ghost use Rattle.life_forest.proofs.StandingSteps.{IsTypedStep};
ghost use Rattle.life_moves.specs.MovedTo.{given_to, IsOwning};
ghost use Rattle.life_pointers.specs.Owned.{spot_seen};
ghost use Rattle.life_cells.specs.Cells.{state_in};
ghost use Rattle.life_cells.specs.Fits.{meant, IsFit};
ghost use Rattle.life_cells.specs.Scopes.{function_in, types_in};
ghost use Rattle.life_cells.specs.Typed.{IsPlaced};
ghost use Rattle.life_changes.specs.Bounded.{Grows, IsBounded};
ghost use Rattle.life_changes.specs.Ready.{AreServed, IsReady};
ghost use Rattle.life_changes.specs.Steps.{Gets, Goes};
ghost use Rattle.life_copies.specs.Values.{IsGiver, ValueAt};

use crate::spots::spot_at;
use life_cells::{Cell, Scope, object_at};
use life_changes::{Failure, wide};
use life_core::Operand;
use life_moves::move_to;
use life_pointers::{Spot, Stop};
use life_store::{FaultKind, ObjRef, Store};

/// Lets a local give what it has to a place of its type.
pub fn give<S: Store>(
    scope: &Scope<'_>,
    store: &mut S,
    cells: &[Cell],
    to: &Operand,
    from: u32,
    depth: u32,
) -> Result<(), Failure>
    requires served { AreServed (types_in scope.now) (S.limit store.old) depth }
    requires ready { IsReady (types_in scope.now) (function_in scope.now) (S.limit store.old) (S.content store.old) (S.rows store.old) cells.now }
    requires placed { IsPlaced (types_in scope.now) (function_in scope.now) (operand_of to.now) (state_in (meant (types_in scope.now) (S.content store.old) (S.rows store.old)) cells.now) }
    requires typed { IsTypedStep (types_in scope.now) (function_in scope.now) (state_in (meant (types_in scope.now) (S.content store.old) (S.rows store.old)) cells.now) (Move (operand_of to.now) from) }
    requires owns { IsOwning (local_parts (types_in scope.now) (function_in scope.now) from) }
    ensures step { Goes (spec.moves (types_in scope.now) (function_in scope.now) (operand_of to.now) from) (meant (types_in scope.now) (S.content store.old) (S.rows store.old)) cells.now (meant (types_in scope.now) (S.content store.new) (S.rows store.new)) cells.now result }
    ensures fits { OnOk result (IsFit (types_in scope.now) (S.content store.new) (S.rows store.new) cells.now) }
    ensures bounded { OnOk result (IsBounded (S.limit store.old) (meant (types_in scope.now) (S.content store.new) (S.rows store.new))) }
    ensures later { OnOk result (Later (S.content store.old) (S.content store.new) (S.rows store.old) (S.rows store.new)) }
    ensures grows { OnOk result (Grows (S.content store.old) (S.content store.new)) }
    ensures limit { S.limit store.new ≡ S.limit store.old }
{
    match spot_at(scope, store, cells, to) {
        Err(stop) => Err(Failure::Stopped(stop)),
        Ok(target) => match object_at(cells, from) {
            None => Err(Failure::Stopped(Stop::Lost)),
            Some(object) => give_to(scope, store, cells, object, target, from, depth),
        },
    }
}

// .. to the place.
fn give_to<S: Store>(
    scope: &Scope<'_>,
    store: &mut S,
    cells: &[Cell],
    object: ObjRef,
    target: Spot,
    from: u32,
    depth: u32,
) -> Result<(), Failure>
    requires giver { IsGiver (types_in scope.now) (function_in scope.now) (S.limit store.old) depth from object target (S.content store.old) (S.rows store.old) cells.now }
    ensures gets { Gets (kinds_of (types_in scope.now)) (given_to (local_parts (types_in scope.now) (function_in scope.now) from) (spot_seen target) object.birth (meant (types_in scope.now) (S.content store.old) (S.rows store.old))) result (S.content store.new) (S.rows store.new) }
    ensures fits { OnOk result (IsFit (types_in scope.now) (S.content store.new) (S.rows store.new) cells.now) }
    ensures bounded { OnOk result (IsBounded (S.limit store.old) (meant (types_in scope.now) (S.content store.new) (S.rows store.new))) }
    ensures later { OnOk result (Later (S.content store.old) (S.content store.new) (S.rows store.old) (S.rows store.new)) }
    ensures grows { OnOk result (Grows (S.content store.old) (S.content store.new)) }
    ensures limit { S.limit store.new ≡ S.limit store.old }
{
    let spot = wide(target);
    if move_to(scope.types, scope.layouts, store, object, spot, depth) {
        Ok(())
    } else {
        Err(Failure::Stopped(Stop::Fault(FaultKind::Moved)))
    }
}
