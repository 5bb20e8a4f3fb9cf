// Changes of vectors.
ghost use Rattle.std.specs.Prelude.{◌≡◌, ℕ, OnOk};
ghost use Rattle.life_types.specs.declared.ty.TyId.{TyId as Id};
ghost use Rattle.life_store.specs.Edits.{edited};
ghost use Rattle.life_store.specs.Effects.{Setting};
ghost use Rattle.life_store.specs.Parts.{parts_at, Parts, Vector};
ghost use Rattle.life_seen.specs.Housed.{Later};
ghost use Rattle.life_seen.specs.Kinds.{kinds_of};
ghost use Rattle.life_seen.specs.Rowed.{AreRowed};
ghost use Rattle.life_pointers.specs.Owned.{spot_seen};
ghost use Rattle.life_cells.specs.Fits.{meant};
ghost use Rattle.life_cells.specs.Scopes.{texts_in, types_in};
ghost use Rattle.life_changes.specs.Edits.{edit_of, IsFor};
ghost use Rattle.life_changes.specs.Owners.{HasBuffer};
ghost use Rattle.life_changes.specs.Steps.{Gets, IsGiven};

use crate::edit::Edit;
use crate::failure::{Failure, unborn};
use crate::owner::wide;
use life_cells::Scope;
use life_pointers::{Spot, Stop};
use life_store::{Growth, ObjRef, Store, TrapKind};
use life_types::TyId;
use life_values::{clear, pop, push_number, reserve};

/// One change of a vector.
pub(crate) fn edit_vector<S: Store>(
    scope: &Scope<'_>,
    store: &mut S,
    spot: Spot,
    ty: TyId,
    buffer: ObjRef,
    edit: Edit<'_>,
    growth: Growth,
    depth: u32,
) -> Result<(), Failure>
    requires owner { (hand : ℕ → ℕ) × HasBuffer (types_in scope.now) (S.limit store.old) depth hand ty spot buffer (S.content store.old) (S.rows store.old) }
    requires vector { (id : Id) × (element : Parts) × (parts_at (types_in scope.now) ty ≡ Vector id element) }
    requires fit { IsFor (types_in scope.now) ty edit }
    ensures edited { (s : Setting) → IsGiven s growth (S.limit store.old) (texts_in scope.now)
        → Gets (kinds_of (types_in scope.now)) (edited s (parts_at (types_in scope.now) ty) (spot_seen spot) buffer.birth (edit_of edit.entry) (meant (types_in scope.now) (S.content store.old) (S.rows store.old))) result (S.content store.new) (S.rows store.new) }
    ensures later { OnOk result (Later (S.content store.old) (S.content store.new) (S.rows store.old) (S.rows store.new)) }
    ensures rowed { OnOk result (AreRowed (kinds_of (types_in scope.now)) (S.content store.new) (S.rows store.new)) }
    ensures limit { S.limit store.new ≡ S.limit store.old }
{
    match edit {
        Edit::Push(number) => {
            let place = wide(spot);
            match push_number(
                scope.types,
                scope.layouts,
                store,
                place,
                buffer,
                number,
                growth,
            ) {
                Err(fault) => Err(unborn(fault)),
                Ok(()) => Ok(()),
            }
        }
        Edit::Pop => {
            if pop(scope.types, scope.layouts, store, buffer, depth) {
                Ok(())
            } else {
                Err(Failure::Stopped(Stop::Trap(TrapKind::Bounds)))
            }
        }
        Edit::Clear => {
            clear(scope.types, scope.layouts, store, buffer, depth);
            Ok(())
        }
        Edit::Reserve(count) => {
            let place = wide(spot);
            match reserve(scope.types, scope.layouts, store, place, buffer, count) {
                Err(fault) => Err(unborn(fault)),
                Ok(()) => Ok(()),
            }
        }
        Edit::Put(_) => Err(Failure::Stopped(Stop::Lost)),
        Edit::Add(_) => Err(Failure::Stopped(Stop::Lost)),
    }
}
