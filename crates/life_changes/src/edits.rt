// One change of the vector or the string at a spot.
ghost use Rattle.std.specs.Prelude.{◌≡◌, ℕ, OnOk};
ghost use Rattle.life_store.specs.Effects.{Setting};
ghost use Rattle.life_store.specs.Parts.{parts_at};
ghost use Rattle.life_seen.specs.Housed.{Later};
ghost use Rattle.life_seen.specs.Kinds.{kinds_of};
ghost use Rattle.life_seen.specs.Rowed.{AreRowed};
ghost use Rattle.life_pointers.specs.Owned.{spot_seen};
ghost use Rattle.life_cells.specs.Fits.{meant};
ghost use Rattle.life_cells.specs.Scopes.{texts_in, types_in};
ghost use Rattle.life_changes.specs.Edits.{edit_of, edited_at, IsFor};
ghost use Rattle.life_changes.specs.Owners.{IsContainer, StandsAt};
ghost use Rattle.life_changes.specs.Steps.{Gets, IsGiven};

use crate::edit::Edit;
use crate::failure::Failure;
use crate::owner::{characters_of, elements_of, first_part};
use crate::text_edits::edit_text;
use crate::vector_edits::edit_vector;
use life_cells::Scope;
use life_pointers::{Spot, Stop, buffer};
use life_store::{Growth, Store};
use life_types::TyId;
use std::alloc::Global;

/// One change of the vector or the string at a spot.
pub(crate) fn edit<S: Store>(
    alloc: Global,
    scope: &Scope<'_>,
    store: &mut S,
    spot: Spot,
    ty: TyId,
    edit: Edit<'_>,
    growth: Growth,
    depth: u32,
) -> Result<(), Failure>
    requires stands { (hand : ℕ → ℕ) × StandsAt (types_in scope.now) (S.limit store.old) depth hand ty spot (S.content store.old) (S.rows store.old) }
    requires container { IsContainer (parts_at (types_in scope.now) ty) }
    requires fit { IsFor (types_in scope.now) ty edit }
    ensures edited { (s : Setting) → IsGiven s growth (S.limit store.old) (texts_in scope.now)
        → Gets (kinds_of (types_in scope.now)) (edited_at s (parts_at (types_in scope.now) ty) (spot_seen spot) (edit_of edit.entry) (meant (types_in scope.now) (S.content store.old) (S.rows store.old))) result (S.content store.new) (S.rows store.new) }
    ensures later { OnOk result (Later (S.content store.old) (S.content store.new) (S.rows store.old) (S.rows store.new)) }
    ensures rowed { OnOk result (AreRowed (kinds_of (types_in scope.now)) (S.content store.new) (S.rows store.new)) }
    ensures limit { S.limit store.new ≡ S.limit store.old }
{
    match buffer(store, spot) {
        Err(stop) => Err(Failure::Stopped(stop)),
        Ok(buffer) => {
            let first = first_part(scope, ty);
            match elements_of(first) {
                Some(_) => { edit_vector(scope, store, spot, ty, buffer, edit, growth, depth) }
                None => match characters_of(first) {
                    Some(characters) => edit_text(
                        alloc, scope, store, spot, ty, buffer, characters, edit, growth, depth,
                    ),
                    None => Err(Failure::Stopped(Stop::Lost)),
                },
            }
        }
    }
}
