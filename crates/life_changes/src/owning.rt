// How unique_ptrs come to own new objects.
ghost use Rattle.std.specs.Prelude.{◌≡◌, ◌∷◌, ◌<◌, [], ℕ, OnOk, Some};
ghost use Rattle.life_types.specs.declared.ty.TyId.{TyId as Id};
ghost use Rattle.life_store.specs.Cells.{at};
ghost use Rattle.life_store.specs.Doing as spec;
ghost use Rattle.life_store.specs.Effects.{Setting};
ghost use Rattle.life_store.specs.Held.{owner_word};
ghost use Rattle.life_store.specs.Parts.{parts_at, Single, Unique};
ghost use Rattle.life_seen.specs.Housed.{Later, Shows};
ghost use Rattle.life_seen.specs.Kinds.{kinds_of};
ghost use Rattle.life_seen.specs.Rowed.{AreRowed};
ghost use Rattle.life_pointers.specs.Owned.{spot_seen};
ghost use Rattle.life_cells.specs.Fits.{meant};
ghost use Rattle.life_cells.specs.Scopes.{types_in};
ghost use Rattle.life_changes.specs.Bounded.{Grows, IsBounded, IsEarly};
ghost use Rattle.life_changes.specs.NewObjects.{fresh_value, made_with, number_value, taken_value, IsTemporary};
ghost use Rattle.life_changes.specs.Owners.{StandsAt};
ghost use Rattle.life_changes.specs.Steps.{Gets};

use crate::births::{fresh_object, number_object, taken_object};
use crate::failure::{Failure, unborn};
use crate::owner::wide;
use life_cells::Scope;
use life_pointers::Spot;
use life_store::{ObjRef, Store};
use life_types::TyId;
use life_values::replace;

/// A fresh object is made, and owned.
pub(crate) fn own_fresh<S: Store>(
    scope: &Scope<'_>,
    store: &mut S,
    spot: Spot,
    ty: TyId,
    target: TyId,
    depth: u32,
) -> Result<(), Failure>
    requires stands { (hand : ℕ → ℕ) × StandsAt (types_in scope.now) (S.limit store.old) depth hand ty spot (S.content store.old) (S.rows store.old) }
    requires early { IsEarly (S.content store.old) }
    requires unique { parts_at (types_in scope.now) ty ≡ Unique target (parts_at (types_in scope.now) target) }
    ensures made { (s : Setting) → s.given.cells ≡ S.limit store.old
        → Gets (kinds_of (types_in scope.now)) (made_with s (parts_at (types_in scope.now) ty) (spot_seen spot) (fresh_value s) (meant (types_in scope.now) (S.content store.old) (S.rows store.old))) result (S.content store.new) (S.rows store.new) }
    ensures behind { OnOk result (IsBounded (S.limit store.old) (meant (types_in scope.now) (S.content store.new) (S.rows store.new)) × Grows (S.content store.old) (S.content store.new)) }
    ensures later { OnOk result (Later (S.content store.old) (S.content store.new) (S.rows store.old) (S.rows store.new)) }
    ensures rowed { OnOk result (AreRowed (kinds_of (types_in scope.now)) (S.content store.new) (S.rows store.new)) }
    ensures limit { S.limit store.new ≡ S.limit store.old }
{
    match fresh_object(scope.types, scope.layouts, store, target) {
        Err(fault) => Err(unborn(fault)),
        Ok(object) => {
            own_made(scope, store, spot, ty, object, depth);
            Ok(())
        }
    }
}

/// An object with a number is made, and owned.
pub(crate) fn own_number<S: Store>(
    scope: &Scope<'_>,
    store: &mut S,
    spot: Spot,
    ty: TyId,
    target: TyId,
    number: u64,
    depth: u32,
) -> Result<(), Failure>
    requires stands { (hand : ℕ → ℕ) × StandsAt (types_in scope.now) (S.limit store.old) depth hand ty spot (S.content store.old) (S.rows store.old) }
    requires early { IsEarly (S.content store.old) }
    requires unique { parts_at (types_in scope.now) ty ≡ Unique target (parts_at (types_in scope.now) target) }
    requires single { parts_at (types_in scope.now) target ≡ Single }
    ensures made { (s : Setting) → s.given.cells ≡ S.limit store.old
        → Gets (kinds_of (types_in scope.now)) (made_with s (parts_at (types_in scope.now) ty) (spot_seen spot) (number_value number) (meant (types_in scope.now) (S.content store.old) (S.rows store.old))) result (S.content store.new) (S.rows store.new) }
    ensures behind { OnOk result (IsBounded (S.limit store.old) (meant (types_in scope.now) (S.content store.new) (S.rows store.new)) × Grows (S.content store.old) (S.content store.new)) }
    ensures later { OnOk result (Later (S.content store.old) (S.content store.new) (S.rows store.old) (S.rows store.new)) }
    ensures rowed { OnOk result (AreRowed (kinds_of (types_in scope.now)) (S.content store.new) (S.rows store.new)) }
    ensures limit { S.limit store.new ≡ S.limit store.old }
{
    match number_object(scope.types, scope.layouts, store, target, number) {
        Err(fault) => Err(unborn(fault)),
        Ok(object) => {
            own_made(scope, store, spot, ty, object, depth);
            Ok(())
        }
    }
}

/// An object with the value of a temporary is made, and owned.
pub(crate) fn own_taken<S: Store>(
    scope: &Scope<'_>,
    store: &mut S,
    spot: Spot,
    ty: TyId,
    target: TyId,
    temporary: ObjRef,
    depth: u32,
) -> Result<(), Failure>
    requires stands { (hand : ℕ → ℕ) × StandsAt (types_in scope.now) (S.limit store.old) depth hand ty spot (S.content store.old) (S.rows store.old) × IsTemporary (types_in scope.now) hand target temporary (S.content store.old) (S.rows store.old) }
    requires early { IsEarly (S.content store.old) }
    requires unique { parts_at (types_in scope.now) ty ≡ Unique target (parts_at (types_in scope.now) target) }
    ensures made { (s : Setting) → s.given.cells ≡ S.limit store.old
        → Gets (kinds_of (types_in scope.now)) (made_with s (parts_at (types_in scope.now) ty) (spot_seen spot) (taken_value temporary.birth) (meant (types_in scope.now) (S.content store.old) (S.rows store.old))) result (S.content store.new) (S.rows store.new) }
    ensures behind { OnOk result (IsBounded (S.limit store.old) (meant (types_in scope.now) (S.content store.new) (S.rows store.new)) × Grows (S.content store.old) (S.content store.new)) }
    ensures later { OnOk result (Later (S.content store.old) (S.content store.new) (S.rows store.old) (S.rows store.new)) }
    ensures rowed { OnOk result (AreRowed (kinds_of (types_in scope.now)) (S.content store.new) (S.rows store.new)) }
    ensures limit { S.limit store.new ≡ S.limit store.old }
{
    match taken_object(scope.types, scope.layouts, store, target, temporary) {
        Err(fault) => Err(unborn(fault)),
        Ok(object) => {
            own_made(scope, store, spot, ty, object, depth);
            Ok(())
        }
    }
}

// The owner at a spot owns another object from now on: what it owned ends.
fn own_made<S: Store>(
    scope: &Scope<'_>,
    store: &mut S,
    spot: Spot,
    ty: TyId,
    object: ObjRef,
    depth: u32,
)
    requires stands { (hand : ℕ → ℕ) × StandsAt (types_in scope.now) (S.limit store.old) depth hand ty spot (S.content store.old) (S.rows store.old) × (0 < hand object.birth) }
    requires placed { at (S.rows store.old) object.birth ≡ Some object.row }
    requires unique { (id : Id) × (parts_at (types_in scope.now) ty ≡ Unique id (parts_at (types_in scope.now) id)) }
    ensures shows { Shows (kinds_of (types_in scope.now)) (S.content store.new) (S.rows store.new)
        (spec.replaced (parts_at (types_in scope.now) ty) (spot_seen spot) (owner_word (Some object.birth) ∷ [], meant (types_in scope.now) (S.content store.old) (S.rows store.old))) }
    ensures later { Later (S.content store.old) (S.content store.new) (S.rows store.old) (S.rows store.new) }
    ensures rowed { AreRowed (kinds_of (types_in scope.now)) (S.content store.new) (S.rows store.new) }
    ensures limit { S.limit store.new ≡ S.limit store.old }
{
    let place = wide(spot);
    replace(
        scope.types,
        scope.layouts,
        store,
        place,
        &[0],
        object,
        depth,
    );
}
