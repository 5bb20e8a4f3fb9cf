// New objects for unique_ptrs.
ghost use Rattle.std.specs.Prelude.{◌≡◌, ◌<◌, ◌≤◌, ◌+◌, ◌^◌, ℕ, OnOk};
ghost use Rattle.life_types.specs.Trees.{IsOrdered};
ghost use Rattle.life_store.specs.Effects.{Setting};
ghost use Rattle.life_store.specs.Owners.{object_with};
ghost use Rattle.life_store.specs.Parts.{parts_at, Single, width_at};
ghost use Rattle.life_seen.specs.Housed.{IsHoused, Later};
ghost use Rattle.life_seen.specs.Kinds.{kinds_of};
ghost use Rattle.life_seen.specs.Rowed.{AreRowed};
ghost use Rattle.life_forest.specs.Typed.{IsStore};
ghost use Rattle.life_values.specs.Fresh.{AreWide};
ghost use Rattle.life_values.specs.Layouts.{AreLaid};
ghost use Rattle.life_cells.specs.Fits.{meant};
ghost use Rattle.life_changes.specs.Bounded.{CanGoOn};
ghost use Rattle.life_changes.specs.NewObjects.{fresh_value, number_value, taken_value, Bears, IsTemporary};

use life_core::Form;
use life_store::{BirthFault, ObjRef, Store};
use life_types::{TyId, TypeTable};
use life_values::{Layout, Spot, consume, fresh, leaves_of, width_of};
use life_words::{born_sized, put_number};

/// A new object of the type with a fresh value, as an empty list leaves it.
pub(crate) fn fresh_object<S: Store>(
    types: &TypeTable,
    layouts: &[Layout],
    store: &mut S,
    ty: TyId,
) -> Result<ObjRef, BirthFault>
    requires layouts { AreLaid types.now layouts.now }
    requires ordered { IsOrdered types.now }
    requires wide { AreWide types.now }
    requires few { S.limit store.old < 2 ^ 32 }
    requires housed { IsHoused (kinds_of types.now) (S.content store.old) (S.rows store.old) }
    requires early { CanGoOn (S.content store.old) }
    ensures bears { (s : Setting) → s.given.cells ≡ S.limit store.old
        → Bears (kinds_of types.now) (object_with s ty (parts_at types.now ty) (fresh_value s (parts_at types.now ty)) (meant types.now (S.content store.old) (S.rows store.old))) result (S.content store.new) (S.rows store.new) }
    ensures rowed { AreRowed (kinds_of types.now) (S.content store.old) (S.rows store.old) → OnOk result (AreRowed (kinds_of types.now) (S.content store.new) (S.rows store.new)) }
    ensures later { OnOk result (Later (S.content store.old) (S.content store.new) (S.rows store.old) (S.rows store.new)) }
    ensures limit { S.limit store.new ≡ S.limit store.old }
{
    match born_sized(store, ty, width_of(layouts, ty), 1) {
        Err(fault) => Err(fault),
        Ok(object) => {
            let spot = Spot {
                object,
                slot: 0,
                word: 0,
            };
            let leaves = leaves_of(layouts, ty);
            match fresh(types, layouts, store, spot, leaves, Form::Zero) {
                Err(fault) => Err(fault),
                Ok(()) => Ok(object),
            }
        }
    }
}

/// .. of a type of numbers, with the number.
pub(crate) fn number_object<S: Store>(
    types: &TypeTable,
    layouts: &[Layout],
    store: &mut S,
    ty: TyId,
    number: u64,
) -> Result<ObjRef, BirthFault>
    requires layouts { AreLaid types.now layouts.now }
    requires single { parts_at types.now ty ≡ Single }
    requires housed { IsHoused (kinds_of types.now) (S.content store.old) (S.rows store.old) }
    requires early { CanGoOn (S.content store.old) }
    ensures bears { (s : Setting) → s.given.cells ≡ S.limit store.old
        → Bears (kinds_of types.now) (object_with s ty (parts_at types.now ty) (number_value number (parts_at types.now ty)) (meant types.now (S.content store.old) (S.rows store.old))) result (S.content store.new) (S.rows store.new) }
    ensures rowed { AreRowed (kinds_of types.now) (S.content store.old) (S.rows store.old) → OnOk result (AreRowed (kinds_of types.now) (S.content store.new) (S.rows store.new)) }
    ensures later { OnOk result (Later (S.content store.old) (S.content store.new) (S.rows store.old) (S.rows store.new)) }
    ensures limit { S.limit store.new ≡ S.limit store.old }
{
    match born_sized(store, ty, width_of(layouts, ty), 1) {
        Err(fault) => Err(fault),
        Ok(object) => {
            put_number(store, object, 0, 0, number);
            Ok(object)
        }
    }
}

/// .. with the value of a temporary, which is no more then.
pub(crate) fn taken_object<S: Store>(
    types: &TypeTable,
    layouts: &[Layout],
    store: &mut S,
    ty: TyId,
    temporary: ObjRef,
) -> Result<ObjRef, BirthFault>
    requires layouts { AreLaid types.now layouts.now }
    requires wide { AreWide types.now }
    requires few { S.limit store.old < 2 ^ 32 }
    requires given { (hand : ℕ → ℕ) × IsStore types.now hand (meant types.now (S.content store.old) (S.rows store.old)) × IsTemporary types.now hand ty temporary (S.content store.old) (S.rows store.old) }
    requires small { width_at types.now ty ≤ S.limit store.old }
    requires housed { IsHoused (kinds_of types.now) (S.content store.old) (S.rows store.old) }
    requires early { CanGoOn (S.content store.old) }
    ensures bears { (s : Setting) → s.given.cells ≡ S.limit store.old
        → Bears (kinds_of types.now) (object_with s ty (parts_at types.now ty) (taken_value temporary.birth (parts_at types.now ty)) (meant types.now (S.content store.old) (S.rows store.old))) result (S.content store.new) (S.rows store.new) }
    ensures rowed { AreRowed (kinds_of types.now) (S.content store.old) (S.rows store.old) → OnOk result (AreRowed (kinds_of types.now) (S.content store.new) (S.rows store.new)) }
    ensures later { OnOk result (Later (S.content store.old) (S.content store.new) (S.rows store.old) (S.rows store.new)) }
    ensures limit { S.limit store.new ≡ S.limit store.old }
{
    match born_sized(store, ty, width_of(layouts, ty), 1) {
        Err(fault) => Err(fault),
        Ok(object) => {
            consume(types, layouts, store, temporary, object, 0);
            Ok(object)
        }
    }
}
