// The objects of slots.
ghost use Rattle.std.specs.Prelude.{◌≡◌, ◌+◌, ◌<◌, ◌≤◌, ◌^◌, ◌∷◌, [], option_map, OnOk, Some, ℕ};
ghost use Rattle.life_store.specs.Cells.{at};
ghost use Rattle.life_store.specs.Content.{live_words_of};
ghost use Rattle.life_store.specs.Effects.{Got, Setting};
ghost use Rattle.life_store.specs.Held.{owner_word};
ghost use Rattle.life_store.specs.Owners.{object_with};
ghost use Rattle.life_store.specs.Parts.{Single};
ghost use Rattle.life_seen.specs.Housed.{IsHoused, Later};
ghost use Rattle.life_seen.specs.Kinds.{kinds_of};
ghost use Rattle.life_seen.specs.Rowed.{AreRowed};
ghost use Rattle.life_words.specs.Owning.{number_of, CanOwn};
ghost use Rattle.life_cells.specs.Fits.{meant};
ghost use Rattle.life_changes.specs.NewObjects.{Bears};
ghost use Rattle.life_slots.specs.Slots.{IsUnique};

use life_store::{BirthFault, ObjRef, Store};
use life_types::{TyId, TypeTable};
use life_words::{born_sized, own};

/// A `std::unique_ptr` that is a slot is an object of its own, which owns what was handed over.
pub fn slot_object<S: Store>(
    types: &TypeTable,
    store: &mut S,
    ty: TyId,
    owned: Option<ObjRef>,
) -> Result<ObjRef, BirthFault>
    requires unique { IsUnique types.now ty }
    requires lives { CanOwn (S.rows store.old) owned }
    requires housed { IsHoused (kinds_of types.now) (S.content store.old) (S.rows store.old) }
    requires births { (S.content store.old).births + 1 < 2 ^ 63 }
    requires clock { (S.content store.old).clock < 2 ^ 63 }
    ensures bears { (s : Setting) → s.given.cells ≡ S.limit store.old
        → Bears (kinds_of types.now) (object_with s ty Single (λ c. Got (owner_word (option_map number_of owned) ∷ [], c)) (meant types.now (S.content store.old) (S.rows store.old))) result (S.content store.new) (S.rows store.new) }
    ensures rowed { AreRowed (kinds_of types.now) (S.content store.old) (S.rows store.old) → OnOk result (AreRowed (kinds_of types.now) (S.content store.new) (S.rows store.new)) }
    ensures later { OnOk result (Later (S.content store.old) (S.content store.new) (S.rows store.old) (S.rows store.new)) }
    ensures births { OnOk result ((S.content store.new).births ≡ (S.content store.old).births + 1) }
    ensures clock { OnOk result ((S.content store.new).clock ≡ (S.content store.old).clock + 1) }
    ensures live { OnOk result (live_words_of (S.content store.new) ≡ live_words_of (S.content store.old) + 3) }
    ensures room { OnOk result (live_words_of (S.content store.old) + 3 ≤ S.limit store.old) }
    ensures stay { OnOk result ((n k : ℕ) → at (S.rows store.old) n ≡ Some k → at (S.rows store.new) n ≡ Some k) }
    ensures limit { S.limit store.new ≡ S.limit store.old }
{
    match born_sized(store, ty, 1, 1) {
        Err(fault) => Err(fault),
        Ok(object) => {
            own(store, object, 0, 0, owned);
            Ok(object)
        }
    }
}
