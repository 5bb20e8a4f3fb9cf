// Owners that have another object from then on.
ghost use Rattle.std.specs.Prelude.{◌≡◌, ◌∷◌, [], option_map};
ghost use Rattle.life_store.specs.Held.{owner_word};
ghost use Rattle.life_store.specs.Places.{wrote_spot};
ghost use Rattle.life_seen.specs.Housed.{Shows};
ghost use Rattle.life_seen.specs.Kinds.{kinds_of};
ghost use Rattle.life_seen.specs.Rowed.{AreRowed};
ghost use Rattle.life_words.specs.Owning.{number_of, CanOwn};
ghost use Rattle.life_pointers.specs.Owned.{spot_seen};
ghost use Rattle.life_cells.specs.Fits.{meant};
ghost use Rattle.life_cells.specs.Owners.{OwnsAt};

use life_pointers::Spot;
use life_store::{ObjRef, Store};
use life_types::TypeTable;
use life_words::own;

/// The owner at a spot owns another object from then on, or nothing. What it owned doesn't end.
pub(crate) fn own_at<S: Store>(types: &TypeTable, store: &mut S, owner: Spot, owned: Option<ObjRef>)
    requires owns { OwnsAt (kinds_of types.now) (S.content store.old) (S.rows store.old) owner }
    requires lives { CanOwn (S.rows store.old) owned }
    ensures shows { Shows (kinds_of types.now) (S.content store.new) (S.rows store.new)
        (wrote_spot (spot_seen owner) (owner_word (option_map number_of owned) ∷ []) (meant types.now (S.content store.old) (S.rows store.old))) }
    ensures rows { S.rows store.new ≡ S.rows store.old }
    ensures rowed { AreRowed (kinds_of types.now) (S.content store.old) (S.rows store.old) → AreRowed (kinds_of types.now) (S.content store.new) (S.rows store.new) }
    ensures limit { S.limit store.new ≡ S.limit store.old }
{
    own(store, owner.object, owner.index, owner.word as u64, owned);
}
