// How a value is taken from its place.
ghost use Rattle.std.specs.Prelude.{◌≡◌, ◌≤◌, ◌<◌, ◌+◌, ◌*◌, ◌^◌, length};
ghost use Rattle.life_store.specs.Content.{CanCount};
ghost use Rattle.life_forest.specs.Kinds.{kinds_of as forest_kinds};
ghost use Rattle.life_seen.specs.Housed.{IsHoused, Later, Shows};
ghost use Rattle.life_seen.specs.Kinds.{kinds_of};
ghost use Rattle.life_seen.specs.Rowed.{AreRowed};
ghost use Rattle.life_seen.specs.Seen.{seen};
ghost use Rattle.life_values.specs.Regrown.{slots_taken, CanTakeSlots};
ghost use Rattle.life_values.specs.Taken.{leaf_taken, leaves_taken, renewed, CanRenew, CanRenewIf, CanTake};

use crate::layout::{Holds, Leaf};
use crate::spot::Spot;
use life_store::{ObjRef, Store};
use life_types::TypeTable;
use life_words::{own, renumbered, take_owned};

/// The characters of a value's strings get other numbers, so that nothing points to them any more
/// (ISO/IEC 14882:2017 [string.require] 4). What else the value owns stays what it is.
pub fn take_value<S: Store>(types: &TypeTable, store: &mut S, spot: Spot, leaves: &[Leaf])
    requires can { CanTake (kinds_of types.now) (forest_kinds types.now) spot leaves.now (S.content store.old) (S.rows store.old) }
    requires births { (S.content store.old).births + length leaves.now < 2 ^ 63 }
    requires clock { (S.content store.old).clock < 2 ^ 63 }
    ensures taken { Shows (kinds_of types.now) (S.content store.new) (S.rows store.new)
        (leaves_taken spot.object.birth spot.slot spot.word leaves.now (seen (kinds_of types.now) (S.content store.old) (S.rows store.old))) }
    ensures later { Later (S.content store.old) (S.content store.new) (S.rows store.old) (S.rows store.new) }
    ensures rowed { AreRowed (kinds_of types.now) (S.content store.old) (S.rows store.old) → AreRowed (kinds_of types.now) (S.content store.new) (S.rows store.new) }
    ensures limit { S.limit store.new ≡ S.limit store.old }
{
    for leaf in leaves {
        take_leaf(types, store, spot, *leaf);
    }
}

// .. of one part of the value.
fn take_leaf<S: Store>(types: &TypeTable, store: &mut S, spot: Spot, leaf: Leaf)
    requires housed { IsHoused (kinds_of types.now) (S.content store.old) (S.rows store.old) }
    requires can { CanRenewIf (kinds_of types.now) (forest_kinds types.now) spot.object spot.slot (spot.word + leaf.word) leaf.holds (S.content store.old) (S.rows store.old) }
    requires small { spot.word + leaf.word < 2 ^ 64 }
    requires countable { CanCount (S.content store.old) }
    ensures shows { Shows (kinds_of types.now) (S.content store.new) (S.rows store.new)
        (leaf_taken spot.object.birth spot.slot (spot.word + leaf.word) leaf.holds (seen (kinds_of types.now) (S.content store.old) (S.rows store.old))) }
    ensures later { Later (S.content store.old) (S.content store.new) (S.rows store.old) (S.rows store.new) }
    ensures rowed { AreRowed (kinds_of types.now) (S.content store.old) (S.rows store.old) → AreRowed (kinds_of types.now) (S.content store.new) (S.rows store.new) }
    ensures limit { S.limit store.new ≡ S.limit store.old }
{
    match leaf.holds {
        Holds::Raw | Holds::View | Holds::Elements(_) | Holds::Target(_) => {}
        Holds::Characters(_) => renew(types, store, spot.object, spot.slot, spot.word + leaf.word),
    }
}

// What a word owns gets another number.
fn renew<S: Store>(types: &TypeTable, store: &mut S, object: ObjRef, slot: u32, word: u64)
    requires can { CanRenew (kinds_of types.now) (forest_kinds types.now) object slot word (S.content store.old) (S.rows store.old) }
    requires countable { CanCount (S.content store.old) }
    ensures shows { Shows (kinds_of types.now) (S.content store.new) (S.rows store.new) (renewed object.birth slot word (seen (kinds_of types.now) (S.content store.old) (S.rows store.old))) }
    ensures later { Later (S.content store.old) (S.content store.new) (S.rows store.old) (S.rows store.new) }
    ensures rowed { AreRowed (kinds_of types.now) (S.content store.old) (S.rows store.old) → AreRowed (kinds_of types.now) (S.content store.new) (S.rows store.new) }
    ensures limit { S.limit store.new ≡ S.limit store.old }
{
    if let Some(owned) = take_owned(store, object, slot, word) {
        let renamed = renumbered(store, owned);
        own(store, object, slot, word, Some(renamed));
    }
}

/// The elements of an object are taken where they are: so many, from one on.
pub(crate) fn take_slots<S: Store>(
    types: &TypeTable,
    store: &mut S,
    object: ObjRef,
    first: u32,
    count: u32,
    leaves: &[Leaf],
)
    requires can { CanTakeSlots (kinds_of types.now) (forest_kinds types.now) object leaves.now first count (S.content store.old) (S.rows store.old) }
    requires small { first + count ≤ 2 ^ 32 }
    requires births { (S.content store.old).births + count * length leaves.now < 2 ^ 63 }
    requires clock { (S.content store.old).clock < 2 ^ 63 }
    ensures taken { Shows (kinds_of types.now) (S.content store.new) (S.rows store.new)
        (slots_taken leaves.now object.birth first count (seen (kinds_of types.now) (S.content store.old) (S.rows store.old))) }
    ensures later { Later (S.content store.old) (S.content store.new) (S.rows store.old) (S.rows store.new) }
    ensures rowed { AreRowed (kinds_of types.now) (S.content store.old) (S.rows store.old) → AreRowed (kinds_of types.now) (S.content store.new) (S.rows store.new) }
    ensures limit { S.limit store.new ≡ S.limit store.old }
{
    for slot in 0..count {
        let spot = Spot {
            object,
            slot: first + slot,
            word: 0,
        };
        take_value(types, store, spot, leaves);
    }
}
