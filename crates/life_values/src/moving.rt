// How the words of values go from one place to another.
ghost use Rattle.std.specs.Prelude.{◌≡◌, ◌≤◌, ◌+◌, ◌^◌, Some};
ghost use Rattle.life_store.specs.Cells.{at};
ghost use Rattle.life_store.specs.Content.{Object};
ghost use Rattle.life_store.specs.Places.{spot_words, wrote_spot};
ghost use Rattle.life_forest.specs.Values.{AllWide};
ghost use Rattle.life_seen.specs.Housed.{Later, Shows};
ghost use Rattle.life_seen.specs.Kinds.{kinds_of};
ghost use Rattle.life_seen.specs.Rowed.{AreRowed};
ghost use Rattle.life_seen.specs.Seen.{seen};
ghost use Rattle.life_values.specs.Moved.{disowned, moved_words, place, slots_moved, AreUncut, CanCopyWords, CanDisown, CanMove, CanMoveSlots};

use crate::spot::Spot;
use life_store::Store;
use life_types::TypeTable;
use life_words::take_owned;

/// Writes the words of a value into another place.
pub fn copy_words<S: Store>(types: &TypeTable, store: &mut S, from: Spot, to: Spot, width: u64)
    requires can { CanCopyWords (kinds_of types.now) from to width (S.content store.old) (S.rows store.old) }
    ensures shows { Shows (kinds_of types.now) (S.content store.new) (S.rows store.new)
        (wrote_spot (place to) (spot_words (seen (kinds_of types.now) (S.content store.old) (S.rows store.old)) (place from) width) (seen (kinds_of types.now) (S.content store.old) (S.rows store.old))) }
    ensures rows { S.rows store.new ≡ S.rows store.old }
    ensures later { Later (S.content store.old) (S.content store.new) (S.rows store.old) (S.rows store.new) }
    ensures rowed { (o : Object) → at (seen (kinds_of types.now) (S.content store.old) (S.rows store.old)).objects to.object.birth ≡ Some o → AllWide o.width o.slots → AreUncut (kinds_of types.now o.ty) to.word width
        → AreRowed (kinds_of types.now) (S.content store.old) (S.rows store.old) → AreRowed (kinds_of types.now) (S.content store.new) (S.rows store.new) }
    ensures limit { S.limit store.new ≡ S.limit store.old }
{
    for word in 0..width {
        let value = match store.get(from.object, from.slot, from.word + word) {
            Ok(value) => value,
            Err(_) => unreachable!(),
        };
        match store.put(to.object, to.slot, to.word + word, value) {
            Ok(()) => {}
            Err(_) => unreachable!(),
        }
    }
}

/// Writes the slots of an object, so many from one on, into those of another, or further to the front.
/// They own nothing any more.
pub(crate) fn move_slots<S: Store>(
    types: &TypeTable,
    store: &mut S,
    from: Spot,
    to: Spot,
    count: u32,
    width: u64,
    owners: &[u64],
)
    requires can { CanMoveSlots (kinds_of types.now) from to count width owners.now (S.content store.old) (S.rows store.old) }
    requires from_small { from.slot + count ≤ 2 ^ 32 }
    requires to_small { to.slot + count ≤ 2 ^ 32 }
    ensures moved { Shows (kinds_of types.now) (S.content store.new) (S.rows store.new)
        (slots_moved (place from) (place to) width owners.now count (seen (kinds_of types.now) (S.content store.old) (S.rows store.old))) }
    ensures rows { S.rows store.new ≡ S.rows store.old }
    ensures later { Later (S.content store.old) (S.content store.new) (S.rows store.old) (S.rows store.new) }
    ensures rowed { (o : Object) → at (seen (kinds_of types.now) (S.content store.old) (S.rows store.old)).objects to.object.birth ≡ Some o → AreUncut (kinds_of types.now o.ty) to.word width
        → AreRowed (kinds_of types.now) (S.content store.old) (S.rows store.old) → AreRowed (kinds_of types.now) (S.content store.new) (S.rows store.new) }
    ensures limit { S.limit store.new ≡ S.limit store.old }
{
    for slot in 0..count {
        let source = Spot {
            object: from.object,
            slot: from.slot + slot,
            word: from.word,
        };
        let target = Spot {
            object: to.object,
            slot: to.slot + slot,
            word: to.word,
        };
        move_words(types, store, source, target, width, owners);
    }
}

/// Writes the words of a value into another place. Those that own only own there.
pub(crate) fn move_words<S: Store>(
    types: &TypeTable,
    store: &mut S,
    from: Spot,
    to: Spot,
    width: u64,
    owners: &[u64],
)
    requires can { CanMove (kinds_of types.now) from to width owners.now (S.content store.old) (S.rows store.old) }
    ensures moved { Shows (kinds_of types.now) (S.content store.new) (S.rows store.new)
        (moved_words (place from) (place to) width owners.now (seen (kinds_of types.now) (S.content store.old) (S.rows store.old))) }
    ensures rows { S.rows store.new ≡ S.rows store.old }
    ensures later { Later (S.content store.old) (S.content store.new) (S.rows store.old) (S.rows store.new) }
    ensures rowed { (o : Object) → at (seen (kinds_of types.now) (S.content store.old) (S.rows store.old)).objects to.object.birth ≡ Some o → AllWide o.width o.slots → AreUncut (kinds_of types.now o.ty) to.word width
        → AreRowed (kinds_of types.now) (S.content store.old) (S.rows store.old) → AreRowed (kinds_of types.now) (S.content store.new) (S.rows store.new) }
    ensures limit { S.limit store.new ≡ S.limit store.old }
{
    copy_words(types, store, from, to, width);
    disown(types, store, from, owners);
}

// The words of a value own nothing any more.
fn disown<S: Store>(types: &TypeTable, store: &mut S, spot: Spot, owners: &[u64])
    requires can { CanDisown (kinds_of types.now) spot owners.now (S.content store.old) (S.rows store.old) }
    ensures disowned { Shows (kinds_of types.now) (S.content store.new) (S.rows store.new)
        (disowned (place spot) owners.now (seen (kinds_of types.now) (S.content store.old) (S.rows store.old))) }
    ensures rows { S.rows store.new ≡ S.rows store.old }
    ensures later { Later (S.content store.old) (S.content store.new) (S.rows store.old) (S.rows store.new) }
    ensures rowed { AreRowed (kinds_of types.now) (S.content store.old) (S.rows store.old) → AreRowed (kinds_of types.now) (S.content store.new) (S.rows store.new) }
    ensures limit { S.limit store.new ≡ S.limit store.old }
{
    for owner in owners {
        take_owned(store, spot.object, spot.slot, spot.word + *owner);
    }
}
