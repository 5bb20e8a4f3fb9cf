// How what a value owns ends, where the value itself stays.
ghost use Rattle.std.specs.Prelude.{◌≡◌};
ghost use Rattle.life_forest.specs.Kinds.{kinds_of as forest_kinds};
ghost use Rattle.life_seen.specs.Housed.{Later, Shows};
ghost use Rattle.life_seen.specs.Kinds.{kinds_of};
ghost use Rattle.life_seen.specs.Rowed.{AreRowed};
ghost use Rattle.life_seen.specs.Seen.{seen};
ghost use Rattle.life_values.specs.Emptied.{emptied_each, CanEmpty};
ghost use Rattle.life_values.specs.Ended.{ended_number};
ghost use Rattle.life_values.specs.Layouts.{AreLayouts};

use crate::deep_end::end_deep;
use crate::layout::Layout;
use crate::spot::Spot;
use life_store::Store;
use life_types::TypeTable;
use life_words::take_owned;

/// Ends what the words of a value own, with all beneath it: at most so many steps of owning. The words
/// own nothing then.
pub fn end_words<S: Store>(
    types: &TypeTable,
    layouts: &[Layout],
    store: &mut S,
    spot: Spot,
    owners: &[u64],
    depth: u32,
)
    requires layouts { AreLayouts (kinds_of types.now) layouts.now }
    requires can { CanEmpty (kinds_of types.now) (forest_kinds types.now) depth spot owners.now (S.content store.old) (S.rows store.old) }
    ensures emptied { Shows (kinds_of types.now) (S.content store.new) (S.rows store.new)
        (emptied_each (ended_number (forest_kinds types.now) depth) spot.object.birth spot.slot spot.word owners.now (seen (kinds_of types.now) (S.content store.old) (S.rows store.old))) }
    ensures later { Later (S.content store.old) (S.content store.new) (S.rows store.old) (S.rows store.new) }
    ensures rowed { AreRowed (kinds_of types.now) (S.content store.old) (S.rows store.old) → AreRowed (kinds_of types.now) (S.content store.new) (S.rows store.new) }
    ensures limit { S.limit store.new ≡ S.limit store.old }
{
    for owner in owners {
        let word = spot.word + *owner;
        if let Some(owned) = take_owned(store, spot.object, spot.slot, word) {
            end_deep(types, layouts, store, owned, depth);
        }
    }
}
