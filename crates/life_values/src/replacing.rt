// How a word takes over another object.
ghost use Rattle.std.specs.Prelude.{◌≡◌};
ghost use Rattle.life_forest.specs.Kinds.{kinds_of as forest_kinds};
ghost use Rattle.life_seen.specs.Housed.{Later, Shows};
ghost use Rattle.life_seen.specs.Kinds.{kinds_of};
ghost use Rattle.life_seen.specs.Rowed.{AreRowed};
ghost use Rattle.life_seen.specs.Seen.{seen};
ghost use Rattle.life_values.specs.Ended.{ended_number};
ghost use Rattle.life_values.specs.Layouts.{AreLayouts};
ghost use Rattle.life_values.specs.Replaced.{replaced_by, CanReplace};

use crate::layout::Layout;
use crate::spot::Spot;
use crate::value_end::end_words;
use life_store::{ObjRef, Store};
use life_types::TypeTable;
use life_words::own;

/// Ends what a value of one word owns, with all beneath it: at most so many steps of owning. The word
/// owns another object from then on.
pub fn replace<S: Store>(
    types: &TypeTable,
    layouts: &[Layout],
    store: &mut S,
    spot: Spot,
    owners: &[u64],
    other: ObjRef,
    depth: u32,
)
    requires layouts { AreLayouts (kinds_of types.now) layouts.now }
    requires can { CanReplace (kinds_of types.now) (forest_kinds types.now) depth spot owners.now other (S.content store.old) (S.rows store.old) }
    ensures replaced { Shows (kinds_of types.now) (S.content store.new) (S.rows store.new)
        (replaced_by (ended_number (forest_kinds types.now) depth) spot.object.birth spot.slot spot.word owners.now other.birth (seen (kinds_of types.now) (S.content store.old) (S.rows store.old))) }
    ensures later { Later (S.content store.old) (S.content store.new) (S.rows store.old) (S.rows store.new) }
    ensures rowed { AreRowed (kinds_of types.now) (S.content store.old) (S.rows store.old) → AreRowed (kinds_of types.now) (S.content store.new) (S.rows store.new) }
    ensures limit { S.limit store.new ≡ S.limit store.old }
{
    end_words(types, layouts, store, spot, owners, depth);
    own(store, spot.object, spot.slot, spot.word, Some(other));
}
