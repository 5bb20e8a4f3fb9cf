// How a string, a vector or a unique_ptr gives what it has to another.
ghost use Rattle.std.specs.Prelude.{◌≡◌, ◌<◌, ◌+◌, ◌^◌, option_map, IfSome, Some, slice_get};
ghost use Rattle.life_types.specs.Trees.{IsOrdered};
ghost use Rattle.life_store.specs.Cells.{at};
ghost use Rattle.life_store.specs.Content.{Object, word_at};
ghost use Rattle.life_store.specs.Held.{owned_in};
ghost use Rattle.life_store.specs.Parts.{parts_at};
ghost use Rattle.life_store.specs.References.{object_of, HasWord};
ghost use Rattle.life_forest.specs.Kinds.{kinds_of as forest_kinds};
ghost use Rattle.life_seen.specs.Housed.{Later, Shows};
ghost use Rattle.life_seen.specs.Kinds.{kinds_of, Kinds};
ghost use Rattle.life_seen.specs.Named.{names_of};
ghost use Rattle.life_seen.specs.Rowed.{AreRowed};
ghost use Rattle.life_seen.specs.Seen.{object_seen, seen};
ghost use Rattle.life_words.specs.Owning.{number_of, IsOwner};
ghost use Rattle.life_values.specs.Ended.{ended_number};
ghost use Rattle.life_values.specs.Layouts.{AreLaid, AreLayouts};
ghost use Rattle.life_values.specs.Moved.{place};
ghost use Rattle.life_moves.specs.MovedTo.{given_to, may_be_null, may_give, taken_over, CanMoveTo, CanTakeOver, Gives};

use life_store::{ObjRef, Store};
use life_types::TypeTable;
use life_values::{
    Holds, Layout, Leaf, Spot, end_words, leaves_of, owners_of, replace, take_value,
};
use life_words::{owned, take_owned};

/// A string, a vector or a `std::unique_ptr` gives what it has to a place of its type, and has nothing
/// then. What the place had ends, with all beneath it: at most so many steps of owning. False comes
/// exactly where there is nothing to give, since a string or a vector was moved from.
pub fn move_to<S: Store>(
    types: &TypeTable,
    layouts: &[Layout],
    store: &mut S,
    from: ObjRef,
    to: Spot,
    depth: u32,
) -> bool
    requires layouts { AreLaid types.now layouts.now }
    requires ordered { IsOrdered types.now }
    requires can { CanMoveTo types.now depth from to (S.content store.old) (S.rows store.old) }
    requires births { (S.content store.old).births + 1 < 2 ^ 63 }
    requires clock { (S.content store.old).clock < 2 ^ 63 }
    ensures moved { (o : Object) → at (seen (kinds_of types.now) (S.content store.old) (S.rows store.old)).objects from.birth ≡ Some o
        → Gives (kinds_of types.now) (given_to (parts_at types.now o.ty) (place to) from.birth (seen (kinds_of types.now) (S.content store.old) (S.rows store.old)))
        result (S.content store.new) (S.rows store.new) }
    ensures later { Later (S.content store.old) (S.content store.new) (S.rows store.old) (S.rows store.new) }
    ensures rowed { AreRowed (kinds_of types.now) (S.content store.old) (S.rows store.old) → AreRowed (kinds_of types.now) (S.content store.new) (S.rows store.new) }
    ensures limit { S.limit store.new ≡ S.limit store.old }
{
    let shape = match store.shape(from) {
        Ok(shape) => shape,
        Err(_) => unreachable!(),
    };
    let leaves = leaves_of(layouts, shape.ty);
    if !has_value(store, from, leaves) {
        return false;
    }
    let owners = owners_of(layouts, shape.ty);
    let source = Spot {
        object: from,
        slot: 0,
        word: 0,
    };
    take_value(types, store, source, leaves);
    let other = take_owned(store, from, 0, 0);
    replace_if(types, layouts, store, to, owners, other, depth);
    true
}

// Whether there is something to give: what a `std::unique_ptr` gives may be null.
fn has_value<S: Store>(store: &S, from: ObjRef, leaves: &[Leaf]) -> bool
    requires { IfSome (object_of (S.content store.now) (S.rows store.now) from) (HasWord 0 0) }
    ensures { (kinds : Kinds) (o : Object) → IsOwner kinds (S.content store.now) (S.rows store.now) from 0 o
        → result ≡ may_give leaves.now (owned_in (word_at (object_seen kinds (names_of (S.content store.now) (S.rows store.now)) o) 0 0)) }
{
    match owned(store, from, 0, 0) {
        None => is_nullable(leaves),
        Some(_) => true,
    }
}

fn is_nullable(leaves: &[Leaf]) -> bool
    ensures { result ≡ may_be_null (slice_get leaves.now 0) }
{
    match leaves.get(0) {
        None => false,
        Some(leaf) => match leaf.holds {
            Holds::Target(_) => true,
            Holds::Raw | Holds::View | Holds::Characters(_) | Holds::Elements(_) => false,
        },
    }
}

// What a value of one word owns ends, with all beneath it. The word owns what is at hand from then on,
// or nothing where nothing is at hand.
fn replace_if<S: Store>(
    types: &TypeTable,
    layouts: &[Layout],
    store: &mut S,
    spot: Spot,
    owners: &[u64],
    other: Option<ObjRef>,
    depth: u32,
)
    requires layouts { AreLayouts (kinds_of types.now) layouts.now }
    requires can { CanTakeOver (kinds_of types.now) (forest_kinds types.now) depth spot owners.now other (S.content store.old) (S.rows store.old) }
    ensures replaced { Shows (kinds_of types.now) (S.content store.new) (S.rows store.new)
        (taken_over (ended_number (forest_kinds types.now) depth) spot.object.birth spot.slot spot.word owners.now (option_map number_of other) (seen (kinds_of types.now) (S.content store.old) (S.rows store.old))) }
    ensures later { Later (S.content store.old) (S.content store.new) (S.rows store.old) (S.rows store.new) }
    ensures rowed { AreRowed (kinds_of types.now) (S.content store.old) (S.rows store.old) → AreRowed (kinds_of types.now) (S.content store.new) (S.rows store.new) }
    ensures limit { S.limit store.new ≡ S.limit store.old }
{
    match other {
        None => end_words(types, layouts, store, spot, owners, depth),
        Some(other) => replace(types, layouts, store, spot, owners, other, depth),
    }
}
