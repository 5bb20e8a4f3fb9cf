// How an object ends with all beneath it.
ghost use Rattle.std.specs.Prelude.{◌≡◌, ◌<◌, ℕ, length, slice_get, IfSome, Some};
ghost use Rattle.life_store.specs.Content.{Object};
ghost use Rattle.life_store.specs.References.{object_of, HasWord};
ghost use Rattle.life_forest.specs.Kinds.{kinds_of as forest_kinds};
ghost use Rattle.life_seen.specs.Housed.{IsHoused, Later, Shows};
ghost use Rattle.life_seen.specs.Kinds.{kinds_of, Kinds};
ghost use Rattle.life_seen.specs.Named.{names_of};
ghost use Rattle.life_seen.specs.Rowed.{AreRowed};
ghost use Rattle.life_seen.specs.Seen.{object_seen, seen};
ghost use Rattle.life_values.specs.Ended.{ended_number};
ghost use Rattle.life_values.specs.Ending.{CanEnd, NextIn};
ghost use Rattle.life_values.specs.Layouts.{AreLayouts, AreOwners};

use crate::layout::{Layout, owners_of};
use life_store::{ObjRef, Store};
use life_types::TypeTable;
use life_words::{owned, take_owned};

/// A word that owns something: its place among those that own, the word, and what it owns.
#[derive(Clone, Copy)]
pub(crate) struct Found {
    pub(crate) index: usize,
    pub(crate) word: u64,
    pub(crate) owned: ObjRef,
}

/// Ends an object with all beneath it: at most so many steps of owning, it among them.
pub fn end_deep<S: Store>(
    types: &TypeTable,
    layouts: &[Layout],
    store: &mut S,
    object: ObjRef,
    depth: u32,
)
    requires layouts { AreLayouts (kinds_of types.now) layouts.now }
    requires can { CanEnd (kinds_of types.now) (forest_kinds types.now) depth object (S.content store.old) (S.rows store.old) }
    ensures ended { Shows (kinds_of types.now) (S.content store.new) (S.rows store.new)
        (ended_number (forest_kinds types.now) depth object.birth (seen (kinds_of types.now) (S.content store.old) (S.rows store.old))) }
    ensures later { Later (S.content store.old) (S.content store.new) (S.rows store.old) (S.rows store.new) }
    ensures rowed { AreRowed (kinds_of types.now) (S.content store.old) (S.rows store.old) → AreRowed (kinds_of types.now) (S.content store.new) (S.rows store.new) }
    ensures limit { S.limit store.new ≡ S.limit store.old }
{
    let shape = match store.shape(object) {
        Ok(shape) => shape,
        Err(_) => unreachable!(),
    };
    let owners = owners_of(layouts, shape.ty);
    let mut slot = 0;
    let mut index = 0;
    while slot < shape.length {
        match next_in(store, object, owners, slot, index) {
            None => {
                slot += 1;
                index = 0;
            }
            Some(found) => {
                take_owned(store, object, slot, found.word);
                end_deep(types, layouts, store, found.owned, depth - 1);
                index = found.index + 1;
            }
        }
    }
    match store.finish(object) {
        Ok(()) => {}
        Err(_) => unreachable!(),
    }
}

// The first word of a slot, from one on, that owns something.
fn next_in<S: Store>(
    store: &S,
    object: ObjRef,
    owners: &[u64],
    slot: u32,
    from: usize,
) -> Option<Found>
    requires has { (j u : ℕ) → slice_get owners.now j ≡ Some u → IfSome (object_of (S.content store.now) (S.rows store.now) object) (HasWord slot u) }
    ensures within { IfSome result (λ f. f.index < length owners.now) }
    ensures next { (kinds : Kinds) (o : Object) → IsHoused kinds (S.content store.now) (S.rows store.now) → object_of (S.content store.now) (S.rows store.now) object ≡ Some o → AreOwners (kinds o.ty) owners.now
        → NextIn (S.rows store.now) owners.now slot from (object_seen kinds (names_of (S.content store.now) (S.rows store.now)) o) result }
{
    let mut index = from;
    while index < owners.len() {
        let word = owners[index];
        if let Some(owned) = owned(store, object, slot, word) {
            return Some(Found { index, word, owned });
        }
        index += 1;
    }
    None
}
