// Words of a store that own.
ghost use Rattle.std.specs.Prelude.{◌≡◌, option_map, IfSome, None};
ghost use Rattle.life_store.specs.Content.{Object};
ghost use Rattle.life_store.specs.References.{object_of, HasWord};
ghost use Rattle.life_seen.specs.Housed.{Shows};
ghost use Rattle.life_seen.specs.Kinds.{AreWhole, Kinds};
ghost use Rattle.life_seen.specs.Rowed.{AreRowed};
ghost use Rattle.life_words.specs.Owning.{number_of, with_owner, CanOwn, Holds, IsNamedBy, IsOwner, IsWordOf};

use life_store::{ObjRef, Store};

/// What the word owns, if it owns something.
#[inline(always)]
pub fn owned<S: Store>(store: &S, object: ObjRef, slot: u32, word: u64) -> Option<ObjRef>
    requires { IfSome (object_of (S.content store.now) (S.rows store.now) object) (HasWord slot word) }
    ensures { (kinds : Kinds) (o : Object) → IsOwner kinds (S.content store.now) (S.rows store.now) object word o
        → Holds kinds (S.content store.now) (S.rows store.now) slot word o result }
{
    match store.get(object, slot, word) {
        Err(_) => None,
        Ok(held) => living(store, held),
    }
}

/// Takes out what the word owns, which then owns nothing.
pub fn take_owned<S: Store>(store: &mut S, object: ObjRef, slot: u32, word: u64) -> Option<ObjRef>
    requires { IfSome (object_of (S.content store.old) (S.rows store.old) object) (HasWord slot word) }
    ensures held { (kinds : Kinds) (o : Object) → IsOwner kinds (S.content store.old) (S.rows store.old) object word o
        → Holds kinds (S.content store.old) (S.rows store.old) slot word o result }
    ensures shows { (kinds : Kinds) (o : Object) → IsOwner kinds (S.content store.old) (S.rows store.old) object word o
        → Shows kinds (S.content store.new) (S.rows store.new) (with_owner kinds (S.content store.old) (S.rows store.old) object slot word o None) }
    ensures rowed { (kinds : Kinds) (o : Object) → IsOwner kinds (S.content store.old) (S.rows store.old) object word o → AreWhole (kinds o.ty)
        → AreRowed kinds (S.content store.old) (S.rows store.old) → AreRowed kinds (S.content store.new) (S.rows store.new) }
    ensures rows { S.rows store.new ≡ S.rows store.old }
    ensures limit { S.limit store.new ≡ S.limit store.old }
{
    let held = owned(store, object, slot, word);
    match store.put(object, slot, word, 0) {
        Ok(()) => {}
        Err(_) => {}
    }
    held
}

/// Gives the word an object that it owns from then on, or nothing.
pub fn own<S: Store>(store: &mut S, object: ObjRef, slot: u32, word: u64, owned: Option<ObjRef>)
    requires has { IfSome (object_of (S.content store.old) (S.rows store.old) object) (HasWord slot word) }
    requires lives { CanOwn (S.rows store.old) owned }
    ensures shows { (kinds : Kinds) (o : Object) → IsOwner kinds (S.content store.old) (S.rows store.old) object word o
        → Shows kinds (S.content store.new) (S.rows store.new)
        (with_owner kinds (S.content store.old) (S.rows store.old) object slot word o (option_map number_of owned)) }
    ensures rowed { (kinds : Kinds) (o : Object) → IsOwner kinds (S.content store.old) (S.rows store.old) object word o → AreWhole (kinds o.ty)
        → AreRowed kinds (S.content store.old) (S.rows store.old) → AreRowed kinds (S.content store.new) (S.rows store.new) }
    ensures rows { S.rows store.new ≡ S.rows store.old }
    ensures limit { S.limit store.new ≡ S.limit store.old }
{
    match store.put(object, slot, word, held_word(owned)) {
        Ok(()) => {}
        Err(_) => {}
    }
}

fn held_word(owned: Option<ObjRef>) -> u64
    ensures { IsWordOf owned result }
{
    match owned {
        None => 0,
        Some(object) => object.row as u64 + 1,
    }
}

// The object in the row that the word names, if it names one.
#[inline(always)]
fn living<S: Store>(store: &S, word: u64) -> Option<ObjRef>
    ensures { IsNamedBy (S.rows store.now) word result }
{
    if word == 0 {
        return None;
    }
    match u32::try_from(word - 1) {
        Err(_) => None,
        Ok(row) => store.living(row),
    }
}
