// Words of a store that are numbers, and pointers.
ghost use Rattle.std.specs.Prelude.{◌≡◌, ◌<◌, ◌+◌, ◌^◌, length, IfSome, IsSome};
ghost use Rattle.life_store.specs.Content.{with_object, with_word, word_at, Object};
ghost use Rattle.life_store.specs.References.{object_of, HasWord};
ghost use Rattle.life_seen.specs.Housed.{Shows};
ghost use Rattle.life_seen.specs.Kinds.{AreWhole, Kinds};
ghost use Rattle.life_seen.specs.Named.{names_of};
ghost use Rattle.life_seen.specs.Rowed.{AreRowed};
ghost use Rattle.life_seen.specs.Seen.{object_seen, seen};
ghost use Rattle.life_words.specs.Numbers.{HasWords, IsPlain, Wrote};

use life_store::{ObjRef, Store};

/// A word that is a number.
#[inline(always)]
pub fn number<S: Store>(store: &S, object: ObjRef, slot: u32, word: u64) -> u64
    requires { IfSome (object_of (S.content store.now) (S.rows store.now) object) (HasWord slot word) }
    ensures { (kinds : Kinds) (o : Object) → IsPlain kinds (S.content store.now) (S.rows store.now) object word o
        → result ≡ word_at (object_seen kinds (names_of (S.content store.now) (S.rows store.now)) o) slot word }
{
    match store.get(object, slot, word) {
        Ok(value) => value,
        Err(_) => 0,
    }
}

/// Sets a word that is a number.
#[inline(always)]
pub fn put_number<S: Store>(store: &mut S, object: ObjRef, slot: u32, word: u64, value: u64)
    requires { IfSome (object_of (S.content store.old) (S.rows store.old) object) (HasWord slot word) }
    ensures shows { (kinds : Kinds) (o : Object) → IsPlain kinds (S.content store.old) (S.rows store.old) object word o
        → Shows kinds (S.content store.new) (S.rows store.new)
        (with_object object.birth (with_word slot word value (object_seen kinds (names_of (S.content store.old) (S.rows store.old)) o)) (seen kinds (S.content store.old) (S.rows store.old))) }
    ensures rowed { (kinds : Kinds) (o : Object) → IsPlain kinds (S.content store.old) (S.rows store.old) object word o → AreWhole (kinds o.ty)
        → AreRowed kinds (S.content store.old) (S.rows store.old) → AreRowed kinds (S.content store.new) (S.rows store.new) }
    ensures rows { S.rows store.new ≡ S.rows store.old }
    ensures limit { S.limit store.new ≡ S.limit store.old }
{
    match store.put(object, slot, word, value) {
        Ok(()) => {}
        Err(_) => {}
    }
}

/// Sets words one behind the other. None of them owns something.
pub fn put_words<S: Store>(store: &mut S, object: ObjRef, slot: u32, word: u64, values: &[u64])
    requires lives { IsSome (object_of (S.content store.old) (S.rows store.old) object) }
    requires has { IfSome (object_of (S.content store.old) (S.rows store.old) object) (HasWords slot word (length values.now)) }
    requires small { word + length values.now < 2 ^ 64 }
    ensures wrote { Wrote (object_of (S.content store.old) (S.rows store.old) object) object.birth slot word values.now (S.content store.old) (S.content store.new) }
    ensures rows { S.rows store.new ≡ S.rows store.old }
    ensures limit { S.limit store.new ≡ S.limit store.old }
{
    let mut at = word;
    for value in values {
        match store.put(object, slot, at, *value) {
            Ok(()) => {}
            Err(_) => unreachable!(),
        }
        at += 1;
    }
}
