// Pointers in the words of a slot.
ghost use Rattle.std.specs.Prelude.{◌≡◌, ◌<◌, ◌≤◌, ◌+◌, ◌^◌, ◌%◌, ◌/◌, IfSome, IsSome};
ghost use Rattle.life_store.specs.Content.{word_at, Content, Object};
ghost use Rattle.life_store.specs.Held.{owned_in, owner_word, pointer_in, pointer_of, pointer_words, words_at, wrote};
ghost use Rattle.life_store.specs.References.{object_of, HasWord, Rows};
ghost use Rattle.life_seen.specs.Housed.{Shows};
ghost use Rattle.life_seen.specs.Kinds.{Kinds};
ghost use Rattle.life_seen.specs.Rowed.{stored_words, AreRowed, IsReadable};
ghost use Rattle.life_seen.specs.Seen.{seen};
ghost use Rattle.life_words.specs.Numbers.{HasWords};
ghost use Rattle.life_pointers.specs.Pointers.{pointer_seen, CanStore, PointerFits};
ghost use Rattle.life_pointers.specs.Words.{five, row_of, HasWholeWords, IsPointer, IsSmall};

use crate::pointer::{Characters, Pointer};
use life_store::{ObjRef, Store};
use life_words::put_words;

/// The pointer that begins at the word of the slot.
pub fn read_pointer<S: Store>(store: &S, object: ObjRef, slot: u32, word: u64) -> Pointer
    requires lives { IsSome (object_of (S.content store.now) (S.rows store.now) object) }
    requires has { IfSome (object_of (S.content store.now) (S.rows store.now) object) (HasWords slot word 5) }
    requires small { word + 5 < 2 ^ 64 }
    ensures is { (kinds : Kinds) (o : Object) → IsPointer kinds (S.content store.now) (S.rows store.now) object word o → AreRowed kinds (S.content store.now) (S.rows store.now)
        → pointer_seen result ≡ pointer_in (words_at (seen kinds (S.content store.now) (S.rows store.now)) object.birth slot word 5) }
    ensures fits { (kinds : Kinds) (o : Object) → IsPointer kinds (S.content store.now) (S.rows store.now) object word o → AreRowed kinds (S.content store.now) (S.rows store.now)
        → PointerFits (S.content store.now) (S.rows store.now) result }
{
    let first = word_of(store, object, slot, word);
    let index = word_of(store, object, slot, word + 1);
    let count = word_of(store, object, slot, word + 2);
    let fourth = word_of(store, object, slot, word + 3);
    let last = word_of(store, object, slot, word + 4);
    pointer_from(first, index, count, fourth, last)
}

/// Writes a pointer from the word of the slot on.
pub fn write_pointer<S: Store>(
    store: &mut S,
    object: ObjRef,
    slot: u32,
    word: u64,
    pointer: Pointer,
)
    requires lives { IsSome (object_of (S.content store.old) (S.rows store.old) object) }
    requires has { IfSome (object_of (S.content store.old) (S.rows store.old) object) (HasWords slot word 5) }
    requires small { word + 5 < 2 ^ 64 }
    requires storable { CanStore pointer }
    ensures shows { (kinds : Kinds) (o : Object) → IsPointer kinds (S.content store.old) (S.rows store.old) object word o
        → Shows kinds (S.content store.new) (S.rows store.new) (wrote object.birth slot word (pointer_words (pointer_seen pointer)) (seen kinds (S.content store.old) (S.rows store.old))) }
    ensures rowed { (kinds : Kinds) (o : Object) → IsPointer kinds (S.content store.old) (S.rows store.old) object word o → HasWholeWords slot word o
        → PointerFits (S.content store.old) (S.rows store.old) pointer
        → AreRowed kinds (S.content store.old) (S.rows store.old) → AreRowed kinds (S.content store.new) (S.rows store.new) }
    ensures rows { S.rows store.new ≡ S.rows store.old }
    ensures limit { S.limit store.new ≡ S.limit store.old }
{
    put_words(store, object, slot, word, &stored(pointer));
}

// Any word of an object that lives.
fn word_of<S: Store>(store: &S, object: ObjRef, slot: u32, word: u64) -> u64
    requires { IfSome (object_of (S.content store.now) (S.rows store.now) object) (HasWord slot word) }
    ensures { IfSome (object_of (S.content store.now) (S.rows store.now) object) (λ o. result ≡ word_at o slot word) }
{
    match store.get(object, slot, word) {
        Ok(value) => value,
        Err(_) => 0,
    }
}

// What five words are read as.
fn pointer_from(first: u64, index: u64, count: u64, fourth: u64, last: u64) -> Pointer
    ensures is { (c : Content) (rows : Rows) → IsReadable c rows (five first index count fourth last) → pointer_seen result ≡ pointer_of first index count (fourth % 2 ^ 32) last }
    ensures fits { (c : Content) (rows : Rows) → IsReadable c rows (five first index count fourth last) → PointerFits c rows result }
{
    if first == 0 {
        return Pointer::Wild;
    }
    if first == 1 {
        return Pointer::Null;
    }
    if last == 0 {
        return Pointer::Static(Characters {
            text: text_in(first - 2),
            index,
            count,
        });
    }
    Pointer::To {
        index: low(index),
        count: low(count),
        word: low(fourth),
        object: ObjRef {
            row: high(fourth),
            birth: first - 2,
        },
        moment: last - 1,
    }
}

// The number of a text, if the word has one.
fn text_in(word: u64) -> Option<u32>
    ensures { word ≤ 2 ^ 32 → result ≡ owned_in word }
{
    if word == 0 { None } else { Some(low(word - 1)) }
}

// The lower 32 bits, and the higher ones.
fn low(word: u64) -> u32
    ensures { result ≡ word % 2 ^ 32 }
{
    (word % (1 << 32)) as u32
}

fn high(word: u64) -> u32
    ensures { result ≡ word / 2 ^ 32 }
{
    (word / (1 << 32)) as u32
}

// The words of a pointer in a store.
fn stored(pointer: Pointer) -> [u64; 5]
    requires { CanStore pointer }
    ensures is { result ≡ stored_words (row_of pointer) (pointer_seen pointer) }
    ensures small { IsSmall pointer }
{
    match pointer {
        Pointer::Wild => [0, 0, 0, 0, 0],
        Pointer::Null => [1, 0, 0, 0, 0],
        Pointer::Static(characters) => [
            2 + text_word(characters.text),
            characters.index,
            characters.count,
            0,
            0,
        ],
        Pointer::To {
            index,
            count,
            word,
            object,
            moment,
        } => [
            object.birth + 2,
            index as u64,
            count as u64,
            word as u64 + object.row as u64 * (1 << 32),
            moment + 1,
        ],
    }
}

fn text_word(text: Option<u32>) -> u64
    ensures is { result ≡ owner_word text }
    ensures small { result ≤ 2 ^ 32 }
{
    match text {
        None => 0,
        Some(number) => number as u64 + 1,
    }
}
