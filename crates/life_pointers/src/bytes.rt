// The characters that spans and views see.
ghost use Rattle.std.specs.Prelude.{◌≡◌, ◌<◌, ◌+◌, ◌%◌, ◌^◌, drop, length, map, slice_get, take, Some};
ghost use Rattle.life_core.specs.Function.{name_bytes};
ghost use Rattle.life_store.specs.Content.{word_in};
ghost use Rattle.life_store.specs.Views as spec;
ghost use Rattle.life_seen.specs.Housed.{IsHoused};
ghost use Rattle.life_seen.specs.Kinds.{Kinds};
ghost use Rattle.life_seen.specs.Seen.{seen};
ghost use Rattle.life_pointers.specs.Attempts.{itself, tried};
ghost use Rattle.life_pointers.specs.Bytes.{stored_bytes, stored_slots, stored_words, HasPositions, IsInside, SeesPlain};
ghost use Rattle.life_pointers.specs.Made.{viewed_alike};
ghost use Rattle.life_pointers.specs.Pointers.{characters_seen, pointer_seen, IsThere, PointerFits};

use crate::pointer::{Characters, Pointer};
use crate::stop::Stop;
use crate::texts::char_value;
use crate::valid::usable;
use life_store::{ObjRef, Store};

/// Whether two views see the same characters.
pub fn viewed_alike<S: Store>(
    store: &S,
    texts: &[Vec<u8>],
    left: Pointer,
    right: Pointer,
) -> Result<bool, Stop>
    requires left { PointerFits (S.content store.now) (S.rows store.now) left }
    requires right { PointerFits (S.content store.now) (S.rows store.now) right }
    ensures { (kinds : Kinds) → IsHoused kinds (S.content store.now) (S.rows store.now)
        → SeesPlain kinds (S.content store.now) (S.rows store.now) left → SeesPlain kinds (S.content store.now) (S.rows store.now) right
        → tried itself result ≡ viewed_alike (map name_bytes texts.now) (seen kinds (S.content store.now) (S.rows store.now)) (pointer_seen left) (pointer_seen right) }
{
    let left = usable(store, left)?;
    let right = usable(store, right)?;
    Ok(same_bytes(store, texts, left, right))
}

fn same_bytes<S: Store>(store: &S, texts: &[Vec<u8>], left: Pointer, right: Pointer) -> bool
    requires left { IsInside (S.content store.now) (S.rows store.now) left }
    requires left_there { IsThere left }
    requires right { IsInside (S.content store.now) (S.rows store.now) right }
    requires right_there { IsThere right }
    ensures { result ≡ spec.are_same (stored_bytes (map name_bytes texts.now) (S.content store.now) (S.rows store.now) left) (stored_bytes (map name_bytes texts.now) (S.content store.now) (S.rows store.now) right) }
{
    let count = byte_count(store, texts, left);
    if count != byte_count(store, texts, right) {
        return false;
    }
    for index in 0..count {
        if byte_at(store, texts, left, index) != byte_at(store, texts, right, index) {
            return false;
        }
    }
    true
}

/// How many characters are seen by a view that may be used.
pub fn byte_count<S: Store>(store: &S, texts: &[Vec<u8>], view: Pointer) -> u64
    requires { IsInside (S.content store.now) (S.rows store.now) view }
    ensures { result ≡ length (stored_bytes (map name_bytes texts.now) (S.content store.now) (S.rows store.now) view) }
{
    match view {
        Pointer::Null => 0,
        Pointer::Wild => 0,
        Pointer::To { count, .. } => count as u64,
        Pointer::Static(characters) => characters_in(texts, characters).len() as u64,
    }
}

/// One of them.
pub fn byte_at<S: Store>(store: &S, texts: &[Vec<u8>], view: Pointer, position: u64) -> u8
    requires inside { IsInside (S.content store.now) (S.rows store.now) view }
    requires there { IsThere view }
    requires within { position < length (stored_bytes (map name_bytes texts.now) (S.content store.now) (S.rows store.now) view) }
    ensures { slice_get (stored_bytes (map name_bytes texts.now) (S.content store.now) (S.rows store.now) view) position ≡ Some result }
{
    match view {
        Pointer::Null => 0,
        Pointer::Wild => 0,
        Pointer::To { index, object, .. } => slot_byte(store, object, index + position as u32),
        Pointer::Static(characters) => characters_in(texts, characters)[position as usize],
    }
}

/// .. as it lies in the slot of a string.
pub fn word_at<S: Store>(store: &S, texts: &[Vec<u8>], view: Pointer, position: u64) -> u64
    requires inside { IsInside (S.content store.now) (S.rows store.now) view }
    requires there { IsThere view }
    requires within { position < length (stored_words (map name_bytes texts.now) (S.content store.now) (S.rows store.now) view) }
    ensures { slice_get (stored_words (map name_bytes texts.now) (S.content store.now) (S.rows store.now) view) position ≡ Some result }
{
    match view {
        Pointer::Null => 0,
        Pointer::Wild => 0,
        Pointer::To { index, object, .. } => slot_word(store, object, index + position as u32),
        Pointer::Static(characters) => {
            char_word(characters_in(texts, characters)[position as usize])
        }
    }
}

// The byte of a char that lies in a slot.
fn slot_byte<S: Store>(store: &S, object: ObjRef, slot: u32) -> u8
    requires { HasPositions (S.content store.now) (S.rows store.now) object slot 1 }
    ensures { result ≡ word_in (slice_get (stored_slots (S.content store.now) (S.rows store.now) object) slot) 0 % 2 ^ 8 }
{
    (slot_word(store, object, slot) % (1 << 8)) as u8
}

fn slot_word<S: Store>(store: &S, object: ObjRef, slot: u32) -> u64
    requires { HasPositions (S.content store.now) (S.rows store.now) object slot 1 }
    ensures { result ≡ word_in (slice_get (stored_slots (S.content store.now) (S.rows store.now) object) slot) 0 }
{
    match store.get(object, slot, 0) {
        Ok(word) => word,
        Err(_) => unreachable!(),
    }
}

fn char_word(byte: u8) -> u64
    ensures { result ≡ spec.word_of_byte byte }
{
    char_value(byte).cast_unsigned()
}

// Characters of a text.
fn characters_in(texts: &[Vec<u8>], characters: Characters) -> &[u8]
    ensures { result.now ≡ spec.characters_in (map name_bytes texts.now) (characters_seen characters) }
{
    match characters.text {
        None => &[],
        Some(number) => match texts.get(number as usize) {
            None => &[],
            Some(text) => part(text, characters.index as usize, characters.count as usize),
        },
    }
}

// So many bytes from the index on, or as many as there are.
fn part(text: &[u8], index: usize, count: usize) -> &[u8]
    ensures { result.now ≡ take count (drop index text.now) }
{
    let start = index.min(text.len());
    let rest = &text[start..];
    &rest[..count.min(rest.len())]
}
