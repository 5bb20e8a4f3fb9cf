// How the buffer of a string comes to life.
ghost use Rattle.std.specs.Prelude.{◌≡◌, ◌<◌, ◌+◌, ◌^◌, length, OnOk};
ghost use Rattle.life_store.specs.Effects.{Setting};
ghost use Rattle.life_store.specs.Kinds.{Plain};
ghost use Rattle.life_seen.specs.Housed.{IsHoused, Later, Shows};
ghost use Rattle.life_seen.specs.Kinds.{kinds_of};
ghost use Rattle.life_seen.specs.Rowed.{AreRowed};
ghost use Rattle.life_seen.specs.Seen.{seen};
ghost use Rattle.life_values.specs.Texts.{text_born, with_characters, CanWrite, IsBuffer};

use life_store::{BirthFault, ObjRef, Store};
use life_types::{TyId, TypeTable};
use life_words::born_sized;

/// A new buffer of just these characters. `Cells` comes where the live words would pass the limit.
pub fn text<S: Store>(
    types: &TypeTable,
    store: &mut S,
    ty: TyId,
    characters: &[u64],
) -> Result<ObjRef, BirthFault>
    requires plain { kinds_of types.now ty 0 ≡ Plain }
    requires housed { IsHoused (kinds_of types.now) (S.content store.old) (S.rows store.old) }
    requires short { length characters.now < 2 ^ 32 }
    requires births { (S.content store.old).births + 1 < 2 ^ 63 }
    requires clock { (S.content store.old).clock < 2 ^ 63 }
    ensures text { (s : Setting) → s.given.cells ≡ S.limit store.old
        → IsBuffer (kinds_of types.now) (text_born s ty characters.now (seen (kinds_of types.now) (S.content store.old) (S.rows store.old))) result (S.content store.new) (S.rows store.new) }
    ensures later { OnOk result (Later (S.content store.old) (S.content store.new) (S.rows store.old) (S.rows store.new)) }
    ensures rowed { AreRowed (kinds_of types.now) (S.content store.old) (S.rows store.old) → OnOk result (AreRowed (kinds_of types.now) (S.content store.new) (S.rows store.new)) }
    ensures limit { S.limit store.new ≡ S.limit store.old }
{
    match born_sized(store, ty, 1, characters.len() as u32) {
        Err(fault) => Err(fault),
        Ok(text) => {
            write_characters(types, store, text, characters);
            Ok(text)
        }
    }
}

// Each slot of a buffer gets its character.
fn write_characters<S: Store>(types: &TypeTable, store: &mut S, text: ObjRef, characters: &[u64])
    requires can { CanWrite (kinds_of types.now) text (length characters.now) (S.content store.old) (S.rows store.old) }
    requires short { length characters.now < 2 ^ 32 }
    ensures shows { Shows (kinds_of types.now) (S.content store.new) (S.rows store.new)
        (with_characters text.birth characters.now (seen (kinds_of types.now) (S.content store.old) (S.rows store.old))) }
    ensures rows { S.rows store.new ≡ S.rows store.old }
    ensures rowed { AreRowed (kinds_of types.now) (S.content store.old) (S.rows store.old) → AreRowed (kinds_of types.now) (S.content store.new) (S.rows store.new) }
    ensures limit { S.limit store.new ≡ S.limit store.old }
{
    let mut slot = 0;
    for character in characters {
        match store.put(text, slot, 0, *character) {
            Ok(()) => {}
            Err(_) => unreachable!(),
        }
        slot += 1;
    }
}
