// How an object is copied with all that it owns.
ghost use Rattle.std.specs.Prelude.{◌≡◌, OnOk};
ghost use Rattle.life_types.specs.Trees.{IsOrdered};
ghost use Rattle.life_store.specs.Effects.{Setting};
ghost use Rattle.life_forest.specs.Kinds.{kinds_of as forest_kinds};
ghost use Rattle.life_seen.specs.Housed.{Later};
ghost use Rattle.life_seen.specs.Kinds.{kinds_of};
ghost use Rattle.life_seen.specs.Rowed.{AreRowed};
ghost use Rattle.life_seen.specs.Seen.{seen};
ghost use Rattle.life_values.specs.Copied.{copied_number, copy_fault_of, recopied_each, slots_copied, CanCopy, CanCopySlots, CanRecopy, ComesCopied, Copies};
ghost use Rattle.life_values.specs.Layouts.{owners_at, AreLaid};

use crate::layout::{Layout, owners_of, width_of};
use crate::moving::copy_words;
use crate::spot::Spot;
use life_store::{BirthFault, ObjRef, Store};
use life_types::TypeTable;
use life_words::{born_sized, own, owned};
use thiserror::Error;

/// Why no copy was made.
#[derive(Clone, Copy, Debug, PartialEq, Eq, Error)]
pub enum CopyFault {
    /// A word that owns a buffer in every value but one that was moved from owns none.
    #[error("moved from")]
    Moved,
    /// The live words would pass the limit.
    #[error("the live words would pass their limit")]
    Cells,
    /// Memory was wanted and not had.
    #[error("no memory")]
    NoMemory,
}

/// A new object with the words of another, of which each that owns has a copy of what it names there:
/// at most so many steps of owning deep. `Moved` comes where one of them owns nothing.
#[cycle(copies)]
pub fn copy_deep<S: Store>(
    types: &TypeTable,
    layouts: &[Layout],
    store: &mut S,
    object: ObjRef,
    depth: u32,
) -> Result<ObjRef, CopyFault>
    requires layouts { AreLaid types.now layouts.now }
    requires ordered { IsOrdered types.now }
    requires can { CanCopy (kinds_of types.now) (forest_kinds types.now) (S.limit store.old) depth object (S.content store.old) (S.rows store.old) }
    ensures copied { (s : Setting) → s.given.cells ≡ S.limit store.old
        → Copies (kinds_of types.now) (copied_number s (owners_at layouts.now) depth object.birth (seen (kinds_of types.now) (S.content store.old) (S.rows store.old))) result (S.content store.new) (S.rows store.new) }
    ensures later { OnOk result (Later (S.content store.old) (S.content store.new) (S.rows store.old) (S.rows store.new)) }
    ensures rowed { AreRowed (kinds_of types.now) (S.content store.old) (S.rows store.old) → OnOk result (AreRowed (kinds_of types.now) (S.content store.new) (S.rows store.new)) }
    ensures limit { S.limit store.new ≡ S.limit store.old }
{
    let shape = match store.shape(object) {
        Ok(shape) => shape,
        Err(_) => unreachable!(),
    };
    let owners = owners_of(layouts, shape.ty);
    let width = width_of(layouts, shape.ty);
    match born_sized(store, shape.ty, width, shape.length) {
        Err(fault) => Err(copy_fault(fault)),
        Ok(copy) => {
            match copy_slots(
                types,
                layouts,
                store,
                object,
                copy,
                shape.length,
                width,
                owners,
                depth - 1,
            ) {
                Err(fault) => Err(fault),
                Ok(()) => Ok(copy),
            }
        }
    }
}

// The slots of an object are copied into those of another.
#[cycle(copies)]
fn copy_slots<S: Store>(
    types: &TypeTable,
    layouts: &[Layout],
    store: &mut S,
    from: ObjRef,
    to: ObjRef,
    length: u32,
    width: u64,
    owners: &[u64],
    depth: u32,
) -> Result<(), CopyFault>
    requires layouts { AreLaid types.now layouts.now }
    requires ordered { IsOrdered types.now }
    requires can { CanCopySlots (kinds_of types.now) (forest_kinds types.now) (S.limit store.old) depth from to length width owners.now (S.content store.old) (S.rows store.old) }
    ensures copied { (s : Setting) → s.given.cells ≡ S.limit store.old
        → ComesCopied (kinds_of types.now) (slots_copied (copied_number s (owners_at layouts.now) depth) owners.now width from.birth to.birth 0 length (seen (kinds_of types.now) (S.content store.old) (S.rows store.old))) result (S.content store.new) (S.rows store.new) }
    ensures later { OnOk result (Later (S.content store.old) (S.content store.new) (S.rows store.old) (S.rows store.new)) }
    ensures rowed { AreRowed (kinds_of types.now) (S.content store.old) (S.rows store.old) → OnOk result (AreRowed (kinds_of types.now) (S.content store.new) (S.rows store.new)) }
    ensures limit { S.limit store.new ≡ S.limit store.old }
{
    for slot in 0..length {
        let source = Spot {
            object: from,
            slot,
            word: 0,
        };
        let target = Spot {
            object: to,
            slot,
            word: 0,
        };
        copy_words(types, store, source, target, width);
        match recopy(types, layouts, store, to, slot, owners, depth) {
            Err(fault) => return Err(fault),
            Ok(()) => {}
        }
    }
    Ok(())
}

// Words of a slot get copies of what they own.
#[cycle(copies)]
fn recopy<S: Store>(
    types: &TypeTable,
    layouts: &[Layout],
    store: &mut S,
    object: ObjRef,
    slot: u32,
    owners: &[u64],
    depth: u32,
) -> Result<(), CopyFault>
    requires layouts { AreLaid types.now layouts.now }
    requires ordered { IsOrdered types.now }
    requires can { CanRecopy (kinds_of types.now) (forest_kinds types.now) (S.limit store.old) depth object slot owners.now (S.content store.old) (S.rows store.old) }
    ensures copied { (s : Setting) → s.given.cells ≡ S.limit store.old
        → ComesCopied (kinds_of types.now) (recopied_each (copied_number s (owners_at layouts.now) depth) object.birth slot owners.now (seen (kinds_of types.now) (S.content store.old) (S.rows store.old))) result (S.content store.new) (S.rows store.new) }
    ensures later { OnOk result (Later (S.content store.old) (S.content store.new) (S.rows store.old) (S.rows store.new)) }
    ensures rowed { AreRowed (kinds_of types.now) (S.content store.old) (S.rows store.old) → OnOk result (AreRowed (kinds_of types.now) (S.content store.new) (S.rows store.new)) }
    ensures limit { S.limit store.new ≡ S.limit store.old }
{
    for word in owners {
        match owned(store, object, slot, *word) {
            None => return Err(CopyFault::Moved),
            Some(held) => match copy_deep(types, layouts, store, held, depth) {
                Err(fault) => return Err(fault),
                Ok(copy) => own(store, object, slot, *word, Some(copy)),
            },
        }
    }
    Ok(())
}

fn copy_fault(fault: BirthFault) -> CopyFault
    ensures { result ≡ copy_fault_of fault }
{
    match fault {
        BirthFault::Cells => CopyFault::Cells,
        BirthFault::NoMemory => CopyFault::NoMemory,
    }
}
