// How a buffer changes.
ghost use Rattle.std.specs.Prelude.{◌≡◌, ◌<◌, ◌+◌, ◌*◌, ◌^◌, length, Some};
ghost use Rattle.life_store.specs.Cells.{at};
ghost use Rattle.life_store.specs.Content.{CanCount, Object};
ghost use Rattle.life_forest.specs.Kinds.{kinds_of as forest_kinds};
ghost use Rattle.life_seen.specs.Housed.{Later, Shows};
ghost use Rattle.life_seen.specs.Kinds.{kinds_of};
ghost use Rattle.life_seen.specs.Rowed.{AreRowed};
ghost use Rattle.life_seen.specs.Seen.{seen};
ghost use Rattle.life_values.specs.Cleared.{cleared_words, CanClear};
ghost use Rattle.life_values.specs.Emptied.{emptied_each};
ghost use Rattle.life_values.specs.Ended.{ended_number};
ghost use Rattle.life_values.specs.Erased.{erased_words, CanErase};
ghost use Rattle.life_values.specs.Layouts.{leaves_at, owners_at, width_at, AreLaid, AreLayouts};
ghost use Rattle.life_values.specs.Popped.{popped_words, CanGive, CanPop, Pops};

use crate::layout::{Layout, leaves_of, owners_of, width_of};
use crate::moving::move_slots;
use crate::sizes::is_count;
use crate::spot::Spot;
use crate::taking::take_slots;
use crate::value_end::end_words;
use life_store::{ObjRef, Store};
use life_types::TypeTable;

/// Ends the last element of a buffer, with all beneath it, and takes its slot away. False comes
/// exactly where there is none.
pub fn pop<S: Store>(
    types: &TypeTable,
    layouts: &[Layout],
    store: &mut S,
    buffer: ObjRef,
    depth: u32,
) -> bool
    requires layouts { AreLaid types.now layouts.now }
    requires can { CanPop (kinds_of types.now) (forest_kinds types.now) depth buffer (S.content store.old) (S.rows store.old) }
    requires countable { CanCount (S.content store.old) }
    ensures popped { (o : Object) → at (seen (kinds_of types.now) (S.content store.old) (S.rows store.old)).objects buffer.birth ≡ Some o
        → Pops (kinds_of types.now)
        (popped_words (ended_number (forest_kinds types.now) depth) (owners_at layouts.now o.ty) buffer.birth (length o.slots) (seen (kinds_of types.now) (S.content store.old) (S.rows store.old)))
        result (S.content store.new) (S.rows store.new) }
    ensures later { Later (S.content store.old) (S.content store.new) (S.rows store.old) (S.rows store.new) }
    ensures rowed { AreRowed (kinds_of types.now) (S.content store.old) (S.rows store.old) → AreRowed (kinds_of types.now) (S.content store.new) (S.rows store.new) }
    ensures limit { S.limit store.new ≡ S.limit store.old }
{
    let shape = match store.shape(buffer) {
        Ok(shape) => shape,
        Err(_) => unreachable!(),
    };
    if shape.length == 0 {
        return false;
    }
    let last = shape.length - 1;
    let owners = owners_of(layouts, shape.ty);
    let width = width_of(layouts, shape.ty);
    end_slot(types, layouts, store, buffer, last, width, owners, depth);
    match store.resize(buffer, last, last) {
        Ok(()) => true,
        Err(_) => unreachable!(),
    }
}

/// Ends all elements of a buffer, with all beneath them, and takes their slots away.
pub fn clear<S: Store>(
    types: &TypeTable,
    layouts: &[Layout],
    store: &mut S,
    buffer: ObjRef,
    depth: u32,
)
    requires layouts { AreLaid types.now layouts.now }
    requires can { CanClear (kinds_of types.now) (forest_kinds types.now) depth buffer (S.content store.old) (S.rows store.old) }
    requires countable { CanCount (S.content store.old) }
    ensures cleared { (o : Object) → at (seen (kinds_of types.now) (S.content store.old) (S.rows store.old)).objects buffer.birth ≡ Some o
        → Shows (kinds_of types.now) (S.content store.new) (S.rows store.new)
        (cleared_words (ended_number (forest_kinds types.now) depth) (owners_at layouts.now o.ty) buffer.birth (length o.slots) (seen (kinds_of types.now) (S.content store.old) (S.rows store.old))) }
    ensures later { Later (S.content store.old) (S.content store.new) (S.rows store.old) (S.rows store.new) }
    ensures rowed { AreRowed (kinds_of types.now) (S.content store.old) (S.rows store.old) → AreRowed (kinds_of types.now) (S.content store.new) (S.rows store.new) }
    ensures limit { S.limit store.new ≡ S.limit store.old }
{
    let shape = match store.shape(buffer) {
        Ok(shape) => shape,
        Err(_) => unreachable!(),
    };
    let owners = owners_of(layouts, shape.ty);
    let width = width_of(layouts, shape.ty);
    for slot in 0..shape.length {
        end_slot(types, layouts, store, buffer, slot, width, owners, depth);
    }
    match store.resize(buffer, 0, 0) {
        Ok(()) => {}
        Err(_) => unreachable!(),
    }
}

/// Ends an element of a buffer, with all beneath it. The later ones move down by one, and all positions
/// from there on are stamped: pointers to them aren't valid any more (ISO/IEC 14882:2017 [vector.modifiers] 3).
pub fn erase<S: Store>(
    types: &TypeTable,
    layouts: &[Layout],
    store: &mut S,
    buffer: ObjRef,
    index: u32,
    depth: u32,
)
    requires layouts { AreLaid types.now layouts.now }
    requires can { CanErase (kinds_of types.now) (forest_kinds types.now) depth buffer index (S.content store.old) (S.rows store.old) }
    requires births { (o : Object) → at (seen (kinds_of types.now) (S.content store.old) (S.rows store.old)).objects buffer.birth ≡ Some o
        → (S.content store.old).births + length o.slots * length (leaves_at layouts.now o.ty) < 2 ^ 63 }
    requires clock { (S.content store.old).clock < 2 ^ 63 }
    ensures erased { (o : Object) → at (seen (kinds_of types.now) (S.content store.old) (S.rows store.old)).objects buffer.birth ≡ Some o
        → Shows (kinds_of types.now) (S.content store.new) (S.rows store.new)
        (erased_words (ended_number (forest_kinds types.now) depth) (leaves_at layouts.now o.ty) (width_at layouts.now o.ty) (owners_at layouts.now o.ty) buffer.birth index (length o.slots) (seen (kinds_of types.now) (S.content store.old) (S.rows store.old))) }
    ensures later { Later (S.content store.old) (S.content store.new) (S.rows store.old) (S.rows store.new) }
    ensures rowed { AreRowed (kinds_of types.now) (S.content store.old) (S.rows store.old) → AreRowed (kinds_of types.now) (S.content store.new) (S.rows store.new) }
    ensures limit { S.limit store.new ≡ S.limit store.old }
{
    let shape = match store.shape(buffer) {
        Ok(shape) => shape,
        Err(_) => unreachable!(),
    };
    let owners = owners_of(layouts, shape.ty);
    let leaves = leaves_of(layouts, shape.ty);
    let width = width_of(layouts, shape.ty);
    end_slot(types, layouts, store, buffer, index, width, owners, depth);
    is_count(shape.length);
    let next = index + 1;
    let count = shape.length - next;
    let size = count + index;
    take_slots(types, store, buffer, next, count, leaves);
    let source = Spot {
        object: buffer,
        slot: next,
        word: 0,
    };
    let target = Spot {
        object: buffer,
        slot: index,
        word: 0,
    };
    move_slots(types, store, source, target, count, width, owners);
    match store.resize(buffer, size, index) {
        Ok(()) => {}
        Err(_) => unreachable!(),
    }
}

// Ends what a slot of so many words owns.
fn end_slot<S: Store>(
    types: &TypeTable,
    layouts: &[Layout],
    store: &mut S,
    object: ObjRef,
    slot: u32,
    width: u64,
    owners: &[u64],
    depth: u32,
)
    requires layouts { AreLayouts (kinds_of types.now) layouts.now }
    requires can { CanGive (kinds_of types.now) (forest_kinds types.now) depth object slot width owners.now (S.content store.old) (S.rows store.old) }
    ensures emptied { Shows (kinds_of types.now) (S.content store.new) (S.rows store.new)
        (emptied_each (ended_number (forest_kinds types.now) depth) object.birth slot 0 owners.now (seen (kinds_of types.now) (S.content store.old) (S.rows store.old))) }
    ensures small { width < 2 ^ 64 }
    ensures later { Later (S.content store.old) (S.content store.new) (S.rows store.old) (S.rows store.new) }
    ensures rowed { AreRowed (kinds_of types.now) (S.content store.old) (S.rows store.old) → AreRowed (kinds_of types.now) (S.content store.new) (S.rows store.new) }
    ensures limit { S.limit store.new ≡ S.limit store.old }
{
    let spot = Spot {
        object,
        slot,
        word: 0,
    };
    end_words(types, layouts, store, spot, owners, depth);
}
