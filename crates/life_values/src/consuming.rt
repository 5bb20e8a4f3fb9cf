// How a temporary gives its value over.
ghost use Rattle.std.specs.Prelude.{◌≡◌, ◌<◌, ◌+◌, ◌^◌, length, Some};
ghost use Rattle.life_store.specs.Cells.{at};
ghost use Rattle.life_store.specs.Content.{Object};
ghost use Rattle.life_store.specs.Owners.{consumed};
ghost use Rattle.life_store.specs.Parts.{parts_at};
ghost use Rattle.life_seen.specs.Housed.{Later, Shows};
ghost use Rattle.life_seen.specs.Kinds.{kinds_of};
ghost use Rattle.life_seen.specs.Rowed.{AreRowed};
ghost use Rattle.life_seen.specs.Seen.{seen};
ghost use Rattle.life_values.specs.Consumed.{stored, CanConsume};
ghost use Rattle.life_values.specs.Layouts.{leaves_at, AreLaid};

use crate::growing::hand_over;
use crate::layout::{Layout, leaves_of, owners_of, width_of};
use crate::sizes::is_width;
use life_store::{ObjRef, Store};
use life_types::TypeTable;

/// A temporary of one slot gives its value over to a slot of another object, and is no more.
pub fn consume<S: Store>(
    types: &TypeTable,
    layouts: &[Layout],
    store: &mut S,
    temporary: ObjRef,
    to: ObjRef,
    slot: u32,
)
    requires layouts { AreLaid types.now layouts.now }
    requires can { CanConsume types.now temporary to slot (S.content store.old) (S.rows store.old) }
    requires births { (o : Object) → at (seen (kinds_of types.now) (S.content store.old) (S.rows store.old)).objects temporary.birth ≡ Some o
        → (S.content store.old).births + length (leaves_at layouts.now o.ty) < 2 ^ 63 }
    requires clock { (S.content store.old).clock < 2 ^ 63 }
    ensures consumed { (o : Object) → at (seen (kinds_of types.now) (S.content store.old) (S.rows store.old)).objects temporary.birth ≡ Some o
        → Shows (kinds_of types.now) (S.content store.new) (S.rows store.new)
        (stored to.birth slot (consumed (parts_at types.now o.ty) temporary.birth (seen (kinds_of types.now) (S.content store.old) (S.rows store.old)))) }
    ensures later { Later (S.content store.old) (S.content store.new) (S.rows store.old) (S.rows store.new) }
    ensures rowed { AreRowed (kinds_of types.now) (S.content store.old) (S.rows store.old) → AreRowed (kinds_of types.now) (S.content store.new) (S.rows store.new) }
    ensures limit { S.limit store.new ≡ S.limit store.old }
{
    let shape = match store.shape(temporary) {
        Ok(shape) => shape,
        Err(_) => unreachable!(),
    };
    let width = width_of(layouts, shape.ty);
    is_width(width);
    let leaves = leaves_of(layouts, shape.ty);
    let owners = owners_of(layouts, shape.ty);
    hand_over(types, store, temporary, to, slot, 1, width, leaves, owners);
}
