// How a vector gets one more element.
ghost use Rattle.std.specs.Prelude.{◌≡◌, ◌∷◌, ◌<◌, ◌+◌, ◌*◌, ◌^◌, [], length, OnOk, Some};
ghost use Rattle.life_store.specs.Cells.{at};
ghost use Rattle.life_store.specs.Content.{Object};
ghost use Rattle.life_store.specs.Edits.{pushed};
ghost use Rattle.life_store.specs.Effects.{Setting};
ghost use Rattle.life_store.specs.Owners.{consumed};
ghost use Rattle.life_store.specs.Parts.{parts_at};
ghost use Rattle.life_seen.specs.Housed.{Later};
ghost use Rattle.life_seen.specs.Kinds.{kinds_of};
ghost use Rattle.life_seen.specs.Rowed.{AreRowed};
ghost use Rattle.life_seen.specs.Seen.{seen};
ghost use Rattle.life_values.specs.Fresh.{AreWide, Comes};
ghost use Rattle.life_values.specs.Layouts.{leaves_at, AreLaid};
ghost use Rattle.life_values.specs.Moved.{place};
ghost use Rattle.life_values.specs.Pushed.{CanPushNumber, CanPushTaken};

use crate::consuming::consume;
use crate::layout::Layout;
use crate::room::make_room;
use crate::spot::Spot;
use life_store::{BirthFault, Growth, ObjRef, Store};
use life_types::TypeTable;
use life_words::put_number;

/// Adds a number behind the last element of a buffer, or of a fresh one where it is full. `Cells` comes
/// where the live words would pass the limit.
pub fn push_number<S: Store>(
    types: &TypeTable,
    layouts: &[Layout],
    store: &mut S,
    spot: Spot,
    buffer: ObjRef,
    number: u64,
    growth: Growth,
) -> Result<(), BirthFault>
    requires layouts { AreLaid types.now layouts.now }
    requires wide { AreWide types.now }
    requires can { CanPushNumber types.now spot buffer (S.content store.old) (S.rows store.old) }
    requires few { S.limit store.old < 2 ^ 32 }
    requires births { (o : Object) → at (seen (kinds_of types.now) (S.content store.old) (S.rows store.old)).objects buffer.birth ≡ Some o
        → (S.content store.old).births + 1 + length o.slots * length (leaves_at layouts.now o.ty) < 2 ^ 63 }
    requires clock { (S.content store.old).clock + 1 < 2 ^ 63 }
    ensures pushed { (s : Setting) (o : Object) → s.given.cells ≡ S.limit store.old → s.given.growth ≡ growth → at (seen (kinds_of types.now) (S.content store.old) (S.rows store.old)).objects buffer.birth ≡ Some o
        → Comes (kinds_of types.now) (pushed s o.ty (parts_at types.now o.ty) (place spot) buffer.birth (λ c. (number ∷ [], c)) (seen (kinds_of types.now) (S.content store.old) (S.rows store.old))) result (S.content store.new) (S.rows store.new) }
    ensures later { OnOk result (Later (S.content store.old) (S.content store.new) (S.rows store.old) (S.rows store.new)) }
    ensures rowed { AreRowed (kinds_of types.now) (S.content store.old) (S.rows store.old) → OnOk result (AreRowed (kinds_of types.now) (S.content store.new) (S.rows store.new)) }
    ensures limit { S.limit store.new ≡ S.limit store.old }
{
    let shape = match store.shape(buffer) {
        Ok(shape) => shape,
        Err(_) => unreachable!(),
    };
    match make_room(types, layouts, store, spot, buffer, growth) {
        Err(fault) => Err(fault),
        Ok(room) => {
            put_number(store, room, shape.length, 0, number);
            Ok(())
        }
    }
}

/// Adds the value of a temporary, which is no more then, behind the last element of a buffer, or of a
/// fresh one where it is full. `Cells` comes where the live words would pass the limit.
pub fn push_taken<S: Store>(
    types: &TypeTable,
    layouts: &[Layout],
    store: &mut S,
    spot: Spot,
    buffer: ObjRef,
    temporary: ObjRef,
    growth: Growth,
) -> Result<(), BirthFault>
    requires layouts { AreLaid types.now layouts.now }
    requires wide { AreWide types.now }
    requires can { CanPushTaken types.now spot buffer temporary (S.content store.old) (S.rows store.old) }
    requires few { S.limit store.old < 2 ^ 32 }
    requires births { (o : Object) → at (seen (kinds_of types.now) (S.content store.old) (S.rows store.old)).objects buffer.birth ≡ Some o
        → (S.content store.old).births + 1 + length o.slots * length (leaves_at layouts.now o.ty) + length (leaves_at layouts.now o.ty) < 2 ^ 63 }
    requires clock { (S.content store.old).clock + 1 < 2 ^ 63 }
    ensures pushed { (s : Setting) (o : Object) → s.given.cells ≡ S.limit store.old → s.given.growth ≡ growth → at (seen (kinds_of types.now) (S.content store.old) (S.rows store.old)).objects buffer.birth ≡ Some o
        → Comes (kinds_of types.now) (pushed s o.ty (parts_at types.now o.ty) (place spot) buffer.birth (consumed (parts_at types.now o.ty) temporary.birth) (seen (kinds_of types.now) (S.content store.old) (S.rows store.old))) result (S.content store.new) (S.rows store.new) }
    ensures later { OnOk result (Later (S.content store.old) (S.content store.new) (S.rows store.old) (S.rows store.new)) }
    ensures rowed { AreRowed (kinds_of types.now) (S.content store.old) (S.rows store.old) → OnOk result (AreRowed (kinds_of types.now) (S.content store.new) (S.rows store.new)) }
    ensures limit { S.limit store.new ≡ S.limit store.old }
{
    let shape = match store.shape(buffer) {
        Ok(shape) => shape,
        Err(_) => unreachable!(),
    };
    match make_room(types, layouts, store, spot, buffer, growth) {
        Err(fault) => Err(fault),
        Ok(room) => {
            consume(types, layouts, store, temporary, room, shape.length);
            Ok(())
        }
    }
}
