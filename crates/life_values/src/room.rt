// How a buffer gets room.
ghost use Rattle.std.specs.Prelude.{◌≡◌, ◌<◌, ◌+◌, ◌*◌, ◌^◌, false, length, OnOk, Some};
ghost use Rattle.life_store.specs.Cells.{at};
ghost use Rattle.life_store.specs.Content.{CanCount, Object};
ghost use Rattle.life_store.specs.Edits.{reserved, with_room};
ghost use Rattle.life_store.specs.Effects.{Setting};
ghost use Rattle.life_store.specs.Parts.{parts_at};
ghost use Rattle.life_seen.specs.Housed.{Later};
ghost use Rattle.life_seen.specs.Kinds.{kinds_of};
ghost use Rattle.life_seen.specs.Rowed.{AreRowed};
ghost use Rattle.life_seen.specs.Seen.{seen};
ghost use Rattle.life_values.specs.Fresh.{AreWide, Comes};
ghost use Rattle.life_values.specs.Layouts.{leaves_at, AreLaid};
ghost use Rattle.life_values.specs.Moved.{place};
ghost use Rattle.life_values.specs.Regrown.{then_owned, CanGrow, IsGrown};
ghost use Rattle.life_values.specs.Texts.{IsBuffer};
ghost use Rattle.life_values.specs.Widened.{IsAt, Widens};

use crate::growing::regrow;
use crate::layout::Layout;
use crate::sizes::as_count;
use crate::spot::Spot;
use life_store::{BirthFault, Growth, ObjRef, Store};
use life_types::TypeTable;

/// Gives a buffer one more slot, whose words are 0, where it has room for one. False comes exactly
/// where it is full, and nothing has changed then.
pub fn widen<S: Store>(types: &TypeTable, store: &mut S, buffer: ObjRef) -> bool
    requires at { IsAt (kinds_of types.now) buffer (S.content store.old) (S.rows store.old) }
    requires countable { CanCount (S.content store.old) }
    ensures widened { (o : Object) → at (seen (kinds_of types.now) (S.content store.old) (S.rows store.old)).objects buffer.birth ≡ Some o
        → Widens (kinds_of types.now) buffer.birth o (seen (kinds_of types.now) (S.content store.old) (S.rows store.old)) result (S.content store.new) (S.rows store.new) }
    ensures content_stays { result ≡ false → S.content store.new ≡ S.content store.old }
    ensures rows_stay { result ≡ false → S.rows store.new ≡ S.rows store.old }
    ensures later { Later (S.content store.old) (S.content store.new) (S.rows store.old) (S.rows store.new) }
    ensures rowed { AreRowed (kinds_of types.now) (S.content store.old) (S.rows store.old) → AreRowed (kinds_of types.now) (S.content store.new) (S.rows store.new) }
    ensures limit { S.limit store.new ≡ S.limit store.old }
{
    let shape = match store.shape(buffer) {
        Ok(shape) => shape,
        Err(_) => unreachable!(),
    };
    if shape.length >= shape.capacity {
        return false;
    }
    match store.resize(buffer, shape.length + 1, shape.length) {
        Ok(()) => true,
        Err(_) => unreachable!(),
    }
}

/// Gives the buffer of an owner one more slot, whose words are 0: where it is full, its elements go over
/// to a fresh one, which is owned in its place. The answer is the buffer that is owned then. `Cells` comes
/// where the live words would pass the limit.
pub fn make_room<S: Store>(
    types: &TypeTable,
    layouts: &[Layout],
    store: &mut S,
    spot: Spot,
    buffer: ObjRef,
    growth: Growth,
) -> Result<ObjRef, BirthFault>
    requires layouts { AreLaid types.now layouts.now }
    requires wide { AreWide types.now }
    requires can { CanGrow types.now spot buffer (S.content store.old) (S.rows store.old) }
    requires few { S.limit store.old < 2 ^ 32 }
    requires births { (o : Object) → at (seen (kinds_of types.now) (S.content store.old) (S.rows store.old)).objects buffer.birth ≡ Some o
        → (S.content store.old).births + 1 + length o.slots * length (leaves_at layouts.now o.ty) < 2 ^ 63 }
    requires clock { (S.content store.old).clock + 1 < 2 ^ 63 }
    ensures room { (s : Setting) (o : Object) → s.given.cells ≡ S.limit store.old → s.given.growth ≡ growth → at (seen (kinds_of types.now) (S.content store.old) (S.rows store.old)).objects buffer.birth ≡ Some o
        → IsBuffer (kinds_of types.now) (then_owned (place spot) (with_room s o.ty (parts_at types.now o.ty) buffer.birth (seen (kinds_of types.now) (S.content store.old) (S.rows store.old)))) result (S.content store.new) (S.rows store.new) }
    ensures later { OnOk result (Later (S.content store.old) (S.content store.new) (S.rows store.old) (S.rows store.new)) }
    ensures rowed { AreRowed (kinds_of types.now) (S.content store.old) (S.rows store.old) → OnOk result (AreRowed (kinds_of types.now) (S.content store.new) (S.rows store.new)) }
    ensures limit { S.limit store.new ≡ S.limit store.old }
{
    if widen(types, store, buffer) {
        return Ok(buffer);
    }
    let shape = match store.shape(buffer) {
        Ok(shape) => shape,
        Err(_) => unreachable!(),
    };
    match grown(growth, shape.length, shape.capacity) {
        None => Err(BirthFault::Cells),
        Some(capacity) => {
            let size = shape.length + 1;
            regrow(types, layouts, store, spot, buffer, capacity, size)
        }
    }
}

/// Gives the buffer of an owner room for so many elements: where it has less, they go over to a fresh one,
/// which is owned in its place. `Cells` comes where the live words would pass the limit.
pub fn reserve<S: Store>(
    types: &TypeTable,
    layouts: &[Layout],
    store: &mut S,
    spot: Spot,
    buffer: ObjRef,
    wanted: u64,
) -> Result<(), BirthFault>
    requires layouts { AreLaid types.now layouts.now }
    requires wide { AreWide types.now }
    requires can { CanGrow types.now spot buffer (S.content store.old) (S.rows store.old) }
    requires few { S.limit store.old < 2 ^ 32 }
    requires births { (o : Object) → at (seen (kinds_of types.now) (S.content store.old) (S.rows store.old)).objects buffer.birth ≡ Some o
        → (S.content store.old).births + 1 + length o.slots * length (leaves_at layouts.now o.ty) < 2 ^ 63 }
    requires clock { (S.content store.old).clock + 1 < 2 ^ 63 }
    ensures reserved { (s : Setting) (o : Object) → s.given.cells ≡ S.limit store.old → at (seen (kinds_of types.now) (S.content store.old) (S.rows store.old)).objects buffer.birth ≡ Some o
        → Comes (kinds_of types.now) (reserved s o.ty (parts_at types.now o.ty) (place spot) buffer.birth wanted (seen (kinds_of types.now) (S.content store.old) (S.rows store.old))) result (S.content store.new) (S.rows store.new) }
    ensures later { OnOk result (Later (S.content store.old) (S.content store.new) (S.rows store.old) (S.rows store.new)) }
    ensures rowed { AreRowed (kinds_of types.now) (S.content store.old) (S.rows store.old) → OnOk result (AreRowed (kinds_of types.now) (S.content store.new) (S.rows store.new)) }
    ensures limit { S.limit store.new ≡ S.limit store.old }
{
    let shape = match store.shape(buffer) {
        Ok(shape) => shape,
        Err(_) => unreachable!(),
    };
    if wanted <= shape.capacity as u64 {
        return Ok(());
    }
    match as_count(wanted) {
        None => Err(BirthFault::Cells),
        Some(capacity) => {
            match regrow(types, layouts, store, spot, buffer, capacity, shape.length) {
                Err(fault) => Err(fault),
                Ok(_) => Ok(()),
            }
        }
    }
}

// The capacity of a buffer that was full, by the policy. None comes where it has more than 32 bits.
fn grown(growth: Growth, size: u32, capacity: u32) -> Option<u32>
    ensures { IsGrown growth size capacity result }
{
    match growth {
        Growth::Always => size.checked_add(1),
        Growth::Double => {
            if capacity == 0 {
                Some(1)
            } else {
                capacity.checked_mul(2)
            }
        }
    }
}
