// How a buffer goes over to a fresh one.
ghost use Rattle.std.specs.Prelude.{◌≡◌, ◌≤◌, ◌<◌, ◌+◌, ◌*◌, ◌^◌, length, OnOk, Some};
ghost use Rattle.life_store.specs.Cells.{at};
ghost use Rattle.life_store.specs.Content.{Object};
ghost use Rattle.life_store.specs.Edits.{regrown};
ghost use Rattle.life_store.specs.Effects.{Setting};
ghost use Rattle.life_store.specs.Parts.{parts_at, Parts};
ghost use Rattle.life_forest.specs.Kinds.{kinds_of as forest_kinds};
ghost use Rattle.life_seen.specs.Housed.{Later, Shows};
ghost use Rattle.life_seen.specs.Kinds.{kinds_of};
ghost use Rattle.life_seen.specs.Rowed.{AreRowed};
ghost use Rattle.life_seen.specs.Seen.{seen};
ghost use Rattle.life_values.specs.Fresh.{AreWide};
ghost use Rattle.life_values.specs.Layouts.{leaves_at, AreLaid};
ghost use Rattle.life_values.specs.Moved.{place, AreUncut};
ghost use Rattle.life_values.specs.Regrown.{handed_over, then_owned, CanHandOver, CanRegrow};
ghost use Rattle.life_values.specs.Texts.{IsBuffer};

use crate::layout::{Layout, Leaf, leaves_of, owners_of, width_of};
use crate::moving::move_slots;
use crate::sizes::{is_count, is_width};
use crate::spot::Spot;
use crate::taking::take_slots;
use life_store::{BirthFault, ObjRef, Store};
use life_types::TypeTable;
use life_words::{born_roomy, own};

/// A fresh buffer of a capacity, with so many slots, takes the elements of another one, which ends. What
/// owned that one owns the fresh one from then on. `Cells` comes where the live words would pass the limit.
pub fn regrow<S: Store>(
    types: &TypeTable,
    layouts: &[Layout],
    store: &mut S,
    spot: Spot,
    buffer: ObjRef,
    capacity: u32,
    size: u32,
) -> Result<ObjRef, BirthFault>
    requires layouts { AreLaid types.now layouts.now }
    requires wide { AreWide types.now }
    requires can { CanRegrow types.now spot buffer capacity size (S.content store.old) (S.rows store.old) }
    requires births { (o : Object) → at (seen (kinds_of types.now) (S.content store.old) (S.rows store.old)).objects buffer.birth ≡ Some o
        → (S.content store.old).births + 1 + length o.slots * length (leaves_at layouts.now o.ty) < 2 ^ 63 }
    requires clock { (S.content store.old).clock + 1 < 2 ^ 63 }
    ensures regrown { (s : Setting) (o : Object) → s.given.cells ≡ S.limit store.old → at (seen (kinds_of types.now) (S.content store.old) (S.rows store.old)).objects buffer.birth ≡ Some o
        → IsBuffer (kinds_of types.now) (then_owned (place spot) (regrown s o.ty (parts_at types.now o.ty) buffer.birth capacity size (seen (kinds_of types.now) (S.content store.old) (S.rows store.old)))) result (S.content store.new) (S.rows store.new) }
    ensures later { OnOk result (Later (S.content store.old) (S.content store.new) (S.rows store.old) (S.rows store.new)) }
    ensures rowed { AreRowed (kinds_of types.now) (S.content store.old) (S.rows store.old) → OnOk result (AreRowed (kinds_of types.now) (S.content store.new) (S.rows store.new)) }
    ensures limit { S.limit store.new ≡ S.limit store.old }
{
    let shape = match store.shape(buffer) {
        Ok(shape) => shape,
        Err(_) => unreachable!(),
    };
    let width = width_of(layouts, shape.ty);
    is_width(width);
    is_count(shape.length);
    match born_roomy(store, shape.ty, width, capacity, size) {
        Err(fault) => Err(fault),
        Ok(fresh) => {
            own(store, spot.object, spot.slot, spot.word, Some(fresh));
            let leaves = leaves_of(layouts, shape.ty);
            let owners = owners_of(layouts, shape.ty);
            hand_over(
                types,
                store,
                buffer,
                fresh,
                0,
                shape.length,
                width,
                leaves,
                owners,
            );
            Ok(fresh)
        }
    }
}

/// The elements of an object are taken, and go into another one, from a slot on. The first one ends.
pub(crate) fn hand_over<S: Store>(
    types: &TypeTable,
    store: &mut S,
    from: ObjRef,
    to: ObjRef,
    onto: u32,
    count: u32,
    width: u64,
    leaves: &[Leaf],
    owners: &[u64],
)
    requires can { (element : Parts) × CanHandOver (kinds_of types.now) (forest_kinds types.now) element from to width leaves.now owners.now onto count (S.content store.old) (S.rows store.old) }
    requires small { onto + count ≤ 2 ^ 32 }
    requires births { (S.content store.old).births + count * length leaves.now < 2 ^ 63 }
    requires clock { (S.content store.old).clock < 2 ^ 63 }
    ensures over { Shows (kinds_of types.now) (S.content store.new) (S.rows store.new)
        (handed_over leaves.now width owners.now from.birth to.birth onto count (seen (kinds_of types.now) (S.content store.old) (S.rows store.old))) }
    ensures later { Later (S.content store.old) (S.content store.new) (S.rows store.old) (S.rows store.new) }
    ensures rowed { (o : Object) → at (seen (kinds_of types.now) (S.content store.old) (S.rows store.old)).objects to.birth ≡ Some o → AreUncut (kinds_of types.now o.ty) 0 width
        → AreRowed (kinds_of types.now) (S.content store.old) (S.rows store.old) → AreRowed (kinds_of types.now) (S.content store.new) (S.rows store.new) }
    ensures limit { S.limit store.new ≡ S.limit store.old }
{
    take_slots(types, store, from, 0, count, leaves);
    let source = Spot {
        object: from,
        slot: 0,
        word: 0,
    };
    let target = Spot {
        object: to,
        slot: onto,
        word: 0,
    };
    move_slots(types, store, source, target, count, width, owners);
    match store.finish(from) {
        Ok(()) => {}
        Err(_) => unreachable!(),
    }
}
