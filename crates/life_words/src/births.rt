// How objects come to life, and get other numbers.
ghost use Rattle.std.specs.Prelude.{◌≡◌, ◌≤◌, ◌<◌, ◌+◌, ◌*◌, ◌^◌, ◌↔◌, Err, IfErr, IfOk, IsSome, OnErr, OnOk, Some};
ghost use Rattle.life_store.specs.Cells.{at};
ghost use Rattle.life_store.specs.Content.{live_words_of, with_birth, with_rename, CanCount, Object};
ghost use Rattle.life_store.specs.Held.{resized_at};
ghost use Rattle.life_store.specs.References.{object_of};
ghost use Rattle.life_store.specs.declared.object.BirthFault.TheVariants as birth_fault;
ghost use Rattle.life_seen.specs.Housed.{IsHoused, IsRef, Later, Shows};
ghost use Rattle.life_seen.specs.Kinds.{Kinds};
ghost use Rattle.life_seen.specs.Named.{names_of};
ghost use Rattle.life_seen.specs.Owned.{IsUnowned};
ghost use Rattle.life_seen.specs.Rowed.{AreRowed};
ghost use Rattle.life_seen.specs.Seen.{object_seen, seen};

use life_store::{BirthFault, ObjRef, Store};
use life_types::TyId;

/// A new object without slots. `Cells` comes exactly where the live words would pass the limit.
pub fn born<S: Store>(
    store: &mut S,
    ty: TyId,
    width: u64,
    capacity: u32,
) -> Result<ObjRef, BirthFault>
    requires wide { 1 ≤ width }
    requires countable { CanCount (S.content store.old) }
    ensures number { IfOk result (λ r. r.birth ≡ (S.content store.old).births) }
    ensures born { OnOk result (S.content store.new ≡ with_birth ty width capacity (S.content store.old)) }
    ensures shows { (kinds : Kinds) → IsHoused kinds (S.content store.old) (S.rows store.old)
        → OnOk result (Shows kinds (S.content store.new) (S.rows store.new) (with_birth ty width capacity (seen kinds (S.content store.old) (S.rows store.old)))) }
    ensures rowed { (kinds : Kinds) → AreRowed kinds (S.content store.old) (S.rows store.old) → OnOk result (AreRowed kinds (S.content store.new) (S.rows store.new)) }
    ensures referred { IfOk result (IsRef (S.content store.new) (S.rows store.new)) }
    ensures placed { IfOk result (λ r. at (S.rows store.new) r.birth ≡ Some r.row) }
    ensures later { OnOk result (Later (S.content store.old) (S.content store.new) (S.rows store.old) (S.rows store.new)) }
    ensures cells { (result ≡ Err birth_fault.Cells)
        ↔ (S.limit store.old < live_words_of (S.content store.old) + (2 + width * capacity)) }
    ensures content_stays { OnErr result (S.content store.new ≡ S.content store.old) }
    ensures rows_stay { OnErr result (S.rows store.new ≡ S.rows store.old) }
    ensures limit { S.limit store.new ≡ S.limit store.old }
{
    match store.birth(ty, width, capacity) {
        Err(fault) => Err(fault),
        Ok(object) => {
            is_row(object.row);
            Ok(object)
        }
    }
}

/// A new object with all its slots, whose words are 0.
pub fn born_sized<S: Store>(
    store: &mut S,
    ty: TyId,
    width: u64,
    size: u32,
) -> Result<ObjRef, BirthFault>
    requires wide { 1 ≤ width }
    requires births { (S.content store.old).births + 1 < 2 ^ 63 }
    requires clock { (S.content store.old).clock < 2 ^ 63 }
    ensures number { IfOk result (λ r. r.birth ≡ (S.content store.old).births) }
    ensures shows { (kinds : Kinds) → IsHoused kinds (S.content store.old) (S.rows store.old)
        → OnOk result (Shows kinds (S.content store.new) (S.rows store.new)
        (resized_at (S.content store.old).births size 0 (with_birth ty width size (seen kinds (S.content store.old) (S.rows store.old))))) }
    ensures rowed { (kinds : Kinds) → AreRowed kinds (S.content store.old) (S.rows store.old) → OnOk result (AreRowed kinds (S.content store.new) (S.rows store.new)) }
    ensures placed { IfOk result (λ r. at (S.rows store.new) r.birth ≡ Some r.row) }
    ensures later { OnOk result (Later (S.content store.old) (S.content store.new) (S.rows store.old) (S.rows store.new)) }
    ensures room { OnOk result (live_words_of (S.content store.old) + (2 + width * size) ≤ S.limit store.old) }
    ensures cells { IfErr result (λ fault. fault ≡ birth_fault.Cells → S.limit store.old < live_words_of (S.content store.old) + (2 + width * size)) }
    ensures limit { S.limit store.new ≡ S.limit store.old }
{
    born_roomy(store, ty, width, size, size)
}

/// A new object with so many slots, whose words are 0, and room for more.
pub fn born_roomy<S: Store>(
    store: &mut S,
    ty: TyId,
    width: u64,
    capacity: u32,
    size: u32,
) -> Result<ObjRef, BirthFault>
    requires wide { 1 ≤ width }
    requires fits { size ≤ capacity }
    requires births { (S.content store.old).births + 1 < 2 ^ 63 }
    requires clock { (S.content store.old).clock < 2 ^ 63 }
    ensures number { IfOk result (λ r. r.birth ≡ (S.content store.old).births) }
    ensures shows { (kinds : Kinds) → IsHoused kinds (S.content store.old) (S.rows store.old)
        → OnOk result (Shows kinds (S.content store.new) (S.rows store.new)
        (resized_at (S.content store.old).births size 0 (with_birth ty width capacity (seen kinds (S.content store.old) (S.rows store.old))))) }
    ensures rowed { (kinds : Kinds) → AreRowed kinds (S.content store.old) (S.rows store.old) → OnOk result (AreRowed kinds (S.content store.new) (S.rows store.new)) }
    ensures placed { IfOk result (λ r. at (S.rows store.new) r.birth ≡ Some r.row) }
    ensures later { OnOk result (Later (S.content store.old) (S.content store.new) (S.rows store.old) (S.rows store.new)) }
    ensures room { OnOk result (live_words_of (S.content store.old) + (2 + width * capacity) ≤ S.limit store.old) }
    ensures cells { IfErr result (λ fault. fault ≡ birth_fault.Cells → S.limit store.old < live_words_of (S.content store.old) + (2 + width * capacity)) }
    ensures limit { S.limit store.new ≡ S.limit store.old }
{
    match born(store, ty, width, capacity) {
        Err(fault) => Err(fault),
        Ok(object) => match store.resize(object, size, 0) {
            Err(_) => unreachable!(),
            Ok(()) => Ok(object),
        },
    }
}

/// Gives an object that nothing owns another number.
pub fn renumbered<S: Store>(store: &mut S, object: ObjRef) -> ObjRef
    requires lives { IsSome (object_of (S.content store.old) (S.rows store.old) object) }
    requires countable { CanCount (S.content store.old) }
    ensures number { result.birth ≡ (S.content store.old).births }
    ensures shows { (kinds : Kinds) (o : Object) → IsHoused kinds (S.content store.old) (S.rows store.old) → object_of (S.content store.old) (S.rows store.old) object ≡ Some o
        → IsUnowned kinds object.birth (seen kinds (S.content store.old) (S.rows store.old))
        → Shows kinds (S.content store.new) (S.rows store.new)
        (with_rename object.birth (object_seen kinds (names_of (S.content store.old) (S.rows store.old)) o) (seen kinds (S.content store.old) (S.rows store.old))) }
    ensures rowed { (kinds : Kinds) → AreRowed kinds (S.content store.old) (S.rows store.old) → AreRowed kinds (S.content store.new) (S.rows store.new) }
    ensures placed { at (S.rows store.new) result.birth ≡ Some result.row }
    ensures later { Later (S.content store.old) (S.content store.new) (S.rows store.old) (S.rows store.new) }
    ensures limit { S.limit store.new ≡ S.limit store.old }
{
    match store.rename(object) {
        Err(_) => unreachable!(),
        Ok(renamed) => {
            is_row(renamed.row);
            renamed
        }
    }
}

// A row is a number of 32 bits.
fn is_row(row: u32)
    ensures { row < 2 ^ 32 }
{}
