// How owners, structs and spans come to life.
ghost use Rattle.std.specs.Prelude.{◌≡◌, ◌<◌, length, slice_get, OnOk};
ghost use Rattle.life_interp.specs.Births.{birth_of, unborn, BearsObject};
ghost use Rattle.life_cells.specs.Fits.{meant, IsFit};
ghost use Rattle.life_interp.specs.Fits.{most_births, CanStep, Grows};
ghost use Rattle.life_interp.specs.Layouts.{AreReady};
ghost use Rattle.life_interp.specs.Steps.{LeavesBoth};
ghost use Rattle.life_seen.specs.Housed.{IsHoused, Later};
ghost use Rattle.life_seen.specs.Kinds.{kinds_of};
ghost use Rattle.life_seen.specs.Rowed.{AreRowed};
ghost use Rattle.life_store.specs.Births.{live_of};
ghost use Rattle.life_store.specs.Effects.{Setting};
ghost use Rattle.life_store.specs.Owners.{fresh, object_with};
ghost use Rattle.life_store.specs.Parts.{parts_at};
ghost use Rattle.life_types.specs.Trees.{IsOrdered};
ghost use Rattle.life_values.specs.Fresh.{AreWide};

use crate::ending::Ending;
use crate::layouts::Layouts;
use life_cells::{Cell, holding, put_cell};
use life_core::Form;
use life_pointers::empty_view;
use life_store::{BirthFault, ObjRef, Store, TrapKind};
use life_types::{Ty, TyId, TypeTable};
use life_values::{Spot, fresh};
use life_words::born_sized;

/// What comes to life for a local that is no value and no raw pointer.
#[derive(Clone, Copy, Debug)]
pub(crate) enum Birth {
    Nothing,
    /// An iterator that never pointed to anything.
    Wild,
    /// A view of no characters, or a span of no elements.
    View,
    /// The object of an owner or a struct.
    Object,
}

// By the type.
fn birth_of(ty: Option<Ty>) -> Birth
    ensures { result ≡ birth_of ty }
{
    match ty {
        Some(Ty::Text) => Birth::Object,
        Some(Ty::Vector(_)) => Birth::Object,
        Some(Ty::Unique(_)) => Birth::Object,
        Some(Ty::Struct(_)) => Birth::Object,
        Some(Ty::Iterator { .. }) => Birth::Wild,
        Some(Ty::View) => Birth::View,
        Some(Ty::Span { .. }) => Birth::View,
        _ => Birth::Nothing,
    }
}

/// Brings a local of such a type to life.
pub(crate) fn live_of<S: Store>(
    types: &TypeTable,
    layouts: &Layouts,
    store: &mut S,
    cells: &mut Vec<Cell>,
    ty: TyId,
    form: Form,
    local: u32,
) -> Result<(), Ending>
    requires layouts { AreReady types.now layouts.now }
    requires ordered { IsOrdered types.now }
    requires wide { AreWide types.now }
    requires fits { IsFit types.now (S.content store.old) (S.rows store.old) cells.old.items }
    requires countable { CanStep (S.content store.old) }
    requires room { S.limit store.old < most_births }
    ensures step { (s : Setting) → s.given.cells ≡ S.limit store.old
        → LeavesBoth (live_of s ty (parts_at types.now ty) form local) (meant types.now (S.content store.old) (S.rows store.old)) cells.old.items (meant types.now (S.content store.new) (S.rows store.new)) cells.new.items result }
    ensures fits { OnOk result (IsFit types.now (S.content store.new) (S.rows store.new) cells.new.items) }
    ensures later { OnOk result (Later (S.content store.old) (S.content store.new) (S.rows store.old) (S.rows store.new)) }
    ensures grows { OnOk result (Grows most_births (S.content store.old) (S.content store.new)) }
    ensures limit { S.limit store.new ≡ S.limit store.old }
{
    match birth_of(types.get(ty)) {
        Birth::Nothing => Err(Ending::Stray),
        Birth::Wild => {
            put_cell(cells, local, Cell::Wild);
            Ok(())
        }
        Birth::View => {
            put_cell(cells, local, holding(empty_view()));
            Ok(())
        }
        Birth::Object => match fresh_object(types, layouts, store, ty, form) {
            Err(ending) => Err(ending),
            Ok(object) => {
                put_cell(cells, local, Cell::Object(object));
                Ok(())
            }
        },
    }
}

// A new object of the type with a fresh value: it comes to life before the buffers of its parts.
fn fresh_object<S: Store>(
    types: &TypeTable,
    layouts: &Layouts,
    store: &mut S,
    ty: TyId,
    form: Form,
) -> Result<ObjRef, Ending>
    requires known { ty.0 < length types.now.types }
    requires layouts { AreReady types.now layouts.now }
    requires ordered { IsOrdered types.now }
    requires wide { AreWide types.now }
    requires housed { IsHoused (kinds_of types.now) (S.content store.old) (S.rows store.old) }
    requires countable { CanStep (S.content store.old) }
    requires room { S.limit store.old < most_births }
    ensures bears { (s : Setting) → s.given.cells ≡ S.limit store.old
        → BearsObject (kinds_of types.now) (object_with s ty (parts_at types.now ty) (fresh s form (parts_at types.now ty)) (meant types.now (S.content store.old) (S.rows store.old))) (S.content store.new) (S.rows store.new) result }
    ensures rowed { AreRowed (kinds_of types.now) (S.content store.old) (S.rows store.old) → OnOk result (AreRowed (kinds_of types.now) (S.content store.new) (S.rows store.new)) }
    ensures later { OnOk result (Later (S.content store.old) (S.content store.new) (S.rows store.old) (S.rows store.new)) }
    ensures grows { OnOk result (Grows most_births (S.content store.old) (S.content store.new)) }
    ensures limit { S.limit store.new ≡ S.limit store.old }
{
    let layout = &layouts.all[ty.0 as usize];
    match born_sized(store, ty, layout.width, 1) {
        Err(fault) => Err(unborn(fault)),
        Ok(object) => {
            let spot = Spot {
                object,
                slot: 0,
                word: 0,
            };
            match fresh(types, &layouts.all, store, spot, &layout.leaves, form) {
                Err(fault) => Err(unborn(fault)),
                Ok(()) => Ok(object),
            }
        }
    }
}

/// Why nothing came to life.
pub(crate) fn unborn(fault: BirthFault) -> Ending
    ensures { result ≡ unborn fault }
{
    match fault {
        BirthFault::Cells => Ending::Trap(TrapKind::Cells),
        BirthFault::NoMemory => Ending::NoMemory,
    }
}
