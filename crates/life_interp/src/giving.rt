// Locals that are given a value, a pointer or an object.
ghost use Rattle.std.specs.Prelude.{◌≡◌, ◌<◌, option_map, slice_get, OnOk, Some};
ghost use Rattle.life_types.specs.declared.ty.TyId.{TyId as Id};
ghost use Rattle.life_core.specs.Function.{function_of};
ghost use Rattle.life_core.specs.Holdings.{Holding};
ghost use Rattle.life_core.specs.declared.program.Local.{Local as AnyLocal};
ghost use Rattle.life_cells.specs.Cells.{cell_seen, cells_seen};
ghost use Rattle.life_cells.specs.Fits.{meant, CellFits, CellsFit, IsFit};
ghost use Rattle.life_cells.specs.declared.cell.Cell.TheVariants as held;
ghost use Rattle.life_interp.specs.CallOperands.{born_owning, RowsStay, SuitsSlot, SuitSlots};
ghost use Rattle.life_interp.specs.Fits.{most_births, CanBear, CanStep, Gives, Grows, IsNumber};
ghost use Rattle.life_interp.specs.Steps.{LeavesBoth};
ghost use Rattle.life_seen.specs.Housed.{IsRef, Later};
ghost use Rattle.life_slots.specs.Slots.{slot_type, IsUnique};
ghost use Rattle.life_store.specs.Calls.{born_with, given, given_to, parameters_given};
ghost use Rattle.life_store.specs.Doing.{Setting};
ghost use Rattle.life_store.specs.State.{Empty, Named};
ghost use Rattle.life_words.specs.Owning.{number_of, CanOwn};

use crate::births::unborn;
use crate::ending::Ending;
use crate::frame::{is_vacant, number_of};
use crate::locals::new_object;
use crate::sort::{Sort, sort_of};
use life_cells::{Cell, put_at};
use life_core::CoreFn;
use life_slots::{object_of, slot_object, slot_type};
use life_store::{ObjRef, Store};
use life_types::{TyId, TypeTable};
use life_words::put_number;

/// Gives the first locals of a function these values, from left to right.
pub(crate) fn give_all<S: Store>(
    types: &TypeTable,
    f: &CoreFn,
    store: &mut S,
    cells: &mut Vec<Cell>,
    values: &[Cell],
) -> Result<(), Ending>
    requires fits { IsFit types.now (S.content store.old) (S.rows store.old) cells.old.items }
    requires slots { SuitSlots types.now (S.rows store.old) (function_of f.now) 0 values.now }
    requires values { CellsFit (S.content store.old) (S.rows store.old) values.now }
    requires countable { CanStep (S.content store.old) }
    requires room { S.limit store.old < most_births }
    ensures step { (s : Setting) → s.given.cells ≡ S.limit store.old → LeavesBoth (parameters_given s types.now (function_of f.now) 0 (cells_seen values.now))
        (meant types.now (S.content store.old) (S.rows store.old)) cells.old.items (meant types.now (S.content store.new) (S.rows store.new)) cells.new.items result }
    ensures fits { OnOk result (IsFit types.now (S.content store.new) (S.rows store.new) cells.new.items) }
    ensures later { OnOk result (Later (S.content store.old) (S.content store.new) (S.rows store.old) (S.rows store.new)) }
    ensures grows { OnOk result (Grows most_births (S.content store.old) (S.content store.new)) }
    ensures limit { S.limit store.new ≡ S.limit store.old }
{
    for (local, value) in values.iter().enumerate() {
        match give(types, f, store, cells, *value, local) {
            Err(ending) => return Err(ending),
            Ok(()) => {}
        }
    }
    Ok(())
}

/// Gives a local a value, with which an object may come to life, or what is given as it is.
pub(crate) fn give<S: Store>(
    types: &TypeTable,
    f: &CoreFn,
    store: &mut S,
    cells: &mut Vec<Cell>,
    value: Cell,
    local: usize,
) -> Result<(), Ending>
    requires fits { IsFit types.now (S.content store.old) (S.rows store.old) cells.old.items }
    requires slot { (l : AnyLocal) → slice_get (function_of f.now).locals local ≡ Some l → SuitsSlot types.now (S.rows store.old) l.ty value }
    requires value { CellFits (S.content store.old) (S.rows store.old) value }
    requires countable { CanBear (S.content store.old) }
    ensures step { (s : Setting) → s.given.cells ≡ S.limit store.old → LeavesBoth (given s types.now (function_of f.now) (cell_seen value) local)
        (meant types.now (S.content store.old) (S.rows store.old)) cells.old.items (meant types.now (S.content store.new) (S.rows store.new)) cells.new.items result }
    ensures fits { OnOk result (IsFit types.now (S.content store.new) (S.rows store.new) cells.new.items) }
    ensures later { OnOk result (Later (S.content store.old) (S.content store.new) (S.rows store.old) (S.rows store.new)) }
    ensures gives { OnOk result (Gives (S.limit store.old) (S.content store.old) (S.content store.new)) }
    ensures stay { OnOk result (RowsStay (S.rows store.old) (S.rows store.new)) }
    ensures limit { S.limit store.new ≡ S.limit store.old }
{
    if local < f.locals.len() {
        let declared = f.locals[local];
        match number_of(value) {
            Some(number) => match sort_of(types, declared) {
                Sort::Object => born_with(types, store, cells, declared.ty, number, local),
                Sort::Number => {
                    put_at(cells, local, Cell::Number(number));
                    Ok(())
                }
                Sort::Blank => Err(Ending::Stray),
                Sort::Pointer => Err(Ending::Stray),
                Sort::View => Err(Ending::Stray),
            },
            None => match object_of(value) {
                Some(object) => give_object(types, store, cells, declared.ty, object, local),
                None => {
                    if is_vacant(value) {
                        return give_nothing(types, store, cells, declared.ty, local);
                    }
                    put_at(cells, local, value);
                    Ok(())
                }
            },
        }
    } else {
        Err(Ending::Stray)
    }
}

// Gives a local an object: as it is, or as what the slot of a unique_ptr owns.
fn give_object<S: Store>(
    types: &TypeTable,
    store: &mut S,
    cells: &mut Vec<Cell>,
    ty: TyId,
    object: ObjRef,
    local: usize,
) -> Result<(), Ending>
    requires fits { IsFit types.now (S.content store.old) (S.rows store.old) cells.old.items }
    requires slot { SuitsSlot types.now (S.rows store.old) ty (held.Object object) }
    requires object { IsRef (S.content store.old) (S.rows store.old) object }
    requires countable { CanBear (S.content store.old) }
    ensures step { (s : Setting) (sort : Holding) → s.given.cells ≡ S.limit store.old → LeavesBoth (given_to s types.now sort ty (Named object.birth) local)
        (meant types.now (S.content store.old) (S.rows store.old)) cells.old.items (meant types.now (S.content store.new) (S.rows store.new)) cells.new.items result }
    ensures fits { OnOk result (IsFit types.now (S.content store.new) (S.rows store.new) cells.new.items) }
    ensures later { OnOk result (Later (S.content store.old) (S.content store.new) (S.rows store.old) (S.rows store.new)) }
    ensures gives { OnOk result (Gives (S.limit store.old) (S.content store.old) (S.content store.new)) }
    ensures stay { OnOk result (RowsStay (S.rows store.old) (S.rows store.new)) }
    ensures limit { S.limit store.new ≡ S.limit store.old }
{
    match slot_type(types, ty) {
        Some(target) => slot_born(types, store, cells, target, Some(object), local),
        None => {
            put_at(cells, local, Cell::Object(object));
            Ok(())
        }
    }
}

// Gives a local nothing, which the slot of a unique_ptr takes alone.
fn give_nothing<S: Store>(
    types: &TypeTable,
    store: &mut S,
    cells: &mut Vec<Cell>,
    ty: TyId,
    local: usize,
) -> Result<(), Ending>
    requires fits { IsFit types.now (S.content store.old) (S.rows store.old) cells.old.items }
    requires slot { (target : Id) → slot_type types.now ty ≡ Some target → IsUnique types.now target }
    requires countable { CanBear (S.content store.old) }
    ensures step { (s : Setting) (sort : Holding) → s.given.cells ≡ S.limit store.old → LeavesBoth (given_to s types.now sort ty Empty local)
        (meant types.now (S.content store.old) (S.rows store.old)) cells.old.items (meant types.now (S.content store.new) (S.rows store.new)) cells.new.items result }
    ensures fits { OnOk result (IsFit types.now (S.content store.new) (S.rows store.new) cells.new.items) }
    ensures later { OnOk result (Later (S.content store.old) (S.content store.new) (S.rows store.old) (S.rows store.new)) }
    ensures gives { OnOk result (Gives (S.limit store.old) (S.content store.old) (S.content store.new)) }
    ensures stay { OnOk result (RowsStay (S.rows store.old) (S.rows store.new)) }
    ensures limit { S.limit store.new ≡ S.limit store.old }
{
    match slot_type(types, ty) {
        Some(target) => slot_born(types, store, cells, target, None, local),
        None => Err(Ending::Stray),
    }
}

// The object of the slot of a unique_ptr for the local.
fn slot_born<S: Store>(
    types: &TypeTable,
    store: &mut S,
    cells: &mut Vec<Cell>,
    target: TyId,
    owned: Option<ObjRef>,
    local: usize,
) -> Result<(), Ending>
    requires fits { IsFit types.now (S.content store.old) (S.rows store.old) cells.old.items }
    requires unique { IsUnique types.now target }
    requires lives { CanOwn (S.rows store.old) owned }
    requires countable { CanBear (S.content store.old) }
    ensures step { (s : Setting) → s.given.cells ≡ S.limit store.old → LeavesBoth (born_owning s target (option_map number_of owned) local)
        (meant types.now (S.content store.old) (S.rows store.old)) cells.old.items (meant types.now (S.content store.new) (S.rows store.new)) cells.new.items result }
    ensures fits { OnOk result (IsFit types.now (S.content store.new) (S.rows store.new) cells.new.items) }
    ensures later { OnOk result (Later (S.content store.old) (S.content store.new) (S.rows store.old) (S.rows store.new)) }
    ensures gives { OnOk result (Gives (S.limit store.old) (S.content store.old) (S.content store.new)) }
    ensures stay { OnOk result (RowsStay (S.rows store.old) (S.rows store.new)) }
    ensures limit { S.limit store.new ≡ S.limit store.old }
{
    match slot_object(types, store, target, owned) {
        Err(fault) => Err(unborn(fault)),
        Ok(object) => {
            put_at(cells, local, Cell::Object(object));
            Ok(())
        }
    }
}

// A new object with a value for the local.
fn born_with<S: Store>(
    types: &TypeTable,
    store: &mut S,
    cells: &mut Vec<Cell>,
    ty: TyId,
    number: i64,
    local: usize,
) -> Result<(), Ending>
    requires fits { IsFit types.now (S.content store.old) (S.rows store.old) cells.old.items }
    requires value { IsNumber types.now ty }
    requires countable { CanBear (S.content store.old) }
    ensures step { (s : Setting) → s.given.cells ≡ S.limit store.old → LeavesBoth (born_with s ty number local)
        (meant types.now (S.content store.old) (S.rows store.old)) cells.old.items (meant types.now (S.content store.new) (S.rows store.new)) cells.new.items result }
    ensures fits { OnOk result (IsFit types.now (S.content store.new) (S.rows store.new) cells.new.items) }
    ensures later { OnOk result (Later (S.content store.old) (S.content store.new) (S.rows store.old) (S.rows store.new)) }
    ensures gives { OnOk result (Gives (S.limit store.old) (S.content store.old) (S.content store.new)) }
    ensures stay { OnOk result (RowsStay (S.rows store.old) (S.rows store.new)) }
    ensures limit { S.limit store.new ≡ S.limit store.old }
{
    match new_object(store, ty) {
        Err(ending) => Err(ending),
        Ok(object) => {
            put_number(store, object, 0, 0, number.cast_unsigned());
            put_at(cells, local, Cell::Object(object));
            Ok(())
        }
    }
}
