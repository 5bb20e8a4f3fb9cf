// Instructions that bring locals to life and end them.
ghost use Rattle.std.specs.Prelude.{◌≡◌, ◌≤◌, ◌<◌, ◌+◌, ◌∷◌, [], IfErr, IfOk, OnErr, OnOk, slice_get, Some, ℕ};
ghost use Rattle.life_core.specs.Function.{function_of, Function};
ghost use Rattle.life_core.specs.Holdings.{held_by, AnObject};
ghost use Rattle.life_core.specs.Step.{End, Live};
ghost use Rattle.life_core.specs.declared.instr.Form.TheVariants as form;
ghost use Rattle.life_pointers.specs.Pointers.{pointer_seen, PointerFits};
ghost use Rattle.life_cells.specs.Fits.{meant, IsFit};
ghost use Rattle.life_cells.specs.Scopes.{function_in, texts_in, types_in};
ghost use Rattle.life_interp.specs.Fits.{most_births, CanBear, CanStep, Grows};
ghost use Rattle.life_interp.specs.Layouts.{AreReady};
ghost use Rattle.life_interp.specs.Quick.{Attempts};
ghost use Rattle.life_interp.specs.Steps.{BirthFails, IsStanding, LeavesBoth, StandsIn};
ghost use Rattle.life_seen.specs.Housed.{IsHoused, Later, Shows};
ghost use Rattle.life_seen.specs.Kinds.{Kinds};
ghost use Rattle.life_seen.specs.Rowed.{AreRowed};
ghost use Rattle.life_seen.specs.Seen.{seen};
ghost use Rattle.life_store.specs.Cells.{at};
ghost use Rattle.life_store.specs.Content.{live_words_of, with_birth, Content};
ghost use Rattle.life_store.specs.Doing.{with_value_object, cell, born_object, born_pointer, end_cell, end_locals, live_local, Setting};
ghost use Rattle.life_store.specs.Held.{resized_at};
ghost use Rattle.life_store.specs.Parts.{local_parts};
ghost use Rattle.life_store.specs.References.{Rows};
ghost use Rattle.life_store.specs.declared.object.BirthFault.TheVariants as birth_fault;
ghost use Rattle.life_types.specs.Trees.{IsOrdered};
ghost use Rattle.life_values.specs.Fresh.{AreWide};

use crate::births::live_of;
use crate::ending::Ending;
use crate::frame::is_free;
use crate::layouts::Layouts;
use crate::sort::{Sort, sort_of};
use life_cells::{Cell, Scope, holding, object_at, own_pointer, put_cell};
use life_core::{CoreFn, Form, Local};
use life_pointers::{Pointer, empty_view};
use life_store::{BirthFault, ObjRef, Store, TrapKind};
use life_types::{TyId, TypeTable};
use life_values::end_deep;

/// Brings a local to life.
pub(crate) fn live<S: Store>(
    types: &TypeTable,
    layouts: &Layouts,
    f: &CoreFn,
    store: &mut S,
    cells: &mut Vec<Cell>,
    local: u32,
    form: Form,
) -> Result<(), Ending>
    requires layouts { AreReady types.now layouts.now }
    requires ordered { IsOrdered types.now }
    requires wide { AreWide types.now }
    requires fits { IsFit types.now (S.content store.old) (S.rows store.old) cells.old.items }
    requires countable { CanStep (S.content store.old) }
    requires room { S.limit store.old < most_births }
    ensures step { (s : Setting) → s.given.cells ≡ S.limit store.old → LeavesBoth (live_local s types.now (function_of f.now) (slice_get f.now.locals.items local) form local) (meant types.now (S.content store.old) (S.rows store.old)) cells.old.items (meant types.now (S.content store.new) (S.rows store.new)) cells.new.items result }
    ensures fits { OnOk result (IsFit types.now (S.content store.new) (S.rows store.new) cells.new.items) }
    ensures later { OnOk result (Later (S.content store.old) (S.content store.new) (S.rows store.old) (S.rows store.new)) }
    ensures grows { OnOk result (Grows most_births (S.content store.old) (S.content store.new)) }
    ensures limit { S.limit store.new ≡ S.limit store.old }
{
    let index = local as usize;
    if index >= f.locals.len() {
        return Err(Ending::Stray);
    }
    if !is_free(cells, local) {
        return Err(Ending::Stray);
    }
    let declared = f.locals[index];
    match sort_of(types, declared) {
        Sort::Object => born(types, store, cells, declared.ty, local),
        Sort::Pointer => {
            put_cell(cells, local, holding(born_pointer(form)));
            Ok(())
        }
        Sort::View => {
            put_cell(cells, local, holding(empty_view()));
            Ok(())
        }
        Sort::Blank => live_of(types, layouts, store, cells, declared.ty, form, local),
        Sort::Number => Err(Ending::Stray),
    }
}

// What a pointer leads to where it comes to life.
fn born_pointer(form: Form) -> Pointer
    ensures is { pointer_seen result ≡ born_pointer form }
    ensures fits { (c : Content) (rows : Rows) → PointerFits c rows result }
{
    match form {
        Form::Plain => Pointer::Wild,
        Form::Zero => Pointer::Null,
    }
}

// A new object of one slot for the local.
fn born<S: Store>(
    types: &TypeTable,
    store: &mut S,
    cells: &mut Vec<Cell>,
    ty: TyId,
    local: u32,
) -> Result<(), Ending>
    requires fits { IsFit types.now (S.content store.old) (S.rows store.old) cells.old.items }
    requires countable { CanStep (S.content store.old) }
    ensures step { (s : Setting) → s.given.cells ≡ S.limit store.old → LeavesBoth (born_object s ty local) (meant types.now (S.content store.old) (S.rows store.old)) cells.old.items (meant types.now (S.content store.new) (S.rows store.new)) cells.new.items result }
    ensures fits { OnOk result (IsFit types.now (S.content store.new) (S.rows store.new) cells.new.items) }
    ensures later { OnOk result (Later (S.content store.old) (S.content store.new) (S.rows store.old) (S.rows store.new)) }
    ensures grows { OnOk result (Grows most_births (S.content store.old) (S.content store.new)) }
    ensures cells_stay { OnErr result (cells.new ≡ cells.old) }
    ensures content_stays { OnErr result (S.content store.new ≡ S.content store.old) }
    ensures rows_stay { OnErr result (S.rows store.new ≡ S.rows store.old) }
    ensures limit { S.limit store.new ≡ S.limit store.old }
{
    match new_object(store, ty) {
        Err(ending) => Err(ending),
        Ok(object) => {
            put_cell(cells, local, Cell::Object(object));
            Ok(())
        }
    }
}

/// A new object of one slot.
pub(crate) fn new_object<S: Store>(store: &mut S, ty: TyId) -> Result<ObjRef, Ending>
    requires { CanBear (S.content store.old) }
    ensures number { IfOk result (λ r. r.birth ≡ (S.content store.old).births) }
    ensures shows { (kinds : Kinds) → IsHoused kinds (S.content store.old) (S.rows store.old)
        → OnOk result (Shows kinds (S.content store.new) (S.rows store.new) (with_value_object ty (seen kinds (S.content store.old) (S.rows store.old)))) }
    ensures rowed { (kinds : Kinds) → AreRowed kinds (S.content store.old) (S.rows store.old) → OnOk result (AreRowed kinds (S.content store.new) (S.rows store.new)) }
    ensures placed { IfOk result (λ r. at (S.rows store.new) r.birth ≡ Some r.row) }
    ensures later { OnOk result (Later (S.content store.old) (S.content store.new) (S.rows store.old) (S.rows store.new)) }
    ensures room { OnOk result (live_words_of (S.content store.old) + 3 ≤ S.limit store.old) }
    ensures full { IfErr result (BirthFails (S.limit store.old) (S.content store.old)) }
    ensures content_stays { OnErr result (S.content store.new ≡ S.content store.old) }
    ensures rows_stay { OnErr result (S.rows store.new ≡ S.rows store.old) }
    ensures limit { S.limit store.new ≡ S.limit store.old }
{
    match born_one(store, ty) {
        Err(BirthFault::Cells) => Err(Ending::Trap(TrapKind::Cells)),
        Err(BirthFault::NoMemory) => Err(Ending::NoMemory),
        Ok(object) => Ok(object),
    }
}

// A new object of one word, which is 0. Where there is none, the store is as it was.
fn born_one<S: Store>(store: &mut S, ty: TyId) -> Result<ObjRef, BirthFault>
    requires { CanBear (S.content store.old) }
    ensures number { IfOk result (λ r. r.birth ≡ (S.content store.old).births) }
    ensures shows { (kinds : Kinds) → IsHoused kinds (S.content store.old) (S.rows store.old)
        → OnOk result (Shows kinds (S.content store.new) (S.rows store.new) (resized_at (S.content store.old).births 1 0 (with_birth ty 1 1 (seen kinds (S.content store.old) (S.rows store.old))))) }
    ensures rowed { (kinds : Kinds) → AreRowed kinds (S.content store.old) (S.rows store.old) → OnOk result (AreRowed kinds (S.content store.new) (S.rows store.new)) }
    ensures placed { IfOk result (λ r. at (S.rows store.new) r.birth ≡ Some r.row) }
    ensures later { OnOk result (Later (S.content store.old) (S.content store.new) (S.rows store.old) (S.rows store.new)) }
    ensures room { OnOk result (live_words_of (S.content store.old) + 3 ≤ S.limit store.old) }
    ensures cells { IfErr result (λ fault. fault ≡ birth_fault.Cells → S.limit store.old < live_words_of (S.content store.old) + 3) }
    ensures content_stays { OnErr result (S.content store.new ≡ S.content store.old) }
    ensures rows_stay { OnErr result (S.rows store.new ≡ S.rows store.old) }
    ensures limit { S.limit store.new ≡ S.limit store.old }
{
    match life_words::born(store, ty, 1, 1) {
        Err(fault) => Err(fault),
        Ok(object) => match store.resize(object, 1, 0) {
            Err(_) => unreachable!(),
            Ok(()) => Ok(object),
        },
    }
}

/// Ends locals, in the order of the list.
pub(crate) fn end<S: Store>(
    types: &TypeTable,
    layouts: &Layouts,
    store: &mut S,
    cells: &mut Vec<Cell>,
    locals: &[u32],
) -> Result<(), Ending>
    requires layouts { AreReady types.now layouts.now }
    requires ordered { IsOrdered types.now }
    requires fits { IsFit types.now (S.content store.old) (S.rows store.old) cells.old.items }
    requires stands { IsStanding types.now (meant types.now (S.content store.old) (S.rows store.old)) cells.old.items }
    ensures step { (f : Function) (rest : ℕ → ℕ) → StandsIn types.now f rest (meant types.now (S.content store.old) (S.rows store.old)) cells.old.items
        → LeavesBoth (end_locals types.now f locals.now) (meant types.now (S.content store.old) (S.rows store.old)) cells.old.items (meant types.now (S.content store.new) (S.rows store.new)) cells.new.items result }
    ensures fits { OnOk result (IsFit types.now (S.content store.new) (S.rows store.new) cells.new.items) }
    ensures later { OnOk result (Later (S.content store.old) (S.content store.new) (S.rows store.old) (S.rows store.new)) }
    ensures births { OnOk result ((S.content store.new).births ≡ (S.content store.old).births) }
    ensures clock { OnOk result ((S.content store.new).clock ≡ (S.content store.old).clock) }
    ensures limit { S.limit store.new ≡ S.limit store.old }
{
    for local in locals {
        match end_one(types, layouts, store, cells, *local) {
            Err(ending) => return Err(ending),
            Ok(()) => {}
        }
    }
    Ok(())
}

// Ends a local with all beneath its object.
fn end_one<S: Store>(
    types: &TypeTable,
    layouts: &Layouts,
    store: &mut S,
    cells: &mut Vec<Cell>,
    local: u32,
) -> Result<(), Ending>
    requires layouts { AreReady types.now layouts.now }
    requires ordered { IsOrdered types.now }
    requires fits { IsFit types.now (S.content store.old) (S.rows store.old) cells.old.items }
    requires stands { IsStanding types.now (meant types.now (S.content store.old) (S.rows store.old)) cells.old.items }
    ensures step { (f : Function) (rest : ℕ → ℕ) → StandsIn types.now f rest (meant types.now (S.content store.old) (S.rows store.old)) cells.old.items
        → LeavesBoth (λ st. end_cell (local_parts types.now f local) (cell st local) local st) (meant types.now (S.content store.old) (S.rows store.old)) cells.old.items (meant types.now (S.content store.new) (S.rows store.new)) cells.new.items result }
    ensures fits { OnOk result (IsFit types.now (S.content store.new) (S.rows store.new) cells.new.items) }
    ensures later { OnOk result (Later (S.content store.old) (S.content store.new) (S.rows store.old) (S.rows store.new)) }
    ensures births { OnOk result ((S.content store.new).births ≡ (S.content store.old).births) }
    ensures clock { OnOk result ((S.content store.new).clock ≡ (S.content store.old).clock) }
    ensures cells_stay { OnErr result (cells.new ≡ cells.old) }
    ensures content_stays { OnErr result (S.content store.new ≡ S.content store.old) }
    ensures rows_stay { OnErr result (S.rows store.new ≡ S.rows store.old) }
    ensures limit { S.limit store.new ≡ S.limit store.old }
{
    match object_at(cells, local) {
        Some(object) => match store.shape(object) {
            Err(_) => Err(Ending::Stray),
            Ok(_) => {
                end_deep(types, &layouts.all, store, object, layouts.depth);
                put_cell(cells, local, Cell::Empty);
                Ok(())
            }
        },
        None => match own_pointer(cells, local) {
            None => Err(Ending::Stray),
            Some(_) => {
                put_cell(cells, local, Cell::Empty);
                Ok(())
            }
        },
    }
}

/// Brings a number to life as a declaration without initialiser leaves it, if nothing stops it; else nothing changes.
#[inline(always)]
pub(crate) fn live_at_once<S: Store>(
    scope: &Scope<'_>,
    store: &mut S,
    cells: &mut Vec<Cell>,
    local: u32,
) -> bool
    requires fits { IsFit (types_in scope.now) (S.content store.old) (S.rows store.old) cells.old.items }
    requires countable { CanStep (S.content store.old) }
    ensures done { Attempts (types_in scope.now) (function_in scope.now) (S.limit store.old) (texts_in scope.now) (Live local form.Plain) (S.content store.old) (S.content store.new) (S.rows store.old) (S.rows store.new) cells.old cells.new result }
    ensures limit { S.limit store.new ≡ S.limit store.old }
{
    match declared_at(scope.function, local) {
        None => false,
        Some(declared) => match sort_of(scope.types, declared) {
            Sort::Object => free_born(scope, store, cells, declared, local),
            Sort::Blank => false,
            Sort::Number => false,
            Sort::Pointer => false,
            Sort::View => false,
        },
    }
}

// The local with this number, if the function has it.
fn declared_at(f: &CoreFn, local: u32) -> Option<Local>
    ensures { result ≡ slice_get (function_of f.now).locals local }
{
    f.locals.get(local as usize).copied()
}

// A new object for the local, which holds one where it is ready, if nothing of it is alive.
#[inline(always)]
fn free_born<S: Store>(
    scope: &Scope<'_>,
    store: &mut S,
    cells: &mut Vec<Cell>,
    declared: Local,
    local: u32,
) -> bool
    requires fits { IsFit (types_in scope.now) (S.content store.old) (S.rows store.old) cells.old.items }
    requires countable { CanStep (S.content store.old) }
    requires declared { slice_get (function_in scope.now).locals local ≡ Some declared }
    requires object { AnObject ≡ held_by (types_in scope.now) (Some declared) }
    ensures done { Attempts (types_in scope.now) (function_in scope.now) (S.limit store.old) (texts_in scope.now) (Live local form.Plain) (S.content store.old) (S.content store.new) (S.rows store.old) (S.rows store.new) cells.old cells.new result }
    ensures limit { S.limit store.new ≡ S.limit store.old }
{
    if !is_free(cells, local) {
        return false;
    }
    match born(scope.types, store, cells, declared.ty, local) {
        Err(_) => false,
        Ok(()) => true,
    }
}

/// Ends a local with all beneath its object, if nothing stops it; else nothing changes.
#[inline(always)]
pub(crate) fn end_at_once<S: Store>(
    scope: &Scope<'_>,
    layouts: &Layouts,
    store: &mut S,
    cells: &mut Vec<Cell>,
    local: u32,
) -> bool
    requires layouts { AreReady (types_in scope.now) layouts.now }
    requires ordered { IsOrdered (types_in scope.now) }
    requires fits { IsFit (types_in scope.now) (S.content store.old) (S.rows store.old) cells.old.items }
    requires stands { (rest : ℕ → ℕ) × StandsIn (types_in scope.now) (function_in scope.now) rest (meant (types_in scope.now) (S.content store.old) (S.rows store.old)) cells.old.items }
    ensures done { Attempts (types_in scope.now) (function_in scope.now) (S.limit store.old) (texts_in scope.now) (End (local ∷ [])) (S.content store.old) (S.content store.new) (S.rows store.old) (S.rows store.new) cells.old cells.new result }
    ensures limit { S.limit store.new ≡ S.limit store.old }
{
    match end_one(scope.types, layouts, store, cells, local) {
        Err(_) => false,
        Ok(()) => true,
    }
}
