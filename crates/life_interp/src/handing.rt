// What calls hand over and give back.
ghost use Rattle.std.specs.Prelude.{◌≡◌, ◌∷◌, [], map, option_map, slice_get, IfOk, IfSome, List, ℕ, ℤ};
ghost use Rattle.life_core.specs.Function.{function_of};
ghost use Rattle.life_core.specs.Holdings.{result_sort};
ghost use Rattle.life_core.specs.Operands.{argument_of};
ghost use Rattle.life_core.specs.declared.operand.Argument.{Argument as AnyArgument};
ghost use Rattle.life_cells.specs.Cells.{cell_seen, cells_seen, state_in, state_of};
ghost use Rattle.life_interp.specs.Cells.{one_seen};
ghost use Rattle.life_cells.specs.Fits.{meant, CellFits, CellsFit, IsFit, Keeps};
ghost use Rattle.life_cells.specs.Scopes.{function_in, types_in};
ghost use Rattle.life_interp.specs.CallOperands.{AreArgumentPlaces, AreLentPlaces, IsArgumentPlace, IsLentPlace};
ghost use Rattle.life_interp.specs.Steps.{Hands};
ghost use Rattle.life_store.specs.Calls.{all_handed, cell_back, given_back, handed, lent, number_handed, object_handed, other_back, pointer_handed};
ghost use Rattle.life_store.specs.Content.{Content};
ghost use Rattle.life_store.specs.Meaning.{value_in};
ghost use Rattle.life_store.specs.References.{Rows};

use crate::ending::Ending;
use crate::frame::number_of;
use crate::sort::{Sort, result_sort};
use life_cells::{Cell, Scope, holding, number_at, object_at, own_pointer, put_cell};
use life_core::{Argument, CoreFn};
use life_slots::{lend_slot, pointer_cell, slot_handed};
use life_store::Store;
use life_types::{Ty, TypeTable};
use std::alloc::Global;

/// The values of the arguments, from left to right.
pub(crate) fn all_handed<S: Store>(
    alloc: Global,
    scope: &Scope<'_>,
    store: &S,
    cells: &[Cell],
    arguments: &[Argument],
) -> Result<Vec<Cell>, Ending>
    requires fits { IsFit (types_in scope.now) (S.content store.now) (S.rows store.now) cells.now }
    requires places { AreArgumentPlaces (types_in scope.now) (function_in scope.now) (state_in (meant (types_in scope.now) (S.content store.now) (S.rows store.now)) cells.now) (map argument_of arguments.now) }
    ensures step { (output : List ℕ) (input : List ℤ)
        → Hands (all_handed (types_in scope.now) (function_in scope.now) (state_of (meant (types_in scope.now) (S.content store.now) (S.rows store.now)) cells.now output input) (map argument_of arguments.now)) result }
    ensures fits { IfOk result (λ values. CellsFit (S.content store.now) (S.rows store.now) values.items) }
{
    let mut values = Vec::new(alloc);
    for argument in arguments {
        match handed(scope, store, cells, argument) {
            None => return Err(Ending::Stray),
            Some(value) => match values.push(value) {
                Err(_) => return Err(Ending::NoMemory),
                Ok(()) => {}
            },
        }
    }
    Ok(values)
}

// The value of an argument, if it is there.
fn handed<S: Store>(
    scope: &Scope<'_>,
    store: &S,
    cells: &[Cell],
    argument: &Argument,
) -> Option<Cell>
    requires fits { IsFit (types_in scope.now) (S.content store.now) (S.rows store.now) cells.now }
    requires place { IsArgumentPlace (types_in scope.now) (function_in scope.now) (state_in (meant (types_in scope.now) (S.content store.now) (S.rows store.now)) cells.now) (argument_of argument.now) }
    ensures step { (output : List ℕ) (input : List ℤ)
        → option_map cell_seen result ≡ handed (types_in scope.now) (function_in scope.now) (state_of (meant (types_in scope.now) (S.content store.now) (S.rows store.now)) cells.now output input) (argument_of argument.now) }
    ensures fits { IfSome result (CellFits (S.content store.now) (S.rows store.now)) }
{
    match argument {
        Argument::Value(register) => number_cell(cells, *register),
        Argument::Given(local) => object_cell(cells, *local),
        Argument::Pointer(location) => pointer_cell(scope, store, cells, location),
        Argument::Slot(location) => slot_handed(scope, store, cells, location),
    }
}

// The object that the local has, if it has one.
fn object_cell(cells: &[Cell], local: u32) -> Option<Cell>
    ensures seen { option_map cell_seen result ≡ object_handed (slice_get (cells_seen cells.now) local) }
    ensures fits { (c : Content) (rows : Rows) → CellsFit c rows cells.now → IfSome result (CellFits c rows) }
{
    match object_at(cells, local) {
        None => None,
        Some(object) => Some(Cell::Object(object)),
    }
}

/// Takes from the frame what it gave over, and what its slots lend.
pub(crate) fn lend<S: Store>(
    scope: &Scope<'_>,
    store: &mut S,
    cells: &mut Vec<Cell>,
    arguments: &[Argument],
)
    requires fits { IsFit (types_in scope.now) (S.content store.old) (S.rows store.old) cells.old.items }
    requires places { AreLentPlaces (types_in scope.now) (function_in scope.now) (state_in (meant (types_in scope.now) (S.content store.old) (S.rows store.old)) cells.old.items) (map argument_of arguments.now) }
    ensures lent { (output : List ℕ) (input : List ℤ)
        → lent (types_in scope.now) (function_in scope.now) (map argument_of arguments.now) (state_of (meant (types_in scope.now) (S.content store.old) (S.rows store.old)) cells.old.items output input)
        ≡ state_of (meant (types_in scope.now) (S.content store.new) (S.rows store.new)) cells.new.items output input }
    ensures fits { IsFit (types_in scope.now) (S.content store.new) (S.rows store.new) cells.new.items }
    ensures keeps { Keeps (S.content store.old) (S.content store.new) (S.rows store.old) (S.rows store.new) }
    ensures limit { S.limit store.new ≡ S.limit store.old }
{
    for argument in arguments {
        lend_one(scope, store, cells, argument);
    }
}

// .. by one argument.
fn lend_one<S: Store>(scope: &Scope<'_>, store: &mut S, cells: &mut Vec<Cell>, argument: &Argument)
    requires fits { IsFit (types_in scope.now) (S.content store.old) (S.rows store.old) cells.old.items }
    requires place { IsLentPlace (types_in scope.now) (function_in scope.now) (state_in (meant (types_in scope.now) (S.content store.old) (S.rows store.old)) cells.old.items) (argument_of argument.now) }
    ensures lent { (output : List ℕ) (input : List ℤ)
        → lent (types_in scope.now) (function_in scope.now) (argument_of argument.now ∷ []) (state_of (meant (types_in scope.now) (S.content store.old) (S.rows store.old)) cells.old.items output input)
        ≡ state_of (meant (types_in scope.now) (S.content store.new) (S.rows store.new)) cells.new.items output input }
    ensures fits { IsFit (types_in scope.now) (S.content store.new) (S.rows store.new) cells.new.items }
    ensures places { (xs : List AnyArgument) → AreLentPlaces (types_in scope.now) (function_in scope.now) (state_in (meant (types_in scope.now) (S.content store.old) (S.rows store.old)) cells.old.items) (map argument_of xs)
        → AreLentPlaces (types_in scope.now) (function_in scope.now) (state_in (meant (types_in scope.now) (S.content store.new) (S.rows store.new)) cells.new.items) (map argument_of xs) }
    ensures keeps { Keeps (S.content store.old) (S.content store.new) (S.rows store.old) (S.rows store.new) }
    ensures limit { S.limit store.new ≡ S.limit store.old }
{
    match argument {
        Argument::Given(local) => put_cell(cells, *local, Cell::Empty),
        Argument::Value(_) => {}
        Argument::Pointer(_) => {}
        Argument::Slot(location) => lend_slot(scope, store, cells, location),
    }
}

// The value that the local holds, if it holds one.
fn number_cell(cells: &[Cell], local: u32) -> Option<Cell>
    ensures seen { option_map cell_seen result ≡ number_handed (slice_get (cells_seen cells.now) local) }
    ensures fits { (c : Content) (rows : Rows) → IfSome result (CellFits c rows) }
{
    match number_at(cells, local) {
        None => None,
        Some(value) => Some(Cell::Number(value)),
    }
}

// The pointer that the local holds, if it holds one.
fn own_cell(cells: &[Cell], local: u32) -> Option<Cell>
    ensures seen { option_map cell_seen result ≡ pointer_handed (slice_get (cells_seen cells.now) local) }
    ensures fits { (c : Content) (rows : Rows) → CellsFit c rows cells.now → IfSome result (CellFits c rows) }
{
    match own_pointer(cells, local) {
        None => None,
        Some(pointer) => Some(holding(pointer)),
    }
}

/// What a function that returns gives back, but for slots. A number that wasn't written is 0.
pub(crate) fn result_of(types: &TypeTable, f: &CoreFn, cells: &[Cell]) -> Option<Cell>
    ensures seen { one_seen result ≡ given_back (slice_get types.now.types f.now.result.0) (result_sort types.now (function_of f.now)) (slice_get (cells_seen cells.now) f.now.parameters) }
    ensures fits { (c : Content) (rows : Rows) → CellsFit c rows cells.now → IfSome result (CellFits c rows) }
{
    match result_sort(types, f) {
        Sort::Number => match number_at(cells, f.parameters) {
            None => Some(Cell::Number(0)),
            Some(number) => Some(Cell::Number(number)),
        },
        Sort::Pointer => own_cell(cells, f.parameters),
        Sort::View => own_cell(cells, f.parameters),
        Sort::Blank => other_back(types.get(f.result), cells, f.parameters),
        Sort::Object => None,
    }
}

// What is given back of another type: an object, or a pointer.
fn other_back(ty: Option<Ty>, cells: &[Cell], local: u32) -> Option<Cell>
    ensures seen { one_seen result ≡ other_back ty (slice_get (cells_seen cells.now) local) }
    ensures fits { (c : Content) (rows : Rows) → CellsFit c rows cells.now → IfSome result (CellFits c rows) }
{
    match ty {
        Some(Ty::Void) => None,
        _ => cell_back(cells, local),
    }
}

// .. whatever the type is.
fn cell_back(cells: &[Cell], local: u32) -> Option<Cell>
    ensures seen { one_seen result ≡ cell_back (slice_get (cells_seen cells.now) local) }
    ensures fits { (c : Content) (rows : Rows) → CellsFit c rows cells.now → IfSome result (CellFits c rows) }
{
    match object_cell(cells, local) {
        None => own_cell(cells, local),
        Some(object) => Some(object),
    }
}

/// The value that is told of a result; where there is none it is 0.
pub(crate) fn told(given: Option<Cell>) -> i64
    ensures { result ≡ value_in (one_seen given) }
{
    match given {
        None => 0,
        Some(cell) => match number_of(cell) {
            None => 0,
            Some(number) => number,
        },
    }
}
