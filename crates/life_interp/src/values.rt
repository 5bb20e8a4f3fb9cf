// Instructions that compute, read and write values.
ghost use Rattle.std.specs.Prelude.{◌≡◌, ◌<◌, ◌^◌, pos, OnErr, OnOk};
ghost use Rattle.life_core.specs.Function.{function_of};
ghost use Rattle.life_core.specs.Operands.{operand_of};
ghost use Rattle.life_cells.specs.Cells.{state_in};
ghost use Rattle.life_cells.specs.Fits.{meant, CellsFit, IsFit, Keeps};
ghost use Rattle.life_cells.specs.Scopes.{function_in, texts_in, types_in};
ghost use Rattle.life_cells.specs.Steps.{Comes};
ghost use Rattle.life_interp.specs.Accessed.{IsNumberPlace};
ghost use Rattle.life_interp.specs.Steps.{stored, LeavesCells, Reads};
ghost use Rattle.life_store.specs.Content.{Content};
ghost use Rattle.life_store.specs.References.{Rows};
ghost use Rattle.life_store.specs.Doing.{as_bool, as_char, as_int, computed_into, converted, evaluated, loaded, type_of, Setting};

use crate::arithmetic::{combined, negated, zero_test};
use crate::ending::Ending;
use life_cells::{Cell, Scope, locate, number_at, put_cell};
use life_core::{CoreFn, Operand, Operation};
use life_pointers::{Place, Stop, character};
use life_store::{Store, TrapKind};
use life_types::{Ty, TypeTable};
use life_words::{number, put_number};

/// Gives a register a value.
#[inline(always)]
pub(crate) fn evaluate(
    types: &TypeTable,
    f: &CoreFn,
    into: u32,
    operation: Operation,
    cells: &mut Vec<Cell>,
) -> Result<(), Ending>
    ensures step { (c : Content) → LeavesCells (evaluated types.now (function_of f.now) into operation) c cells.old.items cells.new.items result }
    ensures fits { (c : Content) (rows : Rows) → CellsFit c rows cells.old.items → OnOk result (CellsFit c rows cells.new.items) }
    ensures stays { OnErr result (cells.new ≡ cells.old) }
{
    match operation {
        Operation::Number(value) => {
            put_cell(cells, into, Cell::Number(value));
            Ok(())
        }
        Operation::Convert(from) => match number_at(cells, from) {
            None => Err(Ending::Stray),
            Some(value) => {
                let value = converted(type_at(types, f, into), value);
                put_cell(cells, into, Cell::Number(value));
                Ok(())
            }
        },
        Operation::Negate(from) => match number_at(cells, from) {
            None => Err(Ending::Stray),
            Some(value) => put_computed(cells, into, negated(type_at(types, f, into), value)),
        },
        Operation::IsZero(from) => match number_at(cells, from) {
            None => Err(Ending::Stray),
            Some(value) => put_computed(cells, into, zero_test(value)),
        },
        Operation::Binary {
            operator,
            left,
            right,
        } => match number_at(cells, left) {
            None => Err(Ending::Stray),
            Some(first) => match number_at(cells, right) {
                None => Err(Ending::Stray),
                Some(second) => {
                    let ty = type_at(types, f, left);
                    put_computed(cells, into, combined(ty, operator, first, second))
                }
            },
        },
    }
}

// Gives a register what was computed.
#[inline(always)]
fn put_computed(
    cells: &mut Vec<Cell>,
    into: u32,
    computed: Result<i64, TrapKind>,
) -> Result<(), Ending>
    ensures step { (c : Content) → LeavesCells (computed_into into computed) c cells.old.items cells.new.items result }
    ensures fits { (c : Content) (rows : Rows) → CellsFit c rows cells.old.items → OnOk result (CellsFit c rows cells.new.items) }
    ensures stays { OnErr result (cells.new ≡ cells.old) }
{
    match computed {
        Ok(value) => {
            put_cell(cells, into, Cell::Number(value));
            Ok(())
        }
        Err(kind) => Err(Ending::Trap(kind)),
    }
}

/// The type of a local.
#[inline(always)]
pub(crate) fn type_at(types: &TypeTable, f: &CoreFn, local: u32) -> Option<Ty>
    ensures { result ≡ type_of types.now (function_of f.now) local }
{
    match f.locals.get(local as usize) {
        None => None,
        Some(local) => types.get(local.ty),
    }
}

/// The value as one of the type.
#[inline(always)]
pub(crate) fn converted(ty: Option<Ty>, value: i64) -> i64
    ensures { result ≡ converted ty value }
{
    match ty {
        Some(Ty::Bool) => as_bool(value),
        Some(Ty::Char) => as_char(value),
        Some(Ty::Int) => as_int(value),
        _ => value,
    }
}

// 1 for what isn't 0.
fn as_bool(value: i64) -> i64
    ensures { result ≡ as_bool value }
{
    if value == 0 { 0 } else { 1 }
}

// Modulo 2^8, with a sign.
fn as_char(value: i64) -> i64
    ensures { result ≡ as_char value }
{
    let low = (value.cast_unsigned() % (1 << 8)) as u8;
    low.cast_signed() as i64
}

// Modulo 2^32, with a sign.
fn as_int(value: i64) -> i64
    ensures { result ≡ as_int value }
{
    let low = (value.cast_unsigned() % (1 << 32)) as u32;
    low.cast_signed() as i64
}

/// Reads a value into a register.
#[inline(always)]
pub(crate) fn load<S: Store>(
    scope: &Scope<'_>,
    store: &S,
    cells: &mut Vec<Cell>,
    into: u32,
    from: &Operand,
) -> Result<(), Stop>
    requires fits { IsFit (types_in scope.now) (S.content store.now) (S.rows store.now) cells.old.items }
    requires number { IsNumberPlace (types_in scope.now) (function_in scope.now) (operand_of from.now) (state_in (meant (types_in scope.now) (S.content store.now) (S.rows store.now)) cells.old.items) }
    ensures step { (s : Setting) → s.texts ≡ texts_in scope.now
        → Comes (loaded s (types_in scope.now) (function_in scope.now) into (operand_of from.now)) (meant (types_in scope.now) (S.content store.now) (S.rows store.now)) cells.old.items (meant (types_in scope.now) (S.content store.now) (S.rows store.now)) cells.new.items result }
    ensures fits { OnOk result (IsFit (types_in scope.now) (S.content store.now) (S.rows store.now) cells.new.items) }
    ensures stays { OnErr result (cells.new ≡ cells.old) }
{
    let value = value_at(scope, store, cells, from)?;
    put_cell(cells, into, Cell::Number(value));
    Ok(())
}

// The value at a place, or a character of a text.
#[inline(always)]
fn value_at<S: Store>(
    scope: &Scope<'_>,
    store: &S,
    cells: &[Cell],
    from: &Operand,
) -> Result<i64, Stop>
    requires fits { IsFit (types_in scope.now) (S.content store.now) (S.rows store.now) cells.now }
    requires number { IsNumberPlace (types_in scope.now) (function_in scope.now) (operand_of from.now) (state_in (meant (types_in scope.now) (S.content store.now) (S.rows store.now)) cells.now) }
    ensures { (s : Setting) → s.texts ≡ texts_in scope.now → Reads (λ r. loaded s (types_in scope.now) (function_in scope.now) r (operand_of from.now)) (meant (types_in scope.now) (S.content store.now) (S.rows store.now)) cells.now result }
{
    match locate(scope, store, cells, from) {
        Err(stop) => Err(stop),
        Ok(Place::Here(spot)) => {
            let word = number(store, spot.object, spot.index, spot.word as u64);
            Ok(word.cast_signed())
        }
        Ok(Place::Fixed(characters)) => character(scope.texts, characters),
    }
}

/// Writes a register's value to a place. A character of a text isn't written.
#[inline(always)]
pub(crate) fn save<S: Store>(
    scope: &Scope<'_>,
    store: &mut S,
    cells: &[Cell],
    to: &Operand,
    from: u32,
) -> Result<(), Stop>
    requires fits { IsFit (types_in scope.now) (S.content store.old) (S.rows store.old) cells.now }
    requires number { IsNumberPlace (types_in scope.now) (function_in scope.now) (operand_of to.now) (state_in (meant (types_in scope.now) (S.content store.old) (S.rows store.old)) cells.now) }
    ensures step { Comes (stored (types_in scope.now) (function_in scope.now) (operand_of to.now) from) (meant (types_in scope.now) (S.content store.old) (S.rows store.old)) cells.now (meant (types_in scope.now) (S.content store.new) (S.rows store.new)) cells.now result }
    ensures fits { OnOk result (IsFit (types_in scope.now) (S.content store.new) (S.rows store.new) cells.now) }
    ensures keeps { Keeps (S.content store.old) (S.content store.new) (S.rows store.old) (S.rows store.new) }
    ensures stays { OnErr result (S.content store.new ≡ S.content store.old) }
    ensures limit { S.limit store.new ≡ S.limit store.old }
{
    match number_at(cells, from) {
        None => Err(Stop::Lost),
        Some(value) => match locate(scope, store, cells, to) {
            Err(stop) => Err(stop),
            Ok(Place::Fixed(_)) => Err(Stop::Lost),
            Ok(Place::Here(spot)) => {
                let word = value.cast_unsigned();
                put_number(store, spot.object, spot.index, spot.word as u64, word);
                Ok(())
            }
        },
    }
}
