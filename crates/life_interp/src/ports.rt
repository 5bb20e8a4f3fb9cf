// What goes in or out of the program.
ghost use Rattle.std.specs.Prelude.{◌≡◌, ◌%◌, ◌^◌, drop, List, OnOk, ℤ};
ghost use Rattle.std.specs.Int.{cast_unsigned, w64};
ghost use Rattle.life_core.specs.Function.{function_of, program_of};
ghost use Rattle.life_core.specs.Step.{port_of};
ghost use Rattle.life_cells.specs.Cells.{state_in};
ghost use Rattle.life_cells.specs.Fits.{meant, CellsFit, IsFit};
ghost use Rattle.life_interp.specs.Accessed.{HasViewed};
ghost use Rattle.life_interp.specs.Layouts.{AreReady};
ghost use Rattle.life_interp.specs.Steps.{taken_into};
ghost use Rattle.life_interp.specs.Walking.{LeavesInput, Performs, Writes};
ghost use Rattle.life_store.specs.Content.{Content};
ghost use Rattle.life_store.specs.Doing as doing;
ghost use Rattle.life_store.specs.Doing.{as_long, number_text, Setting};
ghost use Rattle.life_store.specs.References.{Rows};

use crate::ending::Ending;
use crate::layouts::Layouts;
use crate::values::type_at;
use crate::views::write_view;
use life_base::{Sink, write_whole};
use life_cells::{Cell, Scope, number_at, put_cell};
use life_core::{CoreFn, CoreProgram, Port};
use life_store::{Store, TrapKind};
use life_types::Ty;
use std::alloc::Global;

/// Writes what is to be written, or takes what is to be taken.
pub(crate) fn pass<S: Store, O: Sink>(
    alloc: Global,
    program: &CoreProgram,
    layouts: &Layouts,
    f: &CoreFn,
    port: &Port,
    store: &S,
    cells: &mut Vec<Cell>,
    input: &[i64],
    taken: &mut usize,
    out: &mut O,
) -> Result<(), Ending>
    requires layouts { AreReady (program_of program.now).types layouts.now }
    requires fits { IsFit (program_of program.now).types (S.content store.now) (S.rows store.now) cells.old.items }
    requires viewed { HasViewed (program_of program.now).types (function_of f.now) (state_in (meant (program_of program.now).types (S.content store.now) (S.rows store.now)) cells.old.items) (port_of port.now) }
    ensures step { (s : Setting) → s.texts ≡ (program_of program.now).texts
        → Performs (doing.port s (program_of program.now).types (function_of f.now) (port_of port.now))
        (meant (program_of program.now).types (S.content store.now) (S.rows store.now)) cells.old.items (drop taken.old input.now) (meant (program_of program.now).types (S.content store.now) (S.rows store.now)) cells.new.items (drop taken.new input.now)
        (record { old = O.taken out.old; new = O.taken out.new; faults = O.faults out.old; later = O.faults out.new }) result }
    ensures fits { (c : Content) (rows : Rows) → CellsFit c rows cells.old.items → OnOk result (CellsFit c rows cells.new.items) }
{
    match port {
        Port::Value(item) => match number_at(cells, *item) {
            None => Err(Ending::Stray),
            Some(value) => write_number(alloc, type_at(&program.types, f, *item), value, out),
        },
        Port::View(location) => {
            let scope = Scope {
                types: &program.types,
                layouts: &layouts.all,
                texts: &program.texts,
                function: f,
            };
            write_view(alloc, &scope, store, cells, location, out)
        }
        Port::Take(register) => take(cells, *register, input, taken),
    }
}

// Writes a number of a type.
fn write_number<O: Sink>(
    alloc: Global,
    ty: Option<Ty>,
    value: i64,
    out: &mut O,
) -> Result<(), Ending>
    ensures { Writes (number_text ty value) (record { old = O.taken out.old; new = O.taken out.new; faults = O.faults out.old; later = O.faults out.new }) result }
{
    match ty {
        Some(Ty::Char) => write_text(&[low_byte(value)], out),
        Some(Ty::Size) => match format!(in alloc; "{}", value.cast_unsigned()) {
            Err(_) => Err(Ending::NoMemory),
            Ok(text) => write_text(text.as_bytes(), out),
        },
        _ => match format!(in alloc; "{value}") {
            Err(_) => Err(Ending::NoMemory),
            Ok(text) => write_text(text.as_bytes(), out),
        },
    }
}

// The byte of a char.
fn low_byte(value: i64) -> u8
    ensures { result ≡ cast_unsigned w64 value % 2 ^ 8 }
{
    (value.cast_unsigned() % (1 << 8)) as u8
}

/// Writes a whole text.
pub(crate) fn write_text<O: Sink>(text: &[u8], out: &mut O) -> Result<(), Ending>
    ensures { Writes text.now (record { old = O.taken out.old; new = O.taken out.new; faults = O.faults out.old; later = O.faults out.new }) result }
{
    match write_whole(out, text) {
        Err(_) => Err(Ending::WriteFault),
        Ok(()) => Ok(()),
    }
}

// Takes the next number of the input into a register.
fn take(
    cells: &mut Vec<Cell>,
    register: u32,
    input: &[i64],
    taken: &mut usize,
) -> Result<(), Ending>
    ensures step { (c : Content) → LeavesInput (taken_into register) c cells.old.items (drop taken.old input.now) cells.new.items (drop taken.new input.now) result }
    ensures fits { (c : Content) (rows : Rows) → CellsFit c rows cells.old.items → OnOk result (CellsFit c rows cells.new.items) }
{
    if *taken < input.len() {
        put_cell(cells, register, Cell::Number(as_long(input[*taken])));
        *taken += 1;
        Ok(())
    } else {
        Err(Ending::Trap(TrapKind::InputEnd))
    }
}

/// The number as a long.
pub(crate) fn as_long(value: i64) -> i64
    ensures { result ≡ as_long value }
{
    value
}
