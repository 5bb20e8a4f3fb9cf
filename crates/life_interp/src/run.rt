// The run of a function from an empty store.
ghost use Rattle.std.specs.Prelude.{◌≡◌, ◌≤◌, ◌<◌, [], length, map, slice_get, IfOk, IfSome, OnOk};
ghost use Rattle.life_core.specs.Function.{function_of, program_of};
ghost use Rattle.life_core.specs.Linked.{code_of};
ghost use Rattle.life_core_served.specs.ProperPrograms.{IsProperProgram};
ghost use Rattle.life_cells.specs.Cells.{cell_seen, cells_seen};
ghost use Rattle.life_cells.specs.Fits.{meant, CellFits, CellsFit, IsFit};
ghost use Rattle.life_interp.specs.Fits.{most_births, CanStep, Grows};
ghost use Rattle.life_interp.specs.Flats.{table_in};
ghost use Rattle.life_interp.specs.Layouts.{AreReady};
ghost use Rattle.life_interp.specs.Runs.{barred_as, links_seen, table_seen, IsBarred, RunEnds};
ghost use Rattle.life_interp.specs.Steps.{Begins};
ghost use Rattle.life_seen.specs.Housed.{IsHoused};
ghost use Rattle.life_seen.specs.Kinds.{kinds_of};
ghost use Rattle.life_store.specs.Calls.{entry_arguments};
ghost use Rattle.life_store.specs.Cells.{none};
ghost use Rattle.life_store.specs.Content.{empty_content, Content};
ghost use Rattle.life_store.specs.Doing as spec;
ghost use Rattle.life_store.specs.Doing.{Setting};
ghost use Rattle.life_store.specs.Meaning.{run_of, IsAdmitted};
ghost use Rattle.life_store.specs.References.{Rows};
ghost use Rattle.life_store.specs.State as state;

use crate::calls::given_cells;
use crate::ending::{Ending, Halt};
use crate::flat::Flat;
use crate::frames::Frames;
use crate::layouts::Layouts;
use crate::outcome::Outcome;
use crate::ports::as_long;
use crate::values::{converted, type_at};
use crate::walk::walk;
use life_base::Sink;
use life_cells::Cell;
use life_core::{CoreFn, CoreProgram, FnId, LinkRef};
use life_store::{Growth, Limits, Store};
use life_types::{NoMemory, Place, TypeTable};
use std::alloc::Global;

/// The most steps of a run.
pub const MOST_STEPS: u64 = 1_000_000_000;

/// Runs a function of the program in an empty store. Its points are linked already.
pub(crate) fn run_on<'p, S: Store, O: Sink>(
    alloc: Global,
    program: &'p CoreProgram,
    code: &[Vec<LinkRef<'p>>],
    tables: &[Vec<Flat>],
    layouts: &Layouts,
    entry: FnId,
    input: &[i64],
    growth: Growth,
    limits: Limits,
    steps: u64,
    store: &mut S,
    out: &mut O,
) -> Outcome
    requires proper { IsProperProgram (program_of program.now) }
    requires linked { map links_seen code.now ≡ map code_of (program_of program.now).functions }
    requires tables { map table_seen tables.now ≡ map table_in (map code_of (program_of program.now).functions) }
    requires layouts { AreReady (program_of program.now).types layouts.now }
    requires entry { entry.0 < length (program_of program.now).functions }
    requires admitted { IfSome (slice_get (program_of program.now).functions entry.0) (λ f. IsAdmitted (program_of program.now) f input.now) }
    requires depth { 1 ≤ limits.depth }
    requires steps { steps ≤ MOST_STEPS }
    requires empty { S.content store.old ≡ empty_content }
    requires rows { S.rows store.old ≡ none }
    requires limit { S.limit store.old ≡ limits.cells }
    ensures { IfSome (slice_get (program_of program.now).functions entry.0) (λ f.
        RunEnds (run_of (record { growth = growth; cells = limits.cells; depth = limits.depth }) (program_of program.now) entry.0 f input.now steps)
        (record { old = O.taken out.old; new = O.taken out.new; faults = O.faults out.old; later = O.faults out.new }) result) }
{
    let f = &program.functions[entry.0 as usize];
    match first_cells(alloc, program, f, input, store) {
        Err(ending) => barred(ending, f.place),
        Ok(cells) => {
            let mut frames = Frames {
                function: entry.0,
                point: Some(1),
                cells,
                waiting: Vec::new(alloc),
            };
            let mut taken = f.parameters as usize;
            match walk(
                alloc,
                program,
                code,
                tables,
                layouts,
                growth,
                limits.depth,
                steps,
                store,
                &mut frames,
                input,
                &mut taken,
                out,
            ) {
                Halt::Returned(value) => Outcome::Value(value),
                Halt::Trap(kind, place) => Outcome::Trap(kind, place),
                Halt::Fault(kind, place) => Outcome::Fault(kind, place),
                Halt::OutOfSteps => Outcome::OutOfSteps,
                Halt::Stray => unreachable!(),
                Halt::WriteFault => Outcome::WriteFault,
                Halt::NoMemory => Outcome::NoMemory,
            }
        }
    }
}

// The run ends before its first step.
fn barred(ending: Ending, place: Place) -> Outcome
    requires { IsBarred ending }
    ensures { result ≡ barred_as place ending }
{
    match ending {
        Ending::Trap(kind) => Outcome::Trap(kind, place),
        Ending::NoMemory => Outcome::NoMemory,
        Ending::Fault(_) => unreachable!(),
        Ending::Stray => unreachable!(),
        Ending::WriteFault => unreachable!(),
    }
}

// The cells of the entry, whose parameters are given the first numbers of the input.
fn first_cells<S: Store>(
    alloc: Global,
    program: &CoreProgram,
    f: &CoreFn,
    input: &[i64],
    store: &mut S,
) -> Result<Vec<Cell>, Ending>
    requires fits { IsFit (program_of program.now).types (S.content store.old) (S.rows store.old) [] }
    requires countable { CanStep (S.content store.old) }
    requires room { S.limit store.old < most_births }
    requires enough { f.now.parameters ≤ length input.now }
    ensures step { (s : Setting) → s.given.cells ≡ S.limit store.old
        → Begins s (program_of program.now).types (function_of f.now) (entry_arguments (program_of program.now).types (function_of f.now) 0 f.now.parameters input.now) (meant (program_of program.now).types (S.content store.old) (S.rows store.old)) (meant (program_of program.now).types (S.content store.new) (S.rows store.new)) result }
    ensures fits { IfOk result (λ cells. IsFit (program_of program.now).types (S.content store.new) (S.rows store.new) cells.items) }
    ensures grows { OnOk result (Grows most_births (S.content store.old) (S.content store.new)) }
    ensures limit { S.limit store.new ≡ S.limit store.old }
{
    match entry_values(alloc, program, f, input) {
        Err(_) => Err(Ending::NoMemory),
        Ok(values) => given_cells(alloc, program, f, &values, store),
    }
}

// The first numbers of the input, as the types of the parameters.
fn entry_values(
    alloc: Global,
    program: &CoreProgram,
    f: &CoreFn,
    input: &[i64],
) -> Result<Vec<Cell>, NoMemory>
    requires enough { f.now.parameters ≤ length input.now }
    ensures values { IfOk result (λ values. cells_seen values.items ≡ entry_arguments (program_of program.now).types (function_of f.now) 0 f.now.parameters input.now) }
    ensures fits { IfOk result (λ values. (c : Content) (rows : Rows) → CellsFit c rows values.items) }
{
    let mut values = Vec::new(alloc);
    for local in 0..f.parameters {
        let value = entry_value(&program.types, f, local, input[local as usize]);
        values.push(value)?;
    }
    Ok(values)
}

// A number of the input, as the type of a parameter.
fn entry_value(types: &TypeTable, f: &CoreFn, local: u32, number: i64) -> Cell
    ensures seen { cell_seen result ≡ state.Number (spec.converted (spec.type_of types.now (function_of f.now) local) (spec.as_long number)) }
    ensures fits { (c : Content) (rows : Rows) → CellFits c rows result }
{
    Cell::Number(converted(type_at(types, f, local), as_long(number)))
}
