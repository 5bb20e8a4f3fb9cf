// The sets of a program that aren't empty.
ghost use Rattle.std.specs.Option.{option_copied};
ghost use Rattle.std.specs.Prelude.{◌≡◌, ◌+◌, ◌++◌, ◌≤◌, true, length, map, slice_get, IfOk, OnOk};
ghost use Rattle.life_core.specs.Function.{function_of, program_of};
ghost use Rattle.life_core.specs.Node.{spot_seen};
ghost use Rattle.life_pset.specs.Elements.{IsWithinLimits};
ghost use Rattle.life_pset.specs.Limits.{IsProgramWithinLimits};
ghost use Rattle.life_fix.specs.Programs.{most_program_steps};
ghost use Rattle.life_fix.specs.Solving.{most_steps, pairs_in};
ghost use Rattle.life_psets.specs.Sets.{element_if, held_elements, in_turn, set_if, set_of, set_seen, sets_at, sets_before, AddsSets, AreSets};

use crate::line::{Before, SetLine};
use life_base::Steps;
use life_contract::Signatures;
use life_core::{CoreFn, CoreProgram, Point, SpotRef, spots};
use life_fix::{Solution, solve};
use life_pset::{AbsPlace, Element, ElementTable};
use life_sets::{BitRows, Rows};
use life_types::{NoMemory, TypeTable};
use std::alloc::Global;
use std::sync::ledger::Ledger;

/// The points-to sets of a program: a line for each point of each function and each location whose set
/// before the point isn't empty, in the order of functions, of points, and of the locations' numbers. Each
/// function is solved once, and takes the steps of that. The only error is the want of memory.
pub fn sets_of<L: Ledger>(
    alloc: Global,
    program: &CoreProgram,
    steps: &mut Steps<L>,
) -> Result<Vec<SetLine>, NoMemory>
    requires { IsProgramWithinLimits (program_of program.now) }
    ensures sets { IfOk result (λ lines. AreSets (program_of program.now) (map set_seen lines.items)) }
    ensures ticks { steps.new ≤ steps.old + most_program_steps (program_of program.now) }
{
    let sigs = Signatures::of(alloc, program)?;
    let mut lines = Vec::new(alloc);
    for (index, f) in program.functions.iter().enumerate() {
        push_function(
            alloc,
            index as u32,
            f,
            &sigs,
            &program.types,
            steps,
            &mut lines,
        )?;
    }
    Ok(lines)
}

// Adds the sets of one function.
fn push_function<L: Ledger>(
    alloc: Global,
    function: u32,
    f: &CoreFn,
    sigs: &Signatures,
    types: &TypeTable,
    steps: &mut Steps<L>,
    out: &mut Vec<SetLine>,
) -> Result<(), NoMemory>
    requires { IsWithinLimits types.now (function_of f.now) }
    ensures adds { OnOk result (AddsSets sigs.now types.now function (function_of f.now)
        (map set_seen out.old.items) (map set_seen out.new.items)) }
    ensures ticks { steps.new ≤ steps.old + most_steps types.now (function_of f.now) }
{
    let solution = solve::<BitRows, L>(alloc, f, sigs, types, steps)?;
    let spots = spots(alloc, f)?;
    push_solved(alloc, function, &spots, &solution, out)
}

// Adds the sets before each of these points.
fn push_solved<R: Rows>(
    alloc: Global,
    function: u32,
    spots: &[SpotRef],
    solution: &Solution<R>,
    out: &mut Vec<SetLine>,
) -> Result<(), NoMemory>
    requires { length spots.now ≤ 1024 }
    ensures { OnOk result (map set_seen out.new.items ≡ map set_seen out.old.items
        ++ in_turn (length spots.now) (λ k. sets_at function solution.now.table k (slice_get (map spot_seen spots.now) k) (pairs_in R.has (slice_get solution.now.rows k)))) }
{
    for (index, spot) in spots.iter().enumerate() {
        let point = Point(index as u32 + 1);
        let before = Before {
            function,
            point,
            place: spot.place,
        };
        push_before(alloc, before, solution.table(), solution.row(point), out)?;
    }
    Ok(())
}

// Adds the sets of this row, if there is one.
fn push_before<R: Rows>(
    alloc: Global,
    before: Before,
    table: &ElementTable,
    row: Option<&R>,
    out: &mut Vec<SetLine>,
) -> Result<(), NoMemory>
    ensures { OnOk result (map set_seen out.new.items ≡ map set_seen out.old.items
        ++ sets_before before table.now (pairs_in R.has (option_copied row.entry))) }
{
    match row {
        None => Ok(()),
        Some(row) => push_row(alloc, before, table, row, out),
    }
}

// Adds the sets of this row, location by location.
fn push_row<R: Rows>(
    alloc: Global,
    before: Before,
    table: &ElementTable,
    row: &R,
    out: &mut Vec<SetLine>,
) -> Result<(), NoMemory>
    ensures { OnOk result
        (map set_seen out.new.items ≡ map set_seen out.old.items ++ sets_before before table.now (R.has row.now)) }
{
    for number in 0..table.location_count() {
        push_set(alloc, before, table, row, number, out)?;
    }
    Ok(())
}

// Adds the set of the location with this number, if it isn't empty.
fn push_set<R: Rows>(
    alloc: Global,
    before: Before,
    table: &ElementTable,
    row: &R,
    number: u32,
    out: &mut Vec<SetLine>,
) -> Result<(), NoMemory>
    ensures { OnOk result (map set_seen out.new.items ≡ map set_seen out.old.items
        ++ set_of before (slice_get table.now.locations number) (held_elements table.now (R.has row.now number))) }
{
    match table.location_at(number) {
        None => Ok(()),
        Some(location) => {
            let elements = elements_of(alloc, table, row, number)?;
            push_filled(before, *location, elements, out)
        }
    }
}

fn push_filled(
    before: Before,
    location: AbsPlace,
    elements: Vec<Element>,
    out: &mut Vec<SetLine>,
) -> Result<(), NoMemory>
    ensures { OnOk result
        (map set_seen out.new.items ≡ map set_seen out.old.items ++ set_if before location elements.items) }
{
    if !elements.is_empty() {
        out.push(SetLine {
            function: before.function,
            point: before.point,
            place: before.place,
            location,
            elements,
        })?;
    }
    Ok(())
}

// The elements of the location with this number.
fn elements_of<R: Rows>(
    alloc: Global,
    table: &ElementTable,
    row: &R,
    location: u32,
) -> Result<Vec<Element>, NoMemory>
    ensures { IfOk result
        (λ elements. elements.items ≡ held_elements table.now (R.has row.now location)) }
{
    let mut elements = Vec::new(alloc);
    for number in 0..table.element_count() {
        push_held(table, row, location, number, &mut elements)?;
    }
    Ok(elements)
}

fn push_held<R: Rows>(
    table: &ElementTable,
    row: &R,
    location: u32,
    number: u32,
    out: &mut Vec<Element>,
) -> Result<(), NoMemory>
    ensures { OnOk result (out.new.items ≡ out.old.items
        ++ element_if (R.has row.now location number) (slice_get table.now.elements number)) }
{
    if row.contains(location, number) {
        push_element(table.element(number), out)
    } else {
        Ok(())
    }
}

fn push_element(element: Option<&Element>, out: &mut Vec<Element>) -> Result<(), NoMemory>
    ensures { OnOk result
        (out.new.items ≡ out.old.items ++ element_if true (option_copied element.entry)) }
{
    match element {
        None => {}
        Some(element) => out.push(*element)?,
    }
    Ok(())
}
