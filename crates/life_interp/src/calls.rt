// Points at which control goes to another function, or comes back from one.
ghost use Rattle.std.specs.Prelude.{◌≡◌, ◌<◌, ◌∷◌, ◌++◌, [], false, length, map, option_map, replicate, slice_get, IfErr, IfOk, IfSome, Some, List, OnOk, ℕ, ℤ};
ghost use Rattle.life_core.specs.Function.{function_of, program_of, Function};
ghost use Rattle.life_core.specs.Linked.{goes};
ghost use Rattle.life_core.specs.Operands.{argument_of, location_of};
ghost use Rattle.life_core.specs.Step.{Call};
ghost use Rattle.life_core.specs.Tree.{Action, Return};
ghost use Rattle.life_cells.specs.Cells.{cell_seen, cells_seen, state_in, state_of};
ghost use Rattle.life_cells.specs.Fits.{meant, CellFits, CellsFit, IsFit, Keeps};
ghost use Rattle.life_cells.specs.Scopes.{function_in, types_in};
ghost use Rattle.life_cells.specs.Typed.{is_nil, HoldsPointer};
ghost use Rattle.life_changes.specs.Bounded.{IsBounded};
ghost use Rattle.life_interp.specs.CallOperands.{slot_values, SuitSlots};
ghost use Rattle.life_interp.specs.Cells.{one_seen, world_of};
ghost use Rattle.life_interp.specs.Fits.{most_births, CanStep, Grows};
ghost use Rattle.life_interp.specs.Frames.{all_cells, function_at, stack_seen, waiting_cells, AllBegin, AreFrames, AreThere};
ghost use Rattle.life_interp.specs.Layouts.{AreReady};
ghost use Rattle.life_interp.specs.Returning.{back_given, CanReturn, Returning, TakesBack, TakesResult};
ghost use Rattle.life_interp.specs.Steps.{Begins, IsSet, LeavesBoth};
ghost use Rattle.life_interp.specs.Walking.{acts, barred_of, returns, Enters, IsSoundWalk, Moves, StandsHere};
ghost use Rattle.life_interp.specs.declared.ending.Halt.TheVariants as halts;
ghost use Rattle.life_cells.specs.declared.cell.Cell.TheVariants as held;
ghost use Rattle.life_types.specs.declared.place.Place.{Place as AnyPlace};
ghost use Rattle.life_seen.specs.Housed.{Later};
ghost use Rattle.life_slots.specs.Slots.{IsBehind};
ghost use Rattle.life_store.specs.Calls.{parameters_given, result_given, slots_returned, target_given};
ghost use Rattle.life_store.specs.Content.{Content};
ghost use Rattle.life_store.specs.Doing.{Setting, Next};
ghost use Rattle.life_store.specs.Meaning.{frame};

use crate::ending::{Ending, Halt, halt_at};
use crate::frames::{Frames, Waiting};
use crate::giving::{give, give_all};
use crate::handing::{all_handed, lend, result_of, told};
use crate::layouts::Layouts;
use crate::reaching::settled;
use life_cells::{Cell, Scope, point, pointer_of};
use life_core::{Argument, CoreFn, CoreProgram, FnId, Location};
use life_slots::return_slot;
use life_store::{Store, TrapKind};
use life_types::{NoMemory, Place};
use std::alloc::Global;
use std::mem::replace;

/// Calls a function, and the frame at hand waits for it.
pub(crate) fn call<'p, S: Store>(
    alloc: Global,
    program: &CoreProgram,
    layouts: &Layouts,
    depth: u32,
    place: Place,
    to: Option<u32>,
    target: &'p Option<Location>,
    function: FnId,
    arguments: &'p [Argument],
    store: &mut S,
    frames: &mut Frames<'p>,
) -> Result<(), Halt>
    requires layouts { AreReady (program_of program.now).types layouts.now }
    requires begin { AllBegin (program_of program.now).functions }
    requires frames { AreFrames (program_of program.now).functions frames.old }
    requires fits { IsFit (program_of program.now).types (S.content store.old) (S.rows store.old) (all_cells frames.old) }
    requires sound { IsSoundWalk (program_of program.now) frames.old (meant (program_of program.now).types (S.content store.old) (S.rows store.old)) }
    requires here { StandsHere (program_of program.now) frames.old place (Action (Call (option_map location_of target.now) function (map argument_of arguments.now))) (goes to) }
    requires bounded { IsBounded (S.limit store.old) (meant (program_of program.now).types (S.content store.old) (S.rows store.old)) }
    requires countable { CanStep (S.content store.old) }
    requires room { S.limit store.old < most_births }
    ensures step { (s : Setting) (ins : List ℤ) → IsSet s (S.limit store.old) (program_of program.now).texts → s.given.depth ≡ depth
        → Moves (acts s (program_of program.now) frames.old (meant (program_of program.now).types (S.content store.old) (S.rows store.old)) ins (Call (option_map location_of target.now) function (map argument_of arguments.now)) place to)
        (program_of program.now).functions (meant (program_of program.now).types (S.content store.old) (S.rows store.old)) frames.new (meant (program_of program.now).types (S.content store.new) (S.rows store.new)) ins result }
    ensures frames { OnOk result (AreFrames (program_of program.now).functions frames.new) }
    ensures fits { OnOk result (IsFit (program_of program.now).types (S.content store.new) (S.rows store.new) (all_cells frames.new)) }
    ensures sound { OnOk result (IsSoundWalk (program_of program.now) frames.new (meant (program_of program.now).types (S.content store.new) (S.rows store.new))) }
    ensures bounded { OnOk result (IsBounded (S.limit store.old) (meant (program_of program.now).types (S.content store.new) (S.rows store.new))) }
    ensures grows { OnOk result (Grows most_births (S.content store.old) (S.content store.new)) }
    ensures limit { S.limit store.new ≡ S.limit store.old }
{
    let f = &program.functions[frames.function as usize];
    let scope = Scope {
        types: &program.types,
        layouts: &layouts.all,
        texts: &program.texts,
        function: f,
    };
    match all_handed(alloc, &scope, store, &frames.cells, arguments) {
        Err(ending) => Err(halt_at(ending, place)),
        Ok(values) => {
            if frames.waiting.len() + 1 >= depth as usize {
                return Err(Halt::Trap(TrapKind::Depth, place));
            }
            lend(&scope, store, &mut frames.cells, arguments);
            match entered(alloc, program, place, function, &values, store) {
                Err(halt) => Err(halt),
                Ok(cells) => wait(frames, place, to, target, arguments, function, cells),
            }
        }
    }
}

// The cells of a new frame whose parameters are given the values.
fn entered<S: Store>(
    alloc: Global,
    program: &CoreProgram,
    place: Place,
    function: FnId,
    values: &[Cell],
    store: &mut S,
) -> Result<Vec<Cell>, Halt>
    requires fits { IsFit (program_of program.now).types (S.content store.old) (S.rows store.old) values.now }
    requires slots { SuitSlots (program_of program.now).types (S.rows store.old) (function_at (program_of program.now).functions function.0) 0 values.now }
    requires countable { CanStep (S.content store.old) }
    requires room { S.limit store.old < most_births }
    ensures step { (s : Setting) → s.given.cells ≡ S.limit store.old → Enters s (program_of program.now) function.0 (cells_seen values.now) place (meant (program_of program.now).types (S.content store.old) (S.rows store.old)) (meant (program_of program.now).types (S.content store.new) (S.rows store.new)) result }
    ensures begins { (s : Setting) → s.given.cells ≡ S.limit store.old → IfOk result (λ cells. (output : List ℕ) (input : List ℤ)
        → parameters_given s (program_of program.now).types (function_at (program_of program.now).functions function.0) 0 (cells_seen values.now)
        (frame (function_at (program_of program.now).functions function.0) (world_of (meant (program_of program.now).types (S.content store.old) (S.rows store.old)) output input)) ≡ Next (state_of (meant (program_of program.now).types (S.content store.new) (S.rows store.new)) cells.items output input)) }
    ensures there { OnOk result (function.0 < length (program_of program.now).functions) }
    ensures fits { IfOk result (λ cells. IsFit (program_of program.now).types (S.content store.new) (S.rows store.new) cells.items) }
    ensures later { OnOk result (Later (S.content store.old) (S.content store.new) (S.rows store.old) (S.rows store.new)) }
    ensures grows { OnOk result (Grows most_births (S.content store.old) (S.content store.new)) }
    ensures limit { S.limit store.new ≡ S.limit store.old }
{
    let number = function.0 as usize;
    if number < program.functions.len() {
        let g = &program.functions[number];
        match given_cells(alloc, program, g, values, store) {
            Err(ending) => Err(let_in(ending, place)),
            Ok(cells) => Ok(cells),
        }
    } else {
        Err(Halt::Stray)
    }
}

/// The cells of a new frame, whose first locals are given the values.
pub(crate) fn given_cells<S: Store>(
    alloc: Global,
    program: &CoreProgram,
    f: &CoreFn,
    values: &[Cell],
    store: &mut S,
) -> Result<Vec<Cell>, Ending>
    requires fits { IsFit (program_of program.now).types (S.content store.old) (S.rows store.old) values.now }
    requires slots { SuitSlots (program_of program.now).types (S.rows store.old) (function_of f.now) 0 values.now }
    requires countable { CanStep (S.content store.old) }
    requires room { S.limit store.old < most_births }
    ensures step { (s : Setting) → s.given.cells ≡ S.limit store.old → Begins s (program_of program.now).types (function_of f.now) (cells_seen values.now) (meant (program_of program.now).types (S.content store.old) (S.rows store.old)) (meant (program_of program.now).types (S.content store.new) (S.rows store.new)) result }
    ensures fits { IfOk result (λ cells. IsFit (program_of program.now).types (S.content store.new) (S.rows store.new) cells.items) }
    ensures later { OnOk result (Later (S.content store.old) (S.content store.new) (S.rows store.old) (S.rows store.new)) }
    ensures grows { OnOk result (Grows most_births (S.content store.old) (S.content store.new)) }
    ensures limit { S.limit store.new ≡ S.limit store.old }
{
    match blank_cells(alloc, f.locals.len()) {
        Err(_) => Err(Ending::NoMemory),
        Ok(mut cells) => match give_all(&program.types, f, store, &mut cells, values) {
            Err(ending) => Err(ending),
            Ok(()) => Ok(cells),
        },
    }
}

// The cells of a new frame.
fn blank_cells(alloc: Global, locals: usize) -> Result<Vec<Cell>, NoMemory>
    ensures { IfOk result (λ cells. cells.items ≡ replicate locals held.Empty) }
{
    let mut cells = Vec::new(alloc);
    cells.resize(locals, Cell::Empty)?;
    Ok(cells)
}

// Why control doesn't enter a function.
fn let_in(ending: Ending, place: Place) -> Halt
    ensures { result ≡ barred_of place ending }
{
    match ending {
        Ending::Trap(kind) => Halt::Trap(kind, place),
        Ending::Fault(_) => Halt::Stray,
        Ending::Stray => Halt::Stray,
        Ending::NoMemory => Halt::NoMemory,
        Ending::WriteFault => Halt::WriteFault,
    }
}

// Control enters the function by its first point.
#[tactic(auto, using(crate::proofs::FrameLemmas::waiting_push, crate::proofs::FrameLemmas::there_push))]
fn wait<'p>(
    frames: &mut Frames<'p>,
    place: Place,
    to: Option<u32>,
    target: &'p Option<Location>,
    arguments: &'p [Argument],
    function: FnId,
    cells: Vec<Cell>,
) -> Result<(), Halt>
    ensures function { OnOk result (frames.new.function ≡ function.0) }
    ensures point { OnOk result (frames.new.point ≡ Some 1) }
    ensures cells { OnOk result (frames.new.cells.items ≡ cells.items) }
    ensures stack { OnOk result ((fs : List Function) → stack_seen fs frames.new.waiting.items
        ≡ record { function = function_at fs frames.old.function; cells = cells_seen frames.old.cells.items; place = place; to = to; target = option_map location_of target.now; arguments = map argument_of arguments.now }
        ∷ stack_seen fs frames.old.waiting.items) }
    ensures held { OnOk result (waiting_cells frames.new.waiting.items ≡ waiting_cells frames.old.waiting.items ++ frames.old.cells.items) }
    ensures there { OnOk result ((fs : List Function) → AreFrames fs frames.old → AreThere fs frames.new.waiting.items) }
    ensures memory { IfErr result (λ halt. halt ≡ halts.NoMemory) }
{
    let waiting = Waiting {
        function: frames.function,
        cells: replace(&mut frames.cells, cells),
        place,
        to,
        target,
        arguments,
    };
    frames.function = function.0;
    frames.point = Some(1);
    match frames.waiting.push(waiting) {
        Err(_) => Err(Halt::NoMemory),
        Ok(()) => Ok(()),
    }
}

/// Leaves the function at hand, and the frame that waits for it goes on.
pub(crate) fn back<S: Store>(
    program: &CoreProgram,
    layouts: &Layouts,
    store: &mut S,
    frames: &mut Frames,
) -> Result<(), Halt>
    requires layouts { AreReady (program_of program.now).types layouts.now }
    requires begin { AllBegin (program_of program.now).functions }
    requires frames { AreFrames (program_of program.now).functions frames.old }
    requires fits { IsFit (program_of program.now).types (S.content store.old) (S.rows store.old) (all_cells frames.old) }
    requires sound { IsSoundWalk (program_of program.now) frames.old (meant (program_of program.now).types (S.content store.old) (S.rows store.old)) }
    requires here { (place : AnyPlace) × StandsHere (program_of program.now) frames.old place Return [] }
    requires bounded { IsBounded (S.limit store.old) (meant (program_of program.now).types (S.content store.old) (S.rows store.old)) }
    requires countable { CanStep (S.content store.old) }
    requires room { S.limit store.old < most_births }
    ensures step { (s : Setting) (ins : List ℤ) → IsSet s (S.limit store.old) (program_of program.now).texts
        → Moves (returns s (program_of program.now) frames.old (meant (program_of program.now).types (S.content store.old) (S.rows store.old)) ins)
        (program_of program.now).functions (meant (program_of program.now).types (S.content store.old) (S.rows store.old)) frames.new (meant (program_of program.now).types (S.content store.new) (S.rows store.new)) ins result }
    ensures frames { OnOk result (AreFrames (program_of program.now).functions frames.new) }
    ensures fits { OnOk result (IsFit (program_of program.now).types (S.content store.new) (S.rows store.new) (all_cells frames.new)) }
    ensures sound { OnOk result (IsSoundWalk (program_of program.now) frames.new (meant (program_of program.now).types (S.content store.new) (S.rows store.new))) }
    ensures bounded { OnOk result (IsBounded (S.limit store.old) (meant (program_of program.now).types (S.content store.new) (S.rows store.new))) }
    ensures grows { OnOk result (Grows most_births (S.content store.old) (S.content store.new)) }
    ensures limit { S.limit store.new ≡ S.limit store.old }
{
    let f = &program.functions[frames.function as usize];
    let result = result_of(&program.types, f, &frames.cells);
    match frames.waiting.pop() {
        None => Err(Halt::Returned(told(result))),
        Some(waiting) => {
            let place = waiting.place;
            let target = waiting.target;
            let arguments = waiting.arguments;
            frames.function = waiting.function;
            frames.point = waiting.to;
            let left = replace(&mut frames.cells, waiting.cells);
            let f = &program.functions[frames.function as usize];
            let scope = Scope {
                types: &program.types,
                layouts: &layouts.all,
                texts: &program.texts,
                function: f,
            };
            match take_back(
                &scope,
                store,
                &mut frames.cells,
                arguments,
                &left,
                target,
                result,
            ) {
                Err(ending) => Err(halt_at(ending, place)),
                Ok(()) => Ok(()),
            }
        }
    }
}

// The frame has what comes back: its slots have their values, and then its target the result.
fn take_back<S: Store>(
    scope: &Scope<'_>,
    store: &mut S,
    cells: &mut Vec<Cell>,
    arguments: &[Argument],
    left: &[Cell],
    target: &Option<Location>,
    given: Option<Cell>,
) -> Result<(), Ending>
    requires fits { IsFit (types_in scope.now) (S.content store.old) (S.rows store.old) cells.old.items }
    requires left { CellsFit (S.content store.old) (S.rows store.old) left.now }
    requires value { IfSome given (CellFits (S.content store.old) (S.rows store.old)) }
    requires returning { Returning (types_in scope.now) (function_in scope.now) (map argument_of arguments.now) (slot_values (cells_seen left.now) 0 (map argument_of arguments.now)) (state_in (meant (types_in scope.now) (S.content store.old) (S.rows store.old)) cells.old.items) }
    requires target { TakesBack (types_in scope.now) (function_in scope.now) (map argument_of arguments.now) (slot_values (cells_seen left.now) 0 (map argument_of arguments.now)) (option_map location_of target.now) (one_seen given) (state_in (meant (types_in scope.now) (S.content store.old) (S.rows store.old)) cells.old.items) }
    requires countable { CanStep (S.content store.old) }
    requires room { S.limit store.old < most_births }
    ensures step { (s : Setting) → s.given.cells ≡ S.limit store.old
        → LeavesBoth (back_given s (types_in scope.now) (function_in scope.now) (map argument_of arguments.now) (slot_values (cells_seen left.now) 0 (map argument_of arguments.now)) (option_map location_of target.now) (one_seen given))
        (meant (types_in scope.now) (S.content store.old) (S.rows store.old)) cells.old.items (meant (types_in scope.now) (S.content store.new) (S.rows store.new)) cells.new.items result }
    ensures fits { OnOk result (IsFit (types_in scope.now) (S.content store.new) (S.rows store.new) cells.new.items) }
    ensures later { OnOk result (Later (S.content store.old) (S.content store.new) (S.rows store.old) (S.rows store.new)) }
    ensures grows { OnOk result (Grows most_births (S.content store.old) (S.content store.new)) }
    ensures limit { S.limit store.new ≡ S.limit store.old }
{
    match return_slots(scope, store, cells, arguments, left) {
        Err(ending) => Err(ending),
        Ok(()) => give_target(scope, store, cells, target, given),
    }
}

// The operands of slots have their values back, from left to right: an argument has what its parameter
// has in the frame that was left.
fn return_slots<S: Store>(
    scope: &Scope<'_>,
    store: &mut S,
    cells: &mut Vec<Cell>,
    arguments: &[Argument],
    left: &[Cell],
) -> Result<(), Ending>
    requires fits { IsFit (types_in scope.now) (S.content store.old) (S.rows store.old) cells.old.items }
    requires left { CellsFit (S.content store.old) (S.rows store.old) left.now }
    requires returning { Returning (types_in scope.now) (function_in scope.now) (map argument_of arguments.now) (slot_values (cells_seen left.now) 0 (map argument_of arguments.now)) (state_in (meant (types_in scope.now) (S.content store.old) (S.rows store.old)) cells.old.items) }
    ensures step { LeavesBoth (slots_returned (types_in scope.now) (function_in scope.now) (map argument_of arguments.now) (slot_values (cells_seen left.now) 0 (map argument_of arguments.now)))
        (meant (types_in scope.now) (S.content store.old) (S.rows store.old)) cells.old.items (meant (types_in scope.now) (S.content store.new) (S.rows store.new)) cells.new.items result }
    ensures fits { OnOk result (IsFit (types_in scope.now) (S.content store.new) (S.rows store.new) cells.new.items) }
    ensures behind { OnOk result (IsBehind (S.content store.old) (S.content store.new) (S.rows store.old) (S.rows store.new)) }
    ensures limit { S.limit store.new ≡ S.limit store.old }
{
    for (index, argument) in arguments.iter().enumerate() {
        match return_one(scope, store, cells, argument, left, index) {
            Err(ending) => return Err(ending),
            Ok(()) => {}
        }
    }
    Ok(())
}

// .. by one argument.
fn return_one<S: Store>(
    scope: &Scope<'_>,
    store: &mut S,
    cells: &mut Vec<Cell>,
    argument: &Argument,
    left: &[Cell],
    index: usize,
) -> Result<(), Ending>
    requires fits { IsFit (types_in scope.now) (S.content store.old) (S.rows store.old) cells.old.items }
    requires left { CellsFit (S.content store.old) (S.rows store.old) left.now }
    requires can { CanReturn (types_in scope.now) (function_in scope.now) (argument_of argument.now) (slice_get left.now index) (S.content store.old) (S.rows store.old) cells.old.items }
    ensures step { LeavesBoth (slots_returned (types_in scope.now) (function_in scope.now) (argument_of argument.now ∷ []) (slot_values (cells_seen left.now) index (argument_of argument.now ∷ [])))
        (meant (types_in scope.now) (S.content store.old) (S.rows store.old)) cells.old.items (meant (types_in scope.now) (S.content store.new) (S.rows store.new)) cells.new.items result }
    ensures fits { OnOk result (IsFit (types_in scope.now) (S.content store.new) (S.rows store.new) cells.new.items) }
    ensures behind { OnOk result (IsBehind (S.content store.old) (S.content store.new) (S.rows store.old) (S.rows store.new)) }
    ensures limit { S.limit store.new ≡ S.limit store.old }
{
    match argument {
        Argument::Value(_) => Ok(()),
        Argument::Given(_) => Ok(()),
        Argument::Pointer(_) => Ok(()),
        Argument::Slot(location) => match cell_left(left, index) {
            None => Err(Ending::Stray),
            Some(value) => settled(return_slot(scope, store, cells, location, value)),
        },
    }
}

// What a local had in the frame that was left.
fn cell_left(left: &[Cell], local: usize) -> Option<Cell>
    ensures { result ≡ slice_get left.now local }
{
    left.get(local).copied()
}

// The target is given the result, if there is one: a member takes a pointer alone.
fn give_target<S: Store>(
    scope: &Scope<'_>,
    store: &mut S,
    cells: &mut Vec<Cell>,
    target: &Option<Location>,
    given: Option<Cell>,
) -> Result<(), Ending>
    requires fits { IsFit (types_in scope.now) (S.content store.old) (S.rows store.old) cells.old.items }
    requires value { IfSome given (CellFits (S.content store.old) (S.rows store.old)) }
    requires target { TakesResult (types_in scope.now) (function_in scope.now) (option_map location_of target.now) (one_seen given) (state_in (meant (types_in scope.now) (S.content store.old) (S.rows store.old)) cells.old.items) }
    requires countable { CanStep (S.content store.old) }
    requires room { S.limit store.old < most_births }
    ensures step { (s : Setting) → s.given.cells ≡ S.limit store.old
        → LeavesBoth (target_given s (types_in scope.now) (function_in scope.now) (option_map location_of target.now) (one_seen given))
        (meant (types_in scope.now) (S.content store.old) (S.rows store.old)) cells.old.items (meant (types_in scope.now) (S.content store.new) (S.rows store.new)) cells.new.items result }
    ensures fits { OnOk result (IsFit (types_in scope.now) (S.content store.new) (S.rows store.new) cells.new.items) }
    ensures later { OnOk result (Later (S.content store.old) (S.content store.new) (S.rows store.old) (S.rows store.new)) }
    ensures grows { OnOk result (Grows most_births (S.content store.old) (S.content store.new)) }
    ensures limit { S.limit store.new ≡ S.limit store.old }
{
    match target {
        None => Ok(()),
        Some(location) => match given {
            None => Err(Ending::Stray),
            Some(value) => {
                if is_whole(location) {
                    give(
                        scope.types,
                        scope.function,
                        store,
                        cells,
                        value,
                        location.local as usize,
                    )
                } else {
                    point_member(scope, store, cells, location, value)
                }
            }
        },
    }
}

// Whether the location is a whole local.
fn is_whole(location: &Location) -> bool
    ensures { result ≡ is_nil (location_of location.now).members }
{
    location.members.is_empty()
}

// A member is given a pointer.
fn point_member<S: Store>(
    scope: &Scope<'_>,
    store: &mut S,
    cells: &mut Vec<Cell>,
    location: &Location,
    value: Cell,
) -> Result<(), Ending>
    requires fits { IsFit (types_in scope.now) (S.content store.old) (S.rows store.old) cells.old.items }
    requires value { CellFits (S.content store.old) (S.rows store.old) value }
    requires holds { HoldsPointer (types_in scope.now) (function_in scope.now) (location_of location.now) (state_in (meant (types_in scope.now) (S.content store.old) (S.rows store.old)) cells.old.items) }
    requires member { is_nil (location_of location.now).members ≡ false }
    ensures step { (s : Setting) → LeavesBoth (result_given s (types_in scope.now) (function_in scope.now) (location_of location.now) (location_of location.now).members (cell_seen value))
        (meant (types_in scope.now) (S.content store.old) (S.rows store.old)) cells.old.items (meant (types_in scope.now) (S.content store.new) (S.rows store.new)) cells.new.items result }
    ensures fits { OnOk result (IsFit (types_in scope.now) (S.content store.new) (S.rows store.new) cells.new.items) }
    ensures keeps { OnOk result (Keeps (S.content store.old) (S.content store.new) (S.rows store.old) (S.rows store.new)) }
    ensures limit { S.limit store.new ≡ S.limit store.old }
{
    match pointer_of(value) {
        None => Err(Ending::Stray),
        Some(pointer) => settled(point(scope, store, cells, location, pointer)),
    }
}
