// Points that are passed at once: where a number comes to life or ends, a value is made, read or written, an element is
// pointed to, or a register is asked.
ghost use Rattle.std.specs.Prelude.{◌≡◌, ◌≤◌, ◌⊎◌, map, option_and_then, option_copied, slice_get, List, Some, ℕ, ℤ};
ghost use Rattle.life_core.specs.Function.{program_of, Program};
ghost use Rattle.life_core.specs.Linked.{code_of, goes, Lead};
ghost use Rattle.life_core.specs.Step.{Eval, NonZero, Step};
ghost use Rattle.life_core.specs.Tree.{Action};
ghost use Rattle.life_cells.specs.Cells.{state_in};
ghost use Rattle.life_cells.specs.Fits.{meant, IsFit};
ghost use Rattle.life_cells.specs.Scopes.{function_in, texts_in, types_in};
ghost use Rattle.life_changes.specs.Bounded.{IsBounded};
ghost use Rattle.life_interp.specs.Accessed.{HasPlaces};
ghost use Rattle.life_interp.specs.Fits.{most_births, CanStep, CanWalk, Grows};
ghost use Rattle.life_interp.specs.Flats.{step_in, table_in, table_of};
ghost use Rattle.life_interp.specs.Frames.{all_cells, function_at, AreFrames};
ghost use Rattle.life_interp.specs.Layouts.{AreReady};
ghost use Rattle.life_interp.specs.Quick.{Attempts, FramesLeft, IsScopeOf, PassesTo, WalksOn, WhereDone, Whether};
ghost use Rattle.life_interp.specs.Runs.{table_seen};
ghost use Rattle.life_interp.specs.Steps.{IsSet, StandsIn};
ghost use Rattle.life_interp.specs.Walk.{first_way, second_way, way_on};
ghost use Rattle.life_interp.specs.Walking.{acts, asks, passes, IsSoundWalk, StandsHere};
ghost use Rattle.life_store.specs.Content.{Content};
ghost use Rattle.life_store.specs.Doing.{Setting};
ghost use Rattle.life_store.specs.References.{Rows};
ghost use Rattle.life_types.specs.Trees.{IsOrdered};
ghost use Rattle.life_types.specs.declared.place.Place.{Place as AnyPlace};

use crate::ask::ask_register;
use crate::flat::{Act, Flat};
use crate::frames::Frames;
use crate::layouts::Layouts;
use crate::locals::{end_at_once, live_at_once};
use crate::spots::{index_named, load_named, load_pointed, save_named, save_pointed};
use crate::values::evaluate;
use life_cells::{Cell, Scope};
use life_core::{CoreProgram, Operation};
use life_store::Store;

/// Passes points as long as that is done at once, and answers how many steps are left.
#[inline(never)]
pub(crate) fn stride<'p, S: Store>(
    program: &'p CoreProgram,
    tables: &[Vec<Flat>],
    layouts: &Layouts,
    steps: u64,
    store: &mut S,
    frames: &mut Frames<'p>,
) -> u64
    requires tables { map table_seen tables.now ≡ map table_in (map code_of (program_of program.now).functions) }
    requires layouts { AreReady (program_of program.now).types layouts.now }
    requires frames { AreFrames (program_of program.now).functions frames.old }
    requires fits { IsFit (program_of program.now).types (S.content store.old) (S.rows store.old) (all_cells frames.old) }
    requires sound { IsSoundWalk (program_of program.now) frames.old (meant (program_of program.now).types (S.content store.old) (S.rows store.old)) }
    requires bounded { IsBounded (S.limit store.old) (meant (program_of program.now).types (S.content store.old) (S.rows store.old)) }
    requires countable { CanWalk steps (S.content store.old) }
    ensures step { (s : Setting) → IsSet s (S.limit store.old) (program_of program.now).texts
        → WalksOn s (program_of program.now) steps frames.old (meant (program_of program.now).types (S.content store.old) (S.rows store.old)) result frames.new (meant (program_of program.now).types (S.content store.new) (S.rows store.new)) }
    ensures fewer { result ≤ steps }
    ensures frames { AreFrames (program_of program.now).functions frames.new }
    ensures fits { IsFit (program_of program.now).types (S.content store.new) (S.rows store.new) (all_cells frames.new) }
    ensures sound { IsSoundWalk (program_of program.now) frames.new (meant (program_of program.now).types (S.content store.new) (S.rows store.new)) }
    ensures bounded { IsBounded (S.limit store.old) (meant (program_of program.now).types (S.content store.new) (S.rows store.new)) }
    ensures countable { CanWalk result (S.content store.new) }
    ensures limit { S.limit store.new ≡ S.limit store.old }
{
    let table = tables[frames.function as usize].as_slice();
    let f = &program.functions[frames.function as usize];
    let scope = Scope {
        types: &program.types,
        layouts: &layouts.all,
        texts: &program.texts,
        function: f,
    };
    let mut left = steps;
    while left > 0 {
        if !pass_at_once(program, &scope, table, layouts, store, frames) {
            return left;
        }
        left -= 1;
    }
    0
}

// Passes the point, if what stands there is done at once and nothing stops it; else nothing changes.
#[inline(always)]
fn pass_at_once<'p, S: Store>(
    program: &'p CoreProgram,
    scope: &Scope<'_>,
    table: &[Flat],
    layouts: &Layouts,
    store: &mut S,
    frames: &mut Frames<'p>,
) -> bool
    requires scope { IsScopeOf (program_of program.now) frames.old.function scope.now }
    requires table { table.now ≡ table_of (function_at (program_of program.now).functions frames.old.function) }
    requires layouts { AreReady (program_of program.now).types layouts.now }
    requires frames { AreFrames (program_of program.now).functions frames.old }
    requires fits { IsFit (program_of program.now).types (S.content store.old) (S.rows store.old) (all_cells frames.old) }
    requires sound { IsSoundWalk (program_of program.now) frames.old (meant (program_of program.now).types (S.content store.old) (S.rows store.old)) }
    requires bounded { IsBounded (S.limit store.old) (meant (program_of program.now).types (S.content store.old) (S.rows store.old)) }
    requires countable { CanStep (S.content store.old) }
    ensures step { (s : Setting) → IsSet s (S.limit store.old) (program_of program.now).texts → (ins : List ℤ) → Whether result
        (PassesTo (passes s (program_of program.now) frames.old (meant (program_of program.now).types (S.content store.old) (S.rows store.old)) ins) (program_of program.now).functions frames.new (meant (program_of program.now).types (S.content store.new) (S.rows store.new)) ins)
        (FramesLeft (S.content store.old) (S.content store.new) (S.rows store.old) (S.rows store.new) frames.old frames.new) }
    ensures frames { AreFrames (program_of program.now).functions frames.new }
    ensures fits { IsFit (program_of program.now).types (S.content store.new) (S.rows store.new) (all_cells frames.new) }
    ensures sound { IsSoundWalk (program_of program.now) frames.new (meant (program_of program.now).types (S.content store.new) (S.rows store.new)) }
    ensures bounded { IsBounded (S.limit store.old) (meant (program_of program.now).types (S.content store.new) (S.rows store.new)) }
    ensures grows { Grows most_births (S.content store.old) (S.content store.new) }
    ensures function { frames.new.function ≡ frames.old.function }
    ensures limit { S.limit store.new ≡ S.limit store.old }
{
    match flat_at(table, frames.point) {
        None => false,
        Some(flat) => match &flat.act {
            Act::Other => false,
            Act::Test { register, failed } => test_at_once(*register, flat.to, *failed, frames),
            _ => act_at_once(program, scope, layouts, flat, store, frames),
        },
    }
}

// The point with this number, if there is one.
#[inline(always)]
fn flat_at(table: &[Flat], point: Option<u32>) -> Option<&Flat>
    ensures { option_copied result ≡ option_and_then (slice_get table.now) point }
{
    match point {
        None => None,
        Some(number) => table.get(number as usize),
    }
}

// Goes on by whether a register isn't 0, if it holds a number; else nothing changes.
#[inline(always)]
fn test_at_once(
    register: u32,
    held: Option<u32>,
    failed: Option<u32>,
    frames: &mut Frames<'_>,
) -> bool
    ensures step { (s : Setting) (p : Program) (c : Content) (ins : List ℤ) (leads : List Lead) → first_way leads ≡ held → second_way leads ≡ failed → Whether result
        (PassesTo (asks s p frames.old c ins (NonZero register) leads) p.functions frames.new c ins)
        (frames.new ≡ frames.old) }
    ensures point { (leads : List Lead) → first_way leads ≡ held → second_way leads ≡ failed → WhereDone result ((frames.new.point ≡ first_way leads) ⊎ (frames.new.point ≡ second_way leads)) }
    ensures function { frames.new.function ≡ frames.old.function }
    ensures cells { frames.new.cells ≡ frames.old.cells }
    ensures waiting { frames.new.waiting ≡ frames.old.waiting }
{
    match ask_register(&frames.cells, register) {
        None => false,
        Some(holds) => {
            frames.point = way(holds, held, failed);
            true
        }
    }
}

// The way on from a test.
#[inline(always)]
fn way(holds: bool, held: Option<u32>, failed: Option<u32>) -> Option<u32>
    ensures { (leads : List Lead) → first_way leads ≡ held → second_way leads ≡ failed → result ≡ way_on holds leads }
{
    if holds { held } else { failed }
}

// Does what the point says and goes on from there, if that is done at once; else nothing changes.
#[inline(always)]
fn act_at_once<'p, S: Store>(
    program: &'p CoreProgram,
    scope: &Scope<'_>,
    layouts: &Layouts,
    flat: &Flat,
    store: &mut S,
    frames: &mut Frames<'p>,
) -> bool
    requires scope { IsScopeOf (program_of program.now) frames.old.function scope.now }
    requires layouts { AreReady (program_of program.now).types layouts.now }
    requires frames { AreFrames (program_of program.now).functions frames.old }
    requires fits { IsFit (program_of program.now).types (S.content store.old) (S.rows store.old) (all_cells frames.old) }
    requires sound { IsSoundWalk (program_of program.now) frames.old (meant (program_of program.now).types (S.content store.old) (S.rows store.old)) }
    requires here { (i : Step) × (step_in flat.now.act ≡ Some i) × (place : AnyPlace) × StandsHere (program_of program.now) frames.old place (Action i) (goes flat.now.to) }
    requires bounded { IsBounded (S.limit store.old) (meant (program_of program.now).types (S.content store.old) (S.rows store.old)) }
    requires countable { CanStep (S.content store.old) }
    ensures step { (s : Setting) → IsSet s (S.limit store.old) (program_of program.now).texts → (ins : List ℤ) (i : Step) → step_in flat.now.act ≡ Some i → (place : AnyPlace) → Whether result
        (PassesTo (acts s (program_of program.now) frames.old (meant (program_of program.now).types (S.content store.old) (S.rows store.old)) ins i place flat.now.to) (program_of program.now).functions frames.new (meant (program_of program.now).types (S.content store.new) (S.rows store.new)) ins)
        (FramesLeft (S.content store.old) (S.content store.new) (S.rows store.old) (S.rows store.new) frames.old frames.new) }
    ensures frames { AreFrames (program_of program.now).functions frames.new }
    ensures fits { IsFit (program_of program.now).types (S.content store.new) (S.rows store.new) (all_cells frames.new) }
    ensures sound { IsSoundWalk (program_of program.now) frames.new (meant (program_of program.now).types (S.content store.new) (S.rows store.new)) }
    ensures bounded { IsBounded (S.limit store.old) (meant (program_of program.now).types (S.content store.new) (S.rows store.new)) }
    ensures grows { Grows most_births (S.content store.old) (S.content store.new) }
    ensures function { frames.new.function ≡ frames.old.function }
    ensures limit { S.limit store.new ≡ S.limit store.old }
{
    if !do_at_once(scope, layouts, store, &mut frames.cells, &flat.act) {
        return false;
    }
    frames.point = flat.to;
    true
}

// Does an instruction, if nothing stops it; else nothing changes.
#[inline(always)]
fn do_at_once<S: Store>(
    scope: &Scope<'_>,
    layouts: &Layouts,
    store: &mut S,
    cells: &mut Vec<Cell>,
    act: &Act,
) -> bool
    requires layouts { AreReady (types_in scope.now) layouts.now }
    requires fits { IsFit (types_in scope.now) (S.content store.old) (S.rows store.old) cells.old.items }
    requires places { (i : Step) → step_in act.now ≡ Some i → HasPlaces (types_in scope.now) (function_in scope.now) (state_in (meant (types_in scope.now) (S.content store.old) (S.rows store.old)) cells.old.items) i }
    requires ordered { (i : Step) → step_in act.now ≡ Some i → IsOrdered (types_in scope.now) }
    requires stands { (i : Step) → step_in act.now ≡ Some i → (rest : ℕ → ℕ) × StandsIn (types_in scope.now) (function_in scope.now) rest (meant (types_in scope.now) (S.content store.old) (S.rows store.old)) cells.old.items }
    requires countable { CanStep (S.content store.old) }
    ensures done { (i : Step) → step_in act.now ≡ Some i
        → Attempts (types_in scope.now) (function_in scope.now) (S.limit store.old) (texts_in scope.now) i (S.content store.old) (S.content store.new) (S.rows store.old) (S.rows store.new) cells.old cells.new result }
    ensures limit { S.limit store.new ≡ S.limit store.old }
{
    match act {
        Act::Live { local } => live_at_once(scope, store, cells, *local),
        Act::End { local } => end_at_once(scope, layouts, store, cells, *local),
        Act::Eval { into, operation } => eval_at_once(scope, cells, *into, *operation),
        Act::Load { into, local } => load_named(scope, store, cells, *into, *local),
        Act::LoadThrough { into, pointer } => load_pointed(scope, store, cells, *into, *pointer),
        Act::Save { local, from } => save_named(scope, store, cells, *local, *from),
        Act::SaveThrough { pointer, from } => save_pointed(scope, store, cells, *pointer, *from),
        Act::Index {
            pointer,
            owner,
            index,
        } => index_named(scope, store, cells, *pointer, *owner, *index),
        Act::Other => false,
        Act::Test { .. } => false,
    }
}

// Gives a register a value, if nothing stops that.
#[inline(always)]
fn eval_at_once(scope: &Scope<'_>, cells: &mut Vec<Cell>, into: u32, operation: Operation) -> bool
    ensures { (limit : ℕ) (c : Content) (rows : Rows) → IsFit (types_in scope.now) c rows cells.old.items
        → Attempts (types_in scope.now) (function_in scope.now) limit (texts_in scope.now) (Eval into operation) c c rows rows cells.old cells.new result }
{
    match evaluate(scope.types, scope.function, into, operation, cells) {
        Ok(()) => true,
        Err(_) => false,
    }
}
