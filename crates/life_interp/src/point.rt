// One point.
ghost use Rattle.std.specs.Prelude.{◌≡◌, ◌<◌, ◌⊎◌, drop, map, List, OnErr, OnOk, ℤ};
ghost use Rattle.life_core.specs.Function.{program_of};
ghost use Rattle.life_core.specs.Link.{leads_seen};
ghost use Rattle.life_core.specs.Linked.{code_of, goes};
ghost use Rattle.life_core.specs.Step.{asked_of, step_of};
ghost use Rattle.life_core.specs.Tree.{Action, Question};
ghost use Rattle.life_cells.specs.Fits.{meant, IsFit};
ghost use Rattle.life_changes.specs.Bounded.{IsBounded};
ghost use Rattle.life_interp.specs.Fits.{most_births, CanStep, Grows};
ghost use Rattle.life_interp.specs.Frames.{all_cells, AllBegin, AreFrames};
ghost use Rattle.life_interp.specs.Layouts.{AreReady};
ghost use Rattle.life_interp.specs.Runs.{links_seen};
ghost use Rattle.life_interp.specs.Steps.{IsSet};
ghost use Rattle.life_interp.specs.Walk.{first_way, second_way, way_on};
ghost use Rattle.life_interp.specs.Walking.{acts, asks, passes, IsSoundWalk, Moves, PointLeads, StandsHere};
ghost use Rattle.life_store.specs.Doing.{Setting};
ghost use Rattle.life_types.specs.declared.place.Place.{Place as AnyPlace};

use crate::ask::ask;
use crate::calls::{back, call};
use crate::ending::{Halt, halt_at};
use crate::frames::Frames;
use crate::layouts::Layouts;
use crate::links::link_at;
use crate::steps::perform;
use life_base::Sink;
use life_cells::Scope;
use life_core::{CoreProgram, Instr, Leads, LinkRef, NodeRef, Test};
use life_store::{Growth, Store, TrapKind};
use life_types::Place;
use std::alloc::Global;

/// Does what stands at the point of the frame at hand, and goes on to the next.
#[inline(never)]
pub(crate) fn pass<'p, S: Store, O: Sink>(
    alloc: Global,
    program: &'p CoreProgram,
    code: &[Vec<LinkRef<'p>>],
    layouts: &Layouts,
    growth: Growth,
    depth: u32,
    store: &mut S,
    frames: &mut Frames<'p>,
    input: &[i64],
    taken: &mut usize,
    out: &mut O,
) -> Result<(), Halt>
    requires linked { map links_seen code.now ≡ map code_of (program_of program.now).functions }
    requires layouts { AreReady (program_of program.now).types layouts.now }
    requires begin { AllBegin (program_of program.now).functions }
    requires frames { AreFrames (program_of program.now).functions frames.old }
    requires fits { IsFit (program_of program.now).types (S.content store.old) (S.rows store.old) (all_cells frames.old) }
    requires sound { IsSoundWalk (program_of program.now) frames.old (meant (program_of program.now).types (S.content store.old) (S.rows store.old)) }
    requires bounded { IsBounded (S.limit store.old) (meant (program_of program.now).types (S.content store.old) (S.rows store.old)) }
    requires countable { CanStep (S.content store.old) }
    requires room { S.limit store.old < most_births }
    ensures step { (s : Setting) → IsSet s (S.limit store.old) (program_of program.now).texts → s.given.growth ≡ growth → s.given.depth ≡ depth
        → PointLeads (passes s (program_of program.now) frames.old (meant (program_of program.now).types (S.content store.old) (S.rows store.old)) (drop taken.old input.now))
        (program_of program.now).functions (meant (program_of program.now).types (S.content store.old) (S.rows store.old)) (drop taken.old input.now) frames.new (meant (program_of program.now).types (S.content store.new) (S.rows store.new)) (drop taken.new input.now)
        (record { old = O.taken out.old; new = O.taken out.new; faults = O.faults out.old; later = O.faults out.new }) result }
    ensures frames { OnOk result (AreFrames (program_of program.now).functions frames.new) }
    ensures fits { OnOk result (IsFit (program_of program.now).types (S.content store.new) (S.rows store.new) (all_cells frames.new)) }
    ensures sound { OnOk result (IsSoundWalk (program_of program.now) frames.new (meant (program_of program.now).types (S.content store.new) (S.rows store.new))) }
    ensures bounded { OnOk result (IsBounded (S.limit store.old) (meant (program_of program.now).types (S.content store.new) (S.rows store.new))) }
    ensures grows { OnOk result (Grows most_births (S.content store.old) (S.content store.new)) }
    ensures limit { S.limit store.new ≡ S.limit store.old }
{
    match link_at(&code[frames.function as usize], frames.point) {
        None => Err(Halt::Stray),
        Some(link) => match link.spot.node {
            NodeRef::Action(instr) => act(
                alloc,
                program,
                layouts,
                growth,
                depth,
                instr,
                link.spot.place,
                first_way(link.leads),
                store,
                frames,
                input,
                taken,
                out,
            ),
            NodeRef::Question(test) => choose(program, layouts, store, test, link.leads, frames),
            NodeRef::Return => back(program, layouts, store, frames),
            NodeRef::Stop => Err(Halt::Trap(TrapKind::Assert, link.spot.place)),
        },
    }
}

// Does an instruction from which control goes to this point, or comes back to it.
fn act<'p, S: Store, O: Sink>(
    alloc: Global,
    program: &CoreProgram,
    layouts: &Layouts,
    growth: Growth,
    depth: u32,
    instr: &'p Instr,
    place: Place,
    to: Option<u32>,
    store: &mut S,
    frames: &mut Frames<'p>,
    input: &[i64],
    taken: &mut usize,
    out: &mut O,
) -> Result<(), Halt>
    requires layouts { AreReady (program_of program.now).types layouts.now }
    requires begin { AllBegin (program_of program.now).functions }
    requires frames { AreFrames (program_of program.now).functions frames.old }
    requires fits { IsFit (program_of program.now).types (S.content store.old) (S.rows store.old) (all_cells frames.old) }
    requires sound { IsSoundWalk (program_of program.now) frames.old (meant (program_of program.now).types (S.content store.old) (S.rows store.old)) }
    requires here { StandsHere (program_of program.now) frames.old place (Action (step_of instr.now)) (goes to) }
    requires bounded { IsBounded (S.limit store.old) (meant (program_of program.now).types (S.content store.old) (S.rows store.old)) }
    requires countable { CanStep (S.content store.old) }
    requires room { S.limit store.old < most_births }
    ensures step { (s : Setting) → IsSet s (S.limit store.old) (program_of program.now).texts → s.given.growth ≡ growth → s.given.depth ≡ depth
        → PointLeads (acts s (program_of program.now) frames.old (meant (program_of program.now).types (S.content store.old) (S.rows store.old)) (drop taken.old input.now) (step_of instr.now) place to)
        (program_of program.now).functions (meant (program_of program.now).types (S.content store.old) (S.rows store.old)) (drop taken.old input.now) frames.new (meant (program_of program.now).types (S.content store.new) (S.rows store.new)) (drop taken.new input.now)
        (record { old = O.taken out.old; new = O.taken out.new; faults = O.faults out.old; later = O.faults out.new }) result }
    ensures frames { OnOk result (AreFrames (program_of program.now).functions frames.new) }
    ensures fits { OnOk result (IsFit (program_of program.now).types (S.content store.new) (S.rows store.new) (all_cells frames.new)) }
    ensures sound { OnOk result (IsSoundWalk (program_of program.now) frames.new (meant (program_of program.now).types (S.content store.new) (S.rows store.new))) }
    ensures bounded { OnOk result (IsBounded (S.limit store.old) (meant (program_of program.now).types (S.content store.new) (S.rows store.new))) }
    ensures grows { OnOk result (Grows most_births (S.content store.old) (S.content store.new)) }
    ensures limit { S.limit store.new ≡ S.limit store.old }
{
    match instr {
        Instr::Call {
            target,
            function,
            arguments,
        } => call(
            alloc, program, layouts, depth, place, to, target, *function, arguments, store, frames,
        ),
        _ => {
            let f = &program.functions[frames.function as usize];
            match perform(
                alloc,
                program,
                layouts,
                growth,
                f,
                instr,
                store,
                &mut frames.cells,
                input,
                taken,
                out,
            ) {
                Err(ending) => Err(halt_at(ending, place)),
                Ok(()) => {
                    frames.point = to;
                    Ok(())
                }
            }
        }
    }
}

/// Goes on by whether a test holds.
#[inline(always)]
pub(crate) fn choose<S: Store>(
    program: &CoreProgram,
    layouts: &Layouts,
    store: &S,
    test: &Test,
    leads: Leads,
    frames: &mut Frames,
) -> Result<(), Halt>
    requires layouts { AreReady (program_of program.now).types layouts.now }
    requires frames { AreFrames (program_of program.now).functions frames.old }
    requires fits { IsFit (program_of program.now).types (S.content store.now) (S.rows store.now) (all_cells frames.old) }
    requires sound { IsSoundWalk (program_of program.now) frames.old (meant (program_of program.now).types (S.content store.now) (S.rows store.now)) }
    requires here { (place : AnyPlace) × StandsHere (program_of program.now) frames.old place (Question (asked_of test.now)) (leads_seen leads) }
    ensures step { (s : Setting) (ins : List ℤ) → Moves (asks s (program_of program.now) frames.old (meant (program_of program.now).types (S.content store.now) (S.rows store.now)) ins (asked_of test.now) (leads_seen leads)) (program_of program.now).functions (meant (program_of program.now).types (S.content store.now) (S.rows store.now)) frames.new (meant (program_of program.now).types (S.content store.now) (S.rows store.now)) ins result }
    ensures point { OnOk result ((frames.new.point ≡ first_way (leads_seen leads)) ⊎ (frames.new.point ≡ second_way (leads_seen leads))) }
    ensures function { frames.new.function ≡ frames.old.function }
    ensures cells { frames.new.cells ≡ frames.old.cells }
    ensures waiting { frames.new.waiting ≡ frames.old.waiting }
    ensures stays { OnErr result (frames.new ≡ frames.old) }
{
    let f = &program.functions[frames.function as usize];
    let scope = Scope {
        types: &program.types,
        layouts: &layouts.all,
        texts: &program.texts,
        function: f,
    };
    match ask(&scope, store, &frames.cells, test) {
        None => Err(Halt::Stray),
        Some(holds) => {
            frames.point = way_on(leads, holds);
            Ok(())
        }
    }
}

// The way on from a test.
#[inline(always)]
fn way_on(leads: Leads, holds: bool) -> Option<u32>
    ensures { result ≡ way_on holds (leads_seen leads) }
{
    if holds {
        first_way(leads)
    } else {
        second_way(leads)
    }
}

/// The way on where there is one alone, or where a test held.
#[inline(always)]
pub(crate) fn first_way(leads: Leads) -> Option<u32>
    ensures { result ≡ first_way (leads_seen leads) }
{
    match leads {
        Leads::Nowhere => None,
        Leads::On(next) => next,
        Leads::Parts { held, .. } => held,
    }
}

/// .. and where a test didn't hold.
#[inline(always)]
pub(crate) fn second_way(leads: Leads) -> Option<u32>
    ensures { result ≡ second_way (leads_seen leads) }
{
    match leads {
        Leads::Nowhere => None,
        Leads::On(_) => None,
        Leads::Parts { failed, .. } => failed,
    }
}
