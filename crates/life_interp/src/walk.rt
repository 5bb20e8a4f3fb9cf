// The walk over the points of a program's functions.
ghost use Rattle.std.specs.Prelude.{◌≡◌, ◌<◌, [], drop, map};
ghost use Rattle.life_core.specs.Function.{program_of};
ghost use Rattle.life_core.specs.Linked.{code_of};
ghost use Rattle.life_cells.specs.Fits.{meant, IsFit};
ghost use Rattle.life_changes.specs.Bounded.{IsBounded};
ghost use Rattle.life_interp.specs.Fits.{most_births, CanWalk};
ghost use Rattle.life_interp.specs.Frames.{all_cells, AllBegin, AreFrames};
ghost use Rattle.life_interp.specs.Flats.{table_in};
ghost use Rattle.life_interp.specs.Layouts.{AreReady};
ghost use Rattle.life_interp.specs.Runs.{links_seen, table_seen};
ghost use Rattle.life_interp.specs.Steps.{IsSet};
ghost use Rattle.life_interp.specs.Walk.{walk};
ghost use Rattle.life_interp.specs.Walking.{from, IsSoundWalk, WalkEnds};
ghost use Rattle.life_store.specs.Doing.{Setting};

use crate::ending::Halt;
use crate::flat::Flat;
use crate::frames::Frames;
use crate::layouts::Layouts;
use crate::point::pass;
use crate::quick::stride;
use life_base::Sink;
use life_core::{CoreProgram, LinkRef};
use life_store::{Growth, Store};
use std::alloc::Global;

/// Goes from point to point, each of which pays a step, until the entry returns or the run stops.
pub(crate) fn walk<'p, S: Store, O: Sink>(
    alloc: Global,
    program: &'p CoreProgram,
    code: &[Vec<LinkRef<'p>>],
    tables: &[Vec<Flat>],
    layouts: &Layouts,
    growth: Growth,
    depth: u32,
    steps: u64,
    store: &mut S,
    frames: &mut Frames<'p>,
    input: &[i64],
    taken: &mut usize,
    out: &mut O,
) -> Halt
    requires linked { map links_seen code.now ≡ map code_of (program_of program.now).functions }
    requires tables { map table_seen tables.now ≡ map table_in (map code_of (program_of program.now).functions) }
    requires layouts { AreReady (program_of program.now).types layouts.now }
    requires begin { AllBegin (program_of program.now).functions }
    requires frames { AreFrames (program_of program.now).functions frames.old }
    requires fits { IsFit (program_of program.now).types (S.content store.old) (S.rows store.old) (all_cells frames.old) }
    requires sound { IsSoundWalk (program_of program.now) frames.old (meant (program_of program.now).types (S.content store.old) (S.rows store.old)) }
    requires bounded { IsBounded (S.limit store.old) (meant (program_of program.now).types (S.content store.old) (S.rows store.old)) }
    requires countable { CanWalk steps (S.content store.old) }
    requires room { S.limit store.old < most_births }
    ensures { (s : Setting) → IsSet s (S.limit store.old) (program_of program.now).texts → s.given.growth ≡ growth → s.given.depth ≡ depth
        → WalkEnds (from (program_of program.now).functions frames.old (meant (program_of program.now).types (S.content store.old) (S.rows store.old)) (drop taken.old input.now) (walk s (program_of program.now) steps) steps [])
        (record { old = O.taken out.old; new = O.taken out.new; faults = O.faults out.old; later = O.faults out.new }) result }
{
    let mut left = steps;
    while left > 0 {
        let rest = stride(program, tables, layouts, left, store, frames);
        if rest == 0 {
            return Halt::OutOfSteps;
        }
        match pass(
            alloc, program, code, layouts, growth, depth, store, frames, input, taken, out,
        ) {
            Ok(()) => {}
            Err(halt) => return halt,
        }
        left = rest - 1;
    }
    Halt::OutOfSteps
}
