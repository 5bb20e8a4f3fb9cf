// The points of all functions, and the run of one of them.
ghost use Rattle.std.specs.Prelude.{◌≡◌, ◌≤◌, ◌<◌, IfOk, IfSome, length, map, slice_get};
ghost use Rattle.life_core.specs.Function.{program_of};
ghost use Rattle.life_core.specs.Linked.{code_of};
ghost use Rattle.life_core_served.specs.ProperPrograms.{IsProperProgram};
ghost use Rattle.life_interp.specs.Flats.{table_in};
ghost use Rattle.life_interp.specs.Layouts.{AreReady};
ghost use Rattle.life_interp.specs.Runs.{links_seen, table_seen, RunEnds};
ghost use Rattle.life_store.specs.Meaning.{run_of, IsAdmitted};

use crate::flat::Flat;
use crate::layouts::Layouts;
use crate::outcome::Outcome;
use crate::run::{MOST_STEPS, run_on};
use life_base::Sink;
use life_core::{CoreProgram, FnId, LinkRef, links};
use life_store::{Growth, Limits, PlainStore, TrapKind};
use life_types::NoMemory;
use std::alloc::Global;

/// The points of each function, each with its ways on.
pub(crate) fn all_links(alloc: Global, p: &CoreProgram) -> Result<Vec<Vec<LinkRef>>, NoMemory>
    requires { IsProperProgram (program_of p.now) }
    ensures { IfOk result (λ code. map links_seen code.items ≡ map code_of (program_of p.now).functions) }
{
    let mut code = Vec::new(alloc);
    for f in &p.functions {
        code.push(links(alloc, f)?)?;
    }
    Ok(code)
}

/// Runs a function of the program in a store of its own.
pub(crate) fn run_entry<'p, O: Sink>(
    alloc: Global,
    program: &'p CoreProgram,
    code: &[Vec<LinkRef<'p>>],
    tables: &[Vec<Flat>],
    layouts: &Layouts,
    entry: FnId,
    input: &[i64],
    growth: Growth,
    limits: Limits,
    steps: u64,
    out: &mut O,
) -> Outcome
    requires linked { map links_seen code.now ≡ map code_of (program_of program.now).functions }
    requires tables { map table_seen tables.now ≡ map table_in (map code_of (program_of program.now).functions) }
    requires layouts { AreReady (program_of program.now).types layouts.now }
    requires proper { IsProperProgram (program_of program.now) }
    requires entry { entry.0 < length (program_of program.now).functions }
    requires steps { steps ≤ MOST_STEPS }
    requires admitted { IfSome (slice_get (program_of program.now).functions entry.0) (λ f. IsAdmitted (program_of program.now) f input.now) }
    ensures { IfSome (slice_get (program_of program.now).functions entry.0) (λ f.
        RunEnds (run_of (record { growth = growth; cells = limits.cells; depth = limits.depth }) (program_of program.now) entry.0 f input.now steps)
        (record { old = O.taken out.old; new = O.taken out.new; faults = O.faults out.old; later = O.faults out.new }) result) }
{
    let f = &program.functions[entry.0 as usize];
    if limits.depth == 0 {
        return Outcome::Trap(TrapKind::Depth, f.place);
    }
    let mut store = PlainStore::new(alloc, limits.cells);
    run_on(
        alloc, program, code, tables, layouts, entry, input, growth, limits, steps, &mut store, out,
    )
}
