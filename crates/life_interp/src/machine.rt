// The machine that runs a core program.
ghost use Rattle.std.specs.Prelude.{◌≡◌, ◌≤◌, ◌<◌, IfOk, IfSome, length, map, slice_get};
ghost use Rattle.life_core.specs.Function.{program_of};
ghost use Rattle.life_core.specs.Linked.{code_of};
ghost use Rattle.life_core_served.specs.ProperPrograms.{IsProperProgram};
ghost use Rattle.life_interp.specs.Flats.{table_in};
ghost use Rattle.life_interp.specs.Layouts.{AreReady};
ghost use Rattle.life_interp.specs.Runs.{links_seen, table_seen, RunEnds};
ghost use Rattle.life_store.specs.Meaning.{run_of, IsAdmitted};

use crate::entry::{all_links, run_entry};
use crate::flat::{Flat, all_flat};
use crate::layouts::{Layouts, prepared};
use crate::outcome::Outcome;
use crate::run::MOST_STEPS;
use life_base::Sink;
use life_core::{CoreProgram, FnId, LinkRef};
use life_store::{Growth, Limits};
use life_types::NoMemory;
use std::alloc::Global;

/// A program, its points each with its ways on, the layouts of its types, and the limits of its runs.
pub struct Machine<'p> {
    pub program: &'p CoreProgram,
    pub limits: Limits,
    alloc: Global,
    code: Vec<Vec<LinkRef<'p>>>,
    tables: Vec<Vec<Flat>>,
    layouts: Layouts,
    ghost laid: { AreReady (program_of program.now).types layouts },
    ghost linked: { map links_seen code.items ≡ map code_of (program_of program.now).functions },
    ghost flat: { map table_seen tables.items ≡ map table_in (map code_of (program_of program.now).functions) },
}

impl<'p> Drop for Machine<'p> {
    fn drop(self) {
        let Machine {
            program: _,
            limits: _,
            alloc: _,
            code: _code,
            tables: _tables,
            layouts: _layouts,
        } = self;
    }
}

impl<'p> Machine<'p> {
    /// A machine for the program. `NoMemory` says that memory was wanted, or that the values of a type
    /// have more than 2^32 words, for which no store has room.
    pub fn prepare(
        alloc: Global,
        p: &'p CoreProgram,
        limits: Limits,
    ) -> Result<Machine<'p>, NoMemory>
        requires { IsProperProgram (program_of p.now) }
        ensures program { IfOk result (λ machine. machine.program.now ≡ p.now) }
        ensures limits { IfOk result (λ machine. machine.limits ≡ limits) }
    {
        let layouts = prepared(alloc, &p.types)?;
        let code = all_links(alloc, p)?;
        let tables = all_flat(alloc, &code)?;
        Ok(Machine {
            program: p,
            limits,
            alloc,
            code,
            tables,
            layouts,
        })
    }

    /// Runs a function of the program from an empty store: at most so many steps, each point taking
    /// one. The first numbers of the input are the function's arguments.
    pub fn run<O: Sink>(
        &mut self,
        entry: FnId,
        input: &[i64],
        policy: Growth,
        steps: u64,
        out: &mut O,
    ) -> Outcome
        requires proper { IsProperProgram (program_of self.old.program.now) }
        requires entry { entry.0 < length (program_of self.old.program.now).functions }
        requires steps { steps ≤ MOST_STEPS }
        requires admitted { IfSome (slice_get (program_of self.old.program.now).functions entry.0) (λ f. IsAdmitted (program_of self.old.program.now) f input.now) }
        ensures run { IfSome (slice_get (program_of self.old.program.now).functions entry.0) (λ f.
            RunEnds (run_of (record { growth = policy; cells = self.old.limits.cells; depth = self.old.limits.depth }) (program_of self.old.program.now) entry.0 f input.now steps)
            (record { old = O.taken out.old; new = O.taken out.new; faults = O.faults out.old; later = O.faults out.new }) result) }
        ensures program { self.new.program.now ≡ self.old.program.now }
        ensures limits { self.new.limits ≡ self.old.limits }
    {
        run_entry(
            self.alloc,
            self.program,
            &self.code,
            &self.tables,
            &self.layouts,
            entry,
            input,
            policy,
            self.limits,
            steps,
            out,
        )
    }
}
