// The diagnostics of whole programs.
ghost use Rattle.std.specs.Prelude.{◌↔◌, ◌+◌, ◌≤◌, Contains, IfOk, OnOk, map};
ghost use Rattle.life_core.specs.Function.{function_of, program_of};
ghost use Rattle.life_fix.specs.Candidates.{candidate_seen};
ghost use Rattle.life_fix.specs.Programs.{AddsDiagnosed, most_program_steps};
ghost use Rattle.life_fix.specs.Solving.{most_steps};
ghost use Rattle.life_pset.specs.Elements.{IsWithinLimits};
ghost use Rattle.life_pset.specs.Limits.{IsProgramWithinLimits};
ghost use Rattle.life_rules.specs.Diagnosing.{IsDiagnosed};
ghost use Rattle.life_rules.specs.Listing.{AreProgramDiagnostics, HaveLines, listed_diag, program_line};
ghost use Rattle.life_rules.specs.Texts.{naming_of};
ghost use Rattle.life_rules.specs.declared.diag.Diag.{Diag};

use crate::diagnosis::found;
use crate::listing::{listed, push_candidates};
use crate::solver::solve_listed;
use life_base::Steps;
use life_contract::Signatures;
use life_core::{CoreFn, CoreProgram, FnId, Names, spots};
use life_rules::{Diag, ListedDiag};
use life_sets::BitRows;
use life_types::{NoMemory, TypeTable};
use std::alloc::Global;
use std::sync::ledger::Ledger;

/// The diagnostics of a program: those of its functions, each by its own body, the signatures, the types
/// and the names alone. They stand in the order of the lines that they print, each line once, by the
/// least diagnostic that prints it in the order of `Diag`, and each with its line. Each function is solved
/// once, and takes the steps of that. The only error is the want of memory.
pub fn program_diagnostics<L: Ledger>(
    alloc: Global,
    program: &CoreProgram,
    steps: &mut Steps<L>,
) -> Result<Vec<ListedDiag>, NoMemory>
    requires { IsProgramWithinLimits (program_of program.now) }
    ensures listed { IfOk result
        (λ all. AreProgramDiagnostics (program_of program.now) (map listed_diag all.items)) }
    ensures lines { IfOk result (λ all. HaveLines (program_line (program_of program.now)) all.items) }
    ensures ticks { steps.new ≤ steps.old + most_program_steps (program_of program.now) }
{
    let sigs = Signatures::of(alloc, program)?;
    let mut candidates = Vec::new(alloc);
    for (index, f) in program.functions.iter().enumerate() {
        let id = FnId(index as u32);
        push_diagnosed(
            alloc,
            id,
            f,
            &sigs,
            &program.types,
            &program.names,
            steps,
            &mut candidates,
        )?;
    }
    Ok(listed(candidates))
}

// Adds the diagnostics of one function, with their lines.
fn push_diagnosed<L: Ledger>(
    alloc: Global,
    id: FnId,
    f: &CoreFn,
    sigs: &Signatures,
    types: &TypeTable,
    names: &Names,
    steps: &mut Steps<L>,
    out: &mut Vec<ListedDiag>,
) -> Result<(), NoMemory>
    requires { IsWithinLimits types.now (function_of f.now) }
    ensures adds { OnOk result (AddsDiagnosed (naming_of names.now sigs.now) types.now id.0 (function_of f.now)
        (map candidate_seen out.old.items) (map candidate_seen out.new.items)) }
    ensures ticks { steps.new ≤ steps.old + most_steps types.now (function_of f.now) }
{
    let found = function_found(alloc, id, f, sigs, types, steps)?;
    push_candidates(alloc, names, f, sigs, types, &found, out)
}

// All that is wrong in one function.
fn function_found<L: Ledger>(
    alloc: Global,
    id: FnId,
    f: &CoreFn,
    sigs: &Signatures,
    types: &TypeTable,
    steps: &mut Steps<L>,
) -> Result<Vec<Diag>, NoMemory>
    requires { IsWithinLimits types.now (function_of f.now) }
    ensures found { IfOk result (λ all. (d : Diag) → Contains all.items d ↔ IsDiagnosed sigs.now types.now id.0 (function_of f.now) d) }
    ensures ticks { steps.new ≤ steps.old + most_steps types.now (function_of f.now) }
{
    let spots = spots(alloc, f)?;
    let solution = solve_listed::<BitRows, L>(alloc, f, sigs, types, &spots, steps)?;
    found(alloc, f, id, sigs, types, &spots, &solution)
}
