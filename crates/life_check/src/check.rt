// The check of the text of a file.
ghost use Rattle.std.specs.Prelude.{◌≡◌, ◌<◌, ◌^◌, IfOk, length, map};
ghost use Rattle.life_core.specs.Function.{program_of};
ghost use Rattle.life_elab.specs.Bounds.{HaveNumberedLocals};
ghost use Rattle.life_elab.specs.Elaborated.{Elaborates};
ghost use Rattle.life_core_served.specs.ProperPrograms.{IsProperProgram, IsServedProgram};
ghost use Rattle.life_rules.specs.Listing.{AreProgramDiagnostics, HaveLines, listed_diag, program_line};
ghost use Rattle.life_typed.specs.Programs.{program_view};
ghost use Rattle.life_typing.specs.Answers.{Answers};
ghost use Rattle.life_typing.specs.Resolves.{resolved};
ghost use Rattle.life_check.specs.CheckedText.{ComesOnlyTo, ComesTo, IsListed, Listed, ResolvedComesTo, TypedComesTo};
ghost use Rattle.life_check.specs.Findings.{Finds, IsSound, finding_of};
ghost use Rattle.life_check.specs.Laws.{IsRead, IsTyped};
ghost use Rattle.life_check.specs.Steps.{TakesFew};

use crate::checked::Checked;
use crate::fault::CheckFault;
use life_base::Steps;
use life_core::CoreProgram;
use life_elab::{ElabFault, elaborate};
use life_elab_laws::{translations_are_proper, translations_have_short_places};
use life_fix::program_diagnostics;
use life_parse::parse;
use life_parse_laws::trees_have_names;
use life_rules::ListedDiag;
use life_sound::accept;
use life_tree::Program;
use life_typed::Typed;
use life_typing::{IllFault, resolve};
use life_typing_laws::{resolved_programs_are_well_typed, resolved_programs_have_names};
use std::alloc::Global;
use std::sync::ledger::Ledger;

/// Checks the text of a file of fewer than 2^28 bytes. Its program is accepted where nothing is diagnosed
/// in it; else the program comes back with the list. Each function is solved with this counter: a run of an
/// edge takes one step, so there are at most as many as the bounds of `solve` for its functions in all.
///
/// # Errors
///
/// `Lex`, `Syntax` or the limit of nesting where the text has no tree, `Ill` with the first rule of names
/// and types that the tree breaks, and `Limit` with the first limit that the program passes. `NoMemory` for
/// want of memory.
pub fn check_text<L: Ledger>(
    alloc: Global,
    bytes: &[u8],
    steps: &mut Steps<L>,
) -> Result<Checked, CheckFault>
    requires { length bytes.now < 2 ^ 28 }
    ensures finds { Finds (ComesOnlyTo bytes.now) result }
    ensures ticks { TakesFew (ComesTo bytes.now) steps.old steps.new }
{
    let tree = parse(alloc, bytes)?;
    trees_have_names();
    check_tree(alloc, tree, steps)
}

// A text that has a tree: the tree has types, or the first rule that it breaks decides.
fn check_tree<L: Ledger>(
    alloc: Global,
    tree: Program,
    steps: &mut Steps<L>,
) -> Result<Checked, CheckFault>
    requires { IsRead tree }
    ensures finds { Finds (ResolvedComesTo (resolved tree)) result }
    ensures ticks { TakesFew (ResolvedComesTo (resolved tree)) steps.old steps.new }
{
    let typed = typed_of(alloc, tree)?;
    resolved_programs_are_well_typed();
    resolved_programs_have_names();
    check_typed(alloc, typed, steps)
}

// The types of a tree. It is let go: what comes next needs its room and not the tree.
fn typed_of(alloc: Global, tree: Program) -> Result<Typed, IllFault>
    ensures { Answers program_view result (resolved tree) }
{
    resolve(alloc, &tree)
}

// A text whose tree has types: what is diagnosed in its core program decides, or the first limit that it
// passes.
fn check_typed<L: Ledger>(
    alloc: Global,
    typed: Typed,
    steps: &mut Steps<L>,
) -> Result<Checked, CheckFault>
    requires { IsTyped (program_view typed) }
    ensures finds { Finds (TypedComesTo (program_view typed)) result }
    ensures ticks { TakesFew (TypedComesTo (program_view typed)) steps.old steps.new }
{
    let program = core_of(alloc, typed)?;
    translations_are_proper();
    translations_have_short_places();
    check_program(alloc, program, steps)
}

// The core program of a typed one, which is let go.
fn core_of(alloc: Global, typed: Typed) -> Result<CoreProgram, ElabFault>
    ensures program { Elaborates (program_view typed) result }
    ensures numbered { IfOk result (λ core. HaveNumberedLocals (program_of core).functions) }
{
    elaborate(alloc, &typed)
}

// A proper core program whose verdict is proved: what is diagnosed in it decides.
#[tactic(auto, using(crate::proofs::PassedLimits::proper_within))]
fn check_program<L: Ledger>(
    alloc: Global,
    program: CoreProgram,
    steps: &mut Steps<L>,
) -> Result<Checked, CheckFault>
    requires proper { IsProperProgram (program_of program) }
    requires served { IsServedProgram (program_of program) }
    ensures finds { Finds (IsListed (program_of program)) result }
    ensures ticks { TakesFew (IsListed (program_of program)) steps.old steps.new }
{
    let diagnostics = program_diagnostics(alloc, &program, steps)?;
    Ok(decided(program, diagnostics))
}

// The program is accepted where the list is empty.
fn decided(program: CoreProgram, diagnostics: Vec<ListedDiag>) -> Checked
    requires proper { IsProperProgram (program_of program) }
    requires served { IsServedProgram (program_of program) }
    requires listed { AreProgramDiagnostics (program_of program) (map listed_diag diagnostics.items) }
    requires lines { HaveLines (program_line (program_of program)) diagnostics.items }
    ensures finding { finding_of result ≡ Listed (program_of program) (map listed_diag diagnostics.items) }
    ensures sound { IsSound result }
{
    match accept(program, diagnostics) {
        Ok(accepted) => Checked::Accepted(accepted),
        Err(rejected) => Checked::Refused {
            program: rejected.program,
            diagnostics: rejected.diagnostics,
        },
    }
}
