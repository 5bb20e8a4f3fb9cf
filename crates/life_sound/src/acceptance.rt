// Programs that are accepted, and programs that are rejected.
ghost use Rattle.std.specs.Prelude.{◌≡◌, ◌≢◌, [], map, MatchResult};
ghost use Rattle.life_core.specs.Function.{program_of};
ghost use Rattle.life_core_served.specs.ProperPrograms.{IsProperProgram, IsServedProgram};
ghost use Rattle.life_rules.specs.Listing.{AreProgramDiagnostics, listed_diag};
ghost use Rattle.life_store.specs.NoFault.{NoFault};

use life_core::CoreProgram;
use life_rules::ListedDiag;
use std::marker::Model;

/// A program of which no run uses anything null or dangling: whatever its entry, of those that are
/// admitted, its input, the growth of its vectors, its limits and the number of its steps.
#[derive(Drop)]
pub struct Accepted {
    program: CoreProgram,
}

impl Model for Accepted {
    ghost use Rattle.std.specs.Coded.{codes};
    ghost use Rattle.life_core.specs.Function.{program_of};
    ghost use Rattle.life_core.specs.contracts.program.CoreProgram as e;
    ghost use Rattle.life_core.specs.declared.program.CoreProgram.{CoreProgram};
    ghost use Rattle.life_store.specs.NoFault.{NoFault};

    ghost Value = { CoreProgram };

    ghost coded = { Prim.hlevel (codes, e.the_row.coded) };

    ghost view = { λ accepted. accepted.program };

    ghost invariant = { λ accepted. NoFault (program_of accepted.program) };
}

/// A program that isn't accepted, with what was found in it and the lines of that.
#[derive(Drop)]
pub struct Rejected {
    pub program: CoreProgram,
    pub diagnostics: Vec<ListedDiag>,
}

/// Accepts a proper program that is served and of which nothing is diagnosed. Either way the program, and what was found, come
/// back as they were. It takes no memory.
pub fn accept(program: CoreProgram, diagnostics: Vec<ListedDiag>) -> Result<Accepted, Rejected>
    requires proper { IsProperProgram (program_of program) }
    requires served { IsServedProgram (program_of program) }
    requires all { AreProgramDiagnostics (program_of program) (map listed_diag diagnostics.items) }
    ensures { MatchResult result
        (λ accepted. (accepted ≡ program) × (diagnostics.items ≡ []))
        (λ rejected. (rejected.program ≡ program) × (rejected.diagnostics ≡ diagnostics) × (diagnostics.items ≢ [])) }
{
    if diagnostics.is_empty() {
        Ok(Accepted { program })
    } else {
        Err(Rejected {
            program,
            diagnostics,
        })
    }
}

impl Accepted {
    /// The program.
    pub fn program(&self) -> &CoreProgram
        ensures program { result.now ≡ self.now }
        ensures safe { NoFault (program_of result.now) }
    {
        &self.program
    }
}
