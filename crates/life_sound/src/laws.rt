// What holds of the runs of proper programs: none strays, and where nothing is diagnosed none ends in a fault.
ghost use Rattle.std.specs.Prelude.{◌≡◌, ℕ, ℤ, List, Some, slice_get};
ghost use Rattle.life_core.specs.Function.{Function, Program};
ghost use Rattle.life_core_served.specs.ProperPrograms.{IsProperProgram, IsServedProgram};
ghost use Rattle.life_rules.specs.Listing.{IsProgramDiagnosed};
ghost use Rattle.life_rules.specs.declared.diag.Diag.{Diag};
ghost use Rattle.life_store.specs.Doing.{Given};
ghost use Rattle.life_store.specs.Meaning.{IsAdmitted, IsFound, run_of};
ghost use Rattle.life_store.specs.NoFault.{NoFault};

/// No run of a proper program from an entry that is admitted takes a step that no proper program takes.
pub fn proper_runs_are_never_lost()
    ensures { (p : Program) (given : Given) (entry : ℕ) (f : Function) (input : List ℤ) (n : ℕ)
        → IsProperProgram p → slice_get p.functions entry ≡ Some f → IsAdmitted p f input
        → IsFound (run_of given p entry f input n).outcome }
{}

/// A proper program that is served and in which nothing is diagnosed uses nothing null or dangling in any run from an entry
/// that is admitted.
pub fn undiagnosed_programs_are_free_of_faults()
    ensures { (p : Program) → IsProperProgram p → IsServedProgram p → ((d : Diag) → IsProgramDiagnosed p d → ⊥) → NoFault p }
{}
