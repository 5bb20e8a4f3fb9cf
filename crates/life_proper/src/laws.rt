// What the checker lets through is ready on every way.
ghost use Rattle.life_core.specs.Function.{Function, Program};
ghost use Rattle.life_core.specs.Proper.{HasReadyWays, IsReadyProgram};
ghost use Rattle.life_types.specs.Types.{Types};
ghost use Rattle.life_proper.specs.Checking.{checked, is_checked};
ghost use Rattle.std.specs.Prelude.{IsTrue};

/// A function that is let through is ready on every way through it.
pub fn checked_functions_are_ready()
    ensures { (types : Types) (f : Function) → IsTrue (is_checked types f) → HasReadyWays types f }
{}

/// .. and so is a program.
pub fn checked_programs_are_ready()
    ensures { (p : Program) → IsTrue (checked p) → IsReadyProgram p }
{}
