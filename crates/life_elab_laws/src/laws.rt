// What is translated is proper, and has short places.
ghost use Rattle.life_elab.specs.Bounds.{HaveShortPlaces};
ghost use Rattle.life_elab.specs.Over.{over};
ghost use Rattle.life_elab.specs.ProgramForms.{translated};
ghost use Rattle.life_core_served.specs.ProperPrograms.{IsProperProgram, IsServedProgram};
ghost use Rattle.life_pset.specs.Limits.{IsProgramWithinLimits};
ghost use Rattle.life_typed.specs.Programs.{ProgramForm};
ghost use Rattle.life_well_typed.specs.Functions.{IsWellTyped};
ghost use Rattle.life_well_typed.specs.Mains.{HasIntMain};
ghost use Rattle.life_well_typed.specs.Names.{HasNames};
ghost use Rattle.life_well_typed.specs.Results.{HasResults, HasTable};
ghost use Rattle.std.specs.Prelude.{◌≡◌, None};

/// The core program of a well typed program that passes no limit is proper, and its verdict is one that is proved.
pub fn translations_are_proper()
    ensures proper { (p : ProgramForm) → IsWellTyped p → HasResults p → HasTable p → HasNames p → HasIntMain p → over p (translated p) ≡ None
        → IsProgramWithinLimits (translated p) → IsProperProgram (translated p) }
    ensures served { (p : ProgramForm) → IsWellTyped p → HasResults p → HasTable p → HasIntMain p → over p (translated p) ≡ None → IsServedProgram (translated p) }
{}

/// Its places are short, as the rules ask: each has at most eight steps.
pub fn translations_have_short_places()
    ensures { (p : ProgramForm) → IsWellTyped p → HasResults p → HasTable p
        → over p (translated p) ≡ None → HaveShortPlaces (translated p).types (translated p).functions }
{}
