// What the verdict of one function hangs on.
ghost use Rattle.std.specs.Prelude.{◌≡◌, ℕ};
ghost use Rattle.life_core.specs.Function.{Function, Program};
ghost use Rattle.life_modular.specs.Modular.{AreAlikeAt, IsMovedTo};
ghost use Rattle.life_modular.specs.Renaming.{Renaming, moved_diag};
ghost use Rattle.life_modular.specs.Renumbering.{Renumbering};
ghost use Rattle.life_modular.specs.Spelled.{SpellAlike};
ghost use Rattle.life_modular.specs.Vocabulary.{Vocabulary};
ghost use Rattle.life_rules.specs.Listing.{IsProgramDiagnosed, program_line};
ghost use Rattle.life_rules.specs.Texts.{naming_in};
ghost use Rattle.life_rules.specs.declared.diag.Diag.{Diag};

/// What a function is told hangs on its own text, on the structs and types that it names, and on the signatures of what it calls:
/// where two programs have these alike, each diagnostic of it in one is one of it in the other, whatever else the programs have, and
/// whatever numbers the types and structs get.
pub fn diagnostics_are_modular()
    ensures { (v : Vocabulary) (new : Renumbering) (p q : Program) (n : ℕ) (f : Function) → AreAlikeAt v new p q n f
        → (d : Diag) → d.function ≡ n → IsProgramDiagnosed p d → IsProgramDiagnosed q d }
{}

/// .. and each prints the same line in both, where these also spell alike what the function names.
pub fn lines_are_modular()
    ensures { (v : Vocabulary) (new : Renumbering) (p q : Program) (n : ℕ) (f : Function) → AreAlikeAt v new p q n f
        → SpellAlike v new (naming_in p) (naming_in q) f
        → (d : Diag) → d.function ≡ n → IsProgramDiagnosed p d → program_line p d ≡ program_line q d }
{}

/// A function that stands elsewhere in another program, where places are others and names, texts and functions have other numbers,
/// is told the same there: each diagnostic of it, moved as it is, is one of it there. Where a renaming leads back, this law says the
/// same of the way back.
pub fn diagnostics_move_along()
    ensures { (r : Renaming) (v : Vocabulary) (new : Renumbering) (p q : Program) (n : ℕ) (f : Function) → IsMovedTo r v new p q n f
        → (d : Diag) → d.function ≡ n → IsProgramDiagnosed p d → IsProgramDiagnosed q (moved_diag r d) }
{}
