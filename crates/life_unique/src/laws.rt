// What holds of all programs and their trees.
ghost use Rattle.std.specs.Prelude.{◌≡◌, map};
ghost use Rattle.life_tree.specs.Views.{program_tree};
ghost use Rattle.life_tree.specs.declared.program.Program.{Program};
ghost use Rattle.life_unique.specs.SettledPrograms.{settled_program};

/// Programs with one tree, the same names and the same texts are one, but for where their parts lie in memory.
pub fn programs_of_one_tree_settle_as_one()
    ensures { (p q : Program) → program_tree p ≡ program_tree q
        → map (λ t. t.items) p.names.items ≡ map (λ t. t.items) q.names.items
        → map (λ t. t.items) p.texts.items ≡ map (λ t. t.items) q.texts.items
        → settled_program p ≡ settled_program q }
{}
