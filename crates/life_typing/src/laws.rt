// What holds of all programs and their types.
ghost use Rattle.std.specs.Prelude.{◌≡◌, map};
ghost use Rattle.life_tree.specs.Views.{program_tree};
ghost use Rattle.life_tree.specs.declared.program.Program.{Program};
ghost use Rattle.life_typing.specs.Resolves.{resolved};

/// Programs with one tree, the same names and the same texts have the same types, or break the same rule first.
pub fn types_depend_on_the_tree_alone()
    ensures { (p q : Program) → program_tree p ≡ program_tree q
        → map (λ t. t.items) p.names.items ≡ map (λ t. t.items) q.names.items
        → map (λ t. t.items) p.texts.items ≡ map (λ t. t.items) q.texts.items
        → resolved p ≡ resolved q }
{}
