// What holds of each tree that a file has.
ghost use Rattle.std.specs.Prelude.{◌≡◌, ℕ, List, length, true};
ghost use Rattle.life_keys.specs.NamedTokens.{are_named};
ghost use Rattle.life_parse.specs.Ends.{IsSource};
ghost use Rattle.life_tree.specs.Tree.{tokens_of};
ghost use Rattle.life_tree.specs.Views.{program_tree};
ghost use Rattle.life_tree.specs.declared.program.Program.{Program};

/// Each name in the tree of a file is in its table of names.
pub fn trees_have_names()
    ensures { (bytes : List ℕ) (p : Program) → IsSource bytes p
        → are_named (length p.names.items) (tokens_of (program_tree p)) ≡ true }
{}
