// What checking gives is well typed, and its names are in the tree's table.
ghost use Rattle.life_keys.specs.NamedTokens.{are_named};
ghost use Rattle.life_names.specs.Environment.{Scope};
ghost use Rattle.life_tree.specs.Tree.{tokens_of};
ghost use Rattle.life_tree.specs.Views.{program_tree};
ghost use Rattle.life_tree.specs.declared.expr.Expr.{Expr};
ghost use Rattle.life_tree.specs.declared.program.Program.{Program};
ghost use Rattle.life_tree.specs.declared.stmt.Block.{Block};
ghost use Rattle.life_type_expr.specs.Expressions.{expr_meaning};
ghost use Rattle.life_type_stmt.specs.Bodies.{body};
ghost use Rattle.life_typed.specs.Programs.{ProgramForm};
ghost use Rattle.life_typed.specs.TypedForm.{Typed, whole};
ghost use Rattle.life_typed.specs.TypedStatement.{StmtForm};
ghost use Rattle.life_typed.specs.declared.typed_program.TypedLocal.{TypedLocal};
ghost use Rattle.life_types.specs.Types.{HasType, Types};
ghost use Rattle.life_types.specs.declared.ty.TyId.{TyId};
ghost use Rattle.life_typing.specs.Resolves.{resolved};
ghost use Rattle.life_typing_laws.specs.Sound.{Grows, IsFinal, IsSound};
ghost use Rattle.life_well_typed.specs.Expressions.{IsExpression};
ghost use Rattle.life_well_typed.specs.Functions.{IsWellTyped};
ghost use Rattle.life_well_typed.specs.Mains.{HasIntMain};
ghost use Rattle.life_well_typed.specs.Names.{HasNames};
ghost use Rattle.life_well_typed.specs.Results.{HasResults, HasTable};
ghost use Rattle.life_well_typed.specs.Statements.{IsStatement};
ghost use Rattle.life_well_typed.specs.Visible.{Visible};
ghost use Rattle.std.specs.Prelude.{◌≡◌, Bool, List, Ok, false, length, true};

/// An expression is well typed, where it is checked in a sound scope and table, in each program and function that have in the end what there is behind it; what was in the table stays there.
pub fn expressions_are_well_typed()
    ensures grows { (e : Expr) (v : Visible) (scope : Scope) (types : Types) (x : Typed × Types) → expr_meaning e scope types ≡ Ok x → IsSound v scope types → Grows types x.1 }
    ensures well_typed { (p : ProgramForm) (locals : List TypedLocal) (e : Expr) (v : Visible) (scope : Scope) (types : Types) (x : Typed × Types)
        → expr_meaning e scope types ≡ Ok x → IsSound v scope types → IsFinal p locals scope x.1 → IsExpression p locals v.visible (whole x.0) }
{}

/// A function's body is well typed, where it is checked in a sound scope and table, in each program and function that have in the end what there is behind it.
pub fn bodies_are_well_typed()
    ensures { (p : ProgramForm) (locals : List TypedLocal) (result : TyId) (is_main : Bool) (b : Block) (v : Visible) (scope : Scope) (types : Types) (x : (StmtForm × Scope) × Types)
        → body result is_main b scope types ≡ Ok x → IsSound v scope types → HasType types result → IsFinal p locals x.0.1 x.1 → IsStatement p locals result x.0.0 false v }
{}

/// The typed program of a tree is well typed; `main` gives back an int; and the table, which is in order and has each struct, has the type of what each function gives back.
pub fn resolved_programs_are_well_typed()
    ensures well_typed { (tree : Program) (p : ProgramForm) → resolved tree ≡ Ok p → IsWellTyped p }
    ensures results { (tree : Program) (p : ProgramForm) → resolved tree ≡ Ok p → HasResults p }
    ensures mains { (tree : Program) (p : ProgramForm) → resolved tree ≡ Ok p → HasIntMain p }
    ensures table { (tree : Program) (p : ProgramForm) → resolved tree ≡ Ok p → HasTable p }
{}

/// Where the names in a tree are in its table of names, so are those of its typed program: each function's, those of its parameters and variables, and those of structs' members; and no two functions have one name.
pub fn resolved_programs_have_names()
    ensures { (tree : Program) (p : ProgramForm) → resolved tree ≡ Ok p → are_named (length tree.names.items) (tokens_of (program_tree tree)) ≡ true → HasNames p }
{}
