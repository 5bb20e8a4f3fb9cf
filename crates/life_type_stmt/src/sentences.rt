// Statements with no statement inside.
ghost use Rattle.std.specs.Prelude.{◌≡◌};
ghost use Rattle.life_typed.specs.TypedStatement.{stmt_view};
ghost use Rattle.life_names.specs.Checked.{Gives};
ghost use Rattle.life_names.specs.Found.{Finds};
ghost use Rattle.life_typed.specs.TypedStatement as typed;
ghost use Rattle.life_type_stmt.specs.Statements as spec;

use crate::conditions::{condition, items};
use crate::returns::returned;
use crate::simples::simple_statement;
use life_names::{Environment, IllFault, IllKind, ill};
use life_tree::{Expr, PrintPart, Simple};
use life_typed::TypedStmt;
use life_types::{Place, TyId, TypeTable};
use std::alloc::Global;

/// An assignment, a step or a call.
pub(crate) fn sentence(
    alloc: Global,
    environment: &Environment<'_>,
    types: &mut TypeTable,
    simple: &Simple,
    semicolon: Place,
) -> Result<TypedStmt, IllFault>
    ensures { Gives (λ s. (stmt_view s, environment.now)) types.new result (spec.sentence simple.now semicolon environment.now types.old) }
{
    let simple = simple_statement(alloc, environment, types, simple)?;
    Ok(TypedStmt::Simple { simple, semicolon })
}

/// A `break`, which stands in a loop.
pub(crate) fn loop_break(
    in_loop: bool,
    keyword: Place,
    semicolon: Place,
) -> Result<TypedStmt, IllFault>
    ensures { Finds stmt_view result (spec.in_loop_only in_loop (typed.loop_break keyword semicolon) keyword) }
{
    if in_loop {
        Ok(TypedStmt::Break { keyword, semicolon })
    } else {
        Err(ill(IllKind::WrongType, keyword))
    }
}

/// A `continue`, which stands in a loop.
pub(crate) fn loop_continue(
    in_loop: bool,
    keyword: Place,
    semicolon: Place,
) -> Result<TypedStmt, IllFault>
    ensures { Finds stmt_view result (spec.in_loop_only in_loop (typed.loop_continue keyword semicolon) keyword) }
{
    if in_loop {
        Ok(TypedStmt::Continue { keyword, semicolon })
    } else {
        Err(ill(IllKind::WrongType, keyword))
    }
}

/// A `return`.
pub(crate) fn return_stmt(
    alloc: Global,
    environment: &Environment<'_>,
    types: &mut TypeTable,
    result_type: TyId,
    keyword: Place,
    value: &Option<Box<Expr>>,
    semicolon: Place,
) -> Result<TypedStmt, IllFault>
    ensures { Gives (λ s. (stmt_view s, environment.now)) types.new result (spec.return_stmt result_type keyword value.now semicolon environment.now types.old) }
{
    let value = returned(alloc, environment, types, result_type, keyword, value)?;
    Ok(TypedStmt::Return {
        keyword,
        value,
        semicolon,
    })
}

/// What is printed.
pub(crate) fn print(
    alloc: Global,
    environment: &Environment<'_>,
    types: &mut TypeTable,
    parts: &[PrintPart],
    semicolon: Place,
) -> Result<TypedStmt, IllFault>
    ensures { Gives (λ s. (stmt_view s, environment.now)) types.new result (spec.print_stmt parts.now semicolon environment.now types.old) }
{
    let items = items(alloc, environment, types, parts)?;
    Ok(TypedStmt::Print { items, semicolon })
}

/// An `assert`.
pub(crate) fn assertion(
    alloc: Global,
    environment: &Environment<'_>,
    types: &mut TypeTable,
    keyword: Place,
    decides: &Expr,
    closing: Place,
    semicolon: Place,
) -> Result<TypedStmt, IllFault>
    ensures { Gives (λ s. (stmt_view s, environment.now)) types.new result (spec.assertion keyword decides.now closing semicolon environment.now types.old) }
{
    let condition = condition(alloc, environment, types, decides)?;
    Ok(TypedStmt::Assert {
        keyword,
        condition,
        closing,
        semicolon,
    })
}
