// What decides, and what is printed.
ghost use Rattle.std.specs.Prelude.{◌≡◌, map};
ghost use Rattle.life_typed.specs.TypedForm.{typed_view};
ghost use Rattle.life_typed.specs.TypedStatement.{item_view, optional_view};
ghost use Rattle.life_names.specs.Checked.{Gives};
ghost use Rattle.life_type_stmt.specs.Conditions as spec;

use life_names::{Environment, IllFault, IllKind, allowed};
use life_tree::{Expr, PrintItem, PrintPart};
use life_type_expr::{additive, expr, literal_allowed};
use life_typed::{TypedExpr, TypedItem, is_condition, is_printed};
use life_types::TypeTable;
use std::alloc::Global;

/// This rule is broken unless that holds.
pub(crate) fn unless(holds: bool, kind: IllKind) -> Option<IllKind>
    ensures { result ≡ spec.unless holds kind }
{
    if holds { None } else { Some(kind) }
}

/// An expression that decides (ISO/IEC 14882:2017 [stmt.stmt], [conv.bool]).
#[tactic(auto, using(life_names::proofs::Views::views))]
pub(crate) fn condition(
    alloc: Global,
    environment: &Environment<'_>,
    types: &mut TypeTable,
    expression: &Expr,
) -> Result<TypedExpr, IllFault>
    ensures { Gives typed_view types.new result (spec.condition expression.now environment.now types.old) }
{
    let found = expr(alloc, environment, types, expression)?;
    literal_allowed(false, &found)?;
    allowed(
        unless(is_condition(found.ty), IllKind::WrongType),
        found.place,
    )?;
    Ok(found)
}

/// .. where it may be left out.
pub(crate) fn optional_condition(
    alloc: Global,
    environment: &Environment<'_>,
    types: &mut TypeTable,
    expression: &Option<Box<Expr>>,
) -> Result<Option<TypedExpr>, IllFault>
    ensures { Gives (optional_view typed_view) types.new result (spec.optional_condition expression.now environment.now types.old) }
{
    match expression {
        Some(expression) => {
            let found = condition(alloc, environment, types, expression)?;
            Ok(Some(found))
        }
        None => Ok(None),
    }
}

/// An item that is printed.
#[tactic(auto, using(life_names::proofs::Views::views))]
fn item(
    alloc: Global,
    environment: &Environment<'_>,
    types: &mut TypeTable,
    printed: &PrintItem,
) -> Result<TypedItem, IllFault>
    ensures { Gives item_view types.new result (spec.item printed.now environment.now types.old) }
{
    match printed {
        PrintItem::Value(value) => {
            let found = additive(alloc, environment, types, value)?;
            allowed(
                unless(is_printed(found.ty), IllKind::WrongType),
                found.place,
            )?;
            Ok(TypedItem::Value(found))
        }
        PrintItem::EndLine(name) => Ok(TypedItem::EndLine(name.word)),
    }
}

/// The items of a statement.
pub(crate) fn items(
    alloc: Global,
    environment: &Environment<'_>,
    types: &mut TypeTable,
    parts: &[PrintPart],
) -> Result<Vec<TypedItem>, IllFault>
    ensures { Gives (λ x. map item_view x.items) types.new result (spec.items parts.now environment.now types.old) }
{
    let mut found = Vec::new(alloc);
    'parts: for part in parts {
        let next = item(alloc, environment, types, &part.item)?;
        found.push(next)?;
    }
    Ok(found)
}
