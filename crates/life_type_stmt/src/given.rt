// What a variable, a target or a result is given (ISO/IEC 14882:2017 [dcl.init]).
ghost use Rattle.std.specs.Prelude.{◌≡◌};
ghost use Rattle.life_typed.specs.TypedForm.{typed_view};
ghost use Rattle.life_typed.specs.TypedStatement.{initial_view, optional_view};
ghost use Rattle.life_names.specs.Checked.{Gives};
ghost use Rattle.life_type_stmt.specs.Given as spec;
ghost use Rattle.life_type_expr.specs.Lists as lists;

use life_names::{Environment, IllFault, IllKind};
use life_tree::{Expr, InitList, InitialValue, Initializer};
use life_type_expr::{elements, expr, is_taken, literal_allowed, misfit_kind};
use life_typed::{Category, ExprType, Misfit, TypedExpr, TypedInitial, fits};
use life_types::{Ty, TypeTable};
use std::alloc::Global;

/// The rule that a misfit breaks, where this is the general one.
pub(crate) fn misfit_of(general: IllKind, found: Result<(), Misfit>) -> Option<IllKind>
    ensures { result ≡ lists.misfit_of general found }
{
    match found {
        Ok(()) => None,
        Err(misfit) => Some(misfit_kind(general, misfit)),
    }
}

/// The rule that is broken where an expression is given to this type.
pub(crate) fn value_fault(
    general: IllKind,
    types: &TypeTable,
    target: Ty,
    ty: ExprType,
    category: Category,
) -> Option<IllKind>
    ensures { result ≡ spec.value_fault general types.now target ty category }
{
    misfit_of(general, fits(types, target, ty, category))
}

/// .. or a list, which told of itself what doesn't fit in it.
#[tactic(auto, using(life_names::proofs::Views::views))]
pub(crate) fn initial_fault(
    general: IllKind,
    types: &TypeTable,
    target: Ty,
    value: &TypedInitial,
) -> Option<IllKind>
    ensures { result ≡ spec.initial_fault general types.now target (initial_view value.now) }
{
    match value {
        TypedInitial::Expr(value) => value_fault(general, types, target, value.ty, value.category),
        TypedInitial::List(_) => None,
    }
}

/// An expression where this type is wanted.
pub(crate) fn given_expr(
    alloc: Global,
    environment: &Environment<'_>,
    types: &mut TypeTable,
    target: Ty,
    value: &Expr,
) -> Result<TypedExpr, IllFault>
    ensures { Gives typed_view types.new result (spec.given_expr target value.now environment.now types.old) }
{
    let found = expr(alloc, environment, types, value)?;
    literal_allowed(is_taken(types, Some(target), &found), &found)?;
    Ok(found)
}

/// A list where this type is wanted.
pub(crate) fn given_list(
    alloc: Global,
    environment: &Environment<'_>,
    types: &mut TypeTable,
    target: Ty,
    list: &InitList,
) -> Result<TypedInitial, IllFault>
    ensures { Gives initial_view types.new result (spec.given_list target list.now environment.now types.old) }
{
    let found = elements(alloc, environment, types, target, list)?;
    Ok(TypedInitial::List(found))
}

/// An expression or a list where this type is wanted.
pub(crate) fn given_value(
    alloc: Global,
    environment: &Environment<'_>,
    types: &mut TypeTable,
    target: Ty,
    value: &InitialValue,
) -> Result<TypedInitial, IllFault>
    ensures { Gives initial_view types.new result (spec.given_value target value.now environment.now types.old) }
{
    match value {
        InitialValue::Expr(value) => {
            let found = given_expr(alloc, environment, types, target, value)?;
            Ok(TypedInitial::Expr(found))
        }
        InitialValue::List(list) => given_list(alloc, environment, types, target, list),
    }
}

/// What a variable of this type is given, if anything.
pub(crate) fn given_first(
    alloc: Global,
    environment: &Environment<'_>,
    types: &mut TypeTable,
    target: Ty,
    initializer: &Option<Initializer>,
) -> Result<Option<TypedInitial>, IllFault>
    ensures { Gives (optional_view initial_view) types.new result (spec.given_first target initializer.now environment.now types.old) }
{
    match initializer {
        None => Ok(None),
        Some(Initializer::Equals { value, .. }) => {
            let found = given_value(alloc, environment, types, target, value)?;
            Ok(Some(found))
        }
        Some(Initializer::List(list)) => {
            let found = given_list(alloc, environment, types, target, list)?;
            Ok(Some(found))
        }
    }
}
