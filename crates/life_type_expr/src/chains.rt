// Operands and the operators between them.
ghost use Rattle.std.specs.Prelude.{◌≡◌};
ghost use Rattle.life_typed.specs.TypedForm.{typed_view};
ghost use Rattle.life_names.specs.Checked.{Gives};
ghost use Rattle.life_type_expr.specs.Expressions as spec;

use crate::operands::{combination, literal_allowed};
use crate::operators::{
    additive_operator, equality_operator, multiplicative_operator, relational_operator,
};
use crate::primaries::unary;
use life_names::{Environment, IllFault};
use life_tree::{
    Additive, AdditivePart, AndPart, Equality, EqualityPart, Expr, LogicalAnd, Multiplicative,
    MultiplicativePart, OrPart, Relational, RelationalPart,
};
use life_typed::{BinaryOperator, TypedExpr, takes_literals};
use life_types::TypeTable;
use std::alloc::Global;

/// An expression.
#[cycle(exprs)]
pub fn expr(
    alloc: Global,
    environment: &Environment<'_>,
    types: &mut TypeTable,
    expr: &Expr,
) -> Result<TypedExpr, IllFault>
    ensures { Gives typed_view types.new result (spec.expr_meaning expr.now environment.now types.old) }
{
    if expr.more.is_empty() {
        logical_and(alloc, environment, types, &expr.first)
    } else {
        or_chain(alloc, environment, types, expr)
    }
}

/// Operands of `||`, of which there are several.
#[cycle(exprs)]
fn or_chain(
    alloc: Global,
    environment: &Environment<'_>,
    types: &mut TypeTable,
    expr: &Expr,
) -> Result<TypedExpr, IllFault>
    ensures { Gives typed_view types.new result (spec.expr_meaning expr.now environment.now types.old) }
{
    let mut typed = logical_and(alloc, environment, types, &expr.first)?;
    'parts: for part in &expr.more {
        typed = or_part(alloc, environment, types, part, typed)?;
    }
    Ok(typed)
}

/// An operand with the operator before it.
#[cycle(exprs)]
fn or_part(
    alloc: Global,
    environment: &Environment<'_>,
    types: &mut TypeTable,
    part: &OrPart,
    left: TypedExpr,
) -> Result<TypedExpr, IllFault>
    ensures { Gives typed_view types.new result (spec.or_part_meaning part.now (typed_view left) environment.now types.old) }
{
    let operator = BinaryOperator::Or;
    literal_allowed(takes_literals(operator), &left)?;
    let right = logical_and(alloc, environment, types, &part.operand)?;
    literal_allowed(takes_literals(operator), &right)?;
    combination(alloc, operator, part.place, left, right)
}

/// Operands of `&&`.
#[cycle(exprs)]
fn logical_and(
    alloc: Global,
    environment: &Environment<'_>,
    types: &mut TypeTable,
    expr: &LogicalAnd,
) -> Result<TypedExpr, IllFault>
    ensures { Gives typed_view types.new result (spec.logical_and_meaning expr.now environment.now types.old) }
{
    if expr.more.is_empty() {
        equality(alloc, environment, types, &expr.first)
    } else {
        and_chain(alloc, environment, types, expr)
    }
}

/// Operands of `&&`, of which there are several.
#[cycle(exprs)]
fn and_chain(
    alloc: Global,
    environment: &Environment<'_>,
    types: &mut TypeTable,
    expr: &LogicalAnd,
) -> Result<TypedExpr, IllFault>
    ensures { Gives typed_view types.new result (spec.logical_and_meaning expr.now environment.now types.old) }
{
    let mut typed = equality(alloc, environment, types, &expr.first)?;
    'parts: for part in &expr.more {
        typed = and_part(alloc, environment, types, part, typed)?;
    }
    Ok(typed)
}

/// An operand with the operator before it.
#[cycle(exprs)]
fn and_part(
    alloc: Global,
    environment: &Environment<'_>,
    types: &mut TypeTable,
    part: &AndPart,
    left: TypedExpr,
) -> Result<TypedExpr, IllFault>
    ensures { Gives typed_view types.new result (spec.and_part_meaning part.now (typed_view left) environment.now types.old) }
{
    let operator = BinaryOperator::And;
    literal_allowed(takes_literals(operator), &left)?;
    let right = equality(alloc, environment, types, &part.operand)?;
    literal_allowed(takes_literals(operator), &right)?;
    combination(alloc, operator, part.place, left, right)
}

/// Operands of `==` and `!=`.
#[cycle(exprs)]
fn equality(
    alloc: Global,
    environment: &Environment<'_>,
    types: &mut TypeTable,
    expr: &Equality,
) -> Result<TypedExpr, IllFault>
    ensures { Gives typed_view types.new result (spec.equality_meaning expr.now environment.now types.old) }
{
    if expr.more.is_empty() {
        relational(alloc, environment, types, &expr.first)
    } else {
        equality_chain(alloc, environment, types, expr)
    }
}

/// Operands of `==` and `!=`, of which there are several.
#[cycle(exprs)]
fn equality_chain(
    alloc: Global,
    environment: &Environment<'_>,
    types: &mut TypeTable,
    expr: &Equality,
) -> Result<TypedExpr, IllFault>
    ensures { Gives typed_view types.new result (spec.equality_meaning expr.now environment.now types.old) }
{
    let mut typed = relational(alloc, environment, types, &expr.first)?;
    'parts: for part in &expr.more {
        typed = equality_part(alloc, environment, types, part, typed)?;
    }
    Ok(typed)
}

/// An operand with the operator before it.
#[cycle(exprs)]
fn equality_part(
    alloc: Global,
    environment: &Environment<'_>,
    types: &mut TypeTable,
    part: &EqualityPart,
    left: TypedExpr,
) -> Result<TypedExpr, IllFault>
    ensures { Gives typed_view types.new result (spec.equality_part_meaning part.now (typed_view left) environment.now types.old) }
{
    let operator = equality_operator(part.operator);
    literal_allowed(takes_literals(operator), &left)?;
    let right = relational(alloc, environment, types, &part.operand)?;
    literal_allowed(takes_literals(operator), &right)?;
    combination(alloc, operator, part.place, left, right)
}

/// Operands of comparisons by order.
#[cycle(exprs)]
fn relational(
    alloc: Global,
    environment: &Environment<'_>,
    types: &mut TypeTable,
    expr: &Relational,
) -> Result<TypedExpr, IllFault>
    ensures { Gives typed_view types.new result (spec.relational_meaning expr.now environment.now types.old) }
{
    if expr.more.is_empty() {
        additive(alloc, environment, types, &expr.first)
    } else {
        relational_chain(alloc, environment, types, expr)
    }
}

/// Operands of comparisons by order, of which there are several.
#[cycle(exprs)]
fn relational_chain(
    alloc: Global,
    environment: &Environment<'_>,
    types: &mut TypeTable,
    expr: &Relational,
) -> Result<TypedExpr, IllFault>
    ensures { Gives typed_view types.new result (spec.relational_meaning expr.now environment.now types.old) }
{
    let mut typed = additive(alloc, environment, types, &expr.first)?;
    'parts: for part in &expr.more {
        typed = relational_part(alloc, environment, types, part, typed)?;
    }
    Ok(typed)
}

/// An operand with the operator before it.
#[cycle(exprs)]
fn relational_part(
    alloc: Global,
    environment: &Environment<'_>,
    types: &mut TypeTable,
    part: &RelationalPart,
    left: TypedExpr,
) -> Result<TypedExpr, IllFault>
    ensures { Gives typed_view types.new result (spec.relational_part_meaning part.now (typed_view left) environment.now types.old) }
{
    let operator = relational_operator(part.operator);
    literal_allowed(takes_literals(operator), &left)?;
    let right = additive(alloc, environment, types, &part.operand)?;
    literal_allowed(takes_literals(operator), &right)?;
    combination(alloc, operator, part.place, left, right)
}

/// A sum.
#[cycle(exprs)]
pub fn additive(
    alloc: Global,
    environment: &Environment<'_>,
    types: &mut TypeTable,
    expr: &Additive,
) -> Result<TypedExpr, IllFault>
    ensures { Gives typed_view types.new result (spec.additive_meaning expr.now environment.now types.old) }
{
    if expr.more.is_empty() {
        multiplicative(alloc, environment, types, &expr.first)
    } else {
        additive_chain(alloc, environment, types, expr)
    }
}

/// Operands of a sum, of which there are several.
#[cycle(exprs)]
fn additive_chain(
    alloc: Global,
    environment: &Environment<'_>,
    types: &mut TypeTable,
    expr: &Additive,
) -> Result<TypedExpr, IllFault>
    ensures { Gives typed_view types.new result (spec.additive_meaning expr.now environment.now types.old) }
{
    let mut typed = multiplicative(alloc, environment, types, &expr.first)?;
    'parts: for part in &expr.more {
        typed = additive_part(alloc, environment, types, part, typed)?;
    }
    Ok(typed)
}

/// An operand with the operator before it.
#[cycle(exprs)]
fn additive_part(
    alloc: Global,
    environment: &Environment<'_>,
    types: &mut TypeTable,
    part: &AdditivePart,
    left: TypedExpr,
) -> Result<TypedExpr, IllFault>
    ensures { Gives typed_view types.new result (spec.additive_part_meaning part.now (typed_view left) environment.now types.old) }
{
    let operator = additive_operator(part.operator);
    literal_allowed(takes_literals(operator), &left)?;
    let right = multiplicative(alloc, environment, types, &part.operand)?;
    literal_allowed(takes_literals(operator), &right)?;
    combination(alloc, operator, part.place, left, right)
}

/// Operands of `*`, `/` and `%`.
#[cycle(exprs)]
fn multiplicative(
    alloc: Global,
    environment: &Environment<'_>,
    types: &mut TypeTable,
    expr: &Multiplicative,
) -> Result<TypedExpr, IllFault>
    ensures { Gives typed_view types.new result (spec.multiplicative_meaning expr.now environment.now types.old) }
{
    if expr.more.is_empty() {
        unary(alloc, environment, types, &expr.first)
    } else {
        multiplicative_chain(alloc, environment, types, expr)
    }
}

/// Operands of `*`, `/` and `%`, of which there are several.
#[cycle(exprs)]
fn multiplicative_chain(
    alloc: Global,
    environment: &Environment<'_>,
    types: &mut TypeTable,
    expr: &Multiplicative,
) -> Result<TypedExpr, IllFault>
    ensures { Gives typed_view types.new result (spec.multiplicative_meaning expr.now environment.now types.old) }
{
    let mut typed = unary(alloc, environment, types, &expr.first)?;
    'parts: for part in &expr.more {
        typed = multiplicative_part(alloc, environment, types, part, typed)?;
    }
    Ok(typed)
}

/// An operand with the operator before it.
#[cycle(exprs)]
fn multiplicative_part(
    alloc: Global,
    environment: &Environment<'_>,
    types: &mut TypeTable,
    part: &MultiplicativePart,
    left: TypedExpr,
) -> Result<TypedExpr, IllFault>
    ensures { Gives typed_view types.new result (spec.multiplicative_part_meaning part.now (typed_view left) environment.now types.old) }
{
    let operator = multiplicative_operator(part.operator);
    literal_allowed(takes_literals(operator), &left)?;
    let right = unary(alloc, environment, types, &part.operand)?;
    literal_allowed(takes_literals(operator), &right)?;
    combination(alloc, operator, part.place, left, right)
}
