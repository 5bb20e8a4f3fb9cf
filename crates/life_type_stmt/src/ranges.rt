// The head of a loop over a range (ISO/IEC 14882:2017 [stmt.ranged]).
ghost use Rattle.std.specs.Prelude.{◌≡◌};
ghost use Rattle.life_typed.specs.TypedForm.{typed_view};
ghost use Rattle.life_names.specs.Checked.{Gives};
ghost use Rattle.life_names.specs.Found.{Finds};
ghost use Rattle.life_type_stmt.specs.RangeViews.{range_head_view, range_parts_view};
ghost use Rattle.life_type_stmt.specs.Ranges as spec;

use crate::autos::auto_written;
use crate::declarations::{declare, redeclared};
use crate::given::value_fault;
use life_names::{Environment, IllFault, IllKind, allowed, ill, type_at, written_local};
use life_tree::{AutoType, DeclaredType, Expr, Identifier, TypeName};
use life_type_expr::{expr, is_constant, literal_allowed};
use life_typed::{Category, ExprType, TypedExpr, range_element};
use life_types::{Place, TyId, TypeTable};
use std::alloc::Global;

/// A range with its elements: their type, and whether they may be changed through it.
#[derive(Drop)]
struct RangeParts {
    range: TypedExpr,
    element: (TyId, bool),
}

/// The variable's number, and what is gone over.
#[derive(Drop)]
pub(crate) struct RangeStart {
    pub(crate) local: u32,
    pub(crate) range: TypedExpr,
}

fn elements_of(
    element: Option<(TyId, bool)>,
    colon: Place,
    range: TypedExpr,
) -> Result<RangeParts, IllFault>
    ensures { Finds range_parts_view result (spec.elements_of element colon (typed_view range)) }
{
    match element {
        Some(element) => Ok(RangeParts { range, element }),
        None => Err(ill(IllKind::WrongType, colon)),
    }
}

/// What is gone over for a variable of this name.
#[tactic(auto, using(life_names::proofs::Views::views))]
fn range_of(
    alloc: Global,
    environment: &Environment<'_>,
    types: &mut TypeTable,
    name: Identifier,
    colon: Place,
    range: &Expr,
) -> Result<RangeParts, IllFault>
    ensures { Gives range_parts_view types.new result (spec.range_of name colon range.now environment.now types.old) }
{
    let found = expr(alloc, environment, types, range)?;
    literal_allowed(false, &found)?;
    allowed(redeclared(environment, name.id), name.place)?;
    let parts = elements_of(
        range_element(found.ty, is_constant(found.category)),
        colon,
        found,
    )?;
    Ok(parts)
}

/// An element as an expression.
fn element_type(types: &TypeTable, element: (TyId, bool)) -> ExprType
    ensures { result ≡ spec.element_type types.now element }
{
    ExprType::Of(type_at(types, element.0))
}

fn element_place(element: (TyId, bool)) -> Category
    ensures { result ≡ spec.element_place element }
{
    Category::Place {
        ty: element.0,
        constant: element.1,
    }
}

/// A variable with a type that is written.
fn written_head(
    alloc: Global,
    environment: &mut Environment<'_>,
    types: &mut TypeTable,
    ty: &TypeName,
    name: Identifier,
    colon: Place,
    range: &Expr,
) -> Result<RangeStart, IllFault>
    ensures { Gives (λ h. (range_head_view h, environment.new)) types.new result (spec.written_head ty.now name colon range.now environment.old types.old) }
{
    let written = written_local(environment, types, ty, name.place)?;
    let target = type_at(types, written.ty);
    let parts = range_of(alloc, environment, types, name, colon, range)?;
    let element = element_type(types, parts.element);
    let place = element_place(parts.element);
    let fault = value_fault(IllKind::WrongType, types, target, element, place);
    allowed(fault, name.place)?;
    let local = declare(environment, name, written)?;
    Ok(RangeStart {
        local,
        range: parts.range,
    })
}

/// .. with `auto`.
fn auto_head(
    alloc: Global,
    environment: &mut Environment<'_>,
    types: &mut TypeTable,
    auto: AutoType,
    name: Identifier,
    colon: Place,
    range: &Expr,
) -> Result<RangeStart, IllFault>
    ensures { Gives (λ h. (range_head_view h, environment.new)) types.new result (spec.auto_head auto name colon range.now environment.old types.old) }
{
    let parts = range_of(alloc, environment, types, name, colon, range)?;
    let element = element_type(types, parts.element);
    let place = element_place(parts.element);
    let written = auto_written(environment, types, auto, name.place, element, place)?;
    let local = declare(environment, name, written)?;
    Ok(RangeStart {
        local,
        range: parts.range,
    })
}

/// The head of a loop over a range: its variable is declared.
pub(crate) fn range_head(
    alloc: Global,
    environment: &mut Environment<'_>,
    types: &mut TypeTable,
    ty: &DeclaredType,
    name: Identifier,
    colon: Place,
    range: &Expr,
) -> Result<RangeStart, IllFault>
    ensures { Gives (λ h. (range_head_view h, environment.new)) types.new result (spec.range_head ty.now name colon range.now environment.old types.old) }
{
    match ty {
        DeclaredType::Written(ty) => {
            written_head(alloc, environment, types, ty, name, colon, range)
        }
        DeclaredType::Auto(auto) => {
            auto_head(alloc, environment, types, *auto, name, colon, range)
        }
    }
}
