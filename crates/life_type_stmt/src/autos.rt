// The type of a variable that is declared with `auto` (ISO/IEC 14882:2017 [dcl.spec.auto]).
ghost use Rattle.std.specs.Prelude.{◌≡◌, is_some, map};
ghost use Rattle.life_types.specs.Types.{Types};
ghost use Rattle.life_typed.specs.TypedForm.{typed_view};
ghost use Rattle.life_typed.specs.TypedStatement.{initial_view, optional_view};
ghost use Rattle.life_type_stmt.specs.Autos as spec;
ghost use Rattle.life_names.specs.Checked.{Gives};
ghost use Rattle.life_names.specs.Environment.{structure};
ghost use Rattle.life_names.specs.WrittenTypes.{struct_type};

use crate::conditions::unless;
use crate::given::value_fault;
use life_names::{Environment, IllFault, IllKind, Written, add_type, allowed};
use life_tree::{AutoType, Expr, InitList, InitialValue, Initializer};
use life_type_expr::{expr, literal_allowed, lower_kind};
use life_typed::{Category, Delimiters, ExprType, TypedExpr, TypedInitial, TypedList};
use life_types::{Place, Ty, TyId, TypeTable, is_plain};
use std::alloc::Global;

/// An element of a list that initialises nothing.
fn lone_element(
    alloc: Global,
    environment: &Environment<'_>,
    types: &mut TypeTable,
    element: &Expr,
) -> Result<TypedExpr, IllFault>
    ensures { Gives typed_view types.new result (spec.lone_element element.now environment.now types.old) }
{
    let found = expr(alloc, environment, types, element)?;
    literal_allowed(false, &found)?;
    Ok(found)
}

fn lone_elements(
    alloc: Global,
    environment: &Environment<'_>,
    types: &mut TypeTable,
    list: &[Expr],
) -> Result<Vec<TypedExpr>, IllFault>
    ensures { Gives (λ x. map typed_view x.items) types.new result (spec.lone_elements list.now environment.now types.old) }
{
    let mut found = Vec::new(alloc);
    'elements: for element in list {
        let next = lone_element(alloc, environment, types, element)?;
        found.push(next)?;
    }
    Ok(found)
}

/// A list that initialises nothing.
fn lone_list(
    alloc: Global,
    environment: &Environment<'_>,
    types: &mut TypeTable,
    list: &InitList,
) -> Result<TypedInitial, IllFault>
    ensures { Gives initial_view types.new result (spec.lone_list list.now environment.now types.old) }
{
    let elements = lone_elements(alloc, environment, types, &list.list)?;
    Ok(TypedInitial::List(TypedList {
        opening: list.opening,
        elements,
        delimiters: Delimiters::of(alloc, &list.commas, list.closing)?,
    }))
}

fn auto_value(
    alloc: Global,
    environment: &Environment<'_>,
    types: &mut TypeTable,
    value: &InitialValue,
) -> Result<TypedInitial, IllFault>
    ensures { Gives initial_view types.new result (spec.auto_value value.now environment.now types.old) }
{
    match value {
        InitialValue::Expr(value) => {
            let found = expr(alloc, environment, types, value)?;
            Ok(TypedInitial::Expr(found))
        }
        InitialValue::List(list) => lone_list(alloc, environment, types, list),
    }
}

/// What a variable with `auto` is given, if anything.
pub(crate) fn auto_given(
    alloc: Global,
    environment: &Environment<'_>,
    types: &mut TypeTable,
    initializer: &Option<Initializer>,
) -> Result<Option<TypedInitial>, IllFault>
    ensures { Gives (optional_view initial_view) types.new result (spec.auto_given initializer.now environment.now types.old) }
{
    match initializer {
        None => Ok(None),
        Some(Initializer::Equals { value, .. }) => {
            let found = auto_value(alloc, environment, types, value)?;
            Ok(Some(found))
        }
        Some(Initializer::List(list)) => {
            let found = lone_list(alloc, environment, types, list)?;
            Ok(Some(found))
        }
    }
}

/// A type that a variable may have.
fn variable_type(ty: Ty) -> Result<Ty, IllKind>
    ensures { result ≡ spec.variable_type ty }
{
    match ty {
        Ty::Void => Err(IllKind::WrongType),
        _ => Ok(ty),
    }
}

/// .. by an expression.
fn auto_target(ty: ExprType) -> Result<Ty, IllKind>
    ensures { result ≡ spec.auto_target ty }
{
    match ty {
        ExprType::Of(ty) => variable_type(ty),
        ExprType::NullPointer => Err(IllKind::WrongType),
        ExprType::TextLiteral => Err(IllKind::Unsupported),
    }
}

fn structure_number(
    environment: &Environment<'_>,
    place: Place,
    number: u32,
) -> Result<TyId, IllFault>
    ensures { (types : Types) → Gives (λ id. id) types result (struct_type (structure environment.now number) place types) }
{
    match environment.structure(number) {
        Some(structure) => Ok(structure.ty),
        None => Err(IllFault::Ill {
            kind: IllKind::UnknownName,
            place,
        }),
    }
}

/// The number of the type of an expression; a struct's is known where it is declared.
fn type_number(
    environment: &Environment<'_>,
    types: &mut TypeTable,
    place: Place,
    ty: Ty,
) -> Result<TyId, IllFault>
    ensures { Gives (λ id. id) types.new result (spec.type_number place ty environment.now types.old) }
{
    match ty {
        Ty::Struct(number) => structure_number(environment, place, number),
        _ => add_type(types, place, ty),
    }
}

/// The rule that a reference breaks whose target is plain or not; the lowest of several.
fn reference_fault(plain: bool, misfit: Option<IllKind>) -> Option<IllKind>
    ensures { result ≡ spec.reference_fault plain misfit }
{
    lower_kind(misfit, unless(plain, IllKind::NotPlain))
}

/// A variable with a value of this type, whose number is `id`.
fn auto_object(
    types: &TypeTable,
    constant: bool,
    place: Place,
    ty: Ty,
    id: TyId,
    given: ExprType,
    category: Category,
) -> Result<Written, IllFault>
    ensures { Gives (λ w. w) types.now result (spec.auto_object constant place ty id given category types.now) }
{
    allowed(
        value_fault(IllKind::WrongType, types, ty, given, category),
        place,
    )?;
    Ok(Written { ty: id, constant })
}

/// A reference to what has this type.
fn auto_reference(
    types: &mut TypeTable,
    constant: bool,
    place: Place,
    id: TyId,
    given: ExprType,
    category: Category,
) -> Result<Written, IllFault>
    ensures { Gives (λ w. w) types.new result (spec.auto_reference constant place id given category types.old) }
{
    let target = Ty::Reference {
        target: id,
        constant,
    };
    let reference = add_type(types, place, target)?;
    let plain = is_plain(types, id);
    let misfit = value_fault(IllKind::WrongType, types, target, given, category);
    allowed(reference_fault(plain, misfit), place)?;
    Ok(Written {
        ty: reference,
        constant: false,
    })
}

fn auto_declared(
    types: &mut TypeTable,
    auto: AutoType,
    place: Place,
    ty: Ty,
    id: TyId,
    given: ExprType,
    category: Category,
) -> Result<Written, IllFault>
    ensures { Gives (λ w. w) types.new result (spec.auto_declared auto.reference (is_some auto.constant) place ty id given category types.old) }
{
    let constant = auto.constant.is_some();
    match auto.reference {
        None => auto_object(types, constant, place, ty, id, given, category),
        Some(_) => auto_reference(types, constant, place, id, given, category),
    }
}

/// The type of a variable whose name stands at this place, from an expression of this type.
pub(crate) fn auto_written(
    environment: &Environment<'_>,
    types: &mut TypeTable,
    auto: AutoType,
    place: Place,
    given: ExprType,
    category: Category,
) -> Result<Written, IllFault>
    ensures { Gives (λ w. w) types.new result (spec.auto_written auto place given category environment.now types.old) }
{
    match auto_target(given) {
        Ok(ty) => {
            let id = type_number(environment, types, place, ty)?;
            auto_declared(types, auto, place, ty, id, given, category)
        }
        Err(kind) => Err(IllFault::Ill { kind, place }),
    }
}

/// .. from what it is given: a list has no type.
#[tactic(auto, using(life_names::proofs::Views::views))]
pub(crate) fn auto_local(
    environment: &Environment<'_>,
    types: &mut TypeTable,
    auto: AutoType,
    place: Place,
    value: &Option<TypedInitial>,
) -> Result<Written, IllFault>
    ensures { Gives (λ w. w) types.new result (spec.auto_local auto place (optional_view initial_view value.now) environment.now types.old) }
{
    match value {
        Some(TypedInitial::Expr(value)) => {
            auto_written(environment, types, auto, place, value.ty, value.category)
        }
        Some(TypedInitial::List(_)) => Err(IllFault::Ill {
            kind: IllKind::WrongType,
            place,
        }),
        None => Err(IllFault::Ill {
            kind: IllKind::WrongType,
            place,
        }),
    }
}
