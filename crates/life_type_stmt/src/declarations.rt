// Declarations of variables (ISO/IEC 14882:2017 [dcl.dcl]).
ghost use Rattle.std.specs.Prelude.{◌≡◌};
ghost use Rattle.life_typed.specs.TypedStatement.{declaration_view, initial_view, optional_view};
ghost use Rattle.life_names.specs.Checked.{Gives};
ghost use Rattle.life_type_stmt.specs.Declarations as spec;
ghost use Rattle.life_names.specs.Environment.{declared, Declares};

use crate::autos::{auto_given, auto_local};
use crate::given::{given_first, initial_fault};
use life_names::{
    Entity, Environment, IllFault, IllKind, Written, allowed, type_at, written_local,
};
use life_tree::{AutoType, Declaration, DeclaredType, Identifier, Initializer, TypeName};
use life_type_expr::lower_kind;
use life_typed::{TypedDeclaration, TypedInitial, TypedLocal};
use life_types::{NameId, Ty, TypeTable};
use std::alloc::Global;

/// No name hides another.
fn visible_fault(entity: Entity) -> Option<IllKind>
    ensures { result ≡ spec.visible_fault entity }
{
    match entity {
        Entity::Unseen => None,
        Entity::Structure(_) => Some(IllKind::Redeclared),
        Entity::Function(_) => Some(IllKind::Redeclared),
        Entity::Local(_) => Some(IllKind::Redeclared),
    }
}

/// The rule that a declaration of a visible name breaks.
pub(crate) fn redeclared(environment: &Environment<'_>, name: NameId) -> Option<IllKind>
    ensures { result ≡ spec.redeclared environment.now name }
{
    visible_fault(environment.meaning(name))
}

/// A reference needs what it refers to.
fn default_fault(ty: Ty) -> Option<IllKind>
    ensures { result ≡ spec.default_fault ty }
{
    match ty {
        Ty::Reference { .. } => Some(IllKind::WrongType),
        _ => None,
    }
}

/// The rule that a variable of this type breaks with what it is given.
fn variable_fault(types: &TypeTable, target: Ty, value: &Option<TypedInitial>) -> Option<IllKind>
    ensures { result ≡ spec.variable_fault types.now target (optional_view initial_view value.now) }
{
    match value {
        Some(value) => initial_fault(IllKind::WrongType, types, target, value),
        None => default_fault(target),
    }
}

/// The variable gets the next number.
pub(crate) fn declare(
    environment: &mut Environment<'_>,
    name: Identifier,
    written: Written,
) -> Result<u32, IllFault>
    ensures { Declares environment.new result (declared (spec.local_of name written) environment.old) }
{
    environment.declare(TypedLocal {
        name: name.id,
        place: name.place,
        ty: written.ty,
        constant: written.constant,
    })
}

/// With a type that is written.
fn written_declaration(
    alloc: Global,
    environment: &mut Environment<'_>,
    types: &mut TypeTable,
    ty: &TypeName,
    name: Identifier,
    initializer: &Option<Initializer>,
) -> Result<TypedDeclaration, IllFault>
    ensures { Gives (λ d. (declaration_view d, environment.new)) types.new result (spec.written_declaration ty.now name initializer.now environment.old types.old) }
{
    let written = written_local(environment, types, ty, name.place)?;
    let target = type_at(types, written.ty);
    let value = given_first(alloc, environment, types, target, initializer)?;
    let fault = lower_kind(
        redeclared(environment, name.id),
        variable_fault(types, target, &value),
    );
    allowed(fault, name.place)?;
    let local = declare(environment, name, written)?;
    Ok(TypedDeclaration { local, name, value })
}

/// With `auto`.
fn auto_declaration(
    alloc: Global,
    environment: &mut Environment<'_>,
    types: &mut TypeTable,
    auto: AutoType,
    name: Identifier,
    initializer: &Option<Initializer>,
) -> Result<TypedDeclaration, IllFault>
    ensures { Gives (λ d. (declaration_view d, environment.new)) types.new result (spec.auto_declaration auto name initializer.now environment.old types.old) }
{
    let value = auto_given(alloc, environment, types, initializer)?;
    allowed(redeclared(environment, name.id), name.place)?;
    let written = auto_local(environment, types, auto, name.place, &value)?;
    let local = declare(environment, name, written)?;
    Ok(TypedDeclaration { local, name, value })
}

/// A declaration.
pub(crate) fn declaration(
    alloc: Global,
    environment: &mut Environment<'_>,
    types: &mut TypeTable,
    declaration: &Declaration,
) -> Result<TypedDeclaration, IllFault>
    ensures { Gives (λ d. (declaration_view d, environment.new)) types.new result (spec.declaration declaration.now environment.old types.old) }
{
    let name = declaration.name;
    let initializer = &declaration.initializer;
    match &declaration.ty {
        DeclaredType::Written(ty) => {
            written_declaration(alloc, environment, types, ty, name, initializer)
        }
        DeclaredType::Auto(auto) => {
            auto_declaration(alloc, environment, types, *auto, name, initializer)
        }
    }
}
