// The names of parameters.
ghost use Rattle.std.specs.Prelude.{◌≡◌, slice_get};
ghost use Rattle.life_typing.specs.Answers.{Answers, Follows};
ghost use Rattle.life_typing.specs.Parameters as spec;

use crate::attributes::check_parameter_attributes;
use crate::pointing::Reach;
use life_names::{Entity, Environment, IllFault, IllKind, is_const_value};
use life_tree::{Identifier, Parameter};
use life_typed::{TypedLocal, VOID};
use life_types::{NameId, TyId};
use std::alloc::Global;

/// Whether a name means something here.
pub(crate) fn is_seen(environment: &Environment<'_>, name: NameId) -> bool
    ensures { result ≡ spec.is_seen environment.now name }
{
    match environment.meaning(name) {
        Entity::Unseen => false,
        Entity::Structure(_) => true,
        Entity::Function(_) => true,
        Entity::Local(_) => true,
    }
}

/// The variable that a parameter is.
fn parameter_local(parameter: &Parameter, ty: TyId) -> TypedLocal
    ensures { result ≡ spec.parameter_local parameter.now ty }
{
    TypedLocal {
        name: parameter.name.id,
        place: parameter.name.place,
        ty,
        constant: is_const_value(&parameter.ty),
    }
}

/// The type of the parameter with this number. Where it isn't known the header is ill, and nothing
/// asks for it.
fn known_or_void(known: &[TyId], index: usize) -> TyId
    ensures { result ≡ spec.known_or_void known.now index }
{
    match known.get(index) {
        Some(ty) => *ty,
        None => VOID,
    }
}

/// Declares the parameters, whose types are given as far as they are known. For each of them it is
/// answered whether its name was visible before.
pub(crate) fn declare_parameters(
    alloc: Global,
    environment: &mut Environment<'_>,
    parameters: &[Parameter],
    known: &[TyId],
) -> Result<Vec<bool>, IllFault>
    ensures { Answers (λ hides. (hides.items, environment.new)) result (spec.parameters_declared known.now parameters.now environment.old) }
{
    let mut hides = Vec::new(alloc);
    'parameters: for parameter in parameters {
        let ty = known_or_void(known, hides.len());
        hides.push(is_seen(environment, parameter.name.id))?;
        environment.declare(parameter_local(parameter, ty))?;
    }
    Ok(hides)
}

/// The rule that a parameter's name hides no visible one ([basic.scope.declarative]).
fn check_parameter_name(hides: Option<bool>, name: Identifier) -> Result<(), IllFault>
    ensures { Follows result (spec.parameter_name hides name) }
{
    match hides {
        Some(true) => Err(IllFault::Ill {
            kind: IllKind::Redeclared,
            place: name.place,
        }),
        Some(false) => Ok(()),
        None => Ok(()),
    }
}

/// The rules on a parameter whose type is known.
fn check_known_parameter(
    environment: &Environment<'_>,
    parameter: &Parameter,
    reach: Reach,
    hides: Option<bool>,
) -> Result<(), IllFault>
    ensures { Follows result (spec.known_parameter environment.now parameter.now reach hides) }
{
    check_parameter_attributes(environment, Some(reach), &parameter.attributes)?;
    check_parameter_name(hides, parameter.name)
}

/// The rules on a parameter, of whose type it is given what is known.
fn check_parameter(
    environment: &Environment<'_>,
    parameter: &Parameter,
    known: Option<Reach>,
    hides: Option<bool>,
) -> Result<(), IllFault>
    ensures { Follows result (spec.parameter_with environment.now parameter.now known hides) }
{
    match known {
        None => check_parameter_attributes(environment, None, &parameter.attributes),
        Some(reach) => check_known_parameter(environment, parameter, reach, hides),
    }
}

/// What is known of the parameter with this number.
fn known_reach(known: &[Reach], index: usize) -> Option<Reach>
    ensures { result ≡ slice_get known.now index }
{
    known.get(index).copied()
}

/// Whether the name of the parameter with this number was visible before.
fn was_seen(hides: &[bool], index: usize) -> Option<bool>
    ensures { result ≡ slice_get hides.now index }
{
    hides.get(index).copied()
}

/// The rules on the parameters whose types are known, and on the attributes of the one behind them.
/// All are declared, and for each it is given whether its name was visible before.
pub(crate) fn check_parameters(
    environment: &Environment<'_>,
    parameters: &[Parameter],
    known: &[Reach],
    hides: &[bool],
) -> Result<(), IllFault>
    ensures { Follows result (spec.parameter_rules environment.now known.now hides.now 0 parameters.now) }
{
    let mut index = 0;
    'parameters: for parameter in parameters {
        if known.len() < index {
            return Ok(());
        }
        check_parameter(
            environment,
            parameter,
            known_reach(known, index),
            was_seen(hides, index),
        )?;
        index += 1;
    }
    Ok(())
}

/// The names of the parameters mean nothing from here on.
pub(crate) fn forget_parameters(environment: &mut Environment<'_>, parameters: &[Parameter])
    ensures { environment.new ≡ spec.parameters_forgotten parameters.now environment.old }
{
    'parameters: for parameter in parameters {
        environment.see_as(parameter.name.id, Entity::Unseen);
    }
}
