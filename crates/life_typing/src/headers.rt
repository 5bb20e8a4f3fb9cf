// The headers of functions: what stands before a body.
ghost use Rattle.std.specs.Prelude.{◌≡◌, IfOk, OnOk};
ghost use Rattle.life_names.specs.Checked.{Gives};
ghost use Rattle.life_typing.specs.Headers as spec;
ghost use Rattle.life_names.specs.WrittenTypes.{written};

use crate::pointing::{Pointing, Reach, pointing_of, reach_of};
use life_names::{Entity, Environment, IllFault, IllKind, is_const_value, written_type};
use life_tree::{Function, Parameter, ResultType, TypeName};
use life_typed::VOID;
use life_types::{NoMemory, Place, TyId, TypeTable};
use std::alloc::Global;

/// A rule that is broken, and where.
#[derive(Clone, Copy)]
pub(crate) struct Broken {
    pub(crate) kind: IllKind,
    pub(crate) place: Place,
}

/// The type of a result or parameter, or the rule that it breaks.
#[derive(Clone, Copy)]
enum FoundType {
    Sound(TyId),
    Ill(Broken),
}

/// The type of a result, and what it holds of pointers.
#[derive(Clone, Copy)]
pub(crate) struct Returned {
    pub(crate) ty: TyId,
    pub(crate) pointing: Pointing,
}

/// The types of parameters, in their order, and what the rules on attributes ask of each.
#[derive(Drop)]
pub(crate) struct KnownTypes {
    pub(crate) types: Vec<TyId>,
    pub(crate) reaches: Vec<Reach>,
}

/// The types of a header.
#[derive(Drop)]
pub(crate) enum HeaderTypes {
    /// All are well formed: the result's, and those of the parameters.
    Sound {
        returned: Returned,
        parameters: KnownTypes,
    },
    /// One isn't: the rule that the first of them breaks, and the types before it.
    Ill {
        returned: Option<Returned>,
        parameters: KnownTypes,
        broken: Broken,
    },
}

/// The type of a result that is written, which isn't `const` as a value ([dcl.type.cv]).
fn written_result(
    alloc: Global,
    environment: &Environment<'_>,
    types: &mut TypeTable,
    ty: &TypeName,
    place: Place,
) -> Result<TyId, IllFault>
    ensures { Gives (λ x. x) types.new result (spec.written_result ty.now place environment.now types.old) }
{
    let found = written_type(alloc, environment, types, ty, place)?;
    if is_const_value(ty) {
        Err(IllFault::Ill {
            kind: IllKind::WrongType,
            place,
        })
    } else {
        Ok(found)
    }
}

/// The type of a result.
fn result_type(
    alloc: Global,
    environment: &Environment<'_>,
    types: &mut TypeTable,
    returned: &ResultType,
    place: Place,
) -> Result<TyId, IllFault>
    ensures { Gives (λ x. x) types.new result (spec.result_type returned.now place environment.now types.old) }
{
    match returned {
        ResultType::Void(_) => Ok(VOID),
        ResultType::Type(ty) => written_result(alloc, environment, types, ty, place),
    }
}

/// The name of a function is visible behind itself: in the types of its parameters too.
fn see_function(environment: &mut Environment<'_>, function: &Function)
    ensures { environment.new ≡ spec.function_seen function.now environment.old }
{
    match environment.meaning(function.name.id) {
        Entity::Unseen => environment.see_as(function.name.id, Entity::Function(0)),
        Entity::Structure(_) => {}
        Entity::Function(_) => {}
        Entity::Local(_) => {}
    }
}

/// The type of a parameter.
#[tactic(auto, using(crate::proofs::Telling::broken_there))]
fn find_parameter(
    alloc: Global,
    environment: &Environment<'_>,
    types: &mut TypeTable,
    parameter: &Parameter,
) -> Result<FoundType, NoMemory>
    ensures { IfOk result (λ t. spec.Finds t types.new (written parameter.now.ty parameter.now.name.place environment.now types.old)) }
{
    match written_type(
        alloc,
        environment,
        types,
        &parameter.ty,
        parameter.name.place,
    ) {
        Ok(ty) => Ok(FoundType::Sound(ty)),
        Err(IllFault::Ill { kind, place }) => Ok(FoundType::Ill(Broken { kind, place })),
        Err(IllFault::NoMemory) => Err(NoMemory),
    }
}

/// The type of a result, where memory sufficed.
#[tactic(auto, using(crate::proofs::Telling::broken_there))]
fn find_result(
    alloc: Global,
    environment: &Environment<'_>,
    types: &mut TypeTable,
    function: &Function,
) -> Result<FoundType, NoMemory>
    ensures { IfOk result (λ t. spec.Finds t types.new (spec.result_type function.now.returned function.now.name.place environment.now types.old)) }
{
    match result_type(
        alloc,
        environment,
        types,
        &function.returned,
        function.name.place,
    ) {
        Ok(ty) => Ok(FoundType::Sound(ty)),
        Err(IllFault::Ill { kind, place }) => Ok(FoundType::Ill(Broken { kind, place })),
        Err(IllFault::NoMemory) => Err(NoMemory),
    }
}

/// No type of a parameter is known.
fn nothing_known(alloc: Global) -> KnownTypes
    ensures { spec.known_view result ≡ spec.nothing_known }
{
    KnownTypes {
        types: Vec::new(alloc),
        reaches: Vec::new(alloc),
    }
}

/// The type of the next parameter is known.
fn add_known(
    known: &mut KnownTypes,
    types: &TypeTable,
    structs: &[Pointing],
    ty: TyId,
) -> Result<(), NoMemory>
    ensures { OnOk result (spec.known_view known.new ≡ spec.with_known types.now structs.now ty (spec.known_view known.old)) }
{
    known.types.push(ty)?;
    known.reaches.push(reach_of(types, structs, ty))?;
    Ok(())
}

/// The types of the parameters, up to the first that is ill.
fn parameter_types(
    alloc: Global,
    environment: &Environment<'_>,
    types: &mut TypeTable,
    structs: &[Pointing],
    returned: Returned,
    parameters: &[Parameter],
) -> Result<HeaderTypes, NoMemory>
    ensures { IfOk result (λ h. spec.Reads h types.new (spec.parameter_types structs.now returned spec.nothing_known parameters.now environment.now types.old)) }
{
    let mut known = nothing_known(alloc);
    'parameters: for parameter in parameters {
        match find_parameter(alloc, environment, types, parameter)? {
            FoundType::Sound(ty) => add_known(&mut known, types, structs, ty)?,
            FoundType::Ill(broken) => {
                return Ok(HeaderTypes::Ill {
                    returned: Some(returned),
                    parameters: known,
                    broken,
                });
            }
        }
    }
    Ok(HeaderTypes::Sound {
        returned,
        parameters: known,
    })
}

/// The types of a header, up to the first that is ill. Behind its name the function is visible.
pub(crate) fn header_types(
    alloc: Global,
    environment: &mut Environment<'_>,
    types: &mut TypeTable,
    structs: &[Pointing],
    function: &Function,
) -> Result<HeaderTypes, NoMemory>
    ensures types { IfOk result (λ h. spec.Reads h types.new (spec.header_types structs.now function.now environment.old types.old)) }
    ensures environment { IfOk result (λ _. environment.new ≡ spec.function_seen function.now environment.old) }
{
    match find_result(alloc, environment, types, function)? {
        FoundType::Sound(ty) => {
            see_function(environment, function);
            let returned = Returned {
                ty,
                pointing: pointing_of(types, structs, ty),
            };
            let parameters = &function.parameters;
            parameter_types(alloc, environment, types, structs, returned, parameters)
        }
        FoundType::Ill(broken) => {
            see_function(environment, function);
            Ok(HeaderTypes::Ill {
                returned: None,
                parameters: nothing_known(alloc),
                broken,
            })
        }
    }
}
