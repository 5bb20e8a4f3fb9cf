// Names in expressions: variables, functions and structs.
ghost use Rattle.std.specs.Prelude.{◌≡◌};
ghost use Rattle.life_names.specs.Environment.{signature_view, structure_view};
ghost use Rattle.life_names.specs.Found.{Finds};
ghost use Rattle.life_type_expr.specs.Named as spec;

use life_names::{Entity, Environment, IllFault, IllKind, Signature, Structure, ill};
use life_tree::Identifier;
use life_typed::TypedLocal;

/// The variable or parameter with this name.
pub(crate) fn local_named(
    environment: &Environment<'_>,
    name: Identifier,
) -> Result<(u32, TypedLocal), IllFault>
    ensures { Finds (λ x. x) result (spec.local_named name environment.now) }
{
    match environment.meaning(name.id) {
        Entity::Unseen => Err(ill(IllKind::UnknownName, name.place)),
        Entity::Structure(_) => Err(ill(IllKind::WrongType, name.place)),
        Entity::Function(_) => Err(ill(IllKind::WrongType, name.place)),
        Entity::Local(number) => match environment.local(number) {
            None => Err(ill(IllKind::UnknownName, name.place)),
            Some(local) => Ok((number, local)),
        },
    }
}

/// The function with this name.
pub(crate) fn function_named<'e>(
    environment: &'e Environment<'_>,
    name: Identifier,
) -> Result<(u32, &'e Signature), IllFault>
    ensures { Finds (λ x. (x.0, signature_view x.1.now)) result (spec.function_named name environment.now) }
{
    match environment.meaning(name.id) {
        Entity::Unseen => Err(ill(IllKind::UnknownName, name.place)),
        Entity::Structure(_) => Err(ill(IllKind::WrongType, name.place)),
        Entity::Function(number) => match environment.function(number) {
            None => Err(ill(IllKind::UnknownName, name.place)),
            Some(signature) => Ok((number, signature)),
        },
        Entity::Local(_) => Err(ill(IllKind::WrongType, name.place)),
    }
}

/// The struct with this name.
pub(crate) fn structure_named<'e>(
    environment: &'e Environment<'_>,
    name: Identifier,
) -> Result<(u32, &'e Structure), IllFault>
    ensures { Finds (λ x. (x.0, structure_view x.1.now)) result (spec.structure_named name environment.now) }
{
    match environment.meaning(name.id) {
        Entity::Unseen => Err(ill(IllKind::UnknownName, name.place)),
        Entity::Structure(number) => match environment.structure(number) {
            None => Err(ill(IllKind::UnknownName, name.place)),
            Some(structure) => Ok((number, structure)),
        },
        Entity::Function(_) => Err(ill(IllKind::WrongType, name.place)),
        Entity::Local(_) => Err(ill(IllKind::WrongType, name.place)),
    }
}
