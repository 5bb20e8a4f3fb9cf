// The names of functions, and what may be declared again.
ghost use Rattle.std.specs.Prelude.{◌≡◌};
ghost use Rattle.life_typing.specs.Answers.{Follows};
ghost use Rattle.life_names.specs.Environment as env;
ghost use Rattle.life_typing.specs.Names as spec;

use crate::pieces::Piece;
use life_names::{Entity, Environment, IllFault, IllKind, Signature};
use life_tree::{Function, FunctionBody, Parameter};
use life_typed::INT;
use life_types::{NameId, TyId};

/// What is kept of a function beside its signature.
#[derive(Drop)]
pub(crate) struct Declared {
    /// What its declarations say beside their types.
    pub(crate) pieces: Vec<Piece>,
    /// Whether one of its declarations so far has a body.
    pub(crate) has_body: bool,
}

/// Whether a declaration has a body.
pub(crate) fn has_body(body: &FunctionBody) -> bool
    ensures { result ≡ spec.has_body body.now }
{
    match body {
        FunctionBody::Block(_) => true,
        FunctionBody::Declared(_) => false,
    }
}

/// Whether types are those of an earlier declaration, the parameters' as far as they are known.
fn types_agree(signature: &Signature, returned: TyId, parameters: &[TyId]) -> bool
    ensures { result ≡ spec.types_agree returned parameters.now (env.signature_view signature.now) }
{
    signature.result == returned && signature.parameters.starts_with(parameters)
}

/// Whether the pieces are those of the earlier declarations, and no second body comes.
fn pieces_agree(declared: &Declared, pieces: &[Piece], bodied: bool) -> bool
    ensures { result ≡ spec.pieces_agree pieces.now bodied (spec.declared_view declared.now) }
{
    declared.pieces.as_slice() == pieces && !(declared.has_body && bodied)
}

/// Whether the function with this number may be declared again in this way: with the same types,
/// names of parameters and attributes, and with one body at most ([basic.def.odr], [dcl.fct]).
fn may_declare_again(
    environment: &Environment<'_>,
    declared: &[Declared],
    number: u32,
    returned: TyId,
    parameters: &[TyId],
    pieces: &[Piece],
    bodied: bool,
) -> bool
    ensures { result ≡ spec.may_declare_again environment.now (spec.declared_views declared.now) number returned parameters.now pieces.now bodied }
{
    match environment.function(number) {
        None => false,
        Some(signature) => match declared.get(number as usize) {
            None => false,
            Some(declared) => {
                types_agree(signature, returned, parameters)
                    && pieces_agree(declared, pieces, bodied)
            }
        },
    }
}

/// Whether a function may have its name, where that means this so far.
fn may_declare(
    environment: &Environment<'_>,
    declared: &[Declared],
    meaning: Entity,
    returned: TyId,
    parameters: &[TyId],
    pieces: &[Piece],
    bodied: bool,
) -> bool
    ensures { result ≡ spec.may_declare environment.now (spec.declared_views declared.now) meaning returned parameters.now pieces.now bodied }
{
    match meaning {
        Entity::Unseen => true,
        Entity::Structure(_) => false,
        Entity::Function(number) => may_declare_again(
            environment,
            declared,
            number,
            returned,
            parameters,
            pieces,
            bodied,
        ),
        Entity::Local(_) => false,
    }
}

/// Whether a name is `main`.
pub(crate) fn is_main(environment: &Environment<'_>, name: NameId) -> bool
    ensures { result ≡ spec.is_main environment.now name }
{
    environment.text(name) == b"main".as_slice()
}

/// Whether `main` may have this result and these parameters: an `int` and none ([basic.start.main]).
fn fits_main(returned: TyId, parameters: &[Parameter]) -> bool
    ensures { result ≡ spec.fits_main returned parameters.now }
{
    returned == INT && parameters.is_empty()
}

/// Whether the function gets a body: where it is declared first, by what is known of the file.
fn gets_body(bodies: &[bool], meaning: Entity, name: NameId) -> bool
    ensures { result ≡ spec.gets_body bodies.now meaning name }
{
    match meaning {
        Entity::Unseen => has_flag(bodies, name),
        Entity::Structure(_) => true,
        Entity::Function(_) => true,
        Entity::Local(_) => true,
    }
}

/// Whether the flag of a name is set.
fn has_flag(flags: &[bool], name: NameId) -> bool
    ensures { result ≡ spec.has_flag flags.now name }
{
    match flags.get(name.0 as usize) {
        Some(flag) => *flag,
        None => false,
    }
}

/// The rule that a function's name breaks, of several the one with the lowest number. It is given
/// what the name means so far, the functions of which there are bodies by their names, and what the
/// declaration says, its types as far as they are known.
fn name_fault(
    environment: &Environment<'_>,
    declared: &[Declared],
    bodies: &[bool],
    meaning: Entity,
    function: &Function,
    returned: TyId,
    parameters: &[TyId],
    pieces: &[Piece],
) -> Option<IllKind>
    ensures { result ≡ spec.name_fault environment.now (spec.declared_views declared.now) bodies.now meaning function.now returned parameters.now pieces.now }
{
    let bodied = has_body(&function.body);
    if !may_declare(
        environment,
        declared,
        meaning,
        returned,
        parameters,
        pieces,
        bodied,
    ) {
        Some(IllKind::Redeclared)
    } else if is_main(environment, function.name.id) && !fits_main(returned, &function.parameters) {
        Some(IllKind::WrongType)
    } else if !gets_body(bodies, meaning, function.name.id) {
        Some(IllKind::NoBody)
    } else {
        None
    }
}

/// The rules on a function's name.
pub(crate) fn check_name(
    environment: &Environment<'_>,
    declared: &[Declared],
    bodies: &[bool],
    meaning: Entity,
    function: &Function,
    returned: TyId,
    parameters: &[TyId],
    pieces: &[Piece],
) -> Result<(), IllFault>
    ensures { Follows result (spec.name_rules environment.now (spec.declared_views declared.now) bodies.now meaning function.now returned parameters.now pieces.now) }
{
    let place = function.name.place;
    match name_fault(
        environment,
        declared,
        bodies,
        meaning,
        function,
        returned,
        parameters,
        pieces,
    ) {
        None => Ok(()),
        Some(kind) => Err(IllFault::Ill { kind, place }),
    }
}
