// Functions.
ghost use Rattle.std.specs.Prelude.{◌≡◌, IfOk, map};
ghost use Rattle.life_typed.specs.TypedStatement.{block_view};
ghost use Rattle.life_typing.specs.Answers.{Answers, Follows};
ghost use Rattle.life_typing.specs.Functions as spec;
ghost use Rattle.life_typing.specs.Headers.{known_view};
ghost use Rattle.life_typing.specs.Names.{declared_views};
ghost use Rattle.life_typed.specs.Programs.{function_view};
ghost use Rattle.life_typing.specs.Progress.{progress_view};

use crate::attributes::check_function_attributes;
use crate::headers::{HeaderTypes, KnownTypes, Returned, header_types};
use crate::names::{Declared, check_name, is_main};
use crate::parameters::{check_parameters, declare_parameters, forget_parameters};
use crate::pieces::{Piece, add_pieces};
use crate::pointing::Pointing;
use crate::progress::Progress;
use crate::promises::{parameter_promises, result_promise};
use life_names::{Entity, Environment, IllFault, Signature};
use life_tree::{Block, Function, FunctionBody};
use life_type_stmt::body;
use life_typed::{TypedBlock, TypedFunction, TypedLocal};
use life_types::{NoMemory, Place, TyId};
use std::alloc::Global;

/// What a header says: its types, and what else it says, piece by piece.
#[derive(Drop)]
struct HeaderParts {
    returned: TyId,
    parameters: Vec<TyId>,
    pieces: Vec<Piece>,
}

/// What a result holds of pointers, as far as its type is known.
fn result_pointing(returned: Option<Returned>) -> Option<Pointing>
    ensures { result ≡ spec.result_pointing returned }
{
    match returned {
        None => None,
        Some(returned) => Some(returned.pointing),
    }
}

/// The rules on the name and on the parameters, behind a result that is well formed.
fn check_behind_result(
    environment: &Environment<'_>,
    declared: &[Declared],
    bodies: &[bool],
    meaning: Entity,
    function: &Function,
    returned: Option<Returned>,
    known: &KnownTypes,
    pieces: &[Piece],
    hides: &[bool],
) -> Result<(), IllFault>
    ensures { Follows result (spec.behind_result environment.now (declared_views declared.now) bodies.now meaning function.now returned (known_view known.now) pieces.now hides.now) }
{
    match returned {
        None => Ok(()),
        Some(returned) => {
            check_name(
                environment,
                declared,
                bodies,
                meaning,
                function,
                returned.ty,
                &known.types,
                pieces,
            )?;
            check_parameters(environment, &function.parameters, &known.reaches, hides)
        }
    }
}

/// The rules on a header, in the order of its text, as far as its types are known: those behind a
/// type that isn't come after what it breaks itself. The parameters are declared; it is given what
/// the function's name meant before, and for each parameter whether its name was visible.
fn check_header(
    environment: &Environment<'_>,
    declared: &[Declared],
    bodies: &[bool],
    meaning: Entity,
    function: &Function,
    returned: Option<Returned>,
    known: &KnownTypes,
    pieces: &[Piece],
    hides: &[bool],
) -> Result<(), IllFault>
    ensures { Follows result (spec.header_rules environment.now (declared_views declared.now) bodies.now meaning function.now returned (known_view known.now) pieces.now hides.now) }
{
    let pointing = result_pointing(returned);
    check_function_attributes(environment, pointing, &known.reaches, &function.attributes)?;
    check_behind_result(
        environment,
        declared,
        bodies,
        meaning,
        function,
        returned,
        known,
        pieces,
        hides,
    )
}

/// The pieces of a declaration whose rules are kept. Its parameters are declared, and it is given
/// whether their names were visible.
fn checked_pieces(
    alloc: Global,
    environment: &Environment<'_>,
    declared: &[Declared],
    bodies: &[bool],
    meaning: Entity,
    function: &Function,
    returned: Option<Returned>,
    known: &KnownTypes,
    hides: &[bool],
) -> Result<Vec<Piece>, IllFault>
    ensures { Answers (λ p. (p.items, environment.now)) result (spec.checked_with (declared_views declared.now) bodies.now meaning function.now returned (known_view known.now) hides.now environment.now) }
{
    let mut pieces = Vec::new(alloc);
    add_pieces(environment, function, &mut pieces)?;
    check_header(
        environment,
        declared,
        bodies,
        meaning,
        function,
        returned,
        known,
        &pieces,
        hides,
    )?;
    Ok(pieces)
}

/// Declares the parameters of a header, and checks its rules.
fn declare_and_check(
    alloc: Global,
    environment: &mut Environment<'_>,
    declared: &[Declared],
    bodies: &[bool],
    meaning: Entity,
    function: &Function,
    returned: Option<Returned>,
    known: &KnownTypes,
) -> Result<Vec<Piece>, IllFault>
    ensures { Answers (λ p. (p.items, environment.new)) result (spec.declared_and_checked (declared_views declared.now) bodies.now meaning function.now returned (known_view known.now) environment.old) }
{
    let hides = declare_parameters(alloc, environment, &function.parameters, &known.types)?;
    checked_pieces(
        alloc,
        environment,
        declared,
        bodies,
        meaning,
        function,
        returned,
        known,
        &hides,
    )
}

/// A header whose rules are kept, with its parameters declared.
fn header(
    alloc: Global,
    progress: &mut Progress<'_>,
    bodies: &[bool],
    meaning: Entity,
    function: &Function,
) -> Result<HeaderParts, IllFault>
    ensures { Answers (λ h. (spec.parts_view h, progress_view progress.new)) result (spec.header bodies.now meaning function.now (progress_view progress.old)) }
{
    match header_types(
        alloc,
        &mut progress.environment,
        &mut progress.types,
        &progress.pointing,
        function,
    )? {
        HeaderTypes::Sound {
            returned,
            parameters,
        } => {
            let pieces = declare_and_check(
                alloc,
                &mut progress.environment,
                &progress.declared,
                bodies,
                meaning,
                function,
                Some(returned),
                &parameters,
            )?;
            Ok(HeaderParts {
                returned: returned.ty,
                parameters: parameters.types,
                pieces,
            })
        }
        HeaderTypes::Ill {
            returned,
            parameters,
            broken,
        } => {
            declare_and_check(
                alloc,
                &mut progress.environment,
                &progress.declared,
                bodies,
                meaning,
                function,
                returned,
                &parameters,
            )?;
            Err(IllFault::Ill {
                kind: broken.kind,
                place: broken.place,
            })
        }
    }
}

/// A function whose body hasn't come yet.
fn without_body(
    alloc: Global,
    environment: &Environment<'_>,
    function: &Function,
    returned: TyId,
) -> Result<TypedFunction, NoMemory>
    ensures { IfOk result (λ f. function_view f ≡ spec.without_body function.now returned environment.now) }
{
    let place = function.name.place;
    Ok(TypedFunction {
        name: function.name.id,
        place,
        first_place: place,
        result: returned,
        parameters: parameter_promises(alloc, environment, &function.parameters)?,
        promise: result_promise(
            alloc,
            environment,
            &function.attributes,
            &function.parameters,
        )?,
        locals: Vec::new(alloc),
        body: TypedBlock {
            items: Vec::new(alloc),
            closing: place,
        },
    })
}

/// Declares a function for the first time.
fn declare_first(
    alloc: Global,
    progress: &mut Progress<'_>,
    function: &Function,
    header: HeaderParts,
) -> Result<u32, IllFault>
    ensures { Answers (λ n. (n, progress_view progress.new)) result (spec.declared_first function.now (spec.parts_view header) (progress_view progress.old)) }
{
    let HeaderParts {
        returned,
        parameters,
        pieces,
    } = header;
    let first = without_body(alloc, &progress.environment, function, returned)?;
    progress.functions.push(first)?;
    progress.declared.push(Declared {
        pieces,
        has_body: false,
    })?;
    let signature = Signature {
        result: returned,
        parameters,
    };
    progress
        .environment
        .declare_function(function.name.id, function.name.place, signature)
}

/// Declares a function, for the first time or again.
fn declare(
    alloc: Global,
    progress: &mut Progress<'_>,
    meaning: Entity,
    function: &Function,
    header: HeaderParts,
) -> Result<u32, IllFault>
    ensures { Answers (λ n. (n, progress_view progress.new)) result (spec.declared meaning function.now (spec.parts_view header) (progress_view progress.old)) }
{
    match meaning {
        Entity::Unseen => declare_first(alloc, progress, function, header),
        Entity::Structure(_) => declare_first(alloc, progress, function, header),
        Entity::Function(number) => Ok(number),
        Entity::Local(_) => declare_first(alloc, progress, function, header),
    }
}

/// The function with this number gets its body and its variables.
#[tactic(auto, using(crate::proofs::Changed::unchanged_view))]
fn set_body(
    functions: &mut Vec<TypedFunction>,
    number: u32,
    place: Place,
    locals: Vec<TypedLocal>,
    body: TypedBlock,
)
    ensures { map function_view functions.new.items ≡ spec.with_body number place locals.items (block_view body) (map function_view functions.old.items) }
{
    if let Some(function) = functions.get_mut(number as usize) {
        function.place = place;
        function.locals = locals;
        function.body = body;
    }
}

/// The function with this number has a body from here on.
#[tactic(auto, using(crate::proofs::Changed::unchanged_view))]
fn note_body(declared: &mut Vec<Declared>, number: u32)
    ensures { declared_views declared.new.items ≡ spec.with_body_noted number (declared_views declared.old.items) }
{
    if let Some(declared) = declared.get_mut(number as usize) {
        declared.has_body = true;
    }
}

/// The body of the function with this number.
fn define_body(
    alloc: Global,
    progress: &mut Progress<'_>,
    function: &Function,
    number: u32,
    returned: TyId,
    block: &Block,
) -> Result<(), IllFault>
    ensures { Answers (λ _. progress_view progress.new) result (spec.body_defined function.now number returned block.now (progress_view progress.old)) }
{
    let is_main = is_main(&progress.environment, function.name.id);
    let found = body(
        alloc,
        &mut progress.environment,
        &mut progress.types,
        returned,
        is_main,
        block,
    )?;
    let locals = progress.environment.end_function(alloc);
    set_body(
        &mut progress.functions,
        number,
        function.name.place,
        locals,
        found,
    );
    note_body(&mut progress.declared, number);
    Ok(())
}

/// What stands behind the header of the function with this number.
fn define_behind(
    alloc: Global,
    progress: &mut Progress<'_>,
    function: &Function,
    number: u32,
    returned: TyId,
) -> Result<(), IllFault>
    ensures { Answers (λ _. progress_view progress.new) result (spec.behind_header function.now number returned (progress_view progress.old)) }
{
    match &function.body {
        FunctionBody::Block(block) => {
            define_body(alloc, progress, function, number, returned, block)
        }
        FunctionBody::Declared(_) => {
            let _ = progress.environment.end_function(alloc);
            Ok(())
        }
    }
}

/// A function, where `bodies` has the names of which there are bodies in the file ([dcl.fct]).
pub(crate) fn define_function(
    alloc: Global,
    progress: &mut Progress<'_>,
    bodies: &[bool],
    function: &Function,
) -> Result<(), IllFault>
    ensures { Answers (λ _. progress_view progress.new) result (spec.with_function bodies.now function.now (progress_view progress.old)) }
{
    let meaning = progress.environment.meaning(function.name.id);
    let header = header(alloc, progress, bodies, meaning, function)?;
    let returned = header.returned;
    let number = declare(alloc, progress, meaning, function, header)?;
    define_behind(alloc, progress, function, number, returned)?;
    forget_parameters(&mut progress.environment, &function.parameters);
    Ok(())
}
