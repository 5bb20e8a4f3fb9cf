// Attributes of the namespace `life`: where each may stand, and what it says. All other attributes
// are without effect (ISO/IEC 14882:2017 [dcl.attr.grammar]), and so is one that is `life` alone.
ghost use Rattle.std.specs.Prelude.{◌≡◌};
ghost use Rattle.life_typing.specs.Answers.{Follows};
ghost use Rattle.life_typing.specs.Attributes as spec;

use crate::pointing::{Pointing, Reach};
use life_names::{Entity, Environment, IllFault, IllKind};
use life_tree::{Attribute, AttributeArguments, AttributeWord, Identifier};
use life_types::NameId;

/// The attributes of the namespace `life`.
#[derive(Clone, Copy)]
pub(crate) enum LifeAttribute {
    /// `nonnull`: no null is handed in.
    Nonnull,
    /// `keeps`: no Owner at or under the parameter is changed.
    Keeps,
    /// `ret`: where the pointers in the result may point to.
    Ret,
    /// A name that the namespace doesn't have.
    Unknown,
}

/// The name behind `life::`, where the attribute is of that namespace.
pub(crate) fn life_name(environment: &Environment<'_>, attribute: &Attribute) -> Option<Identifier>
    ensures { result ≡ spec.life_name environment.now attribute.now }
{
    match attribute.scope {
        None => None,
        Some(scope) => {
            if environment.text(attribute.name.id) == b"life".as_slice() {
                Some(scope.name)
            } else {
                None
            }
        }
    }
}

/// The attribute with this name.
pub(crate) fn life_attribute(text: &[u8]) -> LifeAttribute
    ensures { result ≡ spec.life_attribute text.now }
{
    if text == b"nonnull".as_slice() {
        LifeAttribute::Nonnull
    } else if text == b"keeps".as_slice() {
        LifeAttribute::Keeps
    } else if text == b"ret".as_slice() {
        LifeAttribute::Ret
    } else {
        LifeAttribute::Unknown
    }
}

/// Whether a word is `null`, also where a parameter has that name.
pub(crate) fn is_null_word(environment: &Environment<'_>, name: NameId) -> bool
    ensures { result ≡ spec.is_null_word environment.now name }
{
    environment.text(name) == b"null".as_slice()
}

/// Whether what is returned has a pointer, as far as its type is known.
fn result_points(returned: Option<Pointing>) -> bool
    ensures { result ≡ spec.result_points returned }
{
    match returned {
        None => true,
        Some(pointing) => pointing.pointer,
    }
}

/// Whether what is returned has a raw pointer, as far as its type is known.
fn result_points_raw(returned: Option<Pointing>) -> bool
    ensures { result ≡ spec.result_points_raw returned }
{
    match returned {
        None => true,
        Some(pointing) => pointing.raw,
    }
}

/// Whether the parameter with this number has a pointer, as far as its type is known.
fn parameter_points(parameters: &[Reach], number: u32) -> bool
    ensures { result ≡ spec.parameter_points parameters.now number }
{
    match parameters.get(number as usize) {
        None => true,
        Some(reach) => reach.pointing.pointer,
    }
}

/// Whether a word of `ret` is one: `static`, `null` where what is returned has a raw pointer, or a
/// parameter that has a pointer. The parameters are visible.
fn word_fits(
    environment: &Environment<'_>,
    returned: Option<Pointing>,
    parameters: &[Reach],
    word: &AttributeWord,
) -> bool
    ensures { result ≡ spec.word_fits environment.now returned parameters.now word.now }
{
    match word {
        AttributeWord::Static(_) => true,
        AttributeWord::Name(name) => {
            if is_null_word(environment, name.id) {
                result_points_raw(returned)
            } else {
                match environment.meaning(name.id) {
                    Entity::Unseen => false,
                    Entity::Structure(_) => false,
                    Entity::Function(_) => false,
                    Entity::Local(number) => parameter_points(parameters, number),
                }
            }
        }
    }
}

fn words_fit(
    environment: &Environment<'_>,
    returned: Option<Pointing>,
    parameters: &[Reach],
    words: &[AttributeWord],
) -> bool
    ensures { result ≡ spec.words_fit environment.now returned parameters.now words.now }
{
    'words: for word in words {
        if !word_fits(environment, returned, parameters, word) {
            return false;
        }
    }
    true
}

/// Whether `ret` may stand before a function with these words.
fn ret_fits(
    environment: &Environment<'_>,
    returned: Option<Pointing>,
    parameters: &[Reach],
    arguments: &Option<AttributeArguments>,
) -> bool
    ensures { result ≡ spec.ret_fits environment.now returned parameters.now arguments.now }
{
    match arguments {
        None => false,
        Some(arguments) => {
            result_points(returned)
                && words_fit(environment, returned, parameters, &arguments.words)
        }
    }
}

/// Whether an attribute may stand before a function.
fn fits_function(
    environment: &Environment<'_>,
    returned: Option<Pointing>,
    parameters: &[Reach],
    name: Identifier,
    arguments: &Option<AttributeArguments>,
) -> bool
    ensures { result ≡ spec.fits_function environment.now returned parameters.now name arguments.now }
{
    match life_attribute(environment.text(name.id)) {
        LifeAttribute::Nonnull => false,
        LifeAttribute::Keeps => false,
        LifeAttribute::Ret => ret_fits(environment, returned, parameters, arguments),
        LifeAttribute::Unknown => false,
    }
}

/// The rule on attributes that is kept where this holds.
fn kept(holds: bool, name: Identifier) -> Result<(), IllFault>
    ensures { Follows result (spec.kept holds name) }
{
    if holds {
        Ok(())
    } else {
        Err(IllFault::Ill {
            kind: IllKind::BadAttribute,
            place: name.place,
        })
    }
}

/// The rule on an attribute before a function.
fn check_function_attribute(
    environment: &Environment<'_>,
    returned: Option<Pointing>,
    parameters: &[Reach],
    attribute: &Attribute,
) -> Result<(), IllFault>
    ensures { Follows result (spec.function_attribute environment.now returned parameters.now attribute.now) }
{
    match life_name(environment, attribute) {
        None => Ok(()),
        Some(name) => kept(
            fits_function(
                environment,
                returned,
                parameters,
                name,
                &attribute.arguments,
            ),
            name,
        ),
    }
}

/// The rules on the attributes before a function, where it is given what its result and parameters
/// hold of pointers, as far as their types are known. The parameters are visible.
pub(crate) fn check_function_attributes(
    environment: &Environment<'_>,
    returned: Option<Pointing>,
    parameters: &[Reach],
    attributes: &[Attribute],
) -> Result<(), IllFault>
    ensures { Follows result (spec.function_attributes environment.now returned parameters.now attributes.now) }
{
    'attributes: for attribute in attributes {
        check_function_attribute(environment, returned, parameters, attribute)?;
    }
    Ok(())
}

/// Whether no words are there.
fn is_bare(arguments: &Option<AttributeArguments>) -> bool
    ensures { result ≡ spec.is_bare arguments.now }
{
    match arguments {
        None => true,
        Some(_) => false,
    }
}

/// Whether a parameter is a raw pointer, as far as its type is known.
fn takes_null(reach: Option<Reach>) -> bool
    ensures { result ≡ spec.takes_null reach }
{
    match reach {
        None => true,
        Some(reach) => reach.raw_pointer,
    }
}

/// Whether an Owner may be changed through a parameter, as far as its type is known.
fn takes_an_owner(reach: Option<Reach>) -> bool
    ensures { result ≡ spec.takes_an_owner reach }
{
    match reach {
        None => true,
        Some(reach) => reach.owner,
    }
}

/// Whether an attribute may stand before a parameter.
fn fits_parameter(
    environment: &Environment<'_>,
    reach: Option<Reach>,
    name: Identifier,
    arguments: &Option<AttributeArguments>,
) -> bool
    ensures { result ≡ spec.fits_parameter environment.now reach name arguments.now }
{
    match life_attribute(environment.text(name.id)) {
        LifeAttribute::Nonnull => is_bare(arguments) && takes_null(reach),
        LifeAttribute::Keeps => is_bare(arguments) && takes_an_owner(reach),
        LifeAttribute::Ret => false,
        LifeAttribute::Unknown => false,
    }
}

/// The rule on an attribute before a parameter.
fn check_parameter_attribute(
    environment: &Environment<'_>,
    reach: Option<Reach>,
    attribute: &Attribute,
) -> Result<(), IllFault>
    ensures { Follows result (spec.parameter_attribute environment.now reach attribute.now) }
{
    match life_name(environment, attribute) {
        None => Ok(()),
        Some(name) => kept(
            fits_parameter(environment, reach, name, &attribute.arguments),
            name,
        ),
    }
}

/// The rules on the attributes before a parameter, of whose type it is given what is known.
pub(crate) fn check_parameter_attributes(
    environment: &Environment<'_>,
    reach: Option<Reach>,
    attributes: &[Attribute],
) -> Result<(), IllFault>
    ensures { Follows result (spec.parameter_attributes environment.now reach attributes.now) }
{
    'attributes: for attribute in attributes {
        check_parameter_attribute(environment, reach, attribute)?;
    }
    Ok(())
}
