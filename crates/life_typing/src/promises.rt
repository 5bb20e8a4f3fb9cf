// What the attributes of a function promise.
ghost use Rattle.std.specs.Prelude.{◌≡◌, ◌++◌, IfOk, OnOk, slice_set, true};
ghost use Rattle.life_typed.specs.Programs.{promise_view};
ghost use Rattle.life_typing.specs.Promises as spec;

use crate::attributes::{LifeAttribute, is_null_word, life_attribute, life_name};
use life_names::{Entity, Environment};
use life_tree::{Attribute, AttributeArguments, AttributeWord, Parameter};
use life_typed::{ParameterPromise, ResultPromise};
use life_types::NoMemory;
use std::alloc::Global;

/// The words of all attributes `ret` of a function together.
#[derive(Drop)]
struct RetWords {
    /// Whether there is such an attribute.
    listed: bool,
    /// For each parameter, whether a word is its name.
    named: Vec<bool>,
    /// Whether `static` is among them.
    fixed: bool,
    /// Whether `null` is among them.
    null: bool,
}

/// A word is the name of the parameter with this number.
fn name_parameter(named: &mut Vec<bool>, number: u32)
    ensures { named.new.items ≡ slice_set named.old.items number true }
{
    if let Some(marked) = named.get_mut(number as usize) {
        *marked = true;
    }
}

/// A word that is a name and not `null`: the name of a parameter, which is visible.
fn take_name(words: &mut RetWords, meaning: Entity)
    ensures { spec.ret_words words.new ≡ spec.with_meaning meaning (spec.ret_words words.old) }
{
    match meaning {
        Entity::Unseen => {}
        Entity::Structure(_) => {}
        Entity::Function(_) => {}
        Entity::Local(number) => name_parameter(&mut words.named, number),
    }
}

fn take_word(environment: &Environment<'_>, word: &AttributeWord, words: &mut RetWords)
    ensures { spec.ret_words words.new ≡ spec.with_word environment.now word.now (spec.ret_words words.old) }
{
    match word {
        AttributeWord::Static(_) => words.fixed = true,
        AttributeWord::Name(name) => {
            if is_null_word(environment, name.id) {
                words.null = true;
            } else {
                take_name(words, environment.meaning(name.id));
            }
        }
    }
}

fn take_words(environment: &Environment<'_>, list: &[AttributeWord], words: &mut RetWords)
    ensures { spec.ret_words words.new ≡ spec.with_words environment.now list.now (spec.ret_words words.old) }
{
    'list: for word in list {
        take_word(environment, word, words);
    }
}

fn take_arguments(
    environment: &Environment<'_>,
    arguments: &Option<AttributeArguments>,
    words: &mut RetWords,
)
    ensures { spec.ret_words words.new ≡ spec.with_arguments environment.now arguments.now (spec.ret_words words.old) }
{
    match arguments {
        None => {}
        Some(arguments) => take_words(environment, &arguments.words, words),
    }
}

/// An attribute of the namespace `life` with this name.
fn take_named(
    environment: &Environment<'_>,
    attribute: LifeAttribute,
    arguments: &Option<AttributeArguments>,
    words: &mut RetWords,
)
    ensures { spec.ret_words words.new ≡ spec.with_named environment.now attribute arguments.now (spec.ret_words words.old) }
{
    match attribute {
        LifeAttribute::Nonnull => {}
        LifeAttribute::Keeps => {}
        LifeAttribute::Ret => {
            words.listed = true;
            take_arguments(environment, arguments, words);
        }
        LifeAttribute::Unknown => {}
    }
}

fn take_attribute(environment: &Environment<'_>, attribute: &Attribute, words: &mut RetWords)
    ensures { spec.ret_words words.new ≡ spec.with_attribute environment.now attribute.now (spec.ret_words words.old) }
{
    match life_name(environment, attribute) {
        None => {}
        Some(name) => take_named(
            environment,
            life_attribute(environment.text(name.id)),
            &attribute.arguments,
            words,
        ),
    }
}

fn take_attributes(environment: &Environment<'_>, attributes: &[Attribute], words: &mut RetWords)
    ensures { spec.ret_words words.new ≡ spec.with_attributes environment.now attributes.now (spec.ret_words words.old) }
{
    'attributes: for attribute in attributes {
        take_attribute(environment, attribute, words);
    }
}

/// No parameter is named.
fn none_named(alloc: Global, parameters: &[Parameter]) -> Result<Vec<bool>, NoMemory>
    ensures { IfOk result (λ v. v.items ≡ spec.none_named parameters.now) }
{
    let mut named = Vec::new(alloc);
    'parameters: for _ in parameters {
        named.push(false)?;
    }
    Ok(named)
}

/// Whether the parameter with this number is named.
fn is_named(named: &[bool], number: u32) -> bool
    ensures { result ≡ spec.is_named named.now number }
{
    match named.get(number as usize) {
        Some(is_named) => *is_named,
        None => false,
    }
}

/// The numbers of the parameters that are named, in their order. The parameters are visible.
fn named_numbers(
    alloc: Global,
    environment: &Environment<'_>,
    named: &[bool],
    parameters: &[Parameter],
) -> Result<Vec<u32>, NoMemory>
    ensures { IfOk result (λ v. v.items ≡ spec.named_numbers environment.now named.now parameters.now) }
{
    let mut numbers = Vec::new(alloc);
    'parameters: for parameter in parameters {
        add_named_number(environment.meaning(parameter.name.id), named, &mut numbers)?;
    }
    Ok(numbers)
}

/// Adds the number of what a name means, if it is that of a parameter that is named.
fn add_named_number(meaning: Entity, named: &[bool], numbers: &mut Vec<u32>) -> Result<(), NoMemory>
    ensures { OnOk result (numbers.new.items ≡ numbers.old.items ++ spec.named_number named.now meaning) }
{
    match meaning {
        Entity::Unseen => {}
        Entity::Structure(_) => {}
        Entity::Function(_) => {}
        Entity::Local(number) => {
            if is_named(named, number) {
                numbers.push(number)?;
            }
        }
    }
    Ok(())
}

/// What a function with these attributes and parameters promises of its result: the words of its
/// attributes `ret` together, each once. The parameters are visible.
pub(crate) fn result_promise(
    alloc: Global,
    environment: &Environment<'_>,
    attributes: &[Attribute],
    parameters: &[Parameter],
) -> Result<ResultPromise, NoMemory>
    ensures { IfOk result (λ p. promise_view p ≡ spec.result_promise environment.now attributes.now parameters.now) }
{
    let mut words = RetWords {
        listed: false,
        named: none_named(alloc, parameters)?,
        fixed: false,
        null: false,
    };
    take_attributes(environment, attributes, &mut words);
    if words.listed {
        let numbers = named_numbers(alloc, environment, &words.named, parameters)?;
        Ok(ResultPromise::Listed {
            parameters: numbers,
            fixed: words.fixed,
            null: words.null,
        })
    } else {
        Ok(ResultPromise::Default)
    }
}

/// What a parameter with these attributes promises, with another one.
fn with_attribute(
    environment: &Environment<'_>,
    promise: ParameterPromise,
    attribute: &Attribute,
) -> ParameterPromise
    ensures { result ≡ spec.promise_with environment.now promise attribute.now }
{
    match life_name(environment, attribute) {
        None => promise,
        Some(name) => with_named(promise, life_attribute(environment.text(name.id))),
    }
}

fn with_named(promise: ParameterPromise, attribute: LifeAttribute) -> ParameterPromise
    ensures { result ≡ spec.promise_with_named promise attribute }
{
    match attribute {
        LifeAttribute::Nonnull => ParameterPromise {
            nonnull: true,
            keeps: promise.keeps,
        },
        LifeAttribute::Keeps => ParameterPromise {
            nonnull: promise.nonnull,
            keeps: true,
        },
        LifeAttribute::Ret => promise,
        LifeAttribute::Unknown => promise,
    }
}

/// What a parameter with these attributes promises.
fn parameter_promise(environment: &Environment<'_>, attributes: &[Attribute]) -> ParameterPromise
    ensures { result ≡ spec.parameter_promise environment.now attributes.now }
{
    let mut promise = ParameterPromise {
        nonnull: false,
        keeps: false,
    };
    'attributes: for attribute in attributes {
        promise = with_attribute(environment, promise, attribute);
    }
    promise
}

/// What each parameter promises.
pub(crate) fn parameter_promises(
    alloc: Global,
    environment: &Environment<'_>,
    parameters: &[Parameter],
) -> Result<Vec<ParameterPromise>, NoMemory>
    ensures { IfOk result (λ v. v.items ≡ spec.parameter_promises environment.now parameters.now) }
{
    let mut promises = Vec::new(alloc);
    'parameters: for parameter in parameters {
        promises.push(parameter_promise(environment, &parameter.attributes))?;
    }
    Ok(promises)
}
