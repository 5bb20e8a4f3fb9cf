// What a declaration of a function says beside its types.
ghost use Rattle.std.specs.Prelude.{◌≡◌, ◌++◌, OnOk};
ghost use Rattle.life_typing.specs.Pieces as spec;

use crate::attributes::life_name;
use life_names::Environment;
use life_tree::{Attribute, AttributeArguments, AttributeWord, Function, Identifier, Parameter};
use life_types::{NameId, NoMemory};

/// A piece of what a declaration says beside its types. Two declarations of a function agree where
/// all their pieces do.
#[derive(Clone, Copy, PartialEq, Eq)]
pub(crate) enum Piece {
    /// A parameter with this name.
    Parameter(NameId),
    /// An attribute of the namespace `life` with this name.
    Attribute(NameId),
    /// Words in parentheses.
    Words,
    /// The word that is this name.
    Word(NameId),
    /// The word `static`.
    Static,
}

fn add_word(word: &AttributeWord, pieces: &mut Vec<Piece>) -> Result<(), NoMemory>
    ensures { OnOk result (pieces.new.items ≡ pieces.old.items ++ spec.word_pieces word.now) }
{
    match word {
        AttributeWord::Name(name) => pieces.push(Piece::Word(name.id))?,
        AttributeWord::Static(_) => pieces.push(Piece::Static)?,
    }
    Ok(())
}

fn add_words(words: &[AttributeWord], pieces: &mut Vec<Piece>) -> Result<(), NoMemory>
    ensures { OnOk result (pieces.new.items ≡ pieces.old.items ++ spec.words_pieces words.now) }
{
    'words: for word in words {
        add_word(word, pieces)?;
    }
    Ok(())
}

fn add_arguments(
    arguments: &Option<AttributeArguments>,
    pieces: &mut Vec<Piece>,
) -> Result<(), NoMemory>
    ensures { OnOk result (pieces.new.items ≡ pieces.old.items ++ spec.arguments_pieces arguments.now) }
{
    match arguments {
        None => Ok(()),
        Some(arguments) => {
            pieces.push(Piece::Words)?;
            add_words(&arguments.words, pieces)
        }
    }
}

fn add_named(
    name: Option<Identifier>,
    attribute: &Attribute,
    pieces: &mut Vec<Piece>,
) -> Result<(), NoMemory>
    ensures { OnOk result (pieces.new.items ≡ pieces.old.items ++ spec.named_pieces name attribute.now) }
{
    match name {
        None => Ok(()),
        Some(name) => {
            pieces.push(Piece::Attribute(name.id))?;
            add_arguments(&attribute.arguments, pieces)
        }
    }
}

fn add_attributes(
    environment: &Environment<'_>,
    attributes: &[Attribute],
    pieces: &mut Vec<Piece>,
) -> Result<(), NoMemory>
    ensures { OnOk result (pieces.new.items ≡ pieces.old.items ++ spec.attributes_pieces environment.now attributes.now) }
{
    'attributes: for attribute in attributes {
        add_named(life_name(environment, attribute), attribute, pieces)?;
    }
    Ok(())
}

fn add_parameters(
    environment: &Environment<'_>,
    parameters: &[Parameter],
    pieces: &mut Vec<Piece>,
) -> Result<(), NoMemory>
    ensures { OnOk result (pieces.new.items ≡ pieces.old.items ++ spec.parameters_pieces environment.now parameters.now) }
{
    'parameters: for parameter in parameters {
        pieces.push(Piece::Parameter(parameter.name.id))?;
        add_attributes(environment, &parameter.attributes, pieces)?;
    }
    Ok(())
}

/// The pieces of a declaration, in their order.
pub(crate) fn add_pieces(
    environment: &Environment<'_>,
    function: &Function,
    pieces: &mut Vec<Piece>,
) -> Result<(), NoMemory>
    ensures { OnOk result (pieces.new.items ≡ pieces.old.items ++ spec.pieces environment.now function.now) }
{
    add_attributes(environment, &function.attributes, pieces)?;
    add_parameters(environment, &function.parameters, pieces)
}
