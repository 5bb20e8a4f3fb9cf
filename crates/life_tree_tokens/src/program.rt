// The tokens of a program.
ghost use Rattle.std.specs.Prelude.{◌≡◌, ◌++◌, IfOk, OnOk, map};
ghost use Rattle.life_tree.specs.Tree.{keys_of};
ghost use Rattle.life_tree.specs.Views.{attribute_arguments_tree, attribute_tree, attributes_tree, body_tree, definition_tree, function_tree, list_tree, member_tree, optional_tree, parameter_tree, program_tree, result_tree, scope_tree, separated_tree, struct_tree, word_tree};

use crate::stmt::write_block;
use crate::token::{write_comma, write_commas, write_fixed, write_name};
use crate::type_name::write_type;
use life_tree::{
    Attribute, AttributeArguments, AttributeScope, AttributeWord, Definition, Function,
    FunctionBody, Member, Parameter, Program, ResultType, StructDefinition, TokenKey, fixed,
};
use life_types::{NoMemory, Place};
use std::alloc::Global;

/// The tokens of a program in their order, by their kinds and values.
///
/// # Errors
///
/// For want of memory.
pub fn write_tokens(alloc: Global, tree: &Program) -> Result<Vec<TokenKey>, NoMemory>
    ensures { IfOk result (λ keys. keys.items ≡ keys_of (program_tree tree.now)) }
{
    let mut keys = Vec::new(alloc);
    write_definitions(&tree.definitions, &mut keys)?;
    Ok(keys)
}

fn write_definitions(
    definitions: &Vec<Definition>,
    keys: &mut Vec<TokenKey>,
) -> Result<(), NoMemory>
    ensures { OnOk result (keys.new.items ≡ keys.old.items ++ keys_of (list_tree (map definition_tree definitions.now.items))) }
{
    'definitions: for definition in definitions {
        write_definition(definition, keys)?;
    }
    Ok(())
}

fn write_definition(definition: &Definition, keys: &mut Vec<TokenKey>) -> Result<(), NoMemory>
    ensures { OnOk result (keys.new.items ≡ keys.old.items ++ keys_of (definition_tree definition.now)) }
{
    match definition {
        Definition::Struct(definition) => write_struct(definition, keys),
        Definition::Function(function) => write_function(function, keys),
    }
}

fn write_member(member: &Member, keys: &mut Vec<TokenKey>) -> Result<(), NoMemory>
    ensures { OnOk result (keys.new.items ≡ keys.old.items ++ keys_of (member_tree member.now)) }
{
    write_type(&member.ty, keys)?;
    write_name(member.name, keys)?;
    write_fixed(fixed::SEMICOLON, keys)
}

fn write_members(members: &Vec<Member>, keys: &mut Vec<TokenKey>) -> Result<(), NoMemory>
    ensures { OnOk result (keys.new.items ≡ keys.old.items ++ keys_of (list_tree (map member_tree members.now.items))) }
{
    'members: for member in members {
        write_member(member, keys)?;
    }
    Ok(())
}

fn write_struct(definition: &StructDefinition, keys: &mut Vec<TokenKey>) -> Result<(), NoMemory>
    ensures { OnOk result (keys.new.items ≡ keys.old.items ++ keys_of (struct_tree definition.now)) }
{
    write_fixed(fixed::STRUCT, keys)?;
    write_name(definition.name, keys)?;
    write_fixed(fixed::LEFT_BRACE, keys)?;
    write_members(&definition.members, keys)?;
    write_fixed(fixed::RIGHT_BRACE, keys)?;
    write_fixed(fixed::SEMICOLON, keys)
}

fn write_word(word: &AttributeWord, keys: &mut Vec<TokenKey>) -> Result<(), NoMemory>
    ensures { OnOk result (keys.new.items ≡ keys.old.items ++ keys_of (word_tree word.now)) }
{
    match word {
        AttributeWord::Name(name) => write_name(*name, keys),
        AttributeWord::Static(_) => write_fixed(fixed::STATIC, keys),
    }
}

#[tactic(auto, using(crate::proofs::SeparatedKeys::first_keys))]
fn write_words(
    words: &Vec<AttributeWord>,
    commas: &Vec<Place>,
    keys: &mut Vec<TokenKey>,
) -> Result<(), NoMemory>
    ensures { OnOk result (keys.new.items ≡ keys.old.items ++ keys_of (separated_tree commas.now.items (map word_tree words.now.items))) }
{
    let mut started = false;
    let mut rest = commas.as_slice();
    'words: for word in words {
        rest = write_comma(started, rest, keys)?;
        write_word(word, keys)?;
        started = true;
    }
    write_commas(rest, keys)
}

fn write_scope(scope: &Option<AttributeScope>, keys: &mut Vec<TokenKey>) -> Result<(), NoMemory>
    ensures { OnOk result (keys.new.items ≡ keys.old.items ++ keys_of (optional_tree scope_tree scope.now)) }
{
    let Some(scope) = scope else {
        return Ok(());
    };
    write_fixed(fixed::SCOPE, keys)?;
    write_name(scope.name, keys)
}

fn write_attribute_arguments(
    arguments: &Option<AttributeArguments>,
    keys: &mut Vec<TokenKey>,
) -> Result<(), NoMemory>
    ensures { OnOk result (keys.new.items ≡ keys.old.items ++ keys_of (optional_tree attribute_arguments_tree arguments.now)) }
{
    let Some(arguments) = arguments else {
        return Ok(());
    };
    write_fixed(fixed::LEFT_PAREN, keys)?;
    write_words(&arguments.words, &arguments.commas, keys)?;
    write_fixed(fixed::RIGHT_PAREN, keys)
}

fn write_attribute(attribute: &Attribute, keys: &mut Vec<TokenKey>) -> Result<(), NoMemory>
    ensures { OnOk result (keys.new.items ≡ keys.old.items ++ keys_of (attribute_tree attribute.now)) }
{
    write_fixed(fixed::LEFT_BRACKET, keys)?;
    write_fixed(fixed::LEFT_BRACKET, keys)?;
    write_name(attribute.name, keys)?;
    write_scope(&attribute.scope, keys)?;
    write_attribute_arguments(&attribute.arguments, keys)?;
    write_fixed(fixed::RIGHT_BRACKET, keys)?;
    write_fixed(fixed::RIGHT_BRACKET, keys)
}

fn write_attributes(attributes: &Vec<Attribute>, keys: &mut Vec<TokenKey>) -> Result<(), NoMemory>
    ensures { OnOk result (keys.new.items ≡ keys.old.items ++ keys_of (attributes_tree attributes.now.items)) }
{
    'attributes: for attribute in attributes {
        write_attribute(attribute, keys)?;
    }
    Ok(())
}

fn write_parameter(parameter: &Parameter, keys: &mut Vec<TokenKey>) -> Result<(), NoMemory>
    ensures { OnOk result (keys.new.items ≡ keys.old.items ++ keys_of (parameter_tree parameter.now)) }
{
    write_attributes(&parameter.attributes, keys)?;
    write_type(&parameter.ty, keys)?;
    write_name(parameter.name, keys)
}

#[tactic(auto, using(crate::proofs::SeparatedKeys::first_keys))]
fn write_parameters(
    parameters: &Vec<Parameter>,
    commas: &Vec<Place>,
    keys: &mut Vec<TokenKey>,
) -> Result<(), NoMemory>
    ensures { OnOk result (keys.new.items ≡ keys.old.items ++ keys_of (separated_tree commas.now.items (map parameter_tree parameters.now.items))) }
{
    let mut started = false;
    let mut rest = commas.as_slice();
    'parameters: for parameter in parameters {
        rest = write_comma(started, rest, keys)?;
        write_parameter(parameter, keys)?;
        started = true;
    }
    write_commas(rest, keys)
}

fn write_result(ty: &ResultType, keys: &mut Vec<TokenKey>) -> Result<(), NoMemory>
    ensures { OnOk result (keys.new.items ≡ keys.old.items ++ keys_of (result_tree ty.now)) }
{
    match ty {
        ResultType::Void(_) => write_fixed(fixed::VOID, keys),
        ResultType::Type(ty) => write_type(ty, keys),
    }
}

fn write_body(body: &FunctionBody, keys: &mut Vec<TokenKey>) -> Result<(), NoMemory>
    ensures { OnOk result (keys.new.items ≡ keys.old.items ++ keys_of (body_tree body.now)) }
{
    match body {
        FunctionBody::Block(block) => write_block(block, keys),
        FunctionBody::Declared(_) => write_fixed(fixed::SEMICOLON, keys),
    }
}

fn write_function(function: &Function, keys: &mut Vec<TokenKey>) -> Result<(), NoMemory>
    ensures { OnOk result (keys.new.items ≡ keys.old.items ++ keys_of (function_tree function.now)) }
{
    write_attributes(&function.attributes, keys)?;
    write_result(&function.returned, keys)?;
    write_name(function.name, keys)?;
    write_fixed(fixed::LEFT_PAREN, keys)?;
    write_parameters(&function.parameters, &function.commas, keys)?;
    write_fixed(fixed::RIGHT_PAREN, keys)?;
    write_body(&function.body, keys)
}
