// Whole files.
ghost use Rattle.std.specs.Prelude.{◌≡◌, IfOk, map, slice_set, true};
ghost use Rattle.life_typing.specs.Answers.{Answers};
ghost use Rattle.life_names.specs.Environment.{text_items};
ghost use Rattle.life_typed.specs.Programs.{program_view};
ghost use Rattle.life_typing.specs.Progress.{progress_view};
ghost use Rattle.life_typing.specs.Resolves as spec;

use crate::functions::define_function;
use crate::names::has_body;
use crate::progress::{Progress, nothing_defined};
use crate::structs::define_structure;
use life_names::IllFault;
use life_tree::{Definition, Function, Program};
use life_typed::Typed;
use life_types::{NameId, NoMemory};
use std::alloc::Global;

/// No flag is set.
fn no_flags(alloc: Global, names: &[Vec<u8>]) -> Result<Vec<bool>, NoMemory>
    ensures { IfOk result (λ v. v.items ≡ spec.no_flags (map text_items names.now)) }
{
    let mut flags = Vec::new(alloc);
    'names: for _ in names {
        flags.push(false)?;
    }
    Ok(flags)
}

/// Sets the flag of a name.
fn set_flag(flags: &mut Vec<bool>, name: NameId)
    ensures { flags.new.items ≡ slice_set flags.old.items name.0 true }
{
    if let Some(flag) = flags.get_mut(name.0 as usize) {
        *flag = true;
    }
}

/// Notes a function's name, if the declaration has a body.
fn note_function(bodies: &mut Vec<bool>, function: &Function)
    ensures { bodies.new.items ≡ spec.with_function_noted function.now bodies.old.items }
{
    if has_body(&function.body) {
        set_flag(bodies, function.name.id);
    }
}

fn note_definition(bodies: &mut Vec<bool>, definition: &Definition)
    ensures { bodies.new.items ≡ spec.with_definition_noted definition.now bodies.old.items }
{
    match definition {
        Definition::Struct(_) => {}
        Definition::Function(function) => note_function(bodies, function),
    }
}

/// For each name, whether there is a function with a body that has it.
fn bodies_of(alloc: Global, tree: &Program) -> Result<Vec<bool>, NoMemory>
    ensures { IfOk result (λ v. v.items ≡ spec.bodies_of tree.now) }
{
    let mut bodies = no_flags(alloc, &tree.names)?;
    'definitions: for definition in &tree.definitions {
        note_definition(&mut bodies, definition);
    }
    Ok(bodies)
}

fn define(
    alloc: Global,
    progress: &mut Progress<'_>,
    bodies: &[bool],
    definition: &Definition,
) -> Result<(), IllFault>
    ensures { Answers (λ _. progress_view progress.new) result (spec.with_definition bodies.now definition.now (progress_view progress.old)) }
{
    match definition {
        Definition::Struct(definition) => define_structure(alloc, progress, definition),
        Definition::Function(function) => define_function(alloc, progress, bodies, function),
    }
}

/// The structs and functions in their order.
fn define_all(
    alloc: Global,
    progress: &mut Progress<'_>,
    bodies: &[bool],
    definitions: &[Definition],
) -> Result<(), IllFault>
    ensures { Answers (λ _. progress_view progress.new) result (spec.with_definitions bodies.now definitions.now (progress_view progress.old)) }
{
    'definitions: for definition in definitions {
        define(alloc, progress, bodies, definition)?;
    }
    Ok(())
}

/// Copies a text.
fn copy(text: &Vec<u8>) -> Result<Vec<u8>, NoMemory>
    ensures { IfOk result (λ v. text_items v ≡ text_items text.now) }
{
    Ok(text.clone()?)
}

/// Copies texts.
fn copied(alloc: Global, texts: &[Vec<u8>]) -> Result<Vec<Vec<u8>>, NoMemory>
    ensures { IfOk result (λ v. map text_items v.items ≡ map text_items texts.now) }
{
    let mut copies = Vec::new(alloc);
    'texts: for text in texts {
        copies.push(copy(text)?)?;
    }
    Ok(copies)
}

/// The program of what the definitions of a tree have given.
fn finish(alloc: Global, tree: &Program, progress: Progress<'_>) -> Result<Typed, NoMemory>
    ensures { IfOk result (λ t. program_view t ≡ spec.finished tree.now (progress_view progress.entry)) }
{
    let Progress {
        environment: _,
        types,
        structs,
        pointing: _,
        functions,
        declared: _,
    } = progress;
    Ok(Typed {
        names: copied(alloc, &tree.names)?,
        texts: copied(alloc, &tree.texts)?,
        types,
        structs,
        functions,
    })
}

/// The types of a tree: each name gets its one meaning and each expression its one type (ISO/IEC
/// 14882:2017 [basic], [expr], [stmt.stmt], [dcl.dcl], [class]). It goes through the definitions in
/// their order, and parts before what they are parts of.
///
/// # Errors
///
/// The first rule in that order that the tree breaks, with its place: of several at one place the
/// one with the lowest number; or the want of memory.
pub fn resolve(alloc: Global, tree: &Program) -> Result<Typed, IllFault>
    ensures { Answers program_view result (spec.resolved tree.now) }
{
    let bodies = bodies_of(alloc, tree)?;
    let mut progress = nothing_defined(alloc, &tree.names)?;
    define_all(alloc, &mut progress, &bodies, &tree.definitions)?;
    Ok(finish(alloc, tree, progress)?)
}
