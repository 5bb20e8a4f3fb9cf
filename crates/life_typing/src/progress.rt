// What the definitions so far have given.
ghost use Rattle.std.specs.Prelude.{◌≡◌, IfOk, map};
ghost use Rattle.life_names.specs.Environment.{text_items};
ghost use Rattle.life_typing.specs.Progress as spec;

use crate::names::Declared;
use crate::pointing::Pointing;
use life_names::Environment;
use life_typed::{TypedFunction, TypedStruct, base_types};
use life_types::{NoMemory, TypeTable};
use std::alloc::Global;

/// What the definitions so far have given.
#[derive(Drop)]
pub(crate) struct Progress<'a> {
    /// What is visible behind them.
    pub(crate) environment: Environment<'a>,
    pub(crate) types: TypeTable,
    /// The structs, by their numbers.
    pub(crate) structs: Vec<TypedStruct>,
    /// What each struct holds of pointers.
    pub(crate) pointing: Vec<Pointing>,
    /// The functions, by their numbers. One whose body hasn't come yet has an empty one.
    pub(crate) functions: Vec<TypedFunction>,
    /// What is kept of each function beside its signature.
    pub(crate) declared: Vec<Declared>,
}

/// No definition has come yet, in a program with these names.
pub(crate) fn nothing_defined<'a>(
    alloc: Global,
    names: &'a [Vec<u8>],
) -> Result<Progress<'a>, NoMemory>
    ensures { IfOk result (λ p. spec.progress_view p ≡ spec.nothing_defined (map text_items names.now)) }
{
    Ok(Progress {
        environment: Environment::new(alloc, names)?,
        types: base_types(alloc)?,
        structs: Vec::new(alloc),
        pointing: Vec::new(alloc),
        functions: Vec::new(alloc),
        declared: Vec::new(alloc),
    })
}
