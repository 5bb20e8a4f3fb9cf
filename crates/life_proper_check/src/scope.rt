// Where a function stands.
use life_core::CoreFn;
use life_types::TypeTable;

/// A function, and the types, the number of texts and the functions of its program.
#[derive(Drop)]
pub(crate) struct Scope<'a> {
    pub(crate) types: &'a TypeTable,
    pub(crate) texts: usize,
    pub(crate) functions: &'a [CoreFn],
    pub(crate) function: &'a CoreFn,
}
