// Where a function stands.
use life_core::CoreFn;
use life_types::TypeTable;

/// A function, and the types of its program.
#[derive(Drop)]
pub(crate) struct Scope<'a> {
    pub(crate) types: &'a TypeTable,
    pub(crate) function: &'a CoreFn,
}
