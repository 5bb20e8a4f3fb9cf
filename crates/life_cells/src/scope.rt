// What the instructions of a function name.
ghost use Rattle.life_values.specs.Layouts.{AreLaid};

use life_core::CoreFn;
use life_types::TypeTable;
use life_values::Layout;

/// What the instructions of a function name: the types of its program and how their values lie, the
/// program's texts, and the function with its locals.
#[derive(Drop)]
pub struct Scope<'a> {
    pub types: &'a TypeTable,
    /// One for each type.
    pub layouts: &'a [Layout],
    pub texts: &'a [Vec<u8>],
    pub function: &'a CoreFn,
    ghost laid: { AreLaid types.now layouts.now },
}
