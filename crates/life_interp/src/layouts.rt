// How the values of a program's types lie in words.
ghost use Rattle.std.specs.Prelude.{◌≡◌, ◌<◌, IfOk};
ghost use Rattle.std.specs.List.{list_all};
ghost use Rattle.life_interp.specs.Layouts.{is_narrow, AreReady};

use life_types::{NoMemory, TypeTable};
use life_values::{Layout, layouts_of};
use std::alloc::Global;

/// The layouts of all types of a table.
#[derive(Drop)]
pub(crate) struct Layouts {
    /// One for each type.
    pub(crate) all: Vec<Layout>,
    /// More than there are steps of owning from an object down to what owns nothing.
    pub(crate) depth: u32,
}

/// Lays out all types of the table. Values of more than 2^32 words aren't laid out: memory is wanted.
pub(crate) fn prepared(alloc: Global, types: &TypeTable) -> Result<Layouts, NoMemory>
    ensures { IfOk result (AreReady types.now) }
{
    let all = layouts_of(alloc, types)?;
    let depth = above(all.len())?;
    if are_narrow(&all) {
        Ok(Layouts { all, depth })
    } else {
        Err(NoMemory)
    }
}

// Whether the words of all values have numbers of 32 bits.
fn are_narrow(layouts: &[Layout]) -> bool
    ensures { result ≡ list_all is_narrow layouts.now }
{
    for layout in layouts {
        if layout.width > 1 << 32 {
            return false;
        }
    }
    true
}

// A number above the count.
fn above(count: usize) -> Result<u32, NoMemory>
    ensures { IfOk result (λ depth. count < depth) }
{
    if count < u32::MAX as usize {
        Ok(count as u32 + 1)
    } else {
        Err(NoMemory)
    }
}
