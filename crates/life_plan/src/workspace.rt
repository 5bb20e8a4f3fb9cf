// Sets that runs of plans use again and again.
ghost use Rattle.std.specs.Prelude.{◌≡◌, IfOk};
ghost use Rattle.life_plan.specs.Carried.{IsRoom};

use life_sets::NumberSet;
use life_types::NoMemory;
use std::alloc::Global;

/// Two sets of elements that a run of a plan writes over: one serves all plans of a function.
#[derive(Drop)]
pub struct Workspace {
    // what a location has before an edge, and after it
    pub(crate) before: NumberSet,
    pub(crate) after: NumberSet,
}

impl Workspace {
    /// A workspace for this many elements.
    pub fn new(alloc: Global, elements: u32) -> Result<Workspace, NoMemory>
        ensures { IfOk result (λ workspace. IsRoom elements workspace) }
    {
        let before = NumberSet::empty(alloc, elements)?;
        let after = NumberSet::empty(alloc, elements)?;
        Ok(Workspace { before, after })
    }
}
