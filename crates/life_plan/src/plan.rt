// The plan of an edge.
ghost use Rattle.std.specs.Prelude.{◌≡◌, ◌+◌, ℕ, ◌<◌, Bool, true, IfOk, OnOk, length};
ghost use Rattle.life_core.specs.Function.{function_of};
ghost use Rattle.life_sets.specs.NumberSets.{holds};
ghost use Rattle.life_rules.specs.FactSets.{CarriesPair, GainsSome};
ghost use Rattle.life_plan.specs.Carried.{is_whole, none_due, IsCarried, IsRoom};
ghost use Rattle.life_plan.specs.Crossing.{crossing_in, IsContext};
ghost use Rattle.life_plan.specs.Noted.{Notes};

use crate::context::EdgeContext;
use crate::still::is_still;
use crate::tabulated::Tabulated;
use crate::whole::carry_whole;
use crate::workspace::Workspace;
use life_base::Steps;
use life_sets::{NumberSet, Rows};
use life_types::NoMemory;
use std::alloc::Global;
use std::sync::ledger::Ledger;

/// What an edge makes of facts, by the numbers of its function's table: made once from the rules, and
/// run as often as the row before the edge has gained pairs. It keeps how much it has carried.
#[derive(Drop)]
pub struct Plan {
    // None where nothing comes of facts but each fact itself, as along most edges: so the rest stands in
    // a box
    pub(crate) tabulated: Option<Box<Tabulated>>,
}

impl Plan {
    /// The plan of the edge, which has carried nothing yet.
    pub fn of(alloc: Global, context: &EdgeContext) -> Result<Plan, NoMemory>
        requires { IsContext context.now }
        ensures { IfOk result (λ plan. (due : ℕ → Bool) (from into : ℕ → ℕ → Bool)
            → ((l : ℕ) → l < length context.now.table.now.locations → due l ≡ true)
            → IsCarried (crossing_in context.now) plan due from into) }
    {
        let still = is_still(alloc, context)?;
        if still {
            return Ok(Plan { tabulated: None });
        }
        let tabulated = Box::new(alloc, Tabulated::of(alloc, context)?)?;
        Ok(Plan {
            tabulated: Some(tabulated),
        })
    }

    /// Whether it carries each fact as it is, and nothing else: so nothing where there is no fact.
    pub fn is_whole(&self) -> bool
        ensures { result ≡ is_whole self.now }
    {
        match self.tabulated {
            None => true,
            Some(_) => false,
        }
    }

    /// Carries to a row what comes of those locations of another row that are due, and of no fact where
    /// the plan is fresh. Notes the locations at which the row gained a pair. Takes one step. After
    /// `NoMemory` the row has some of what is carried.
    pub fn run<R: Rows, L: Ledger>(
        &mut self,
        alloc: Global,
        context: &EdgeContext,
        due: &NumberSet,
        from: &R,
        into: &mut R,
        gained: &mut NumberSet,
        workspace: &mut Workspace,
        steps: &mut Steps<L>,
    ) -> Result<(), NoMemory>
        requires context { IsContext context.now }
        requires due { due.now.limit ≡ length context.now.table.now.locations }
        requires from_locations { R.location_limit from.now ≡ length context.now.table.now.locations }
        requires from_elements { R.element_limit from.now ≡ length context.now.table.now.elements }
        requires into_locations { R.location_limit into.old ≡ length context.now.table.now.locations }
        requires into_elements { R.element_limit into.old ≡ length context.now.table.now.elements }
        requires gained { gained.old.limit ≡ length context.now.table.now.locations }
        requires room { IsRoom (length context.now.table.now.elements) workspace.old }
        requires carried { IsCarried (crossing_in context.now) self.old (holds due.now) (R.has from.now) (R.has into.old) }
        ensures carried { OnOk result (IsCarried (crossing_in context.now) self.new none_due (R.has from.now) (R.has into.new)) }
        ensures sound { GainsSome (R.has into.old) (R.has into.new)
            (CarriesPair context.now.sigs.now context.now.types.now (function_of context.now.f.now) context.now.edge (R.has from.now)) }
        ensures noted { OnOk result (Notes (R.has into.old) (R.has into.new) (holds gained.old) (holds gained.new)) }
        ensures locations { R.location_limit into.new ≡ R.location_limit into.old }
        ensures elements { R.element_limit into.new ≡ R.element_limit into.old }
        ensures gained { gained.new.limit ≡ gained.old.limit }
        ensures room { IsRoom (length context.now.table.now.elements) workspace.new }
        ensures tick { steps.new ≡ steps.old + 1 }
    {
        steps.tick();
        self.carry(alloc, context, due, from, into, gained, workspace)
    }

    /// As `run`, where the step is counted already.
    pub(crate) fn carry<R: Rows>(
        &mut self,
        alloc: Global,
        context: &EdgeContext,
        due: &NumberSet,
        from: &R,
        into: &mut R,
        gained: &mut NumberSet,
        workspace: &mut Workspace,
    ) -> Result<(), NoMemory>
        requires context { IsContext context.now }
        requires due { due.now.limit ≡ length context.now.table.now.locations }
        requires from_locations { R.location_limit from.now ≡ length context.now.table.now.locations }
        requires from_elements { R.element_limit from.now ≡ length context.now.table.now.elements }
        requires into_locations { R.location_limit into.old ≡ length context.now.table.now.locations }
        requires into_elements { R.element_limit into.old ≡ length context.now.table.now.elements }
        requires gained { gained.old.limit ≡ length context.now.table.now.locations }
        requires room { IsRoom (length context.now.table.now.elements) workspace.old }
        requires carried { IsCarried (crossing_in context.now) self.old (holds due.now) (R.has from.now) (R.has into.old) }
        ensures carried { OnOk result (IsCarried (crossing_in context.now) self.new none_due (R.has from.now) (R.has into.new)) }
        ensures sound { GainsSome (R.has into.old) (R.has into.new)
            (CarriesPair context.now.sigs.now context.now.types.now (function_of context.now.f.now) context.now.edge (R.has from.now)) }
        ensures noted { OnOk result (Notes (R.has into.old) (R.has into.new) (holds gained.old) (holds gained.new)) }
        ensures locations { R.location_limit into.new ≡ R.location_limit into.old }
        ensures elements { R.element_limit into.new ≡ R.element_limit into.old }
        ensures gained { gained.new.limit ≡ gained.old.limit }
        ensures room { IsRoom (length context.now.table.now.elements) workspace.new }
    {
        match &mut self.tabulated {
            None => carry_whole(due, from, into, gained),
            Some(tabulated) => {
                tabulated.carry(alloc, context, due, from, into, gained, workspace)
            }
        }
    }
}
