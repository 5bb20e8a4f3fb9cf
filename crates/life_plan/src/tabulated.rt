// What the rules make of facts along an edge, by numbers.
ghost use Rattle.std.specs.Prelude.{◌≡◌, ℕ, ◌<◌, Bool, true, IfOk, IsTrue, OnOk, length};
ghost use Rattle.life_core.specs.Function.{function_of};
ghost use Rattle.life_sets.specs.NumberSets.{holds};
ghost use Rattle.life_rules.specs.FactSets.{CarriesPair, GainsSome};
ghost use Rattle.life_plan.specs.Carried.{none_due, AreCarried, IsRoom};
ghost use Rattle.life_plan.specs.Crossing.{crossing_in, FromNone, IsContext};
ghost use Rattle.life_plan.specs.Noted.{Notes};

use crate::context::EdgeContext;
use crate::keep::keep_due;
use crate::marking::Marking;
use crate::reading::{Reading, make_due, readings_of};
use crate::row_facts::add_facts;
use crate::staying::Staying;
use crate::workspace::Workspace;
use life_rules::push_none;
use life_sets::{NumberSet, Rows};
use life_types::NoMemory;
use std::alloc::Global;

/// What comes of facts along an edge, as sets of numbers, and how much of it was carried.
#[derive(Drop)]
pub struct Tabulated {
    // what comes of no fact isn't carried yet
    pub(crate) is_fresh: bool,
    pub(crate) staying: Staying,
    pub(crate) marking: Marking,
    pub(crate) readings: Vec<Reading>,
}

impl Tabulated {
    /// That of the edge, of which nothing was carried yet.
    pub(crate) fn of(alloc: Global, context: &EdgeContext) -> Result<Tabulated, NoMemory>
        requires { IsContext context.now }
        ensures { IfOk result (λ t. (due : ℕ → Bool) (from into : ℕ → ℕ → Bool)
            → ((l : ℕ) → l < length context.now.table.now.locations → due l ≡ true)
            → AreCarried (crossing_in context.now) t due from into) }
    {
        let staying = Staying::of(alloc, context)?;
        let marking = Marking::of(alloc, context)?;
        let readings = readings_of(alloc, context)?;
        Ok(Tabulated {
            is_fresh: true,
            staying,
            marking,
            readings,
        })
    }

    /// Carries what comes of the locations that are due, and of no fact where nothing was carried yet.
    pub(crate) fn carry<R: Rows>(
        &mut self,
        alloc: Global,
        context: &EdgeContext,
        due: &NumberSet,
        from: &R,
        into: &mut R,
        gained: &mut NumberSet,
        workspace: &mut Workspace,
    ) -> Result<(), NoMemory>
        requires context { IsContext context.now }
        requires due { due.now.limit ≡ length context.now.table.now.locations }
        requires from_locations { R.location_limit from.now ≡ length context.now.table.now.locations }
        requires from_elements { R.element_limit from.now ≡ length context.now.table.now.elements }
        requires into_locations { R.location_limit into.old ≡ length context.now.table.now.locations }
        requires into_elements { R.element_limit into.old ≡ length context.now.table.now.elements }
        requires gained { gained.old.limit ≡ length context.now.table.now.locations }
        requires room { IsRoom (length context.now.table.now.elements) workspace.old }
        requires carried { AreCarried (crossing_in context.now) self.old (holds due.now) (R.has from.now) (R.has into.old) }
        ensures carried { OnOk result (AreCarried (crossing_in context.now) self.new none_due (R.has from.now) (R.has into.new)) }
        ensures sound { GainsSome (R.has into.old) (R.has into.new)
            (CarriesPair context.now.sigs.now context.now.types.now (function_of context.now.f.now) context.now.edge (R.has from.now)) }
        ensures noted { OnOk result (Notes (R.has into.old) (R.has into.new) (holds gained.old) (holds gained.new)) }
        ensures locations { R.location_limit into.new ≡ R.location_limit into.old }
        ensures elements { R.element_limit into.new ≡ R.element_limit into.old }
        ensures gained { gained.new.limit ≡ gained.old.limit }
        ensures room { IsRoom (length context.now.table.now.elements) workspace.new }
    {
        start(self.is_fresh, alloc, context, into, gained)?;
        self.is_fresh = false;
        let grew = self.marking.see(context, due, from, &mut workspace.before);
        keep_due(
            &self.staying,
            &self.marking,
            due,
            grew,
            from,
            into,
            gained,
            workspace,
        )?;
        make_due(
            alloc,
            context,
            due,
            from,
            &mut self.readings,
            into,
            gained,
            &mut workspace.before,
        )
    }
}

// Adds what comes of no fact, if the plan is fresh.
fn start<R: Rows>(
    is_fresh: bool,
    alloc: Global,
    context: &EdgeContext,
    into: &mut R,
    gained: &mut NumberSet,
) -> Result<(), NoMemory>
    requires locations { R.location_limit into.old ≡ length context.now.table.now.locations }
    requires elements { R.element_limit into.old ≡ length context.now.table.now.elements }
    requires gained { gained.old.limit ≡ length context.now.table.now.locations }
    ensures none { OnOk result (is_fresh ≡ true → (l m : ℕ) → FromNone (crossing_in context.now) l m → IsTrue (R.has into.new l m)) }
    ensures some { GainsSome (R.has into.old) (R.has into.new) (FromNone (crossing_in context.now)) }
    ensures noted { OnOk result (Notes (R.has into.old) (R.has into.new) (holds gained.old) (holds gained.new)) }
    ensures locations { R.location_limit into.new ≡ R.location_limit into.old }
    ensures elements { R.element_limit into.new ≡ R.element_limit into.old }
    ensures gained { gained.new.limit ≡ gained.old.limit }
{
    if !is_fresh {
        return Ok(());
    }
    let mut facts = Vec::new(alloc);
    push_none(
        alloc,
        context.types,
        context.f,
        context.spot,
        context.callee,
        &mut facts,
    )?;
    add_facts(context.table, &facts, into, gained)
}
