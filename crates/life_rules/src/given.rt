// What is given for the inputs of a called function.
ghost use Rattle.std.specs.Prelude.{◌≡◌, [], IfOk, OnOk};
ghost use Rattle.life_pset.specs.Inputs.{input_seen};
ghost use Rattle.life_rules.specs.Given.{is_among, some_overlap, target_in, target_of, targets_in, AddsPlaces, AreGiven, IsGiven};

use crate::arguing::CallAt;
use life_contract::{Targets, is_argument_of, is_mutating};
use life_pset::{AbsPlace, Element, Fact, InputPointer};
use life_types::NoMemory;

/// What is given for an input: whether the callee may change an owner behind it, and the places where it
/// may point.
#[derive(Drop)]
pub struct Given {
    pub(crate) input: InputPointer,
    pub(crate) is_mutating: bool,
    pub(crate) targets: Targets,
}

impl Given {
    /// Whether it may point there.
    pub(crate) fn may_be_at(&self, place: &AbsPlace) -> bool
        ensures { result ≡ is_among self.now.targets place.now }
    {
        self.targets.contains(place)
    }

    /// Whether it may overlap what is given for another input.
    pub(crate) fn may_overlap(&self, other: &Given) -> bool
        ensures { result ≡ some_overlap self.now.targets other.now.targets }
    {
        self.targets.overlap(&other.targets)
    }
}

/// What is given for each input of a call, by these facts, in the order of the inputs.
pub(crate) fn given_for(call: &CallAt<'_>, facts: &[Fact]) -> Result<Vec<Given>, NoMemory>
    ensures { IfOk result (λ all. AreGiven call.now facts.now all.items) }
{
    let mut all = Vec::new(call.at.alloc);
    let inputs = call.callee.inputs();
    for input in inputs {
        all.push(given_at(call, *input, facts)?)?;
    }
    Ok(all)
}

fn given_at(call: &CallAt<'_>, input: InputPointer, facts: &[Fact]) -> Result<Given, NoMemory>
    ensures input { IfOk result (λ given. given.input ≡ input) }
    ensures given { IfOk result (λ given. IsGiven call.now facts.now given) }
{
    let callee = call.callee;
    let targets = targets_of(call, input, facts)?;
    Ok(Given {
        input,
        is_mutating: is_mutating(callee.sig, callee.types, input),
        targets,
    })
}

// The places where an argument may point, each once.
fn targets_of(call: &CallAt<'_>, input: InputPointer, facts: &[Fact]) -> Result<Targets, NoMemory>
    ensures { IfOk result (λ targets. AddsPlaces (targets_in call.now (input_seen input) facts.now) [] targets) }
{
    let mut targets = Targets::new(call.at.alloc);
    for fact in facts {
        add_target(call, input, fact, &mut targets)?;
    }
    Ok(targets)
}

// .. by one fact, if it is about the argument.
fn add_target(
    call: &CallAt<'_>,
    input: InputPointer,
    fact: &Fact,
    targets: &mut Targets,
) -> Result<(), NoMemory>
    ensures { OnOk result (AddsPlaces (target_in call.now (input_seen input) fact.now) targets.old targets.new) }
{
    if is_argument_of(call.arguments, input, &fact.location) {
        add_element(fact.element, targets)?;
    }
    Ok(())
}

fn add_element(element: Element, targets: &mut Targets) -> Result<(), NoMemory>
    ensures { OnOk result (AddsPlaces (target_of element) targets.old targets.new) }
{
    match element {
        Element::At(place) => targets.add(&place)?,
        _ => {}
    }
    Ok(())
}
