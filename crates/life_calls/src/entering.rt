// What holds of a parameter at the entry.
ghost use Rattle.std.specs.Prelude.{◌≡◌, ◌<◌, ◌^◌, filter, length, map, IfOk};
ghost use Rattle.life_contract.specs.Inputs.{parameter_local};
ghost use Rattle.life_core.specs.Function.{function_of};
ghost use Rattle.life_calls.specs.Facts.{fact_of, head_function, is_of, pre_of};

use life_contract::{Param, Signature, is_rooted, parameter_local};
use life_core::{CoreFn, Local, Promise, Stmt};
use life_pset::{AbsPlace, Element, Fact};
use life_rules::entry_facts;
use life_types::{NoMemory, Place, TypeTable};
use std::alloc::Global;

/// What holds at the entry of a function with this signature of the locations of one parameter: each pointer points to what
/// stands for its target, and a raw one may be null unless the parameter bears `[[life::nonnull]]`; a `std::unique_ptr` owns
/// something or is null; a vector or a string has its buffer. The only error is the want of memory.
pub fn pre_of(
    alloc: Global,
    sig: &Signature,
    types: &TypeTable,
    parameter: u32,
) -> Result<Vec<(AbsPlace, Element)>, NoMemory>
    ensures { IfOk result (λ all. map fact_of all.items ≡ pre_of types.now sig.now parameter) }
{
    let head = head_function(alloc, sig)?;
    let facts = entry_facts(alloc, &head, types)?;
    facts_of(alloc, parameter, &facts)
}

// A function with this head whose body is empty: what holds at its entry hangs on its parameters alone.
fn head_function(alloc: Global, sig: &Signature) -> Result<CoreFn, NoMemory>
    ensures head { IfOk result (λ f. function_of f ≡ head_function sig.now) }
    ensures numbers { IfOk result (λ f. length f.locals.items < 2 ^ 32) }
{
    let locals = parameter_locals(alloc, sig.place, &sig.parameters)?;
    Ok(CoreFn {
        name: sig.name,
        place: sig.place,
        parameters: sig.parameters.len() as u32,
        result: sig.result,
        promise: Promise::Default,
        locals,
        body: Stmt::List(Vec::new(alloc)),
    })
}

fn parameter_locals(
    alloc: Global,
    place: Place,
    parameters: &[Param],
) -> Result<Vec<Local>, NoMemory>
    ensures { IfOk result (λ all. all.items ≡ map (parameter_local place) parameters.now) }
{
    let mut all = Vec::new(alloc);
    for parameter in parameters {
        all.push(parameter_local(place, *parameter))?;
    }
    Ok(all)
}

// Those facts that are of a parameter.
fn facts_of(
    alloc: Global,
    parameter: u32,
    facts: &[Fact],
) -> Result<Vec<(AbsPlace, Element)>, NoMemory>
    ensures { IfOk result (λ all. map fact_of all.items ≡ filter (is_of parameter) facts.now) }
{
    let mut all = Vec::new(alloc);
    for fact in facts {
        if is_rooted(parameter, &fact.location) {
            all.push((fact.location, fact.element))?;
        }
    }
    Ok(all)
}
