// What the arguments of a call break.
ghost use Rattle.std.specs.List.{flat_map, list_any};
ghost use Rattle.std.specs.Prelude.{◌≡◌, ◌+◌, ◌++◌, ◌<◌, ◌^◌, ◌&&◌, ℕ, cond, length, map, take, IfOk, OnErr, OnOk};
ghost use Rattle.life_contract.specs.Breaking.{breaks_apart, breaks_at};
ghost use Rattle.life_pset.specs.Inputs.{input_seen};
ghost use Rattle.life_calls.specs.Breaks as spec;

use crate::found::{Found, add_all};
use crate::given::{ArgFact, ArgRows, CallBreak};
use life_contract::{Callee, Signature, admits_null, breaks_apart, parameter_in};
use life_pset::{Cause, Element, InputPointer};
use life_types::{NoMemory, TypeTable};

/// Adds to `found` all that these arguments break of what the signature asks of a call, each once: null where it isn't
/// admitted, what may be invalid or lead to what may be moved from, and two inputs that may overlap where the function may
/// change an owner behind one of them. After `NoMemory` a front of these was added.
pub fn check_call(
    sig: &Signature,
    types: &TypeTable,
    args: &ArgRows,
    found: &mut Found,
) -> Result<(), NoMemory>
    ensures all { OnOk result (found.new ≡ spec.with_breaks found.old (spec.breaks types.now sig.now args.now.facts.items)) }
    ensures front { OnErr result ((n : ℕ) × (found.new ≡ spec.with_breaks found.old (take n (spec.breaks types.now sig.now args.now.facts.items)))) }
{
    let breaks = breaks_of(sig, types, &args.facts, found)?;
    add_all(found, &breaks)
}

// All breaks, in the order in which they are looked for.
fn breaks_of(
    sig: &Signature,
    types: &TypeTable,
    facts: &[ArgFact],
    found: &Found,
) -> Result<Vec<CallBreak>, NoMemory>
    ensures { IfOk result (λ all. all.items ≡ spec.breaks types.now sig.now facts.now) }
{
    let alloc = found.alloc();
    let callee = Callee::of(alloc, sig, types)?;
    let inputs = callee.inputs();
    // More inputs than have numbers would fill more memory than there is.
    if inputs.len() > u32::MAX as usize {
        return Err(NoMemory);
    }
    let mut all = Vec::new(alloc);
    push_single_breaks(sig, types, facts, inputs, &mut all)?;
    push_pair_breaks(sig, types, facts, inputs, &mut all)?;
    Ok(all)
}

// Whether the fact is of the input.
fn is_fact_of(input: InputPointer, fact: &ArgFact) -> bool
    ensures { result ≡ spec.is_fact_of (input_seen input) fact.now }
{
    parameter_in(input.root) == fact.parameter && input.pointer == fact.place
}

// ---- one fact

fn push_single_breaks(
    sig: &Signature,
    types: &TypeTable,
    facts: &[ArgFact],
    inputs: &[InputPointer],
    out: &mut Vec<CallBreak>,
) -> Result<(), NoMemory>
    ensures { OnOk result
        (out.new.items ≡ out.old.items ++ flat_map (spec.breaks_of_input types.now sig.now facts.now) (map input_seen inputs.now)) }
{
    for input in inputs {
        push_breaks_of_input(sig, types, facts, *input, out)?;
    }
    Ok(())
}

fn push_breaks_of_input(
    sig: &Signature,
    types: &TypeTable,
    facts: &[ArgFact],
    input: InputPointer,
    out: &mut Vec<CallBreak>,
) -> Result<(), NoMemory>
    ensures { OnOk result
        (out.new.items ≡ out.old.items ++ spec.breaks_of_input types.now sig.now facts.now (input_seen input)) }
{
    for fact in facts {
        push_breaks_of_fact(sig, types, input, fact, out)?;
    }
    Ok(())
}

#[tactic(auto, using(std::proofs::Common::append_assoc))]
fn push_breaks_of_fact(
    sig: &Signature,
    types: &TypeTable,
    input: InputPointer,
    fact: &ArgFact,
    out: &mut Vec<CallBreak>,
) -> Result<(), NoMemory>
    ensures { OnOk result
        (out.new.items ≡ out.old.items ++ spec.breaks_of_fact types.now sig.now (input_seen input) fact.now) }
{
    if is_fact_of(input, fact) {
        push_broken(sig, types, input, fact, out)?;
        push_moved(fact, out)?;
    }
    Ok(())
}

// What the element breaks.
fn push_broken(
    sig: &Signature,
    types: &TypeTable,
    input: InputPointer,
    fact: &ArgFact,
    out: &mut Vec<CallBreak>,
) -> Result<(), NoMemory>
    ensures { OnOk result
        (out.new.items ≡ out.old.items ++ map (spec.break_of fact.now) (breaks_at types.now sig.now (input_seen input) fact.now.element)) }
{
    match fact.element {
        Element::Null if !admits_null(sig, types, input) => out.push(CallBreak::Null {
            parameter: fact.parameter,
            place: fact.place,
        })?,
        Element::Invalid(cause) => out.push(dangling(fact, cause))?,
        _ => {}
    }
    Ok(())
}

fn dangling(fact: &ArgFact, cause: Cause) -> CallBreak
    ensures { result ≡ spec.dangling fact.now cause }
{
    CallBreak::Dangling {
        parameter: fact.parameter,
        place: fact.place,
        cause,
    }
}

// What it breaks that the element is moved from.
fn push_moved(fact: &ArgFact, out: &mut Vec<CallBreak>) -> Result<(), NoMemory>
    ensures { OnOk result (out.new.items ≡ out.old.items ++ spec.moved_breaks fact.now fact.now.moved) }
{
    if let Some(cause) = fact.moved {
        out.push(dangling(fact, cause))?;
    }
    Ok(())
}

// ---- two inputs

// Each input with those behind it.
fn push_pair_breaks(
    sig: &Signature,
    types: &TypeTable,
    facts: &[ArgFact],
    inputs: &[InputPointer],
    out: &mut Vec<CallBreak>,
) -> Result<(), NoMemory>
    requires { length inputs.now < 2 ^ 32 }
    ensures { OnOk result
        (out.new.items ≡ out.old.items ++ spec.pair_breaks types.now sig.now facts.now 0 (map input_seen inputs.now)) }
{
    for (number, first) in inputs.iter().enumerate() {
        let others = &inputs[number + 1..];
        push_overlaps(sig, types, facts, number as u32, *first, others, out)?;
    }
    Ok(())
}

// The input with this number, and those that are numbered from the next one on.
fn push_overlaps(
    sig: &Signature,
    types: &TypeTable,
    facts: &[ArgFact],
    number: u32,
    first: InputPointer,
    others: &[InputPointer],
    out: &mut Vec<CallBreak>,
) -> Result<(), NoMemory>
    requires { number + 1 + length others.now < 2 ^ 32 }
    ensures { OnOk result
        (out.new.items ≡ out.old.items ++ spec.overlaps_from types.now sig.now facts.now number (input_seen first) (number + 1) (map input_seen others.now)) }
{
    for (index, second) in others.iter().enumerate() {
        if may_overlap(sig, types, facts, first, *second) {
            out.push(CallBreak::Overlap {
                first: number,
                second: number + 1 + index as u32,
            })?;
        }
    }
    Ok(())
}

fn may_overlap(
    sig: &Signature,
    types: &TypeTable,
    facts: &[ArgFact],
    first: InputPointer,
    second: InputPointer,
) -> bool
    ensures { result ≡ spec.may_overlap types.now sig.now facts.now (input_seen first) (input_seen second) }
{
    facts.iter().any(|fact| is_fact_of(first, fact)
        && overlaps_with(sig, types, facts, first, second, fact))
}

fn overlaps_with(
    sig: &Signature,
    types: &TypeTable,
    facts: &[ArgFact],
    first: InputPointer,
    second: InputPointer,
    at_first: &ArgFact,
) -> bool
    ensures { result ≡ spec.overlaps_with types.now sig.now facts.now (input_seen first) (input_seen second) at_first.now }
{
    facts.iter().any(|fact| {
        is_fact_of(second, fact)
            && breaks_apart(sig, types, first, second, at_first.element, fact.element)
    })
}
