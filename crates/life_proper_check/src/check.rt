// Whether a program is proper, part by part.
ghost use Rattle.std.specs.Prelude.{◌≡◌, ◌≤◌, IfOk, IsTrue, None, length, map, true};
ghost use Rattle.std.specs.List.{list_all};
ghost use Rattle.life_core.specs.Function.{function_of, program_of};
ghost use Rattle.life_core.specs.Node.{spot_seen};
ghost use Rattle.life_types.specs.Trees.{IsOrdered};
ghost use Rattle.life_types.specs.Types.{HasEachOnce};
ghost use Rattle.life_pset.specs.Limits.{IsProgramWithinLimits};
ghost use Rattle.life_core_served.specs.ProperPrograms.{IsProperProgram, has_own_breaks};
ghost use Rattle.life_proper.specs.ResultsWritten.{WritesResults};
ghost use Rattle.life_proper.specs.WellFormed.{is_well_formed_spot};
ghost use Rattle.life_proper_check.specs.Deciding.{AreWithin, is_formed_function, is_formed_header, is_formed_program};

use crate::breaks::breaks_inside;
use crate::forms::is_formed;
use crate::headers::{
    are_formed_locals, have_names, have_own_names, is_formed_result, is_name, names_parameters,
};
use crate::kept::keeps_all_given;
use crate::results::{are_results_written, both};
use crate::scope::Scope;
use life_core::{CoreFn, CoreProgram, SpotRef, spots};
use life_proper::is_proper;
use life_pset::is_within_limits;
use life_types::{NoMemory, Ty, TyId, TypeTable};
use std::alloc::Global;

/// A part of what is asked of a proper program.
#[derive(Clone, Copy)]
pub enum Part {
    /// A number names nothing, a type doesn't fit, or what is const is written.
    WellFormed,
    /// Something else takes what is given over, or points into it.
    Given,
    /// A break or a continue stands in no loop.
    Breaks,
    /// A limit is passed.
    Limits,
    /// On some way something is used that isn't there, or the way runs past the end.
    Ready,
    /// On some way to a return the result wasn't written.
    Results,
}

/// The first part of what is asked of a proper program that this one isn't found to meet; a program with none is
/// proper. It is for programs that are made by hand, as those of tests: a translation is proper by a law. That a
/// part isn't met is no proof that the program isn't proper, since some type of the table must be a pointer, and
/// there must be room for one more. Meanwhile results are given another type, so the program is borrowed to be
/// written, but it is as before. `NoMemory` says that memory was wanted.
pub fn unmet_part(alloc: Global, p: &mut CoreProgram) -> Result<Option<Part>, NoMemory>
    ensures same { program_of p.new ≡ program_of p.old }
    ensures proper { IfOk result (λ part. part ≡ None → IsProperProgram (program_of p.new)) }
{
    match first_unmet(alloc, p)? {
        Some(part) => Ok(Some(part)),
        None => unmet_results(alloc, p),
    }
}

// Where all other parts are met.
#[tactic(auto, using(crate::proofs::Parts::kept_proper))]
fn unmet_results(alloc: Global, p: &mut CoreProgram) -> Result<Option<Part>, NoMemory>
    requires { WritesResults (program_of p.old) → IsProperProgram (program_of p.old) }
    ensures same { program_of p.new ≡ program_of p.old }
    ensures proper { IfOk result (λ part. part ≡ None → IsProperProgram (program_of p.new)) }
{
    if are_results_written(alloc, p)? {
        Ok(None)
    } else {
        Ok(Some(Part::Results))
    }
}

// The first part but results that isn't met.
fn first_unmet(alloc: Global, p: &CoreProgram) -> Result<Option<Part>, NoMemory>
    ensures { IfOk result (λ part. part ≡ None → WritesResults (program_of p.now) → IsProperProgram (program_of p.now)) }
{
    let formed = is_formed_program(alloc, p)?;
    let given = keeps_all_given(alloc, p)?;
    let limits = is_within(alloc, p)?;
    let ready = is_proper(alloc, p)?;
    let once = has_each_once(alloc, &p.types)?;
    Ok(first_of(Met {
        typed: has_types(&p.types),
        once,
        formed,
        given,
        breaks: have_own_breaks(&p.functions),
        limits,
        ready,
    }))
}

// Which parts are met.
#[derive(Clone, Copy)]
struct Met {
    typed: bool,
    once: bool,
    formed: bool,
    given: bool,
    breaks: bool,
    limits: bool,
    ready: bool,
}

fn first_of(met: Met) -> Option<Part>
    ensures { result ≡ None → (met.typed ≡ true) × ((met.once ≡ true) × ((met.formed ≡ true) × ((met.given ≡ true) × ((met.breaks ≡ true) × ((met.limits ≡ true) × (met.ready ≡ true)))))) }
{
    if !met.typed || !met.once || !met.formed {
        Some(Part::WellFormed)
    } else if !met.given {
        Some(Part::Given)
    } else if !met.breaks {
        Some(Part::Breaks)
    } else if !met.limits {
        Some(Part::Limits)
    } else if !met.ready {
        Some(Part::Ready)
    } else {
        None
    }
}

// ---- what is well formed

// Whether there are types at all, so that the table is in order.
fn has_types(types: &TypeTable) -> bool
    ensures { IsTrue result → IsOrdered types.now }
{
    match types.get(TyId(0)) {
        None => false,
        Some(_) => {
            let _ = types.ty(TyId(0));
            true
        }
    }
}

// Whether the table has room for one more type, so that none has two numbers: a table to which one was added has
// each once, and this is tried on a copy.
#[tactic(auto, using(crate::proofs::Tables::once_before))]
fn has_each_once(alloc: Global, types: &TypeTable) -> Result<bool, NoMemory>
    ensures { IfOk result (λ answer. answer ≡ true → HasEachOnce types.now) }
{
    match types.get(TyId(u32::MAX - 1)) {
        Some(_) => Ok(false),
        None => {
            let mut copy = types.copied(alloc)?;
            copy.add(Ty::Void)?;
            Ok(true)
        }
    }
}

fn is_formed_program(alloc: Global, p: &CoreProgram) -> Result<bool, NoMemory>
    ensures { IfOk result (λ answer. IsTrue answer → is_formed_program (program_of p.now) ≡ true) }
{
    if !have_names(p) || !have_own_names(&p.functions) {
        return Ok(false);
    }
    are_formed(alloc, p)
}

fn are_formed(alloc: Global, p: &CoreProgram) -> Result<bool, NoMemory>
    ensures { IfOk result (λ answer. answer ≡ list_all (is_formed_function p.now.types (length p.now.names.texts.items) (length p.now.texts.items) (map function_of p.now.functions.items)) (map function_of p.now.functions.items)) }
{
    for f in &p.functions {
        let at = Scope {
            types: &p.types,
            texts: p.texts.len(),
            functions: &p.functions,
            function: f,
        };
        if !is_formed_function(alloc, &at, p.names.texts.len())? {
            return Ok(false);
        }
    }
    Ok(true)
}

fn is_formed_function(alloc: Global, at: &Scope, names: usize) -> Result<bool, NoMemory>
    ensures { IfOk result (λ answer. answer ≡ is_formed_function at.now.types.now names at.now.texts (map function_of at.now.functions.now) (function_of at.now.function.now)) }
{
    let points = spots(alloc, at.function)?;
    Ok(both(is_formed_header(at, names), are_formed_points(at, &points)))
}

fn is_formed_header(at: &Scope, names: usize) -> bool
    ensures { result ≡ is_formed_header at.now.types.now names (function_of at.now.function.now) }
{
    let f = at.function;
    is_name(names, f.name)
        && f.parameters as usize <= f.locals.len()
        && names_parameters(f.parameters, &f.promise)
        && is_formed_result(at.types, f)
        && are_formed_locals(at.types, names, f.parameters, &f.locals)
}

fn are_formed_points(at: &Scope, points: &[SpotRef]) -> bool
    ensures { result ≡ list_all (is_well_formed_spot at.now.types.now at.now.texts (map function_of at.now.functions.now) (function_of at.now.function.now)) (map spot_seen points.now) }
{
    for point in points {
        if !is_formed(at, point.node) {
            return false;
        }
    }
    true
}

// ---- breaks and limits

fn have_own_breaks(functions: &[CoreFn]) -> bool
    ensures { result ≡ list_all has_own_breaks (map function_of functions.now) }
{
    for f in functions {
        if !breaks_inside(&f.body, false) {
            return false;
        }
    }
    true
}

fn are_few(functions: &[CoreFn]) -> bool
    ensures { IsTrue result → length functions.now ≤ 1024 }
{
    functions.len() <= MOST_FUNCTIONS
}

// The most functions of a program.
const MOST_FUNCTIONS: usize = 1024;

fn is_within(alloc: Global, p: &CoreProgram) -> Result<bool, NoMemory>
    ensures { IfOk result (λ answer. IsTrue answer → IsProgramWithinLimits (program_of p.now)) }
{
    let each = are_within(alloc, p)?;
    Ok(both(each, are_few(&p.functions)))
}

fn are_within(alloc: Global, p: &CoreProgram) -> Result<bool, NoMemory>
    ensures { IfOk result (λ answer. IsTrue answer → AreWithin p.now.types (map function_of p.now.functions.items)) }
{
    for f in &p.functions {
        if !is_within_limits(alloc, f, &p.types)? {
            return Ok(false);
        }
    }
    Ok(true)
}
