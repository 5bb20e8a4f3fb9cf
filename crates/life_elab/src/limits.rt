// The first limit that a program passes.
ghost use Rattle.std.specs.Prelude.{◌≡◌, IfOk, map};
ghost use Rattle.life_core.specs.Function.{function_of};
ghost use Rattle.life_elab.specs.KeptPaths.{AreAllKept};
ghost use Rattle.life_elab.specs.Over as spec;
ghost use Rattle.life_typed.specs.Programs.{program_view, struct_view};

use crate::paths::{Measured, has_long_member, has_long_path, measure};
use crate::points::has_few_points;
use life_core::{CoreFn, Local};
use life_pset::{has_few_elements, has_few_locations};
use life_tree::{LimitFault, LimitName};
use life_typed::{Typed, TypedStruct};
use life_types::{NoMemory, Place, TypeTable};
use life_writer::number;
use std::alloc::Global;

/// How many functions a program may have.
const FUNCTION_LIMIT: usize = 1024;

/// How many members a struct may have.
const FIELD_LIMIT: usize = 32;

fn limit(name: LimitName, place: Place) -> LimitFault
    ensures { result ≡ spec.limit name place }
{
    LimitFault {
        name,
        place: Some(place),
    }
}

// The function past the last one that there may be, where it is declared first.
fn too_many(typed: &Typed) -> Option<LimitFault>
    ensures { result ≡ spec.too_many (program_view typed.now) }
{
    match typed.functions.get(FUNCTION_LIMIT) {
        Some(function) => Some(limit(LimitName::Functions, function.first_place)),
        None => None,
    }
}

// ---- structs

#[tactic(auto, using(crate::proofs::PassedPaths::too_many_fields, crate::proofs::PassedPaths::too_long_struct, crate::proofs::PassedPaths::short_struct))]
fn over_struct(measured: &Measured, number: u32, structure: &TypedStruct) -> Option<LimitFault>
    requires { AreAllKept measured.now.types.now measured.now.paths.now }
    ensures { result ≡ spec.over_struct measured.now.types.now number (struct_view structure.now) }
{
    if structure.members.len() > FIELD_LIMIT {
        return Some(limit(LimitName::Fields, structure.place));
    }
    if has_long_member(measured, number) {
        return Some(limit(LimitName::Path, structure.place));
    }
    None
}

fn over_structs(
    measured: &Measured,
    structs: &[TypedStruct],
) -> Result<Option<LimitFault>, NoMemory>
    requires { AreAllKept measured.now.types.now measured.now.paths.now }
    ensures { IfOk result (λ passed. passed ≡ spec.over_structs measured.now.types.now 0 (map struct_view structs.now)) }
{
    'structs: for (index, structure) in structs.iter().enumerate() {
        if let Some(fault) = over_struct(measured, number(index)?, structure) {
            return Ok(Some(fault));
        }
    }
    Ok(None)
}

// ---- functions

#[tactic(auto, using(crate::proofs::PassedPaths::too_long_local, crate::proofs::PassedPaths::short_local))]
fn over_local(measured: &Measured, local: &Local) -> Option<LimitFault>
    requires { AreAllKept measured.now.types.now measured.now.paths.now }
    ensures { result ≡ spec.over_local measured.now.types.now local.now }
{
    if has_long_path(measured, local.ty) {
        Some(limit(LimitName::Path, local.place))
    } else {
        None
    }
}

fn over_locals(measured: &Measured, locals: &[Local]) -> Option<LimitFault>
    requires { AreAllKept measured.now.types.now measured.now.paths.now }
    ensures { result ≡ spec.over_locals measured.now.types.now locals.now }
{
    'locals: for local in locals {
        if let Some(fault) = over_local(measured, local) {
            return Some(fault);
        }
    }
    None
}

// The first limit of counts that a function passes. What is listed for a later one is short, and goes
// into nothing deep, where an earlier one isn't passed.
#[tactic(auto, using(crate::proofs::LimitCounts::over_locations, crate::proofs::LimitCounts::over_points, crate::proofs::LimitCounts::over_elements, crate::proofs::LimitCounts::over_none))]
fn over_function(
    alloc: Global,
    types: &TypeTable,
    function: &CoreFn,
) -> Result<Option<LimitFault>, NoMemory>
    ensures { IfOk result (λ passed. passed ≡ spec.over_function types.now (function_of function.now)) }
{
    if !has_few_locations(function, types) {
        return Ok(Some(limit(LimitName::Locations, function.place)));
    }
    if !has_few_points(function) {
        return Ok(Some(limit(LimitName::Points, function.place)));
    }
    if !has_few_elements(alloc, function, types)? {
        return Ok(Some(limit(LimitName::Elements, function.place)));
    }
    Ok(None)
}

// .. or of any limit.
fn over_parts(
    alloc: Global,
    measured: &Measured,
    function: &CoreFn,
) -> Result<Option<LimitFault>, NoMemory>
    requires { AreAllKept measured.now.types.now measured.now.paths.now }
    ensures { IfOk result (λ passed. passed ≡ spec.over_parts measured.now.types.now (function_of function.now)) }
{
    match over_locals(measured, &function.locals) {
        Some(fault) => Ok(Some(fault)),
        None => over_function(alloc, measured.types, function),
    }
}

fn over_functions(
    alloc: Global,
    measured: &Measured,
    functions: &[CoreFn],
) -> Result<Option<LimitFault>, NoMemory>
    requires { AreAllKept measured.now.types.now measured.now.paths.now }
    ensures { IfOk result (λ passed. passed ≡ spec.over_functions measured.now.types.now (map function_of functions.now)) }
{
    'functions: for function in functions {
        if let Some(fault) = over_parts(alloc, measured, function)? {
            return Ok(Some(fault));
        }
    }
    Ok(None)
}

// The first limit that a struct or a function passes.
fn over_each(
    alloc: Global,
    measured: &Measured,
    structs: &[TypedStruct],
    functions: &[CoreFn],
) -> Result<Option<LimitFault>, NoMemory>
    requires { AreAllKept measured.now.types.now measured.now.paths.now }
    ensures { IfOk result (λ passed. passed ≡ spec.over_each measured.now.types.now (map struct_view structs.now) (map function_of functions.now)) }
{
    match over_structs(measured, structs)? {
        Some(fault) => Ok(Some(fault)),
        None => over_functions(alloc, measured, functions),
    }
}

/// The first limit that a program passes: of functions, then of each struct its members and its paths,
/// and then of each function its locals' paths, its locations, points and elements. `types` and
/// `functions` are those of its core program. Types are walked through once, whatever they are made of,
/// and nothing is counted by its paths before their limit was asked.
///
/// # Errors
///
/// For want of memory, which more structs or types than 32 bits number count as.
pub(crate) fn over(
    alloc: Global,
    typed: &Typed,
    types: &TypeTable,
    functions: &[CoreFn],
) -> Result<Option<LimitFault>, NoMemory>
    ensures { IfOk result (λ passed. passed ≡ spec.first_of (spec.too_many (program_view typed.now)) (spec.over_each types.now (program_view typed.now).structs (map function_of functions.now))) }
{
    if let Some(fault) = too_many(typed) {
        return Ok(Some(fault));
    }
    let paths = measure(alloc, types)?;
    let measured = Measured {
        types,
        paths: &paths,
    };
    over_each(alloc, &measured, &typed.structs, functions)
}
