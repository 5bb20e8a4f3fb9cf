// Functions that are well formed beside their points: names, parameters, the result and the locals.
ghost use Rattle.std.specs.Prelude.{◌≡◌, ℕ, [], IsTrue, length, map, nat_lt, slice_get, true, unwrap_or};
ghost use Rattle.std.specs.Option.{option_copied};
ghost use Rattle.std.specs.List.{list_all, list_any};
ghost use Rattle.life_core.specs.Function.{function_of, member_names, promise_of};
ghost use Rattle.life_pset.specs.Shapes.{shape};
ghost use Rattle.life_proper.specs.WellFormedPrograms.{are_well_formed_locals, fits_kind, have_names, have_own_names, is_name, is_name_if, is_named_as, is_of_name, is_result_local, is_result_of, is_well_formed_local, names_parameters};
ghost use Rattle.life_proper_check.specs.Deciding.{is_named_struct};

use crate::placed::is_register;
use crate::standing::may_stand;
use crate::types::is_composed;
use life_core::{CoreFn, CoreProgram, Local, LocalKind, Promise};
use life_pset::{members_at, shape_type, ty_at};
use life_types::{NameId, Ty, TyId, TypeTable, is_pointer, is_value, is_void};

// ---- names

/// Whether so many names have it.
pub(crate) fn is_name(names: usize, name: NameId) -> bool
    ensures { result ≡ is_name names name }
{
    (name.0 as usize) < names
}

fn is_name_if(names: usize, name: Option<NameId>) -> bool
    ensures { result ≡ is_name_if names name }
{
    match name {
        None => true,
        Some(name) => is_name(names, name),
    }
}

fn is_among(name: NameId, functions: &[CoreFn]) -> bool
    ensures { result ≡ list_any (is_of_name name) (map function_of functions.now) }
{
    for function in functions {
        if name.0 == function.name.0 {
            return true;
        }
    }
    false
}

/// Whether no two functions have one name.
pub(crate) fn have_own_names(functions: &[CoreFn]) -> bool
    ensures { result ≡ have_own_names (map function_of functions.now) }
{
    for (number, function) in functions.iter().enumerate() {
        if is_among(function.name, &functions[number + 1..]) {
            return false;
        }
    }
    true
}

// ---- structs

fn are_names(names: usize, given: &[NameId]) -> bool
    ensures { result ≡ list_all (is_name names) given.now }
{
    for name in given {
        if !is_name(names, *name) {
            return false;
        }
    }
    true
}

// Whether the struct with this number has members, and each of these a name.
fn is_named(p: &CoreProgram, number: usize, given: &[NameId]) -> bool
    ensures { IsTrue result → is_named_struct (length p.now.names.texts.items) (unwrap_or (slice_get p.now.types.structs number) []) given.now ≡ true }
{
    match u32::try_from(number) {
        Err(_) => false,
        Ok(number) => {
            let members = members_at(&p.types, number);
            members.len() > 0
                && members.len() == given.len()
                && are_names(p.names.texts.len(), given)
        }
    }
}

/// Whether each struct has members, and each of these a name.
pub(crate) fn have_names(p: &CoreProgram) -> bool
    ensures { IsTrue result → have_names (length p.now.names.texts.items) p.now.types.structs (map member_names p.now.names.members.items) ≡ true }
{
    if p.types.struct_count() != p.names.members.len() {
        return false;
    }
    for (number, given) in p.names.members.iter().enumerate() {
        if !is_named(p, number, given) {
            return false;
        }
    }
    true
}

// ---- locals

fn fits_kind(kind: LocalKind, ty: Ty) -> bool
    ensures { result ≡ fits_kind kind ty }
{
    match kind {
        LocalKind::Object => !is_pointer(ty),
        LocalKind::Register => is_pointer(ty) || is_value(ty),
        LocalKind::Range => is_pointer(ty),
    }
}

fn is_named_as(kind: LocalKind, ty: Ty, name: Option<NameId>) -> bool
    ensures { result ≡ is_named_as kind ty name }
{
    match name {
        None => true,
        Some(_) => !(is_register(kind) && is_value(ty)),
    }
}

// The type that the local stands as: a parameter that is a slot stands as what it refers to.
fn shape(types: &TypeTable, parameters: u32, x: usize, l: &Local) -> TyId
    ensures { result ≡ shape types.now parameters x l.now }
{
    if x < parameters as usize {
        shape_type(types, parameters, x as u32, l)
    } else {
        l.ty
    }
}

fn is_formed_local(types: &TypeTable, names: usize, parameters: u32, x: usize, l: &Local) -> bool
    ensures { result ≡ is_well_formed_local types.now names parameters x l.now }
{
    let stands_as = shape(types, parameters, x, l);
    let ty = ty_at(types, stands_as);
    !is_void(ty_at(types, l.ty))
        && may_stand(types, stands_as)
        && fits_kind(l.kind, ty)
        && is_named_as(l.kind, ty, l.name)
        && is_name_if(names, l.name)
        && (x >= parameters as usize || l.name.is_some())
}

/// Whether the locals are well formed.
pub(crate) fn are_formed_locals(
    types: &TypeTable,
    names: usize,
    parameters: u32,
    locals: &[Local],
) -> bool
    ensures { result ≡ are_well_formed_locals types.now names parameters 0 locals.now }
{
    for (x, local) in locals.iter().enumerate() {
        if !is_formed_local(types, names, parameters, x, local) {
            return false;
        }
    }
    true
}

// ---- what a function gives

fn are_parameters(parameters: u32, inputs: &[u32]) -> bool
    ensures { result ≡ list_all (λ (x : ℕ). nat_lt x parameters) inputs.now }
{
    for input in inputs {
        if *input >= parameters {
            return false;
        }
    }
    true
}

/// Whether it names parameters alone.
pub(crate) fn names_parameters(parameters: u32, promise: &Promise) -> bool
    ensures { result ≡ names_parameters parameters (promise_of promise.now) }
{
    match promise {
        Promise::Default => true,
        Promise::Listed { inputs, .. } => are_parameters(parameters, inputs),
    }
}

fn is_result_local(types: &TypeTable, given: TyId, local: Option<&Local>) -> bool
    ensures { result ≡ is_result_local types.now given (option_copied local.entry) }
{
    match local {
        None => false,
        Some(l) => {
            l.ty.0 == given.0
                && l.name.is_none()
                && (is_register(l.kind) || is_composed(ty_at(types, given)))
        }
    }
}

/// Whether the local of the result is one of its type, where there is one.
pub(crate) fn is_formed_result(types: &TypeTable, f: &CoreFn) -> bool
    ensures { result ≡ is_result_of types.now (function_of f.now).result (slice_get types.now.types f.now.result.0) (slice_get f.now.locals.items f.now.parameters) }
{
    match types.get(f.result) {
        None => false,
        Some(Ty::Void) => true,
        Some(_) => is_result_local(types, f.result, f.locals.get(f.parameters as usize)),
    }
}
