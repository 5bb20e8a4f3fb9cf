// Functions that write their results.
ghost use Rattle.std.specs.List.{list_all};
ghost use Rattle.std.specs.Prelude.{◌≡◌, ◌≤◌, ◌&&◌, IfOk, IfSome, IsTrue, None, length, map};
ghost use Rattle.life_core.specs.Function.{function_of, name_bytes, program_of};
ghost use Rattle.life_types.specs.Types.{class_at};
ghost use Rattle.life_types.specs.declared.ty.Class.TheVariants as classes;
ghost use Rattle.life_proper.specs.Checking.{is_checked};
ghost use Rattle.life_proper.specs.ResultsWritten.{WritesResults, is_main, writes_result};
ghost use Rattle.life_proper_check.specs.Results.{GivesAt, IsUnaskedAt, IsWrittenAt, result_set};

use life_core::{CoreFn, CoreProgram, Names};
use life_proper::is_proper;
use life_types::{Class, NameId, NoMemory, Ty, TyId, TypeTable, class_of};
use std::alloc::Global;

/// Whether each function writes its result on every way to a return, except that main may leave its int. A type
/// that is a pointer must be in the table. The program is as before.
pub(crate) fn are_results_written(alloc: Global, p: &mut CoreProgram) -> Result<bool, NoMemory>
    ensures same { program_of p.new ≡ program_of p.old }
    ensures written { IfOk result (λ written. IsTrue written → WritesResults (program_of p.new)) }
{
    match some_pointer(&p.types) {
        None => Ok(false),
        Some(pointer) => are_all_written(alloc, p, pointer),
    }
}

fn are_all_written(alloc: Global, p: &mut CoreProgram, pointer: TyId) -> Result<bool, NoMemory>
    requires pointer { class_at p.old.types pointer ≡ classes.Pointer }
    ensures same { program_of p.new ≡ program_of p.old }
    ensures written { IfOk result (λ written. IsTrue written → WritesResults (program_of p.new)) }
{
    let count = p.functions.len();
    are_written(alloc, p, pointer, count)
}

// Whether so many functions do, which are all.
fn are_written(
    alloc: Global,
    p: &mut CoreProgram,
    pointer: TyId,
    count: usize,
) -> Result<bool, NoMemory>
    requires pointer { class_at p.old.types pointer ≡ classes.Pointer }
    requires count { length p.old.functions.items ≤ count }
    ensures same { program_of p.new ≡ program_of p.old }
    ensures written { IfOk result (λ written. IsTrue written → WritesResults (program_of p.new)) }
{
    let mut written = true;
    for number in 0..count {
        let one = is_written(alloc, p, number, pointer)?;
        written = both(written, one);
    }
    Ok(written)
}

pub(crate) fn both(left: bool, right: bool) -> bool
    ensures { result ≡ (left && right) }
{
    left && right
}

// Whether the function with this number does, where there is one.
#[tactic(auto, using(crate::proofs::Written::unasked))]
fn is_written(
    alloc: Global,
    p: &mut CoreProgram,
    number: usize,
    pointer: TyId,
) -> Result<bool, NoMemory>
    requires pointer { class_at p.old.types pointer ≡ classes.Pointer }
    ensures same { program_of p.new ≡ program_of p.old }
    ensures written { IfOk result (λ written. IsTrue written → IsWrittenAt (map name_bytes p.old.names.texts.items) p.old.types (map function_of p.old.functions.items) number) }
{
    match asked_result(p, number) {
        None => Ok(true),
        Some(own) => is_ready_with(alloc, p, number, pointer, own),
    }
}

// The result of the function with this number, where there is one that has to write it.
#[tactic(auto, using(crate::proofs::Written::own_at, crate::proofs::Written::unasked_at, crate::proofs::Written::none_at))]
fn asked_result(p: &CoreProgram, number: usize) -> Option<TyId>
    ensures own { IfSome result (λ own. GivesAt (map function_of p.now.functions.items) number own) }
    ensures unasked { result ≡ None → IsUnaskedAt (map name_bytes p.now.names.texts.items) p.now.types (map function_of p.now.functions.items) number }
{
    match p.functions.get(number) {
        None => None,
        Some(f) => {
            if writes_result(&p.names, &p.types, f) {
                Some(f.result)
            } else {
                None
            }
        }
    }
}

// Whether the program's ways are ready where the function with this number, which has a result of its own, has the
// pointer for its result.
fn is_ready_with(
    alloc: Global,
    p: &mut CoreProgram,
    number: usize,
    pointer: TyId,
    own: TyId,
) -> Result<bool, NoMemory>
    requires own { GivesAt (map function_of p.old.functions.items) number own }
    ensures same { program_of p.new ≡ program_of p.old }
    ensures ready { IfOk result (λ answer. answer ≡ list_all (is_checked p.old.types) (result_set number pointer (map function_of p.old.functions.items))) }
{
    set_result(&mut p.functions, number, pointer);
    let answer = is_proper(alloc, p);
    set_result(&mut p.functions, number, own);
    answer
}

fn set_result(functions: &mut Vec<CoreFn>, number: usize, given: TyId)
    ensures { map function_of functions.new.items ≡ result_set number given (map function_of functions.old.items) }
{
    match functions.get_mut(number) {
        None => {}
        Some(function) => function.result = given,
    }
}

// ---- which have to

// Whether the function has to write its result.
fn writes_result(names: &Names, types: &TypeTable, f: &CoreFn) -> bool
    ensures { result ≡ writes_result (map name_bytes names.now.texts.items) types.now (function_of f.now) }
{
    match types.get(f.result) {
        Some(Ty::Void) => false,
        Some(Ty::Int) => !is_main(names, f.name),
        _ => true,
    }
}

fn is_main(names: &Names, name: NameId) -> bool
    ensures { result ≡ is_main (map name_bytes names.now.texts.items) name }
{
    match names.texts.get(name.0 as usize) {
        Some(text) => text.as_slice() == "main".as_bytes(),
        None => false,
    }
}

// ---- a pointer

// How many types are looked at.
const MOST_TYPES: u32 = 1024;

// A type that is a pointer.
fn some_pointer(types: &TypeTable) -> Option<TyId>
    ensures { IfSome result (λ id. class_at types.now id ≡ classes.Pointer) }
{
    for number in 0..MOST_TYPES {
        let id = TyId(number);
        if is_pointer(class_of(types, id)) {
            return Some(id);
        }
    }
    None
}

fn is_pointer(class: Class) -> bool
    ensures { IsTrue result → class ≡ classes.Pointer }
{
    match class {
        Class::Pointer => true,
        Class::Value => false,
        Class::Owner => false,
        Class::Aggregate => false,
    }
}
