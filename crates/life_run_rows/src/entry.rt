// Whether a run may begin with a function.
ghost use Rattle.std.specs.Prelude.{◌≡◌, IsTrue, map};
ghost use Rattle.life_core.specs.Function.{function_of, program_of};
ghost use Rattle.life_core.specs.Holdings.{AnObject, sort_of_local};
ghost use Rattle.life_store.specs.Meaning.{AreObjects, IsAdmitted, is_told};

use life_core::{CoreFn, CoreProgram, Local, LocalKind};
use life_types::{Class, Ty, TypeTable, class_of};

/// Whether a run may begin with the function on this input: each parameter is an object of a value and has a number,
/// and the result is one that is told.
pub fn is_admitted(program: &CoreProgram, f: &CoreFn, input: &[i64]) -> bool
    ensures { IsTrue result → IsAdmitted (program_of program.now) (function_of f.now) input.now }
{
    let count = f.parameters as usize;
    if count > f.locals.len() || count > input.len() {
        return false;
    }
    is_told(program.types.get(f.result)) && are_objects(&program.types, &f.locals[..count])
}

fn is_told(ty: Option<Ty>) -> bool
    ensures { result ≡ is_told ty }
{
    matches!(
        ty,
        Some(Ty::Void | Ty::Bool | Ty::Char | Ty::Int | Ty::Long)
    )
}

fn are_objects(types: &TypeTable, locals: &[Local]) -> bool
    ensures { IsTrue result → AreObjects (map (sort_of_local types.now) locals.now) }
{
    for local in locals {
        if !is_object(types, local) {
            return false;
        }
    }
    true
}

fn is_object(types: &TypeTable, local: &Local) -> bool
    ensures { IsTrue result → sort_of_local types.now local.now ≡ AnObject }
{
    match class_of(types, local.ty) {
        Class::Value => match local.kind {
            LocalKind::Object => true,
            LocalKind::Register => false,
            LocalKind::Range => false,
        },
        Class::Pointer => false,
        Class::Owner => false,
        Class::Aggregate => false,
    }
}
