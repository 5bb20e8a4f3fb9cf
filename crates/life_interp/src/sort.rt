// What a local holds where it is ready.
ghost use Rattle.std.specs.Prelude.{◌≡◌, Some};
ghost use Rattle.life_core.specs.Function.{function_of};
ghost use Rattle.life_core.specs.Holdings.{held_by, pointer_held, result_sort, sort_of};
ghost use Rattle.life_interp.specs.Cells.{sort_seen};

use life_core::{CoreFn, Local, LocalKind};
use life_types::{Class, Ty, TypeTable, class_of};

/// What a local holds where it is ready.
#[derive(Clone, Copy, Debug)]
pub(crate) enum Sort {
    /// Nothing: it isn't built so far.
    Blank,
    /// An object of a value type.
    Object,
    /// A value.
    Number,
    /// A raw pointer or a reference.
    Pointer,
    /// A view of characters.
    View,
}

/// What the local holds, by its type and kind.
pub(crate) fn sort_of(types: &TypeTable, local: Local) -> Sort
    ensures { sort_seen result ≡ held_by types.now (Some local) }
{
    match (class_of(types, local.ty), local.kind) {
        (Class::Value, LocalKind::Object) => Sort::Object,
        (Class::Value, LocalKind::Register) => Sort::Number,
        (Class::Value, LocalKind::Range) => Sort::Blank,
        (Class::Pointer, _) => pointer_sort(types.get(local.ty)),
        // No function that is built so far has an owner or a struct.
        (Class::Owner, _) => Sort::Blank,
        (Class::Aggregate, _) => Sort::Blank,
    }
}

// An iterator and a span aren't built so far.
fn pointer_sort(ty: Option<Ty>) -> Sort
    ensures { sort_seen result ≡ pointer_held ty }
{
    match ty {
        Some(Ty::Raw { .. }) => Sort::Pointer,
        Some(Ty::Reference { .. }) => Sort::Pointer,
        Some(Ty::View) => Sort::View,
        _ => Sort::Blank,
    }
}

/// What the function gives back: nothing where it is void, else what the local behind its parameters
/// holds.
pub(crate) fn result_sort(types: &TypeTable, f: &CoreFn) -> Sort
    ensures { sort_seen result ≡ result_sort types.now (function_of f.now) }
{
    match types.get(f.result) {
        Some(Ty::Void) => Sort::Blank,
        _ => sort_at(types, f, f.parameters),
    }
}

// What a local holds, if the function has it.
fn sort_at(types: &TypeTable, f: &CoreFn, local: u32) -> Sort
    ensures { sort_seen result ≡ sort_of types.now (function_of f.now) local }
{
    match f.locals.get(local as usize) {
        None => Sort::Blank,
        Some(local) => sort_of(types, *local),
    }
}
