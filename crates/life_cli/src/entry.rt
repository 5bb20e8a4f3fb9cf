// The function with which a run begins.
ghost use Rattle.std.specs.Prelude.{◌≡◌, ◌<◌, ◌^◌, IfSome, length, map};
ghost use Rattle.life_core.specs.Function.{function_of, name_bytes, program_of};
ghost use Rattle.life_store.specs.Meaning.{is_told};
ghost use Rattle.life_cli.specs.Entry as spec;

use life_core::{CoreFn, CoreProgram, FnId, Local, LocalKind, Names};
use life_types::{Class, Ty, TypeTable, class_of};

/// What a name is as that of the function with which a run begins.
#[derive(Clone, Copy, Debug, PartialEq, Eq)]
pub enum Entry {
    /// No function has the name.
    Absent,
    /// The function has a parameter or a result that is no value.
    NotValue,
    /// The function with this number, with so many parameters.
    Begins {
        /// Its number in the program.
        number: FnId,
        /// The numbers that it takes from the input.
        parameters: u32,
    },
}

/// The entry of this name.
pub fn find_entry(program: &CoreProgram, name: &str) -> Entry
    requires { length program.now.functions.items < 2 ^ 32 }
    ensures { spec.IsEntry (program_of program.now) (spec.entry_of (program_of program.now) name.now) result }
{
    match function_number(&program.names, &program.functions, name) {
        Some(number) => {
            let f = &program.functions[number];
            entry_at(&program.types, f, number as u32)
        }
        None => Entry::Absent,
    }
}

// The number of the first function of this name.
fn function_number(names: &Names, functions: &[CoreFn], name: &str) -> Option<usize>
    ensures number { result ≡ spec.number_from (map name_bytes names.now.texts.items) name.now 0 (map function_of functions.now) }
    ensures within { IfSome result (λ n. n < length functions.now) }
{
    for (number, f) in functions.iter().enumerate() {
        if is_named(names, f, name) {
            return Some(number);
        }
    }
    None
}

fn is_named(names: &Names, f: &CoreFn, text: &str) -> bool
    ensures { result ≡ spec.is_named (map name_bytes names.now.texts.items) text.now (function_of f.now) }
{
    match names.texts.get(f.name.0 as usize) {
        Some(name) => name.as_slice() == text.as_bytes(),
        None => false,
    }
}

// Whether a run may begin with the function of this number.
fn entry_at(types: &TypeTable, f: &CoreFn, number: u32) -> Entry
    ensures { spec.IsEntryAt types.now number (function_of f.now) result }
{
    if may_begin(types, f) {
        Entry::Begins {
            number: FnId(number),
            parameters: f.parameters,
        }
    } else {
        Entry::NotValue
    }
}

fn may_begin(types: &TypeTable, f: &CoreFn) -> bool
    ensures { result ≡ spec.may_begin types.now (function_of f.now) }
{
    is_told(types.get(f.result))
        && f.parameters as usize <= f.locals.len()
        && takes_values(types, f)
}

// Whether a run may come to this: nothing, or a number that a long holds.
fn is_told(ty: Option<Ty>) -> bool
    ensures { result ≡ is_told ty }
{
    matches!(
        ty,
        Some(Ty::Void | Ty::Bool | Ty::Char | Ty::Int | Ty::Long)
    )
}

// Whether each parameter is a value.
fn takes_values(types: &TypeTable, f: &CoreFn) -> bool
    ensures { result ≡ spec.takes_values types.now (function_of f.now) }
{
    f.locals
        .iter()
        .take(f.parameters as usize)
        .all(|local| holds_value(types, local))
}

// Whether the local is an object that holds a value.
fn holds_value(types: &TypeTable, local: &Local) -> bool
    ensures { result ≡ spec.holds_value types.now local.now }
{
    is_value(class_of(types, local.ty)) && is_object(local.kind)
}

fn is_object(kind: LocalKind) -> bool
    ensures { result ≡ spec.is_object kind }
{
    match kind {
        LocalKind::Object => true,
        LocalKind::Register | LocalKind::Range => false,
    }
}

fn is_value(class: Class) -> bool
    ensures { result ≡ spec.is_value class }
{
    match class {
        Class::Value => true,
        Class::Pointer | Class::Owner | Class::Aggregate => false,
    }
}
