// Types as words: `int`, `vector int`, `reference const vector int`, or the name of a struct.
ghost use Rattle.std.specs.Prelude.{◌<◌, ◌-◌, ◌^◌, ◌↔◌, IsTrue, Decides, length};
ghost use Rattle.life_types.specs.Types.{HasParts, HasType, HasTypes};

use crate::refusal::Refusal;
use crate::words::position;
use life_types::{Ty, TyId, TypeTable};

/// The type that words say, the innermost last. It is added to the table.
pub fn type_of(types: &mut TypeTable, structs: &[String], words: &[&str]) -> Result<TyId, Refusal> {
    let mut inner = None;
    let mut constant = false;
    for word in words.iter().rev() {
        if *word == "const" {
            constant = true;
        } else {
            let ty = match inner {
                None => simple(structs, word)?,
                Some(part) => composed(word, part, constant)?,
            };
            inner = Some(add(types, ty)?);
            constant = false;
        }
    }
    if constant {
        return Err(Refusal::NoType);
    }
    inner.ok_or(Refusal::NoType)
}

fn simple(structs: &[String], word: &str) -> Result<Ty, Refusal> {
    match word {
        "void" => Ok(Ty::Void),
        "bool" => Ok(Ty::Bool),
        "char" => Ok(Ty::Char),
        "int" => Ok(Ty::Int),
        "long" => Ok(Ty::Long),
        "size" => Ok(Ty::Size),
        "string" => Ok(Ty::Text),
        "view" => Ok(Ty::View),
        _ => Ok(Ty::Struct(position(structs, word)?)),
    }
}

fn composed(word: &str, target: TyId, constant: bool) -> Result<Ty, Refusal> {
    match word {
        "pointer" => Ok(Ty::Raw { target, constant }),
        "reference" => Ok(Ty::Reference { target, constant }),
        "iterator" => Ok(Ty::Iterator { target, constant }),
        "span" => Ok(Ty::Span { target, constant }),
        "vector" if !constant => Ok(Ty::Vector(target)),
        "unique" if !constant => Ok(Ty::Unique(target)),
        _ => Err(Refusal::NoType),
    }
}

/// Adds a type whose parts the table has.
pub fn add(types: &mut TypeTable, ty: Ty) -> Result<TyId, Refusal> {
    if has_room(types) && has_parts(types, ty) {
        Ok(types.add(ty)?)
    } else {
        Err(Refusal::PastLimit)
    }
}

/// Adds the next struct, with these members.
pub fn add_struct(types: &mut TypeTable, members: Vec<TyId>) -> Result<(), Refusal> {
    if types.struct_count() < MOST_STRUCTS && !members.is_empty() && has_types(types, &members) {
        types.add_struct(members)?;
        Ok(())
    } else {
        Err(Refusal::NoType)
    }
}

// The most structs of a row.
const MOST_STRUCTS: usize = 100;

fn has_room(types: &TypeTable) -> bool
    ensures { IsTrue result → length types.now.types < 2 ^ 32 - 1 }
{
    !has_type(types, TyId(u32::MAX - 1))
}

fn has_type(types: &TypeTable, id: TyId) -> bool
    ensures { Decides result (HasType types.now id) }
{
    types.get(id).is_some()
}

fn has_types(types: &TypeTable, ids: &[TyId]) -> bool
    ensures { Decides result (HasTypes types.now ids.now) }
{
    for id in ids {
        if !has_type(types, *id) {
            return false;
        }
    }
    true
}

fn has_parts(types: &TypeTable, ty: Ty) -> bool
    ensures { IsTrue result → HasParts types.now ty }
{
    match ty {
        Ty::Vector(part) => has_type(types, part),
        Ty::Unique(part) => has_type(types, part),
        Ty::Raw { target, .. } => has_type(types, target),
        Ty::Reference { target, .. } => has_type(types, target),
        Ty::Iterator { target, .. } => has_type(types, target),
        Ty::Span { target, .. } => has_type(types, target),
        Ty::Struct(number) => (number as usize) < types.struct_count(),
        _ => true,
    }
}
