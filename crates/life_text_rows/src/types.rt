// The types of a program, a line each.
use life_types::{
    Ty, TyId, TypeTable, class_of, holds_owner, holds_unique, is_plain, is_slot, words_of,
};
use std::alloc::{AllocError, Global};

/// A line for each type with its number, its class, how many words it takes, and what else is asked of it.
pub fn types_told(alloc: Global, types: &TypeTable) -> Result<String, AllocError> {
    let mut told = String::new(alloc);
    for number in 0..u32::MAX {
        let id = TyId(number);
        let Some(ty) = types.get(id) else {
            break;
        };
        add_type(&mut told, types, id, ty)?;
        if let Ty::Struct(number) = ty {
            add_members(&mut told, types, number)?;
        }
    }
    Ok(told)
}

fn add_type(told: &mut String, types: &TypeTable, id: TyId, ty: Ty) -> Result<(), AllocError> {
    let number = id.0;
    let class = class_of(types, id);
    let words = words_of(types, id);
    write!(told, "{number} {ty:?}: {class:?} of {words}")?;
    add_if(told, is_plain(types, id), ", plain")?;
    add_if(told, holds_owner(types, id), ", holds an owner")?;
    add_if(told, holds_unique(types, id), ", holds a unique owner")?;
    add_if(told, is_slot(types, id), ", a slot")?;
    told.push_str("\n")
}

fn add_if(told: &mut String, holds: bool, text: &str) -> Result<(), AllocError> {
    if holds {
        told.push_str(text)?;
    }
    Ok(())
}

fn add_members(told: &mut String, types: &TypeTable, number: u32) -> Result<(), AllocError> {
    if (number as usize) < types.struct_count() {
        let members = types.members(number);
        writeln!(told, "  members {members:?}")?;
    }
    Ok(())
}
