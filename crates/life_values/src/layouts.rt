// The layouts of all types of a table.
ghost use Rattle.std.specs.Prelude.{◌≡◌, ◌<◌, length, IfOk};
ghost use Rattle.life_types.specs.Trees.{AllBelow};
ghost use Rattle.life_store.specs.Parts.{characters_type, parts_at};
ghost use Rattle.life_values.specs.Layouts.{AreBefore, AreLaid, IsAlone, IsJoined, IsLaid};

use crate::layout::{Holds, Layout, Leaf};
use life_types::{NoMemory, Ty, TyId, TypeTable};
use std::alloc::Global;

/// A layout for each type of the table. `NoMemory` is also said of a type with more than 2^64 words,
/// of which no memory holds a value.
pub fn layouts_of(alloc: Global, types: &TypeTable) -> Result<Vec<Layout>, NoMemory>
    ensures { IfOk result (λ layouts. AreLaid types.now layouts.items) }
{
    let count = count_of(types)?;
    let mut layouts = Vec::new(alloc);
    for number in 0..count {
        let layout = layout_of(alloc, types, TyId(count), &layouts, TyId(number))?;
        layouts.push(layout)?;
    }
    Ok(layouts)
}

// How many types there are.
fn count_of(types: &TypeTable) -> Result<u32, NoMemory>
    ensures { IfOk result (λ count. count ≡ length types.now.types) }
{
    let mut count: u32 = 0;
    while types.get(TyId(count)).is_some() {
        count = count.checked_add(1).ok_or(NoMemory)?;
    }
    Ok(count)
}

// The layout of a type, where those of all types before it are there.
fn layout_of(
    alloc: Global,
    types: &TypeTable,
    characters: TyId,
    before: &[Layout],
    id: TyId,
) -> Result<Layout, NoMemory>
    requires here { id.0 < length types.now.types }
    requires characters { characters ≡ characters_type types.now }
    requires before { AreBefore types.now id.0 before.now }
    ensures { IfOk result (IsLaid (parts_at types.now id)) }
{
    match types.ty(id) {
        Ty::Struct(number) => joined(alloc, before, types.members(number)),
        Ty::Void | Ty::Bool | Ty::Char | Ty::Int | Ty::Long | Ty::Size => alone(alloc, 1, None),
        Ty::Text => alone(alloc, 1, Some(Holds::Characters(characters))),
        Ty::Vector(element) => alone(alloc, 1, Some(Holds::Elements(element))),
        Ty::Unique(target) => alone(alloc, 1, Some(Holds::Target(target))),
        Ty::Raw { .. } | Ty::Reference { .. } => alone(alloc, 5, Some(Holds::Raw)),
        Ty::View | Ty::Span { .. } => alone(alloc, 5, Some(Holds::View)),
        Ty::Iterator { .. } => alone(alloc, 5, None),
    }
}

// A value without members.
fn alone(alloc: Global, width: u64, holds: Option<Holds>) -> Result<Layout, NoMemory>
    ensures { IfOk result (IsAlone width holds) }
{
    let mut layout = Layout::empty(alloc);
    layout.width = width;
    if let Some(holds) = holds {
        layout.push(Leaf { word: 0, holds })?;
    }
    Ok(layout)
}

// The members of a struct, one behind the other.
fn joined(alloc: Global, before: &[Layout], members: &[TyId]) -> Result<Layout, NoMemory>
    requires { AllBelow (length before.now) members.now }
    ensures { IfOk result (IsJoined before.now members.now) }
{
    let mut layout = Layout::empty(alloc);
    for member in members {
        layout.append(&before[member.0 as usize])?;
    }
    Ok(layout)
}
