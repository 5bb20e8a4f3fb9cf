// What a local holds.
ghost use Rattle.std.specs.Prelude.{◌≡◌, option_map, IfSome, Some};
ghost use Rattle.life_store.specs.Content.{Content};
ghost use Rattle.life_store.specs.References.{Rows};
ghost use Rattle.life_store.specs.State as state;
ghost use Rattle.life_pointers.specs.Pointers.{pointer_seen, PointerFits};
ghost use Rattle.life_cells.specs.Cells.{cell_seen, pointer_in};
ghost use Rattle.life_cells.specs.Fits.{CellFits};

use life_pointers::{Characters, Pointer};
use life_store::ObjRef;

/// What a local holds while the machine runs. A pointer's ways to lead somewhere are the cell's own,
/// since a cell that holds a whole `Pointer` is a fifth larger.
#[derive(Clone, Copy)]
pub enum Cell {
    /// Nothing: it isn't alive, or a register that was not written yet.
    Empty,
    /// Its object.
    Object(ObjRef),
    /// A value.
    Number(i64),
    /// The null pointer.
    Null,
    /// A pointer that never pointed to anything.
    Wild,
    /// A pointer to positions of an object, as in `Pointer::To`.
    To {
        index: u32,
        count: u32,
        word: u32,
        object: ObjRef,
        moment: u64,
    },
    /// A pointer to characters that never end.
    Static(Characters),
}

// A frame has a cell for each local, so ten thousand of them have millions.
const _: () = prove!(size_of::<Cell>() == 40);

/// The cell that holds the pointer.
#[inline(always)]
pub fn holding(pointer: Pointer) -> Cell
    ensures is { cell_seen result ≡ state.Points (pointer_seen pointer) }
    ensures fits { (c : Content) (rows : Rows) → PointerFits c rows pointer → CellFits c rows result }
{
    match pointer {
        Pointer::Null => Cell::Null,
        Pointer::Wild => Cell::Wild,
        Pointer::To {
            index,
            count,
            word,
            object,
            moment,
        } => Cell::To {
            index,
            count,
            word,
            object,
            moment,
        },
        Pointer::Static(characters) => Cell::Static(characters),
    }
}

/// The pointer that the cell holds, if it holds one.
#[inline(always)]
pub fn pointer_of(cell: Cell) -> Option<Pointer>
    ensures is { option_map pointer_seen result ≡ pointer_in (Some (cell_seen cell)) }
    ensures fits { (c : Content) (rows : Rows) → CellFits c rows cell → IfSome result (PointerFits c rows) }
{
    match cell {
        Cell::Empty => None,
        Cell::Object(_) => None,
        Cell::Number(_) => None,
        Cell::Null => Some(Pointer::Null),
        Cell::Wild => Some(Pointer::Wild),
        Cell::To {
            index,
            count,
            word,
            object,
            moment,
        } => Some(Pointer::To {
            index,
            count,
            word,
            object,
            moment,
        }),
        Cell::Static(characters) => Some(Pointer::Static(characters)),
    }
}
