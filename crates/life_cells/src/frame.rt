// The cells of a frame.
ghost use Rattle.std.specs.Prelude.{◌≡◌, option_map, slice_get, slice_set, IfSome, Some};
ghost use Rattle.life_store.specs.Content.{Content};
ghost use Rattle.life_store.specs.References.{Rows};
ghost use Rattle.life_words.specs.Owning.{number_of};
ghost use Rattle.life_pointers.specs.Pointers.{pointer_seen, PointerFits};
ghost use Rattle.life_cells.specs.Cells.{cells_seen, number_in, object_in, pointer_in};
ghost use Rattle.life_cells.specs.Fits.{CellsFit};
ghost use Rattle.life_cells.specs.declared.cell.Cell.TheVariants as held;

use crate::cell::{Cell, pointer_of};
use life_pointers::Pointer;
use life_store::ObjRef;

/// What the local holds, if the frame has it.
#[inline(always)]
pub fn cell_at(cells: &[Cell], local: u32) -> Option<Cell>
    ensures { result ≡ slice_get cells.now local }
{
    cells.get(local as usize).copied()
}

/// Sets what the local holds, if the frame has it.
#[inline(always)]
pub fn put_cell(cells: &mut Vec<Cell>, local: u32, cell: Cell)
    ensures { cells.new.items ≡ slice_set cells.old.items local cell }
{
    put_at(cells, local as usize, cell);
}

/// .. by an index.
#[inline(always)]
#[tactic(auto, using(std::proofs::lemmas::List::set_past))]
pub fn put_at(cells: &mut Vec<Cell>, local: usize, cell: Cell)
    ensures { cells.new.items ≡ slice_set cells.old.items local cell }
{
    if local < cells.len() {
        cells[local] = cell;
    }
}

/// The value that the local holds, if it holds one.
#[inline(always)]
pub fn number_at(cells: &[Cell], local: u32) -> Option<i64>
    ensures { result ≡ number_in (slice_get (cells_seen cells.now) local) }
{
    match cell_at(cells, local) {
        Some(Cell::Number(value)) => Some(value),
        Some(Cell::Empty) => None,
        Some(Cell::Object(_)) => None,
        Some(Cell::Null) => None,
        Some(Cell::Wild) => None,
        Some(Cell::To { .. }) => None,
        Some(Cell::Static(_)) => None,
        None => None,
    }
}

/// The object of the local, if it has one.
#[inline(always)]
pub fn object_at(cells: &[Cell], local: u32) -> Option<ObjRef>
    ensures is { option_map number_of result ≡ object_in (slice_get (cells_seen cells.now) local) }
    ensures held { IfSome result (λ r. slice_get cells.now local ≡ Some (held.Object r)) }
{
    match cell_at(cells, local) {
        Some(Cell::Object(object)) => Some(object),
        Some(Cell::Empty) => None,
        Some(Cell::Number(_)) => None,
        Some(Cell::Null) => None,
        Some(Cell::Wild) => None,
        Some(Cell::To { .. }) => None,
        Some(Cell::Static(_)) => None,
        None => None,
    }
}

/// The pointer that the local holds itself, if it holds one.
#[inline(always)]
pub fn own_pointer(cells: &[Cell], local: u32) -> Option<Pointer>
    ensures is { option_map pointer_seen result ≡ pointer_in (slice_get (cells_seen cells.now) local) }
    ensures fits { (c : Content) (rows : Rows) → CellsFit c rows cells.now → IfSome result (PointerFits c rows) }
{
    match cell_at(cells, local) {
        None => None,
        Some(cell) => pointer_of(cell),
    }
}
