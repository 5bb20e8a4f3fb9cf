// What a cell holds.
ghost use Rattle.std.specs.Prelude.{◌≡◌, slice_get, Some};
ghost use Rattle.life_cells.specs.Cells.{cell_seen, cells_seen, number_in};
ghost use Rattle.life_interp.specs.Cells.{is_vacant};
ghost use Rattle.life_interp.specs.Steps.{is_free};

use life_cells::{Cell, cell_at};

/// Whether the frame has the local, and nothing of it is alive.
pub(crate) fn is_free(cells: &[Cell], local: u32) -> bool
    ensures { result ≡ is_free (slice_get (cells_seen cells.now) local) }
{
    match cell_at(cells, local) {
        Some(Cell::Empty) => true,
        Some(Cell::Object(_)) => false,
        Some(Cell::Number(_)) => false,
        Some(Cell::Null) => false,
        Some(Cell::Wild) => false,
        Some(Cell::To { .. }) => false,
        Some(Cell::Static(_)) => false,
        None => false,
    }
}

/// The value that the cell holds, if it holds one.
pub(crate) fn number_of(cell: Cell) -> Option<i64>
    ensures { result ≡ number_in (Some (cell_seen cell)) }
{
    match cell {
        Cell::Number(value) => Some(value),
        Cell::Empty => None,
        Cell::Object(_) => None,
        Cell::Null => None,
        Cell::Wild => None,
        Cell::To { .. } => None,
        Cell::Static(_) => None,
    }
}

/// Whether the cell holds nothing.
pub(crate) fn is_vacant(cell: Cell) -> bool
    ensures { result ≡ is_vacant (cell_seen cell) }
{
    match cell {
        Cell::Empty => true,
        Cell::Object(_) => false,
        Cell::Number(_) => false,
        Cell::Null => false,
        Cell::Wild => false,
        Cell::To { .. } => false,
        Cell::Static(_) => false,
    }
}
