// The facts at each point of a function.
ghost use Rattle.std.specs.Option.{option_copied};
ghost use Rattle.std.specs.Prelude.{◌≡◌};
ghost use Rattle.life_fix.specs.Solution.{row_of};

use life_core::Point;
use life_pset::ElementTable;
use std::marker::Model;

/// The derived facts of a function: its table of numbers, and a row of their pairs for each point.
#[derive(Drop)]
pub struct Solution<R> {
    table: ElementTable,
    rows: Vec<R>,
}

impl<R> Model for Solution<R> {
    ghost use Rattle.life_fix.specs.Solution.{Solved};

    ghost Value = { Solved R };

    ghost view = { λ s. record { table = s.table; rows = s.rows.items } };
}

impl<R> Solution<R> {
    /// A solution of these rows, the first of which is that of point 1.
    pub fn new(table: ElementTable, rows: Vec<R>) -> Solution<R>
        ensures table { result.table ≡ table }
        ensures rows { result.rows ≡ rows.items }
    {
        Solution { table, rows }
    }

    /// The row of the point; None exactly where the function hasn't the point. It takes no memory.
    pub fn row(&self, point: Point) -> Option<&R>
        ensures { option_copied result ≡ row_of self.now.rows point }
    {
        if point.0 == 0 {
            return None;
        }
        self.rows.get(point.0 as usize - 1)
    }

    /// The table that numbers the function's locations and elements.
    pub fn table(&self) -> &ElementTable
        ensures { result.now ≡ self.now.table }
    {
        &self.table
    }
}
