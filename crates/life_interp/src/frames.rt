// The frames of calls.
use life_cells::Cell;
use life_core::{Argument, Location};
use life_types::Place;

/// A frame that waits for a call that stands at a place.
#[derive(Drop)]
pub(crate) struct Waiting<'p> {
    /// The number of its function.
    pub(crate) function: u32,
    pub(crate) cells: Vec<Cell>,
    pub(crate) place: Place,
    /// The point at which it goes on.
    pub(crate) to: Option<u32>,
    /// What is given the result.
    pub(crate) target: &'p Option<Location>,
    /// What was handed over.
    pub(crate) arguments: &'p [Argument],
}

/// The frame at hand, and those that wait, the newest last.
#[derive(Drop)]
pub(crate) struct Frames<'p> {
    /// The number of the function.
    pub(crate) function: u32,
    /// The point that control comes to, if to one.
    pub(crate) point: Option<u32>,
    pub(crate) cells: Vec<Cell>,
    pub(crate) waiting: Vec<Waiting<'p>>,
}
