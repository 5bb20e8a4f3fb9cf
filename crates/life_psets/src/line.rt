// A line of the table of sets.
use life_core::Point;
use life_pset::{AbsPlace, Element};
use life_types::Place;

/// What a location of a function may be right before a point, which stands at this place in the file: some
/// element at least, in the order of their numbers.
#[derive(Drop)]
pub struct SetLine {
    pub function: u32,
    pub point: Point,
    pub place: Place,
    pub location: AbsPlace,
    pub elements: Vec<Element>,
}

/// Right before a point of a function, which stands at this place in the file.
#[derive(Clone, Copy)]
pub(crate) struct Before {
    pub(crate) function: u32,
    pub(crate) point: Point,
    pub(crate) place: Place,
}
