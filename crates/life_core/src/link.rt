// A point that knows where it leads, by reference.
use crate::node::SpotRef;

/// Where control goes from a point: to the point with this number, or to none past the end of the
/// function.
#[derive(Clone, Copy, Debug, PartialEq, Eq)]
pub enum Leads {
    /// Nowhere: the function or the run ends at the point.
    Nowhere,
    /// One way on.
    On(Option<u32>),
    /// By whether a test held.
    Parts {
        held: Option<u32>,
        failed: Option<u32>,
    },
}

/// What stands at a point, its place in the file, and where control goes from it.
#[derive(Clone, Copy, Debug)]
pub struct LinkRef<'a> {
    pub spot: SpotRef<'a>,
    pub leads: Leads,
}
