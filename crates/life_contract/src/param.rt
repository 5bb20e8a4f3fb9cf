// Parameters.
use life_types::{NameId, TyId};

/// A parameter of a function, as its callers see it.
#[derive(Clone, Copy, Debug, PartialEq, Eq)]
pub struct Param {
    pub name: Option<NameId>,
    pub ty: TyId,
    /// Whether it bears `[[life::nonnull]]`: a raw pointer that is never null.
    pub nonnull: bool,
    /// Whether it bears `[[life::keeps]]`: what it points to keeps its owners as they are.
    pub keeps: bool,
}
