// What a statement stands in.
use life_types::TyId;

/// What is around a statement.
#[derive(Clone, Copy)]
pub(crate) struct Around {
    /// What its function answers; `void` too.
    pub(crate) result: TyId,
    /// Whether a loop is around it.
    pub(crate) in_loop: bool,
}
