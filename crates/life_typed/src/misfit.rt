// Why operands or a value don't fit.
use thiserror::Error;

/// Why operands have no operator, or why a value initialises nothing of a type.
#[derive(Clone, Copy, Debug, PartialEq, Eq, Error)]
pub enum Misfit {
    /// The types don't fit.
    #[error("the types don't fit")]
    General,
    /// A string literal stands where none converts.
    #[error("a string literal doesn't convert here")]
    Literal,
    /// Something const could be changed through what is initialised.
    #[error("something const could be changed")]
    Constant,
    /// A `std::unique_ptr`, or what holds one, would be copied.
    #[error("a unique_ptr can't be copied")]
    Copy,
    /// Two raw pointers are compared, which is left out.
    #[error("pointers can't be compared")]
    Unsupported,
}
