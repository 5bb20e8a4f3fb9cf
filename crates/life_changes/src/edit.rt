// The changes of vectors and strings.

/// One change of a vector or a string.
#[derive(Clone, Copy)]
pub(crate) enum Edit<'a> {
    /// A number is added at the end.
    Push(u64),
    /// The last element goes.
    Pop,
    /// All elements go.
    Clear,
    /// There is to be room for so many.
    Reserve(u64),
    /// A string takes these characters in place of its own.
    Put(&'a [u64]),
    /// .. or behind them.
    Add(&'a [u64]),
}
