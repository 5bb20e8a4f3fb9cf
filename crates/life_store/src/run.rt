// What a run is given, and how it may end.

/// How much a vector grows where a `push_back` finds it full.
#[derive(Clone, Copy, Debug, PartialEq, Eq)]
pub enum Growth {
    /// To one more than its size: each such call moves the elements.
    Always,
    /// To 1 after 0, and else to twice its capacity.
    Double,
}

/// The most that a run may take.
#[derive(Clone, Copy, Debug, PartialEq, Eq)]
pub struct Limits {
    /// Live words.
    pub cells: u32,
    /// Frames: calls that stand at once, the entry among them.
    pub depth: u32,
}

/// Why a run was stopped, where the program used nothing null, dangling or moved-from.
#[derive(Clone, Copy, Debug, PartialEq, Eq)]
pub enum TrapKind {
    /// An index, a position or a count is out of its range.
    Bounds,
    /// The value of an `int` or a `long` is out of its range, which is undefined in C++ (ISO/IEC
    /// 14882:2017 [expr]).
    Overflow,
    /// A division by 0, which is undefined in C++ ([expr.mul]).
    ZeroDivisor,
    /// An assertion that doesn't hold.
    Assert,
    /// No number of the input is left.
    InputEnd,
    /// A birth would pass the limit of live words.
    Cells,
    /// A call would pass the limit of frames.
    Depth,
    /// An iterator of another object is used.
    ForeignIterator,
}

/// What a run used that it may not use.
#[derive(Clone, Copy, Debug, PartialEq, Eq)]
pub enum FaultKind {
    /// A null pointer (ISO/IEC 14882:2017 [expr.unary.op]).
    Null,
    /// A pointer to what has ended, or that never pointed to anything (ISO/IEC 14882:2017 [basic.stc]).
    Dangling,
    /// What was moved from.
    Moved,
}
