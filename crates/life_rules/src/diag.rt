// Diagnostics.
use life_pset::{AbsPlace, Cause, Element};
use life_types::{NameId, Place};

/// What is wrong.
#[derive(Clone, Copy, Debug, PartialEq, Eq, PartialOrd, Ord, Hash)]
pub enum DiagKind {
    /// A pointer that may be null is used.
    NullUse,
    /// A pointer that may be invalid is used.
    DanglingUse,
    /// A vector or a string that may be moved from is used.
    MovedUse,
    /// An argument may be null where the parameter doesn't admit it.
    ArgNull,
    /// An argument may be invalid.
    ArgDangling,
    /// Two arguments overlap, and the owner behind one of them may be changed.
    ArgOverlap,
    /// A result may be invalid.
    ReturnDangling,
    /// A result may be what its function doesn't promise.
    ReturnWidens,
    /// An owner is changed that a parameter keeps.
    KeepsBroken,
}

/// Why it is wrong.
#[derive(Clone, Copy, Debug, PartialEq, Eq, PartialOrd, Ord, Hash)]
pub enum Why {
    /// The pointer may be null.
    Null,
    /// What made the pointer invalid, or the owner moved from.
    Cause(Cause),
    /// The parameter with which another one overlaps.
    Overlap(NameId),
    /// What the result may be.
    Points(Element),
}

/// A diagnostic: in which function, at which place in the file, what is wrong, with which location,
/// and why. What is wrong with an argument is told of the location of the parameter.
#[derive(Clone, Copy, Debug, PartialEq, Eq, PartialOrd, Ord, Hash)]
pub struct Diag {
    pub function: u32,
    pub place: Place,
    pub kind: DiagKind,
    pub name: AbsPlace,
    /// The called function, where `name` is a location of its parameter; None where it is one of the
    /// function's.
    pub called: Option<u32>,
    pub why: Why,
}

/// The line that a diagnostic prints: its place, the kind, the name of the location and the reason. The
/// order of the fields is the order of lines.
#[derive(Debug, PartialEq, Eq, PartialOrd, Ord, Drop)]
pub struct PrintedLine {
    pub line: u32,
    pub column: u32,
    pub kind: DiagKind,
    pub name: Vec<u8>,
    pub why: Vec<u8>,
}

/// A diagnostic with the line that it prints, as lists of diagnostics have it. Those of one line are
/// ordered by their diagnostics.
#[derive(Debug, PartialEq, Eq, PartialOrd, Ord, Drop)]
pub struct ListedDiag {
    pub line: PrintedLine,
    pub diag: Diag,
}
