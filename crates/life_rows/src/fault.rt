// What is wrong with a row.
use std::alloc::{AllocError, AllocFailed};

/// What is wrong with a line.
#[derive(Clone, Copy)]
pub enum Wrong {
    /// It is no part of a row.
    Stray,
    /// Its key is none of those that there are.
    Key,
    /// Its key has stood before in the same row.
    Twice,
    /// It is a line of a text, where the key above it takes none.
    Text,
    /// It has no number where one is wanted, or one that is too large.
    Number,
    /// A backslash in it begins no escape.
    Escape,
    /// The row that begins here has not all the parts that it needs.
    Missing,
    /// Memory for it was wanted and not had.
    NoMemory,
}

impl Wrong {
    /// What is told of it.
    pub(crate) fn text(self) -> &'static str {
        match self {
            Wrong::Stray => "no part of a row",
            Wrong::Key => "no such key",
            Wrong::Twice => "a key that has stood before",
            Wrong::Text => "a text where none is taken",
            Wrong::Number => "no number",
            Wrong::Escape => "no escape",
            Wrong::Missing => "a part is missing",
            Wrong::NoMemory => "no memory",
        }
    }
}

impl From<AllocError> for Wrong {
    fn from(_: AllocError) -> Self {
        Wrong::NoMemory
    }
}

impl<T: Drop> From<AllocFailed<T>> for Wrong {
    fn from(_: AllocFailed<T>) -> Self {
        Wrong::NoMemory
    }
}

/// The line, counted from 1, for which a row says nothing. Where memory is wanted for no line alone it
/// is 0.
#[derive(Clone, Copy)]
pub struct RowFault {
    pub line: usize,
    pub wrong: Wrong,
}

impl From<AllocError> for RowFault {
    fn from(_: AllocError) -> Self {
        RowFault {
            line: 0,
            wrong: Wrong::NoMemory,
        }
    }
}

impl<T: Drop> From<AllocFailed<T>> for RowFault {
    fn from(_: AllocFailed<T>) -> Self {
        RowFault {
            line: 0,
            wrong: Wrong::NoMemory,
        }
    }
}
