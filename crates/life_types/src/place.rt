// Where something stands in a file.

/// A place in a file: `line` and `column` count from 1, and columns count bytes.
#[derive(Clone, Copy, Debug, PartialEq, Eq, PartialOrd, Ord, Hash)]
pub struct Place {
    pub line: u32,
    pub column: u32,
}
