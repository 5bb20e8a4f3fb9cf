// What is asked for.

/// The commands.
#[derive(Clone, Copy, Debug, PartialEq, Eq)]
pub enum CommandName {
    Check,
    Run,
    Psets,
    Gen,
}

/// How much a vector grows where a `push_back` finds it full.
#[derive(Clone, Copy, Debug, PartialEq, Eq)]
pub enum Growth {
    /// To one more than its size: each such call moves the elements.
    Always,
    /// To 1 after 0, and else to twice its capacity.
    Double,
}

/// How a program is run.
#[derive(Clone, Copy, Debug, PartialEq, Eq)]
pub struct RunOptions {
    /// Whether it is run although the profile's rules diagnose something.
    pub unchecked: bool,
    /// How a vector grows.
    pub growth: Growth,
    /// The most steps that it may take, at most 10^9.
    pub steps: u64,
    /// The most live words, at most 10^7.
    pub cells: u32,
    /// The most frames that may stand at once, from 1 to 10^4.
    pub depth: u32,
}

/// A run that is asked for.
#[derive(Clone, Copy, Debug)]
pub struct RunJob<'a> {
    pub options: RunOptions,
    /// The name of the function with which it begins.
    pub function: &'a str,
    /// The name of the file with its input, which is empty without one.
    pub input: Option<&'a str>,
}

/// What is to be done.
#[derive(Clone, Copy, Debug)]
pub enum Job<'a> {
    /// The file is checked, and the report is written: as JSON, or as text.
    Check { file: &'a str, json: bool },
    /// The file is checked and run.
    Run { file: &'a str, run: RunJob<'a> },
    /// What each pointer of the file may point to at each point is written.
    Psets { file: &'a str },
    /// The file of this number is made, with so many functions, and checked and run.
    Gen { number: u64, size: u64 },
}
