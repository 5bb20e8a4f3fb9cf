// What a row asks for, and what differs from it.
use life_row_text::{Refusal, say};

/// What a line asks for.
#[derive(Clone, Copy, PartialEq, Eq)]
pub enum Ask {
    /// A fact with its points.
    Fact,
    /// A diagnostic.
    Wrong,
    /// A fact that an edge carries.
    Carry,
    /// An edge.
    Edge,
    /// A point, with what stands there and where it leads.
    Point,
    /// A location of the function.
    Location,
    /// An element of the function.
    Element,
    /// There are no facts at all.
    NoFacts,
    /// A line of the report on the program.
    Report,
    /// Whether the program is proper.
    Proper,
    /// Two rows of pairs, joined.
    Join,
}

/// The number of a function that stands for the whole program.
pub const PROGRAM: u32 = u32::MAX;

impl Ask {
    /// Whether it asks something of the whole program.
    pub fn is_of_program(self) -> bool {
        matches!(self, Ask::Report | Ask::Proper | Ask::Join)
    }
}

/// A line that is asked for, of the function with this number.
#[derive(Drop)]
pub struct Asked {
    pub function: u32,
    pub ask: Ask,
    pub text: String,
}

impl Asked {
    fn is_of(&self, function: u32, ask: Ask) -> bool {
        self.function == function && self.ask == ask
    }
}

/// How many lines of the kind a row asks for of a function.
pub fn count_of(all: &[Asked], function: u32, ask: Ask) -> usize {
    let mut count: usize = 0;
    for asked in all {
        if asked.is_of(function, ask) {
            count = count.saturating_add(1);
        }
    }
    count
}

/// Adds to what is said which lines are missing, and which are there and not asked for.
pub fn compare(
    all: &[Asked],
    function: u32,
    ask: Ask,
    lines: &[Vec<u8>],
    said: &mut Vec<u8>,
) -> Result<(), Refusal> {
    for asked in all {
        if asked.is_of(function, ask) && !stands_among(lines, asked.text.as_bytes()) {
            say(said, "  missing ", asked.text.as_bytes())?;
        }
    }
    for line in lines {
        if !is_asked(all, function, ask, line) {
            say(said, "  unexpected ", line)?;
        }
    }
    if lines.len() != count_of(all, function, ask) {
        say(said, "  not as many as are asked for", b"")?;
    }
    Ok(())
}

fn stands_among(lines: &[Vec<u8>], wanted: &[u8]) -> bool {
    for line in lines {
        if line.as_slice() == wanted {
            return true;
        }
    }
    false
}

fn is_asked(all: &[Asked], function: u32, ask: Ask, line: &[u8]) -> bool {
    for asked in all {
        if asked.is_of(function, ask) && asked.text.as_bytes() == line {
            return true;
        }
    }
    false
}
