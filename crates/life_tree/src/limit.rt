// The limits of a program, by their names.
use life_types::Place;
use std::fmt;
use thiserror::Error;

/// What a program can have too much of.
#[derive(Clone, Copy, Debug, PartialEq, Eq, Error)]
pub enum LimitName {
    /// Bytes of the file: 1,048,576.
    #[error("file")]
    File,
    /// Bytes of the input: 1,048,576.
    #[error("input")]
    Input,
    /// Generated functions: 200.
    #[error("size")]
    Size,
    /// Constructs that are open at once: 64.
    #[error("nesting")]
    Nesting,
    /// Functions: 1,024.
    #[error("functions")]
    Functions,
    /// Members of a struct: 32.
    #[error("fields")]
    Fields,
    /// Steps of a path into a type, or into the target of a Pointer: 8.
    #[error("path")]
    Path,
    /// Locations of a function: 256.
    #[error("locations")]
    Locations,
    /// Points of a function: 1,024.
    #[error("points")]
    Points,
    /// Elements of a function: 2,048.
    #[error("elements")]
    Elements,
}

/// A limit that is passed.
#[derive(Clone, Copy, Debug, PartialEq, Eq, Error)]
#[error("{}limit: {name}", Front(.place))]
pub struct LimitFault {
    /// Which.
    pub name: LimitName,
    /// Where it is passed: of nesting, the token that opens the 65th construct.
    pub place: Option<Place>,
}

// What stands before the message of a limit: its place, if it has one.
#[derive(Clone, Copy)]
struct Front<'a>(&'a Option<Place>);

impl<'a> fmt::Display for Front<'a> {
    fn fmt<W: fmt::Write>(&self, f: &mut fmt::Formatter<W>) -> fmt::Result {
        match self.0 {
            Some(place) => write!(f, "{}:{}: ", place.line, place.column),
            None => Ok(()),
        }
    }
}
