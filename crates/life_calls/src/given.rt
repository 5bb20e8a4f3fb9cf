// What is given for the inputs of a call, and what is wrong with it.
use life_pset::{AbsPlace, Cause, Element};

/// One thing that the argument of an input may be before a call.
#[derive(Clone, Copy, Debug, PartialEq, Eq)]
pub struct ArgFact {
    /// The number of the parameter, counted from 0.
    pub parameter: u32,
    /// The location of the pointer in the called function: the parameter itself, or a member of it.
    pub place: AbsPlace,
    /// What the argument's pointer may be.
    pub element: Element,
    /// Where that is a vector or a string that may be moved from, why.
    pub moved: Option<Cause>,
}

/// All that the arguments of a call may be.
#[derive(Debug, Drop)]
pub struct ArgRows {
    pub facts: Vec<ArgFact>,
}

/// What is wrong with the arguments of a call (WG21 P1179R1, 2.5.2).
#[derive(Clone, Copy, Debug, PartialEq, Eq)]
pub enum CallBreak {
    /// A pointer may be null, and the input doesn't admit that.
    Null {
        parameter: u32,
        place: AbsPlace,
    },
    /// A pointer may be invalid, or lead to what may be moved from.
    Dangling {
        parameter: u32,
        place: AbsPlace,
        cause: Cause,
    },
    /// What is given for two inputs may overlap, and the called function may change an owner behind one of them. They are
    /// numbered from 0, in the order of the parameters and then of their members.
    Overlap {
        first: u32,
        second: u32,
    },
}
