// The statements of a core function, its points and its edges.
use crate::instr::{Instr, Test};
use life_types::Place;

/// A statement. What has a point of its own has its place in the file.
#[cycle(stmt)]
#[derive(Debug, Drop)]
pub enum Stmt {
    /// One statement after the other.
    List(Vec<Stmt>),
    /// One instruction.
    Do(Place, Instr),
    /// The first statement where the condition holds, else the second.
    Branch(Condition, Box<Stmt>, Box<Stmt>),
    /// While the condition holds, the body and then the step.
    Loop {
        condition: Condition,
        body: Box<Stmt>,
        step: Box<Stmt>,
    },
    /// Leaves the innermost loop.
    Break,
    /// Goes on with the step of the innermost loop.
    Continue,
    /// Leaves the function.
    Return(Place),
    /// Ends the run: an assertion that doesn't hold.
    Stop(Place),
}

/// What decides between two ways.
#[cycle(stmt)]
#[derive(Debug, Drop)]
pub enum Condition {
    /// The statements that compute what is tested, without Break, Continue and Return, and then the
    /// condition.
    After(Box<Stmt>, Box<Condition>),
    /// One test.
    Single(Place, Test),
    /// Both hold; the second is asked only where the first holds.
    And(Box<Condition>, Box<Condition>),
    /// One of them holds; the second is asked only where the first doesn't hold.
    Or(Box<Condition>, Box<Condition>),
    /// It doesn't hold.
    Not(Box<Condition>),
}

/// A point of a function: an instruction, a single test, a return or a stop. Points are numbered
/// from 1, in the order of the text of the core.
#[derive(Clone, Copy, Debug, PartialEq, Eq, PartialOrd, Ord, Hash)]
pub struct Point(pub u32);

/// A way from one point to the next; out of a test `branch` says whether it held.
#[derive(Clone, Copy, Debug, PartialEq, Eq)]
pub struct Edge {
    pub from: Point,
    pub to: Point,
    pub branch: Option<bool>,
}
