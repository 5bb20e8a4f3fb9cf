// A function's body, as its lines come.
use crate::refusal::Refusal;
use life_core::{Condition, Stmt};
use std::alloc::Global;

// What is open.
#[derive(Clone, Copy, PartialEq, Eq)]
enum Shape {
    /// The whole body.
    Whole,
    /// The statements of an `if`, and of its `else`.
    Then,
    Else,
    /// The statements of a `while`, and of its `step`.
    Turn,
    Step,
    /// The statements of a `compute`.
    Compute,
}

struct Block {
    shape: Shape,
    // The condition of an `if` or a `while`.
    condition: Option<Condition>,
    // How many conditions waited when it was opened.
    waiting: usize,
    items: Vec<Stmt>,
}

// Own drops here and below: what is let go at an early exit is then one call, and not a walk over its parts.
impl Drop for Block {
    fn drop(self) {
        let Block {
            shape: _,
            condition: _condition,
            waiting: _,
            items: _items,
        } = self;
    }
}

impl Block {
    fn into_items(self) -> Vec<Stmt> {
        let Block {
            shape: _,
            condition: _condition,
            waiting: _,
            items,
        } = self;
        items
    }

    // The branch or the loop that it is, with the statements of its `else` or its `step`.
    fn nested(self, alloc: Global, second: Vec<Stmt>) -> Result<Stmt, Refusal> {
        let Block {
            shape,
            condition,
            waiting: _,
            items,
        } = self;
        match condition {
            None => Err(Refusal::NoCondition),
            Some(condition) => {
                let first = Box::new(alloc, Stmt::List(items))?;
                let second = Box::new(alloc, Stmt::List(second))?;
                if shape == Shape::Then {
                    Ok(Stmt::Branch(condition, first, second))
                } else {
                    Ok(Stmt::Loop {
                        condition,
                        body: first,
                        step: second,
                    })
                }
            }
        }
    }
}

/// A function's body, as its lines come.
pub struct Body {
    blocks: Vec<Block>,
    conditions: Vec<Condition>,
    computed: Vec<Stmt>,
}

impl Drop for Body {
    fn drop(self) {
        let Body {
            blocks: _blocks,
            conditions: _conditions,
            computed: _computed,
        } = self;
    }
}

impl Body {
    pub fn new(alloc: Global) -> Result<Body, Refusal> {
        let mut blocks = Vec::new(alloc);
        blocks.push(Block {
            shape: Shape::Whole,
            condition: None,
            waiting: 0,
            items: Vec::new(alloc),
        })?;
        Ok(Body {
            blocks,
            conditions: Vec::new(alloc),
            computed: Vec::new(alloc),
        })
    }

    /// Adds a statement to the innermost block that is open.
    pub fn push(&mut self, stmt: Stmt) -> Result<(), Refusal> {
        match self.blocks.last_mut() {
            None => Err(Refusal::NoBlock),
            Some(block) => {
                block.items.push(stmt)?;
                Ok(())
            }
        }
    }

    /// The whole body.
    pub fn whole(mut self) -> Result<Stmt, Refusal> {
        let block = self.closed()?;
        if block.shape == Shape::Whole && self.computed.is_empty() {
            Ok(Stmt::List(block.into_items()))
        } else {
            Err(Refusal::NoBlock)
        }
    }

    // ---- conditions

    /// Adds a condition to those that wait.
    pub fn ask(&mut self, condition: Condition) -> Result<(), Refusal> {
        self.conditions.push(condition)?;
        Ok(())
    }

    // The last condition that waits.
    fn asked(&mut self) -> Result<Condition, Refusal> {
        self.conditions.pop().ok_or(Refusal::NoCondition)
    }

    /// Makes one condition of the last, or of the last two.
    pub fn combine(&mut self, alloc: Global, word: &str) -> Result<(), Refusal> {
        let last = self.asked()?;
        let made = match word {
            "not" => Condition::Not(Box::new(alloc, last)?),
            "after" => {
                let first = self.computed.pop().ok_or(Refusal::NoCondition)?;
                after(alloc, first, last)?
            }
            "and" => and(alloc, self.asked()?, last)?,
            _ => or(alloc, self.asked()?, last)?,
        };
        self.ask(made)
    }

    // ---- blocks

    /// Opens, goes on with or ends a block.
    pub fn turn(&mut self, alloc: Global, word: &str) -> Result<(), Refusal> {
        match word {
            "if" => self.open_asked(alloc, Shape::Then),
            "while" => self.open_asked(alloc, Shape::Turn),
            "compute" => self.open(alloc, Shape::Compute, None),
            "else" => self.go_on(alloc, Shape::Then, Shape::Else),
            "step" => self.go_on(alloc, Shape::Turn, Shape::Step),
            _ => self.end(alloc),
        }
    }

    fn open(
        &mut self,
        alloc: Global,
        shape: Shape,
        condition: Option<Condition>,
    ) -> Result<(), Refusal> {
        let waiting = self.conditions.len();
        self.blocks.push(Block {
            shape,
            condition,
            waiting,
            items: Vec::new(alloc),
        })?;
        Ok(())
    }

    fn open_asked(&mut self, alloc: Global, shape: Shape) -> Result<(), Refusal> {
        let condition = self.asked()?;
        if self.is_even() {
            self.open(alloc, shape, Some(condition))
        } else {
            Err(Refusal::NoCondition)
        }
    }

    fn go_on(&mut self, alloc: Global, from: Shape, to: Shape) -> Result<(), Refusal> {
        if self.is_even() && self.is_in(from) {
            self.open(alloc, to, None)
        } else {
            Err(Refusal::NoBlock)
        }
    }

    // Whether no more conditions wait than when the innermost block was opened.
    fn is_even(&self) -> bool {
        match self.blocks.last() {
            None => false,
            Some(block) => block.waiting == self.conditions.len(),
        }
    }

    fn is_in(&self, shape: Shape) -> bool {
        match self.blocks.last() {
            None => false,
            Some(block) => block.shape == shape,
        }
    }

    // The innermost block, which is closed.
    fn closed(&mut self) -> Result<Block, Refusal> {
        if self.is_even() {
            self.blocks.pop().ok_or(Refusal::NoBlock)
        } else {
            Err(Refusal::NoCondition)
        }
    }

    fn end(&mut self, alloc: Global) -> Result<(), Refusal> {
        let last = self.closed()?;
        match last.shape {
            Shape::Whole => Err(Refusal::NoBlock),
            Shape::Compute => {
                self.computed.push(Stmt::List(last.into_items()))?;
                Ok(())
            }
            Shape::Then | Shape::Turn => {
                let made = last.nested(alloc, Vec::new(alloc))?;
                self.push(made)
            }
            Shape::Else | Shape::Step => {
                let first = self.closed()?;
                let made = first.nested(alloc, last.into_items())?;
                self.push(made)
            }
        }
    }
}

fn after(alloc: Global, first: Stmt, condition: Condition) -> Result<Condition, Refusal> {
    Ok(Condition::After(Box::new(alloc, first)?, Box::new(alloc, condition)?))
}

fn and(alloc: Global, first: Condition, second: Condition) -> Result<Condition, Refusal> {
    Ok(Condition::And(Box::new(alloc, first)?, Box::new(alloc, second)?))
}

fn or(alloc: Global, first: Condition, second: Condition) -> Result<Condition, Refusal> {
    Ok(Condition::Or(Box::new(alloc, first)?, Box::new(alloc, second)?))
}
