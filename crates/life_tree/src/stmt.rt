// Statements.
use crate::arithmetic::Additive;
use crate::declaration::{Declaration, DeclaredType};
use crate::expr::Expr;
use crate::identifier::{Identifier, Qualified};
use crate::simple::Simple;
use life_types::Place;

/// A statement (ISO/IEC 14882:2017 [stmt.stmt]).
#[cycle(stmt)]
#[derive(Drop)]
pub enum Stmt {
    /// An `if` with all its branches.
    If(Box<If>),
    /// Any other.
    Plain(PlainStmt),
}

/// A statement other than an `if`.
#[cycle(stmt)]
#[derive(Drop)]
pub enum PlainStmt {
    /// A block.
    Block(Block),
    /// `;`.
    Empty(Place),
    /// An assignment, a step or a call, and `;`.
    Simple {
        simple: Box<Simple>,
        semicolon: Place,
    },
    /// `"while" "(" expr ")" stmt` ([stmt.while]).
    While {
        keyword: Place,
        opening: Place,
        condition: Box<Expr>,
        closing: Place,
        body: Box<Stmt>,
    },
    /// A loop by `for` ([stmt.for]).
    For(Box<For>),
    /// A loop over a range ([stmt.ranged]).
    RangeFor(Box<RangeFor>),
    /// `"break" ";"` ([stmt.break]).
    Break {
        keyword: Place,
        semicolon: Place,
    },
    /// `"continue" ";"` ([stmt.cont]).
    Continue {
        keyword: Place,
        semicolon: Place,
    },
    /// `"return" [ expr ] ";"` ([stmt.return]).
    Return {
        keyword: Place,
        value: Option<Box<Expr>>,
        semicolon: Place,
    },
    /// `std::cout`, items with `<<` before each, at least one, and `;`.
    Print {
        name: Qualified,
        parts: Vec<PrintPart>,
        semicolon: Place,
    },
    /// `"assert" "(" expr ")" ";"`.
    Assert {
        keyword: Place,
        opening: Place,
        condition: Box<Expr>,
        closing: Place,
        semicolon: Place,
    },
}

/// `"{" { decl ";" | stmt } "}"` ([stmt.block]).
#[cycle(stmt)]
pub struct Block {
    /// The `{`.
    pub opening: Place,
    /// What stands in it.
    pub items: Vec<BlockItem>,
    /// The `}`.
    pub closing: Place,
}

// By hand, so that letting one go is a call, and not a walk over its parts in each crate.
impl Drop for Block {
    #[cycle(stmt)]
    fn drop(self) {
        let Block {
            opening: _,
            items: _items,
            closing: _,
        } = self;
    }
}

/// What stands in a block: declarations stand nowhere else, but in the head of a `for`.
#[cycle(stmt)]
#[derive(Drop)]
pub enum BlockItem {
    /// A declaration and `;` ([stmt.dcl]).
    Declare {
        declaration: Box<Declaration>,
        semicolon: Place,
    },
    /// A statement.
    Stmt(Stmt),
}

/// An `if` with all its branches ([stmt.if]).
#[cycle(stmt)]
#[derive(Drop)]
pub struct If {
    /// The first branch.
    pub first: Branch,
    /// Those behind `else if`.
    pub more: Vec<ElseIf>,
    /// What stands behind the last `else`.
    pub last: Option<Else>,
}

/// `"if" "(" expr ")" stmt`.
#[cycle(stmt)]
#[derive(Drop)]
pub struct Branch {
    /// The `if`.
    pub keyword: Place,
    /// The `(`.
    pub opening: Place,
    /// What decides.
    pub condition: Box<Expr>,
    /// The `)`.
    pub closing: Place,
    /// What is done where it holds.
    pub body: Box<Stmt>,
}

/// A branch with the `else` before it.
#[cycle(stmt)]
#[derive(Drop)]
pub struct ElseIf {
    /// The `else`.
    pub keyword: Place,
    /// The branch.
    pub branch: Branch,
}

/// The last `else`: what stands behind it is no `if`, which would be a branch more.
#[cycle(stmt)]
#[derive(Drop)]
pub struct Else {
    /// The `else`.
    pub keyword: Place,
    /// What is done where no condition holds.
    pub body: Box<PlainStmt>,
}

/// `"for" "(" [ decl | simple ] ";" [ expr ] ";" [ simple ] ")" stmt`.
#[cycle(stmt)]
#[derive(Drop)]
pub struct For {
    /// The `for`.
    pub keyword: Place,
    /// The `(`.
    pub opening: Place,
    /// What is done first.
    pub start: Option<ForStart>,
    /// The first `;`.
    pub first_semicolon: Place,
    /// What decides on each turn.
    pub condition: Option<Box<Expr>>,
    /// The second `;`.
    pub second_semicolon: Place,
    /// What is done behind each turn.
    pub step: Option<Box<Simple>>,
    /// The `)`.
    pub closing: Place,
    /// What is repeated.
    pub body: Box<Stmt>,
}

/// What a `for` begins with.
#[derive(Drop)]
pub enum ForStart {
    /// A declaration.
    Declaration(Box<Declaration>),
    /// An assignment, a step or a call.
    Simple(Box<Simple>),
}

/// `"for" "(" dtype NAME ":" expr ")" stmt`.
#[cycle(stmt)]
#[derive(Drop)]
pub struct RangeFor {
    /// The `for`.
    pub keyword: Place,
    /// The `(`.
    pub opening: Place,
    /// The type of the variable.
    pub ty: DeclaredType,
    /// The variable.
    pub name: Identifier,
    /// The `:`.
    pub colon: Place,
    /// What is gone over.
    pub range: Box<Expr>,
    /// The `)`.
    pub closing: Place,
    /// What is repeated.
    pub body: Box<Stmt>,
}

/// An item that is printed, with the `<<` before it.
#[derive(Drop)]
pub struct PrintPart {
    /// The `<<`.
    pub place: Place,
    /// The item.
    pub item: PrintItem,
}

/// `sum | std::endl`.
#[derive(Drop)]
pub enum PrintItem {
    /// A value.
    Value(Additive),
    /// The end of a line.
    EndLine(Qualified),
}
