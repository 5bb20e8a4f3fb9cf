// Statements with the types of what stands in them.
use crate::delimiters::Delimiters;
use crate::typed_expr::TypedExpr;
use life_tree::{CompoundOperator, Identifier, StepOperator};
use life_types::Place;

/// Elements in braces.
#[derive(Drop)]
pub struct TypedList {
    /// The `{`.
    pub opening: Place,
    /// The elements in their order.
    pub elements: Vec<TypedExpr>,
    /// The commas behind them, and the `}`.
    pub delimiters: Box<Delimiters>,
}

/// What a variable or a target is given.
#[derive(Drop)]
pub enum TypedInitial {
    /// The value of an expression.
    Expr(TypedExpr),
    /// Elements of a vector, or members of a struct.
    List(TypedList),
}

/// A declaration of a variable.
#[derive(Drop)]
pub struct TypedDeclaration {
    /// Its number in its function.
    pub local: u32,
    /// Its name, and where it stands.
    pub name: Identifier,
    /// What it is given, if anything.
    pub value: Option<TypedInitial>,
}

/// An assignment, a step or a call.
#[derive(Drop)]
pub enum TypedSimple {
    /// `target = value`.
    Assign {
        target: TypedExpr,
        equals: Place,
        value: TypedInitial,
    },
    /// `target op= value`.
    Compound {
        target: TypedExpr,
        operator: CompoundOperator,
        place: Place,
        value: TypedExpr,
    },
    /// `++` or `--`, before or behind.
    Step {
        target: TypedExpr,
        operator: StepOperator,
        place: Place,
    },
    /// A call whose answer is thrown away.
    Call(TypedExpr),
}

/// What a loop by `for` does first.
#[derive(Drop)]
pub enum TypedForStart {
    /// A variable of the loop's own.
    Declaration(TypedDeclaration),
    /// An assignment, a step or a call.
    Simple(TypedSimple),
}

/// The three parts of a `for`, each of which may be left out.
#[derive(Drop)]
pub struct TypedForHead {
    /// What is done first.
    pub start: Option<TypedForStart>,
    /// The `;` behind it.
    pub first_semicolon: Place,
    /// What holds for one more turn.
    pub condition: Option<TypedExpr>,
    /// The `;` behind it.
    pub second_semicolon: Place,
    /// What is done behind each turn.
    pub step: Option<TypedSimple>,
}

/// A printed item.
#[derive(Drop)]
pub enum TypedItem {
    /// A value, a string, a view or a string literal.
    Value(TypedExpr),
    /// `std::endl`, and where the word stands.
    EndLine(Place),
}

/// A statement.
#[cycle(typed_stmt)]
#[derive(Drop)]
pub enum TypedStmt {
    /// Statements in braces.
    Block(TypedBlock),
    /// A `;` alone, by its place.
    Empty(Place),
    /// An assignment, a step or a call.
    Simple {
        simple: TypedSimple,
        semicolon: Place,
    },
    /// An `if` with all its branches.
    If {
        branches: Vec<TypedBranch>,
        /// What stands behind the last `else`.
        last: Option<Box<TypedStmt>>,
    },
    /// A `while`.
    While {
        keyword: Place,
        condition: TypedExpr,
        closing: Place,
        body: Box<TypedStmt>,
    },
    /// A `for`.
    For {
        keyword: Place,
        /// What stands in its parentheses. It lies in a box, as it is larger than any other statement.
        head: Box<TypedForHead>,
        closing: Place,
        body: Box<TypedStmt>,
    },
    /// A `for` over a range.
    RangeFor {
        keyword: Place,
        /// The variable's number in its function.
        local: u32,
        name: Identifier,
        colon: Place,
        range: TypedExpr,
        closing: Place,
        body: Box<TypedStmt>,
    },
    /// A `break`.
    Break {
        keyword: Place,
        semicolon: Place,
    },
    /// A `continue`.
    Continue {
        keyword: Place,
        semicolon: Place,
    },
    /// A `return`, with its value where the function has one.
    Return {
        keyword: Place,
        value: Option<TypedExpr>,
        semicolon: Place,
    },
    /// `std::cout << ..`.
    Print {
        items: Vec<TypedItem>,
        semicolon: Place,
    },
    /// `assert(..)`, by the place of its word.
    Assert {
        keyword: Place,
        condition: TypedExpr,
        closing: Place,
        semicolon: Place,
    },
}

/// A branch: what is done where its condition holds.
#[cycle(typed_stmt)]
#[derive(Drop)]
pub struct TypedBranch {
    /// Its `if`.
    pub keyword: Place,
    /// Its condition.
    pub condition: TypedExpr,
    /// The `)` behind the condition.
    pub closing: Place,
    /// What is done where it holds.
    pub body: Box<TypedStmt>,
}

/// A block.
#[cycle(typed_stmt)]
pub struct TypedBlock {
    /// What stands in it, in its order.
    pub items: Vec<TypedBlockItem>,
    /// The `}`.
    pub closing: Place,
}

// By hand, so that letting one go is a call, and not a walk over its parts in each crate.
impl Drop for TypedBlock {
    #[cycle(typed_stmt)]
    fn drop(self) {
        let TypedBlock {
            items: _items,
            closing: _,
        } = self;
    }
}

/// What stands in a block.
#[cycle(typed_stmt)]
#[derive(Drop)]
pub enum TypedBlockItem {
    /// A declaration of a variable.
    Declare {
        declaration: TypedDeclaration,
        semicolon: Place,
    },
    /// Any other statement.
    Stmt(TypedStmt),
}
