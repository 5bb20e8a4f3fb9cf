// Expressions by `||` and `&&`, and lists of expressions.
use crate::comparison::Equality;
use life_types::Place;

/// `both { "||" both }` (ISO/IEC 14882:2017 [expr.log.or]). The operators group to the left.
#[cycle(expr)]
pub struct Expr {
    /// The first operand.
    pub first: LogicalAnd,
    /// The others.
    pub more: Vec<OrPart>,
}

// By hand, so that letting one go is a call, and not a walk over its parts in each crate.
impl Drop for Expr {
    #[cycle(expr)]
    fn drop(self) {
        let Expr {
            first: _first,
            more: _more,
        } = self;
    }
}

/// An operand with the `||` before it.
#[cycle(expr)]
#[derive(Drop)]
pub struct OrPart {
    /// The `||`.
    pub place: Place,
    /// The operand.
    pub operand: LogicalAnd,
}

/// `equal { "&&" equal }` ([expr.log.and]).
#[cycle(expr)]
#[derive(Drop)]
pub struct LogicalAnd {
    /// The first operand.
    pub first: Equality,
    /// The others.
    pub more: Vec<AndPart>,
}

/// An operand with the `&&` before it.
#[cycle(expr)]
#[derive(Drop)]
pub struct AndPart {
    /// The `&&`.
    pub place: Place,
    /// The operand.
    pub operand: Equality,
}

/// `"(" [ expr { "," expr } ] ")"`, the arguments of a call ([expr.call]).
#[cycle(expr)]
#[derive(Drop)]
pub struct Arguments {
    /// The `(`.
    pub opening: Place,
    /// The arguments in their order.
    pub list: Vec<Expr>,
    /// The commas between them.
    pub commas: Vec<Place>,
    /// The `)`.
    pub closing: Place,
}

/// `"{" [ expr { "," expr } ] "}"`, a list that initializes ([dcl.init.list]).
#[cycle(expr)]
#[derive(Drop)]
pub struct InitList {
    /// The `{`.
    pub opening: Place,
    /// The elements in their order.
    pub list: Vec<Expr>,
    /// The commas between them.
    pub commas: Vec<Place>,
    /// The `}`.
    pub closing: Place,
}
