// Operands: prefix operators, what stands behind an operand, and what has no parts of that kind.
use crate::expr::{Arguments, Expr, InitList};
use crate::identifier::{Identifier, Qualified};
use crate::operator::PrefixOperator;
use crate::type_name::TypeArgument;
use life_types::Place;

/// `{ "!" | "-" | "*" | "&" } postfix` (ISO/IEC 14882:2017 [expr.unary.op]).
#[cycle(expr)]
#[derive(Drop)]
pub enum Unary {
    /// An operator and its operand.
    Prefix {
        operator: PrefixOperator,
        place: Place,
        operand: Box<Unary>,
    },
    /// No operator.
    Plain(Postfix),
}

/// `primary { part }` ([expr.post]). It is a call where it ends in arguments.
#[cycle(expr)]
#[derive(Drop)]
pub struct Postfix {
    /// What stands first.
    pub primary: Primary,
    /// What stands behind it, in its order.
    pub parts: Vec<PostfixPart>,
}

/// What stands behind an operand ([expr.ref], [expr.sub]).
#[cycle(expr)]
#[derive(Drop)]
pub enum PostfixPart {
    /// `"." NAME [ args ]`.
    Member {
        dot: Place,
        name: Identifier,
        arguments: Option<Arguments>,
    },
    /// `"->" NAME [ args ]`.
    Arrow {
        arrow: Place,
        name: Identifier,
        arguments: Option<Arguments>,
    },
    /// `"[" expr "]"`.
    Index {
        opening: Place,
        index: Box<Expr>,
        closing: Place,
    },
}

/// What an expression is made of in the end ([expr.prim], [expr.call], [expr.type.conv]).
#[cycle(expr)]
#[derive(Drop)]
pub enum Primary {
    /// A number.
    Number {
        value: u64,
        place: Place,
    },
    /// A character literal, by the value of its `char`.
    Char {
        value: u8,
        place: Place,
    },
    /// A string literal, by its number in the table of texts.
    Text {
        number: u32,
        place: Place,
    },
    /// `true`.
    True(Place),
    /// `false`.
    False(Place),
    /// `nullptr`.
    Null(Place),
    /// A name alone.
    Name(Identifier),
    /// A call of a function.
    Call {
        name: Identifier,
        arguments: Arguments,
    },
    /// A struct made of a list.
    Construct {
        name: Identifier,
        list: InitList,
    },
    /// An expression in parentheses.
    Paren {
        opening: Place,
        inner: Box<Expr>,
        closing: Place,
    },
    /// `std::move(NAME)`.
    Move {
        name: Qualified,
        opening: Place,
        variable: Identifier,
        closing: Place,
    },
    /// `std::make_unique<type> args`.
    MakeUnique {
        name: Qualified,
        element: TypeArgument,
        arguments: Arguments,
    },
    /// `std::string(expr)`.
    TextOf {
        name: Qualified,
        opening: Place,
        inner: Box<Expr>,
        closing: Place,
    },
    /// `life::input()`.
    Input {
        name: Qualified,
        opening: Place,
        closing: Place,
    },
}
