// Expressions by arithmetic operators.
use crate::operator::{AdditiveOperator, MultiplicativeOperator};
use crate::primary::Unary;
use life_types::Place;

/// `term { ( "+" | "-" ) term }` (ISO/IEC 14882:2017 [expr.add]).
#[cycle(expr)]
#[derive(Drop)]
pub struct Additive {
    /// The first operand.
    pub first: Multiplicative,
    /// The others.
    pub more: Vec<AdditivePart>,
}

/// An operand with the operator before it.
#[cycle(expr)]
#[derive(Drop)]
pub struct AdditivePart {
    /// Which operator.
    pub operator: AdditiveOperator,
    /// Where it stands.
    pub place: Place,
    /// The operand.
    pub operand: Multiplicative,
}

/// `unary { ( "*" | "/" | "%" ) unary }` ([expr.mul]).
#[cycle(expr)]
#[derive(Drop)]
pub struct Multiplicative {
    /// The first operand.
    pub first: Unary,
    /// The others.
    pub more: Vec<MultiplicativePart>,
}

/// An operand with the operator before it.
#[cycle(expr)]
#[derive(Drop)]
pub struct MultiplicativePart {
    /// Which operator.
    pub operator: MultiplicativeOperator,
    /// Where it stands.
    pub place: Place,
    /// The operand.
    pub operand: Unary,
}
