// Expressions by comparisons.
use crate::arithmetic::Additive;
use crate::operator::{EqualityOperator, RelationalOperator};
use life_types::Place;

/// `order { ( "==" | "!=" ) order }` (ISO/IEC 14882:2017 [expr.eq]).
#[cycle(expr)]
#[derive(Drop)]
pub struct Equality {
    /// The first operand.
    pub first: Relational,
    /// The others.
    pub more: Vec<EqualityPart>,
}

/// An operand with the operator before it.
#[cycle(expr)]
#[derive(Drop)]
pub struct EqualityPart {
    /// Which operator.
    pub operator: EqualityOperator,
    /// Where it stands.
    pub place: Place,
    /// The operand.
    pub operand: Relational,
}

/// `sum { ( "<" | "<=" | ">" | ">=" ) sum }` ([expr.rel]).
#[cycle(expr)]
#[derive(Drop)]
pub struct Relational {
    /// The first operand.
    pub first: Additive,
    /// The others.
    pub more: Vec<RelationalPart>,
}

/// An operand with the operator before it.
#[cycle(expr)]
#[derive(Drop)]
pub struct RelationalPart {
    /// Which operator.
    pub operator: RelationalOperator,
    /// Where it stands.
    pub place: Place,
    /// The operand.
    pub operand: Additive,
}
