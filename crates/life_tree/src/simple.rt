// Assignments, steps and calls as statements.
use crate::declaration::InitialValue;
use crate::expr::Expr;
use crate::operator::{CompoundOperator, StepOperator};
use crate::primary::Postfix;
use life_types::Place;

/// `{ "*" } postfix`: what is assigned to or stepped.
#[derive(Drop)]
pub enum Target {
    /// What the operand points to.
    Dereference { star: Place, operand: Box<Target> },
    /// An operand without `*`.
    Plain(Postfix),
}

/// A statement of one expression, without its `;` (ISO/IEC 14882:2017 [stmt.expr]).
#[derive(Drop)]
pub enum Simple {
    /// `target "=" ( expr | list )` ([expr.ass]).
    Assign {
        target: Target,
        equals: Place,
        value: InitialValue,
    },
    /// `target ( "+=" | "-=" | "*=" | "/=" | "%=" ) expr`.
    Compound {
        target: Target,
        operator: CompoundOperator,
        place: Place,
        value: Box<Expr>,
    },
    /// `( "++" | "--" ) target` ([expr.pre.incr]).
    PrefixStep {
        operator: StepOperator,
        place: Place,
        target: Target,
    },
    /// `postfix ( "++" | "--" )` ([expr.post.incr]).
    PostfixStep {
        target: Postfix,
        operator: StepOperator,
        place: Place,
    },
    /// A call: an operand that ends in arguments ([expr.call]).
    Call(Postfix),
}
