// What a register of a value type may be given.

/// An operator between two values of one type (ISO/IEC 14882:2017 [expr.mul], [expr.add], [expr.rel],
/// [expr.eq]).
#[derive(Clone, Copy, Debug, PartialEq, Eq)]
pub enum Operator {
    Add,
    Subtract,
    Multiply,
    Divide,
    Remainder,
    Less,
    LessEqual,
    Greater,
    GreaterEqual,
    Equal,
    NotEqual,
}

/// What a register of a value type is given.
#[derive(Clone, Copy, Debug, PartialEq, Eq)]
pub enum Operation {
    /// The number of a literal.
    Number(i64),
    /// The value of the register with this number, converted to the type of the register that is
    /// written (ISO/IEC 14882:2017 [conv.integral], [conv.bool]).
    Convert(u32),
    /// Minus the value of a register ([expr.unary.op]).
    Negate(u32),
    /// Whether the value of a register is 0.
    IsZero(u32),
    /// What an operator makes of the values of two registers of one type.
    Binary {
        operator: Operator,
        left: u32,
        right: u32,
    },
}
