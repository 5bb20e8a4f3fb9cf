// The operators of each level.
ghost use Rattle.std.specs.Prelude.{◌≡◌};
ghost use Rattle.life_tree.specs.Views as views;

use crate::fixed;

/// `==` or `!=` (ISO/IEC 14882:2017 [expr.eq]).
#[derive(Clone, Copy)]
pub enum EqualityOperator {
    /// `==`.
    Equal,
    /// `!=`.
    NotEqual,
}

impl EqualityOperator {
    /// The number of its token.
    pub fn number(self) -> u16
        ensures { result ≡ views.equality_number self }
    {
        match self {
            EqualityOperator::Equal => fixed::EQUAL,
            EqualityOperator::NotEqual => fixed::NOT_EQUAL,
        }
    }
}

/// `<`, `<=`, `>` or `>=` ([expr.rel]).
#[derive(Clone, Copy)]
pub enum RelationalOperator {
    /// `<`.
    Less,
    /// `<=`.
    LessEqual,
    /// `>`.
    Greater,
    /// `>=`.
    GreaterEqual,
}

impl RelationalOperator {
    /// The number of its token.
    pub fn number(self) -> u16
        ensures { result ≡ views.relational_number self }
    {
        match self {
            RelationalOperator::Less => fixed::LESS,
            RelationalOperator::LessEqual => fixed::LESS_EQUAL,
            RelationalOperator::Greater => fixed::GREATER,
            RelationalOperator::GreaterEqual => fixed::GREATER_EQUAL,
        }
    }
}

/// `+` or `-` ([expr.add]).
#[derive(Clone, Copy)]
pub enum AdditiveOperator {
    /// `+`.
    Add,
    /// `-`.
    Subtract,
}

impl AdditiveOperator {
    /// The number of its token.
    pub fn number(self) -> u16
        ensures { result ≡ views.additive_number self }
    {
        match self {
            AdditiveOperator::Add => fixed::PLUS,
            AdditiveOperator::Subtract => fixed::MINUS,
        }
    }
}

/// `*`, `/` or `%` ([expr.mul]).
#[derive(Clone, Copy)]
pub enum MultiplicativeOperator {
    /// `*`.
    Multiply,
    /// `/`.
    Divide,
    /// `%`.
    Remainder,
}

impl MultiplicativeOperator {
    /// The number of its token.
    pub fn number(self) -> u16
        ensures { result ≡ views.multiplicative_number self }
    {
        match self {
            MultiplicativeOperator::Multiply => fixed::STAR,
            MultiplicativeOperator::Divide => fixed::SLASH,
            MultiplicativeOperator::Remainder => fixed::PERCENT,
        }
    }
}

/// An operator before its operand ([expr.unary.op]).
#[derive(Clone, Copy)]
pub enum PrefixOperator {
    /// `!`.
    Not,
    /// `-`.
    Negate,
    /// `*`.
    Dereference,
    /// `&`.
    AddressOf,
}

impl PrefixOperator {
    /// The number of its token.
    pub fn number(self) -> u16
        ensures { result ≡ views.prefix_number self }
    {
        match self {
            PrefixOperator::Not => fixed::NOT,
            PrefixOperator::Negate => fixed::MINUS,
            PrefixOperator::Dereference => fixed::STAR,
            PrefixOperator::AddressOf => fixed::AMPERSAND,
        }
    }
}

/// An assignment that computes ([expr.ass]).
#[derive(Clone, Copy)]
pub enum CompoundOperator {
    /// `+=`.
    Add,
    /// `-=`.
    Subtract,
    /// `*=`.
    Multiply,
    /// `/=`.
    Divide,
    /// `%=`.
    Remainder,
}

impl CompoundOperator {
    /// The number of its token.
    pub fn number(self) -> u16
        ensures { result ≡ views.compound_number self }
    {
        match self {
            CompoundOperator::Add => fixed::PLUS_ASSIGN,
            CompoundOperator::Subtract => fixed::MINUS_ASSIGN,
            CompoundOperator::Multiply => fixed::STAR_ASSIGN,
            CompoundOperator::Divide => fixed::SLASH_ASSIGN,
            CompoundOperator::Remainder => fixed::PERCENT_ASSIGN,
        }
    }
}

/// `++` or `--` ([expr.post.incr], [expr.pre.incr]).
#[derive(Clone, Copy)]
pub enum StepOperator {
    /// `++`.
    Increment,
    /// `--`.
    Decrement,
}

impl StepOperator {
    /// The number of its token.
    pub fn number(self) -> u16
        ensures { result ≡ views.step_number self }
    {
        match self {
            StepOperator::Increment => fixed::PLUS_PLUS,
            StepOperator::Decrement => fixed::MINUS_MINUS,
        }
    }
}
