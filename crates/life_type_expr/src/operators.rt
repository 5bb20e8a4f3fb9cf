// The operators between operands.
ghost use Rattle.std.specs.Prelude.{◌≡◌};
ghost use Rattle.life_type_expr.specs.Expressions as spec;

use life_tree::{AdditiveOperator, EqualityOperator, MultiplicativeOperator, RelationalOperator};
use life_typed::BinaryOperator;

pub(crate) fn additive_operator(operator: AdditiveOperator) -> BinaryOperator
    ensures { result ≡ spec.additive_operator operator }
{
    match operator {
        AdditiveOperator::Add => BinaryOperator::Add,
        AdditiveOperator::Subtract => BinaryOperator::Subtract,
    }
}

pub(crate) fn multiplicative_operator(operator: MultiplicativeOperator) -> BinaryOperator
    ensures { result ≡ spec.multiplicative_operator operator }
{
    match operator {
        MultiplicativeOperator::Multiply => BinaryOperator::Multiply,
        MultiplicativeOperator::Divide => BinaryOperator::Divide,
        MultiplicativeOperator::Remainder => BinaryOperator::Remainder,
    }
}

pub(crate) fn equality_operator(operator: EqualityOperator) -> BinaryOperator
    ensures { result ≡ spec.equality_operator operator }
{
    match operator {
        EqualityOperator::Equal => BinaryOperator::Equal,
        EqualityOperator::NotEqual => BinaryOperator::NotEqual,
    }
}

pub(crate) fn relational_operator(operator: RelationalOperator) -> BinaryOperator
    ensures { result ≡ spec.relational_operator operator }
{
    match operator {
        RelationalOperator::Less => BinaryOperator::Less,
        RelationalOperator::LessEqual => BinaryOperator::LessEqual,
        RelationalOperator::Greater => BinaryOperator::Greater,
        RelationalOperator::GreaterEqual => BinaryOperator::GreaterEqual,
    }
}
