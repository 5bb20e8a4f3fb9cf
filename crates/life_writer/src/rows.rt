// What an operator between two operands does: a row for each case, by the operator and the types of
// the operands (ISO/IEC 14882:2017 [expr]).
ghost use Rattle.std.specs.Prelude.{◌≡◌, true, false};
ghost use Rattle.life_writer.specs.Parts.{part_form, part_view};
ghost use Rattle.life_typed.specs.TypedForm.{whole};
ghost use Rattle.life_writer.specs.Around.{operand_type};
ghost use Rattle.life_writer.specs.Rows as spec;
ghost use Rattle.life_writer.specs.declared.rows.Row.TheVariants.{IsNull, NotNull};
ghost use Rattle.life_core.specs.declared.operation.Operator.TheVariants.{Equal, NotEqual};

use crate::around::own_type;
use crate::parts::Part;
use life_core::{Direction, Operator};
use life_typed::{BinaryOperator, ExprType, promoted};
use life_types::{Ty, is_iterator, is_value};

/// Where an operand stands.
#[derive(Clone, Copy)]
pub enum Side {
    Left,
    Right,
}

/// How two conditions are joined.
#[derive(Clone, Copy)]
pub enum Join {
    /// Both hold.
    Both,
    /// One of them holds.
    Either,
}

/// What an operator between two operands does.
#[derive(Clone, Copy)]
pub enum Row {
    /// Both are brought to a type, with the operator between them (ISO/IEC 14882:2017 [expr.mul],
    /// [expr.add], [expr.rel], [expr.eq]).
    Computed { operator: Operator, common: Ty },
    /// Two conditions are joined ([expr.log.and], [expr.log.or]).
    Joined(Join),
    /// The pointer on this side, which stands beside nullptr, is null ..
    IsNull(Side),
    /// .. or isn't.
    NotNull(Side),
    /// Two texts become one ([string.op+]).
    Concatenated,
    /// An iterator is moved ([random.access.iterators]).
    Advanced(Direction),
    /// Two iterators, or two texts, are compared ([string.operator==], [string.view.comparison]).
    Compared { equal: bool },
}

// Where the operand stands that is compared with nullptr, if one is.
fn beside_null(left: ExprType, right: ExprType) -> Option<Side>
    ensures { result ≡ spec.beside_null left right }
{
    match left {
        ExprType::NullPointer => Some(Side::Right),
        _ => match right {
            ExprType::NullPointer => Some(Side::Left),
            _ => None,
        },
    }
}

// The type in which two operands are computed.
fn common(left: ExprType, right: ExprType) -> Ty
    ensures { result ≡ spec.common left right }
{
    promoted(own_type(left), own_type(right))
}

// Two values are compared as numbers.
fn compared(operator: Operator, equal: bool, left: ExprType, right: ExprType) -> Row
    ensures { result ≡ spec.compared operator equal left right }
{
    if is_value(own_type(left)) {
        let common = common(left, right);
        Row::Computed { operator, common }
    } else {
        Row::Compared { equal }
    }
}

// Whether two operands are equal.
fn equated(left: ExprType, right: ExprType) -> Row
    ensures { result ≡ spec.unless_null (spec.beside_null left right) IsNull (spec.compared Equal true left right) }
{
    match beside_null(left, right) {
        Some(side) => Row::IsNull(side),
        None => compared(Operator::Equal, true, left, right),
    }
}

// Whether they differ.
fn distinguished(left: ExprType, right: ExprType) -> Row
    ensures { result ≡ spec.unless_null (spec.beside_null left right) NotNull (spec.compared NotEqual false left right) }
{
    match beside_null(left, right) {
        Some(side) => Row::NotNull(side),
        None => compared(Operator::NotEqual, false, left, right),
    }
}

// A sum of two values, or of two texts; the left operand alone may be an iterator.
fn added(left: ExprType, right: ExprType) -> Row
    ensures { result ≡ spec.added left right }
{
    if is_iterator(own_type(left)) {
        Row::Advanced(Direction::Forward)
    } else if is_value(own_type(left)) && is_value(own_type(right)) {
        Row::Computed {
            operator: Operator::Add,
            common: common(left, right),
        }
    } else {
        Row::Concatenated
    }
}

fn subtracted(left: ExprType, right: ExprType) -> Row
    ensures { result ≡ spec.subtracted left right }
{
    if is_iterator(own_type(left)) {
        Row::Advanced(Direction::Backward)
    } else {
        Row::Computed {
            operator: Operator::Subtract,
            common: common(left, right),
        }
    }
}

/// The row of an operator.
pub(crate) fn row_of(operator: BinaryOperator, left: ExprType, right: ExprType) -> Row
    ensures { result ≡ spec.row_of operator left right }
{
    let operator = match operator {
        BinaryOperator::Or => return Row::Joined(Join::Either),
        BinaryOperator::And => return Row::Joined(Join::Both),
        BinaryOperator::Equal => return equated(left, right),
        BinaryOperator::NotEqual => return distinguished(left, right),
        BinaryOperator::Add => return added(left, right),
        BinaryOperator::Subtract => return subtracted(left, right),
        BinaryOperator::Less => Operator::Less,
        BinaryOperator::LessEqual => Operator::LessEqual,
        BinaryOperator::Greater => Operator::Greater,
        BinaryOperator::GreaterEqual => Operator::GreaterEqual,
        BinaryOperator::Multiply => Operator::Multiply,
        BinaryOperator::Divide => Operator::Divide,
        BinaryOperator::Remainder => Operator::Remainder,
    };
    let common = common(left, right);
    Row::Computed { operator, common }
}

// The type of an operand, if it is there.
fn type_in(operand: Option<Part<'_>>) -> ExprType
    ensures { result ≡ operand_type (part_form operand.entry) }
{
    match operand {
        Some(part) => part.ty,
        None => ExprType::NullPointer,
    }
}

/// The row of an operator between two operands.
pub(crate) fn row_between(operator: BinaryOperator, left: Option<Part<'_>>, right: Part<'_>) -> Row
    ensures { result ≡ spec.row_between operator (part_form left.entry) (whole (part_view right.entry)) }
{
    row_of(operator, type_in(left), right.ty)
}
