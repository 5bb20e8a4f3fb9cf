// What assignments with an operator, steps, prints and loops over ranges take.
ghost use Rattle.std.specs.Prelude.{◌≡◌};
ghost use Rattle.life_typed.specs.Statements as spec;

use crate::misfit::Misfit;
use crate::operators::indexed;
use crate::strings::is_text_like;
use crate::typed_expr::ExprType;
use life_tree::CompoundOperator;
use life_types::{Ty, TyId, is_char, is_text, is_value};

/// Whether `target op= value` is one of the table (ISO/IEC 14882:2017 [expr.ass],
/// [string.op.append]), or why not: `Literal` where a string literal isn't taken, else `General`.
pub fn compounded(operator: CompoundOperator, target: Ty, value: ExprType) -> Result<(), Misfit>
    ensures { result ≡ spec.compounded operator target value }
{
    match operator {
        CompoundOperator::Add => appended(target, value),
        CompoundOperator::Subtract => counted(target, value),
        CompoundOperator::Multiply => counted(target, value),
        CompoundOperator::Divide => counted(target, value),
        CompoundOperator::Remainder => counted(target, value),
    }
}

// Two values.
fn counted(target: Ty, value: ExprType) -> Result<(), Misfit>
    ensures { result ≡ spec.counted target value }
{
    match value {
        ExprType::Of(ty) => fitting(is_value(target) && is_value(ty)),
        ExprType::NullPointer => Err(Misfit::General),
        ExprType::TextLiteral => Err(Misfit::Literal),
    }
}

fn fitting(test: bool) -> Result<(), Misfit>
    ensures { result ≡ spec.fitting_where test }
{
    if test { Ok(()) } else { Err(Misfit::General) }
}

// Two values, or a string and what is appended to it.
fn appended(target: Ty, value: ExprType) -> Result<(), Misfit>
    ensures { result ≡ spec.appended target value }
{
    if is_text(target) {
        appended_to_text(value)
    } else {
        counted(target, value)
    }
}

fn appended_to_text(value: ExprType) -> Result<(), Misfit>
    ensures { result ≡ spec.appended_to_text value }
{
    match value {
        ExprType::Of(ty) => fitting(is_text_like(ty) || is_char(ty)),
        ExprType::NullPointer => Err(Misfit::General),
        ExprType::TextLiteral => Ok(()),
    }
}

/// Whether `++` and `--` take an operand of this type ([expr.pre.incr], [expr.post.incr]): values
/// other than `bool`, and iterators.
pub fn can_step(target: Ty) -> bool
    ensures { result ≡ spec.can_step target }
{
    matches!(
        target,
        Ty::Char | Ty::Int | Ty::Long | Ty::Size | Ty::Iterator { .. }
    )
}

/// Whether `std::cout <<` takes the item ([ostream.inserters]): values, strings, views and string
/// literals.
pub fn is_printed(item: ExprType) -> bool
    ensures { result ≡ spec.is_printed item }
{
    match item {
        ExprType::Of(ty) => is_printed_type(ty),
        ExprType::NullPointer => false,
        ExprType::TextLiteral => true,
    }
}

fn is_printed_type(ty: Ty) -> bool
    ensures { result ≡ spec.is_printed_type ty }
{
    is_value(ty) || is_text_like(ty)
}

/// What a loop over a range of this type, const as a place or not, goes through ([stmt.ranged]):
/// the type of its elements and whether they are const; `None` where it is no range. It is what an
/// index gives.
pub fn range_element(range: ExprType, constant: bool) -> Option<(TyId, bool)>
    ensures { result ≡ spec.range_element range constant }
{
    indexed(range, constant)
}
