// What operators make of numbers (ISO/IEC 14882:2017 [expr.mul], [expr.add], [expr.rel], [expr.eq]).
ghost use Rattle.std.specs.Prelude.{◌≡◌, neg_ℤ, ◌+ℤ◌, ◌-ℤ◌, ◌*ℤ◌};
ghost use Rattle.life_store.specs.Numbers as spec;

use life_core::Operator;
use life_store::TrapKind;
use life_types::Ty;

/// What an operator makes of two numbers of a type, each held as 64 bits with a sign: a comparison
/// gives 1 or 0.
///
/// # Errors
///
/// `Overflow` where an `int` or a `long` is out of range, `ZeroDivisor` for a division by 0.
#[inline(always)]
pub(crate) fn combined(
    ty: Option<Ty>,
    operator: Operator,
    left: i64,
    right: i64,
) -> Result<i64, TrapKind>
    ensures { result ≡ spec.combined ty operator left right }
{
    match ty {
        Some(Ty::Size) => without_sign(operator, left.cast_unsigned(), right.cast_unsigned()),
        _ => with_sign(ty, operator, left, right),
    }
}

/// Minus a number of a type.
///
/// # Errors
///
/// `Overflow` where an `int` or a `long` is out of range.
pub(crate) fn negated(ty: Option<Ty>, value: i64) -> Result<i64, TrapKind>
    ensures { result ≡ spec.negated ty value }
{
    match ty {
        Some(Ty::Size) => without_sign(Operator::Subtract, 0, value.cast_unsigned()),
        _ => match value.checked_neg() {
            Some(negated) => in_range(ty, negated),
            None => Err(TrapKind::Overflow),
        },
    }
}

/// 1 where the number is 0, else 0.
pub(crate) fn zero_test(value: i64) -> Result<i64, TrapKind>
    ensures { result ≡ spec.truth (spec.is_zero value) }
{
    Ok(truth(is_zero(value)))
}

// Numbers with a sign.
#[inline(always)]
fn with_sign(ty: Option<Ty>, operator: Operator, left: i64, right: i64) -> Result<i64, TrapKind>
    ensures { result ≡ spec.with_sign ty operator left right }
{
    match operator {
        Operator::Add => sum(ty, left, right),
        Operator::Subtract => difference(ty, left, right),
        Operator::Multiply => product(ty, left, right),
        Operator::Divide => quotient(ty, left, right),
        Operator::Remainder => remainder(ty, left, right),
        Operator::Less => Ok(truth(left < right)),
        Operator::LessEqual => Ok(truth(left <= right)),
        Operator::Greater => Ok(truth(right < left)),
        Operator::GreaterEqual => Ok(truth(right <= left)),
        Operator::Equal => Ok(truth(left <= right && right <= left)),
        Operator::NotEqual => Ok(truth(!(left <= right && right <= left))),
    }
}

// 1 for what holds, else 0.
#[inline(always)]
fn truth(holds: bool) -> i64
    ensures { Ok result ≡ spec.truth holds }
{
    if holds { 1 } else { 0 }
}

// The number, if the type has it.
#[inline(always)]
fn in_range(ty: Option<Ty>, value: i64) -> Result<i64, TrapKind>
    ensures { result ≡ spec.checked ty value }
{
    match ty {
        Some(Ty::Int) => {
            if -(1 << 31) <= value && value < 1 << 31 {
                Ok(value)
            } else {
                Err(TrapKind::Overflow)
            }
        }
        _ => Ok(value),
    }
}

#[inline(always)]
fn sum(ty: Option<Ty>, left: i64, right: i64) -> Result<i64, TrapKind>
    ensures { result ≡ spec.checked ty (left +ℤ right) }
{
    match left.checked_add(right) {
        Some(value) => in_range(ty, value),
        None => Err(TrapKind::Overflow),
    }
}

#[inline(always)]
fn difference(ty: Option<Ty>, left: i64, right: i64) -> Result<i64, TrapKind>
    ensures { result ≡ spec.checked ty (left -ℤ right) }
{
    match left.checked_sub(right) {
        Some(value) => in_range(ty, value),
        None => Err(TrapKind::Overflow),
    }
}

#[inline(always)]
fn product(ty: Option<Ty>, left: i64, right: i64) -> Result<i64, TrapKind>
    ensures { result ≡ spec.checked ty (left *ℤ right) }
{
    match left.checked_mul(right) {
        Some(value) => in_range(ty, value),
        None => Err(TrapKind::Overflow),
    }
}

#[inline(always)]
fn quotient(ty: Option<Ty>, left: i64, right: i64) -> Result<i64, TrapKind>
    ensures { result ≡ spec.quotient ty left right }
{
    if is_zero(right) {
        return Err(TrapKind::ZeroDivisor);
    }
    match left.checked_div(right) {
        Some(value) => in_range(ty, value),
        None => Err(TrapKind::Overflow),
    }
}

#[inline(always)]
fn remainder(ty: Option<Ty>, left: i64, right: i64) -> Result<i64, TrapKind>
    ensures { result ≡ spec.remainder ty left right }
{
    quotient(ty, left, right)?;
    match left.checked_rem(right) {
        Some(value) => Ok(value),
        None => Err(TrapKind::Overflow),
    }
}

// Whether it is 0.
#[inline(always)]
fn is_zero(value: i64) -> bool
    ensures { result ≡ spec.is_zero value }
{
    value <= 0 && 0 <= value
}

// Numbers without a sign.
#[inline(always)]
fn without_sign(operator: Operator, left: u64, right: u64) -> Result<i64, TrapKind>
    ensures { result ≡ spec.without_sign operator left right }
{
    match operator {
        Operator::Add => Ok(left.wrapping_add(right).cast_signed()),
        Operator::Subtract => Ok(left.wrapping_sub(right).cast_signed()),
        Operator::Multiply => Ok(left.wrapping_mul(right).cast_signed()),
        Operator::Divide => match left.checked_div(right) {
            Some(value) => Ok(value.cast_signed()),
            None => Err(TrapKind::ZeroDivisor),
        },
        Operator::Remainder => match left.checked_rem(right) {
            Some(value) => Ok(value.cast_signed()),
            None => Err(TrapKind::ZeroDivisor),
        },
        Operator::Less => Ok(truth(left < right)),
        Operator::LessEqual => Ok(truth(left <= right)),
        Operator::Greater => Ok(truth(right < left)),
        Operator::GreaterEqual => Ok(truth(right <= left)),
        Operator::Equal => Ok(truth(left == right)),
        Operator::NotEqual => Ok(truth(left != right)),
    }
}
