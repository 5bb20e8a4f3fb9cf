// Assignments, steps and calls as statements (ISO/IEC 14882:2017 [expr.ass], [expr.pre.incr],
// [expr.post.incr]).
ghost use Rattle.std.specs.Prelude.{◌≡◌};
ghost use Rattle.life_typed.specs.TypedForm.{form_view, typed_view, Form};
ghost use Rattle.life_typed.specs.TypedStatement.{initial_view, optional_view, simple_view};
ghost use Rattle.life_names.specs.Checked.{Gives};
ghost use Rattle.life_names.specs.Found.{Finds};
ghost use Rattle.life_type_stmt.specs.Simples as spec;

use crate::conditions::unless;
use crate::given::{given_value, initial_fault, misfit_of};
use life_names::{Environment, IllFault, IllKind, allowed};
use life_tree::{CompoundOperator, Expr, InitialValue, Postfix, Simple, StepOperator, Target};
use life_type_expr::{
    const_or, copied_fault, expr, is_constant, literal_allowed, lower_kind, place_target, postfix,
};
use life_typed::{
    Category, ExprForm, ExprType, Misfit, TypedExpr, TypedInitial, TypedSimple, can_step,
    compounded,
};
use life_types::{Place, Ty, TypeTable};
use std::alloc::Global;

/// What is assigned to or stepped: no string literal.
fn target(
    alloc: Global,
    environment: &Environment<'_>,
    types: &mut TypeTable,
    target: &Target,
) -> Result<TypedExpr, IllFault>
    ensures { Gives typed_view types.new result (spec.target target.now environment.now types.old) }
{
    let found = place_target(alloc, environment, types, target)?;
    literal_allowed(false, &found)?;
    Ok(found)
}

/// An operand that stands alone: no string literal.
fn operand(
    alloc: Global,
    environment: &Environment<'_>,
    types: &mut TypeTable,
    operand: &Postfix,
) -> Result<TypedExpr, IllFault>
    ensures { Gives typed_view types.new result (spec.operand operand.now environment.now types.old) }
{
    let found = postfix(alloc, environment, types, operand)?;
    literal_allowed(false, &found)?;
    Ok(found)
}

fn is_owner(ty: Ty) -> bool
    ensures { result ≡ spec.is_owner ty }
{
    match ty {
        Ty::Text => true,
        Ty::Vector(_) => true,
        Ty::Unique(_) => true,
        _ => false,
    }
}

/// An owner that is a value becomes a temporary, which is a place.
fn is_place(ty: ExprType, category: Category) -> bool
    ensures { result ≡ spec.is_place ty category }
{
    match category {
        Category::Place { .. } => true,
        Category::Value => match ty {
            ExprType::Of(ty) => is_owner(ty),
            ExprType::NullPointer => false,
            ExprType::TextLiteral => false,
        },
    }
}

/// The type that something is given to.
fn type_of(ty: ExprType) -> Ty
    ensures { result ≡ spec.type_of ty }
{
    match ty {
        ExprType::Of(ty) => ty,
        ExprType::NullPointer => Ty::Void,
        ExprType::TextLiteral => Ty::Void,
    }
}

/// A whole struct is assigned by a copy.
fn whole_fault(types: &TypeTable, category: Category) -> Option<IllKind>
    ensures { result ≡ spec.whole_fault types.now category }
{
    match category {
        Category::Value => None,
        Category::Place { ty, .. } => copied_fault(types, ty),
    }
}

/// The variable that a form names, where that is named of the operand to which it is applied.
fn named_by(form: &ExprForm, operand: Option<u32>) -> Option<u32>
    ensures { (f : Form) → spec.named_in f ≡ operand → result ≡ spec.named_in (form_view form.now f) }
{
    match form {
        ExprForm::Local(number) => Some(*number),
        ExprForm::Paren { .. } => operand,
        _ => None,
    }
}

/// The variable that an expression names, also in parentheses.
pub(crate) fn named_in(expression: &TypedExpr) -> Option<u32>
    ensures { result ≡ spec.named_in (typed_view expression.now).form }
{
    let mut named = None;
    'operands: for operand in &expression.within {
        named = named_by(&operand.form, named);
    }
    named_by(&expression.form, named)
}

/// The variable that a form moves from, where that is moved from in the operand to which it is applied.
fn moved_by(form: &ExprForm, operand: Option<u32>) -> Option<u32>
    ensures { (f : Form) → spec.moved_in f ≡ operand → result ≡ spec.moved_in (form_view form.now f) }
{
    match form {
        ExprForm::Move(number) => Some(*number),
        ExprForm::Paren { .. } => operand,
        ExprForm::TextOf { .. } => operand,
        _ => None,
    }
}

/// The variable that an expression moves from, also in parentheses, or where a string is made of what is
/// moved: that is the string which is moved.
fn moved_in(expression: &TypedExpr) -> Option<u32>
    ensures { result ≡ spec.moved_in (typed_view expression.now).form }
{
    let mut moved = None;
    'operands: for operand in &expression.within {
        moved = moved_by(&operand.form, moved);
    }
    moved_by(&expression.form, moved)
}

/// Nothing is moved onto itself.
fn onto_itself(named: Option<u32>, moved: Option<u32>) -> Option<IllKind>
    ensures { result ≡ spec.onto_itself named moved }
{
    match (named, moved) {
        (Some(named), Some(moved)) => {
            if named == moved {
                Some(IllKind::Unsupported)
            } else {
                None
            }
        }
        (Some(_), None) => None,
        (None, _) => None,
    }
}

fn self_fault(target: &TypedExpr, value: &TypedInitial) -> Option<IllKind>
    ensures { result ≡ spec.self_fault (typed_view target.now).form (initial_view value.now) }
{
    match value {
        TypedInitial::Expr(value) => onto_itself(named_in(target), moved_in(value)),
        TypedInitial::List(_) => None,
    }
}

/// The rule that an assignment breaks at its `=`; the lowest number of several.
#[tactic(auto, using(life_names::proofs::Views::views))]
fn assignment_fault(types: &TypeTable, target: &TypedExpr, value: &TypedInitial) -> Option<IllKind>
    ensures { result ≡ spec.assignment_fault types.now (typed_view target.now) (initial_view value.now) }
{
    let ty = type_of(target.ty);
    let of_const = const_or(is_constant(target.category), self_fault(target, value));
    let of_value = lower_kind(
        initial_fault(IllKind::NotAssignable, types, ty, value),
        of_const,
    );
    let of_whole = lower_kind(whole_fault(types, target.category), of_value);
    let place = is_place(target.ty, target.category);
    lower_kind(unless(place, IllKind::NotAssignable), of_whole)
}

#[tactic(auto, using(life_names::proofs::Views::views))]
fn assignment(
    alloc: Global,
    environment: &Environment<'_>,
    types: &mut TypeTable,
    assigned: &Target,
    equals: Place,
    value: &InitialValue,
) -> Result<TypedSimple, IllFault>
    ensures { Gives simple_view types.new result (spec.assignment assigned.now equals value.now environment.now types.old) }
{
    let target = target(alloc, environment, types, assigned)?;
    let value = given_value(alloc, environment, types, type_of(target.ty), value)?;
    allowed(assignment_fault(types, &target, &value), equals)?;
    Ok(TypedSimple::Assign {
        target,
        equals,
        value,
    })
}

#[tactic(auto, using(life_names::proofs::Views::views))]
fn compound_fault(fit: Result<(), Misfit>, target: &TypedExpr) -> Option<IllKind>
    ensures { result ≡ spec.compound_fault fit (typed_view target.now) }
{
    let constant = const_or(is_constant(target.category), None);
    let of_operands = lower_kind(misfit_of(IllKind::WrongType, fit), constant);
    let place = is_place(target.ty, target.category);
    lower_kind(unless(place, IllKind::WrongType), of_operands)
}

/// `+=` and its kind.
#[tactic(auto, using(life_names::proofs::Views::views))]
fn compound(
    alloc: Global,
    environment: &Environment<'_>,
    types: &mut TypeTable,
    changed: &Target,
    operator: CompoundOperator,
    place: Place,
    value: &Expr,
) -> Result<TypedSimple, IllFault>
    ensures { Gives simple_view types.new result (spec.compound changed.now operator place value.now environment.now types.old) }
{
    let target = target(alloc, environment, types, changed)?;
    let value = expr(alloc, environment, types, value)?;
    let fit = compounded(operator, type_of(target.ty), value.ty);
    literal_allowed(fit.is_ok(), &value)?;
    allowed(compound_fault(fit, &target), place)?;
    Ok(TypedSimple::Compound {
        target,
        operator,
        place,
        value,
    })
}

#[tactic(auto, using(life_names::proofs::Views::views))]
fn step_fault(target: &TypedExpr) -> Option<IllKind>
    ensures { result ≡ spec.step_fault (typed_view target.now) }
{
    let serves = is_place(target.ty, target.category) && can_step(type_of(target.ty));
    lower_kind(
        unless(serves, IllKind::WrongType),
        const_or(is_constant(target.category), None),
    )
}

/// `++` or `--`.
fn stepped(operator: StepOperator, place: Place, target: TypedExpr) -> Result<TypedSimple, IllFault>
    ensures { Finds simple_view result (spec.stepped operator place (typed_view target)) }
{
    allowed(step_fault(&target), place)?;
    Ok(TypedSimple::Step {
        target,
        operator,
        place,
    })
}

/// `++` or `--` before its operand.
fn prefix_step(
    alloc: Global,
    environment: &Environment<'_>,
    types: &mut TypeTable,
    operator: StepOperator,
    place: Place,
    changed: &Target,
) -> Result<TypedSimple, IllFault>
    ensures { Gives simple_view types.new result (spec.prefix_step operator place changed.now environment.now types.old) }
{
    let changed = target(alloc, environment, types, changed)?;
    let step = stepped(operator, place, changed)?;
    Ok(step)
}

/// `++` or `--` behind its operand.
fn postfix_step(
    alloc: Global,
    environment: &Environment<'_>,
    types: &mut TypeTable,
    changed: &Postfix,
    operator: StepOperator,
    place: Place,
) -> Result<TypedSimple, IllFault>
    ensures { Gives simple_view types.new result (spec.postfix_step changed.now operator place environment.now types.old) }
{
    let changed = operand(alloc, environment, types, changed)?;
    let step = stepped(operator, place, changed)?;
    Ok(step)
}

/// A call whose answer nothing takes.
fn discarded(
    alloc: Global,
    environment: &Environment<'_>,
    types: &mut TypeTable,
    call: &Postfix,
) -> Result<TypedSimple, IllFault>
    ensures { Gives simple_view types.new result (spec.discarded call.now environment.now types.old) }
{
    let call = operand(alloc, environment, types, call)?;
    Ok(TypedSimple::Call(call))
}

/// An assignment, a step or a call.
pub(crate) fn simple_statement(
    alloc: Global,
    environment: &Environment<'_>,
    types: &mut TypeTable,
    simple: &Simple,
) -> Result<TypedSimple, IllFault>
    ensures { Gives simple_view types.new result (spec.simple_statement simple.now environment.now types.old) }
{
    match simple {
        Simple::Assign {
            target,
            equals,
            value,
        } => assignment(alloc, environment, types, target, *equals, value),
        Simple::Compound {
            target,
            operator,
            place,
            value,
        } => compound(alloc, environment, types, target, *operator, *place, value),
        Simple::PrefixStep {
            operator,
            place,
            target,
        } => prefix_step(alloc, environment, types, *operator, *place, target),
        Simple::PostfixStep {
            target,
            operator,
            place,
        } => postfix_step(alloc, environment, types, target, *operator, *place),
        Simple::Call(call) => discarded(alloc, environment, types, call),
    }
}

/// .. where it may be left out.
pub(crate) fn optional_simple(
    alloc: Global,
    environment: &Environment<'_>,
    types: &mut TypeTable,
    simple: &Option<Box<Simple>>,
) -> Result<Option<TypedSimple>, IllFault>
    ensures { Gives (optional_view simple_view) types.new result (spec.optional_simple simple.now environment.now types.old) }
{
    match simple {
        Some(simple) => {
            let found = simple_statement(alloc, environment, types, simple)?;
            Ok(Some(found))
        }
        None => Ok(None),
    }
}
