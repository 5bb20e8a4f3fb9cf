// Assignments, steps and calls.
ghost use Rattle.std.specs.Prelude.{◌≡◌, OnOk, Some};
ghost use Rattle.life_core.specs.Operands.{operand_of};
ghost use Rattle.life_typed.specs.Operators.{promoted};
ghost use Rattle.life_typed.specs.TypedForm.{typed_view};
ghost use Rattle.life_typed.specs.TypedStatement.{initial_view, optional_view, simple_view};
ghost use Rattle.life_types.specs.Types.{class};
ghost use Rattle.life_writer.specs.Answers.{Answers};
ghost use Rattle.life_writer.specs.PartUses.{expression_uses};
ghost use Rattle.life_writer.specs.Uses.{own};
ghost use Rattle.life_writer.specs.Using.{temporary_of};
ghost use Rattle.life_writer.specs.Views.{around_of, state_of};
ghost use Rattle.life_elab.specs.SimpleForms as spec;
ghost use Rattle.life_elab.specs.Simples as shared;

use life_core::{Direction, Instr, Operand, Operation, Operator};
use life_tree::{CompoundOperator, StepOperator};
use life_typed::{Category, TypedExpr, TypedInitial, TypedSimple, promoted};
use life_types::{Class, NoMemory, Place, Ty, is_iterator, is_text, is_void};
use life_writer::{Around, Destination, Writer, class, copied_location, copied_operand, own_type};

// The right side, and then the place (ISO/IEC 14882:2017 [expr.ass]/1).
fn assigned(
    writer: &mut Writer,
    a: &Around,
    target: &TypedExpr,
    equals: Place,
    value: &TypedInitial,
    behind: Place,
) -> Result<(), NoMemory>
    ensures { OnOk result (state_of writer.new ≡ spec.assigned (around_of a.now) (typed_view target.now) equals (initial_view value.now) behind (state_of writer.old)) }
{
    match value {
        TypedInitial::Expr(value) => writer.assigned(a, value, target, equals, behind),
        TypedInitial::List(list) => writer.list_assigned(
            a,
            list.opening,
            &list.elements,
            &list.delimiters,
            target,
            equals,
            behind,
        ),
    }
}

// What a place holds, as a value of a type.
fn held(writer: &mut Writer, target: &TypedExpr, from: Operand, ty: Ty) -> Result<u32, NoMemory>
    ensures { Answers (λ x. x) result (shared.held (typed_view target.now) (operand_of from) ty (state_of writer.old)) (state_of writer.new) }
{
    let own = own_type(target.ty);
    let register = writer.load(None, own, target.place, from)?;
    writer.converted(own, ty, target.place, register)
}

// The operator's answer goes back to the place.
fn put_back(
    writer: &mut Writer,
    target: &TypedExpr,
    to: Operand,
    ty: Ty,
    place: Place,
    operation: Operation,
) -> Result<(), NoMemory>
    ensures { OnOk result (state_of writer.new ≡ shared.put_back (typed_view target.now) (operand_of to) ty place operation (state_of writer.old)) }
{
    let answer = writer.eval(None, ty, place, operation)?;
    let from = writer.converted(ty, own_type(target.ty), place, answer)?;
    writer.emit(place, Instr::Save { to, from })
}

// The right side, the place, what it holds, and the operator ([expr.ass]/7).
fn combined(
    writer: &mut Writer,
    a: &Around,
    target: &TypedExpr,
    operator: CompoundOperator,
    place: Place,
    value: &TypedExpr,
    behind: Place,
) -> Result<(), NoMemory>
    ensures { OnOk result (state_of writer.new ≡ spec.combined (around_of a.now) (typed_view target.now) operator place (typed_view value.now) behind (promoted (shared.type_in (typed_view target.now)) (shared.type_in (typed_view value.now))) (state_of writer.old)) }
{
    let common = promoted(own_type(target.ty), own_type(value.ty));
    let right = writer.value(a, value, behind, common, None)?;
    let to = writer.operand(a, target)?;
    let from = copied_operand(&to)?;
    let left = held(writer, target, from, common)?;
    let operation = Operation::Binary {
        operator: compound_operator(operator),
        left,
        right,
    };
    put_back(writer, target, to, common, place, operation)
}

// The place, what it holds, 1, and the operator ([expr.pre.incr], [expr.post.incr]).
fn stepped(
    writer: &mut Writer,
    a: &Around,
    target: &TypedExpr,
    operator: StepOperator,
    place: Place,
) -> Result<(), NoMemory>
    ensures { OnOk result (state_of writer.new ≡ spec.stepped (around_of a.now) (typed_view target.now) operator place (promoted (shared.type_in (typed_view target.now)) (shared.type_in (typed_view target.now))) (state_of writer.old)) }
{
    let own = own_type(target.ty);
    let common = promoted(own, own);
    let to = writer.operand(a, target)?;
    let from = copied_operand(&to)?;
    let left = held(writer, target, from, common)?;
    let right = writer.eval(None, common, place, Operation::Number(1))?;
    let operation = Operation::Binary {
        operator: step_operator(operator),
        left,
        right,
    };
    put_back(writer, target, to, common, place, operation)
}

// A string gains characters at its end ([string.op+=]).
fn appended(
    writer: &mut Writer,
    a: &Around,
    target: &TypedExpr,
    place: Place,
    value: &TypedExpr,
) -> Result<(), NoMemory>
    ensures { OnOk result (state_of writer.new ≡ spec.appended (around_of a.now) (typed_view target.now) place (typed_view value.now) (state_of writer.old)) }
{
    let characters = writer.characters_of(a, value)?;
    let to = writer.operand(a, target)?;
    writer.append(place, characters, to)
}

// An iterator is moved by 1.
fn advanced(
    writer: &mut Writer,
    a: &Around,
    target: &TypedExpr,
    operator: StepOperator,
    place: Place,
) -> Result<(), NoMemory>
    ensures { OnOk result (state_of writer.new ≡ spec.advanced (expression_uses (around_of a.now) target.now) operator place (state_of writer.old)) }
{
    let pointer = writer.pointer(a, target, own_type(target.ty))?;
    let from = copied_location(&pointer)?;
    let count = writer.eval(None, Ty::Int, place, Operation::Number(1))?;
    writer.emit(
        place,
        Instr::Advance {
            pointer,
            from,
            count,
            direction: direction(operator),
        },
    )
}

// .. but a string gains characters, and an iterator is moved.
fn compounded(
    writer: &mut Writer,
    a: &Around,
    target: &TypedExpr,
    operator: CompoundOperator,
    place: Place,
    value: &TypedExpr,
    behind: Place,
) -> Result<(), NoMemory>
    ensures { OnOk result (state_of writer.new ≡ spec.compounded (around_of a.now) (typed_view target.now) operator place (typed_view value.now) behind (state_of writer.old)) }
{
    if is_text(own_type(target.ty)) {
        appended(writer, a, target, place, value)
    } else {
        combined(writer, a, target, operator, place, value, behind)
    }
}

fn moved_on(
    writer: &mut Writer,
    a: &Around,
    target: &TypedExpr,
    operator: StepOperator,
    place: Place,
) -> Result<(), NoMemory>
    ensures { OnOk result (state_of writer.new ≡ spec.moved_on (around_of a.now) (typed_view target.now) operator place (state_of writer.old)) }
{
    if is_iterator(own_type(target.ty)) {
        advanced(writer, a, target, operator, place)
    } else {
        stepped(writer, a, target, operator, place)
    }
}

// A value or a pointer that is thrown away goes to a register, and an owner or a struct to a temporary.
fn thrown_by(
    writer: &mut Writer,
    a: &Around,
    expression: &TypedExpr,
    behind: Place,
) -> Result<(), NoMemory>
    ensures { OnOk result (state_of writer.new ≡ spec.thrown_by (class (Some (own (expression_uses (around_of a.now) expression.now)))) (expression_uses (around_of a.now) expression.now) behind (state_of writer.old)) }
{
    let ty = own_type(expression.ty);
    match class(ty) {
        Class::Value => {
            writer.value(a, expression, behind, ty, None)?;
            Ok(())
        }
        Class::Pointer => {
            writer.pointer(a, expression, ty)?;
            Ok(())
        }
        Class::Owner => thrown_object(writer, a, expression, ty),
        Class::Aggregate => thrown_object(writer, a, expression, ty),
    }
}

fn thrown_object(
    writer: &mut Writer,
    a: &Around,
    expression: &TypedExpr,
    ty: Ty,
) -> Result<(), NoMemory>
    ensures { OnOk result (state_of writer.new ≡ (temporary_of (expression_uses (around_of a.now) expression.now) ty (state_of writer.old)).state) }
{
    writer.built_by(a, expression, Destination::Temporary(expression.place, ty))?;
    Ok(())
}

// What is done alone ([stmt.expr]): a place isn't read, and a call may have no result.
fn thrown(
    writer: &mut Writer,
    a: &Around,
    expression: &TypedExpr,
    behind: Place,
) -> Result<(), NoMemory>
    ensures { OnOk result (state_of writer.new ≡ spec.thrown (expression_uses (around_of a.now) expression.now).category (expression_uses (around_of a.now) expression.now) behind (state_of writer.old)) }
{
    match expression.category {
        Category::Place { .. } => {
            writer.operand(a, expression)?;
            Ok(())
        }
        Category::Value if is_void(own_type(expression.ty)) => writer.alone(a, expression),
        Category::Value => thrown_by(writer, a, expression, behind),
    }
}

// An assignment, a step or a call.
fn done(
    writer: &mut Writer,
    a: &Around,
    simple: &TypedSimple,
    behind: Place,
) -> Result<(), NoMemory>
    ensures { OnOk result (state_of writer.new ≡ spec.done (around_of a.now) (simple_view simple.now) behind (state_of writer.old)) }
{
    match simple {
        TypedSimple::Assign {
            target,
            equals,
            value,
        } => assigned(writer, a, target, *equals, value, behind),
        TypedSimple::Compound {
            target,
            operator,
            place,
            value,
        } => compounded(writer, a, target, *operator, *place, value, behind),
        TypedSimple::Step {
            target,
            operator,
            place,
        } => moved_on(writer, a, target, *operator, *place),
        TypedSimple::Call(expression) => thrown(writer, a, expression, behind),
    }
}

/// .. which is a full expression up to the token behind it.
pub(crate) fn write_simple(
    writer: &mut Writer,
    a: &Around,
    simple: &TypedSimple,
    behind: Place,
) -> Result<(), NoMemory>
    ensures { OnOk result (state_of writer.new ≡ spec.simple (around_of a.now) (simple_view simple.now) behind (state_of writer.old)) }
{
    let pending = writer.pending_count();
    done(writer, a, simple, behind)?;
    writer.end_pending(pending, behind)
}

/// .. which may be left out.
pub(crate) fn write_simple_if(
    writer: &mut Writer,
    a: &Around,
    simple: &Option<TypedSimple>,
    behind: Place,
) -> Result<(), NoMemory>
    ensures { OnOk result (state_of writer.new ≡ spec.simple_if (around_of a.now) (optional_view simple_view simple.now) behind (state_of writer.old)) }
{
    match simple {
        Some(simple) => write_simple(writer, a, simple, behind),
        None => Ok(()),
    }
}

fn compound_operator(operator: CompoundOperator) -> Operator
    ensures { result ≡ shared.compound_operator operator }
{
    match operator {
        CompoundOperator::Add => Operator::Add,
        CompoundOperator::Subtract => Operator::Subtract,
        CompoundOperator::Multiply => Operator::Multiply,
        CompoundOperator::Divide => Operator::Divide,
        CompoundOperator::Remainder => Operator::Remainder,
    }
}

fn direction(operator: StepOperator) -> Direction
    ensures { result ≡ spec.direction operator }
{
    match operator {
        StepOperator::Increment => Direction::Forward,
        StepOperator::Decrement => Direction::Backward,
    }
}

fn step_operator(operator: StepOperator) -> Operator
    ensures { result ≡ shared.step_operator operator }
{
    match operator {
        StepOperator::Increment => Operator::Add,
        StepOperator::Decrement => Operator::Subtract,
    }
}
