// Loops over ranges (ISO/IEC 14882:2017 [stmt.ranged]): what is hidden stands at the colon.
ghost use Rattle.std.specs.Prelude.{◌≡◌, IfOk, OnOk, Some, slice_get};
ghost use Rattle.life_core.specs.Operands.{Whole, base_of, behind, operand_of, source_of};
ghost use Rattle.life_core.specs.declared.instr.Form.TheVariants.{Plain};
ghost use Rattle.life_core.specs.Tree.{condition_tree, tree_of};
ghost use Rattle.life_types.specs.Types as types;
ghost use Rattle.life_writer.specs.Answers.{Answers};
ghost use Rattle.life_writer.specs.Around.{type_of};
ghost use Rattle.life_typed.specs.Conversions.{is_const_place};
ghost use Rattle.life_typed.specs.Statements.{range_element};
ghost use Rattle.life_typed.specs.TypedForm.{typed_view};
ghost use Rattle.life_writer.specs.Giving.{bound, given_in};
ghost use Rattle.life_writer.specs.Initialising.{initialised};
ghost use Rattle.life_writer.specs.OwnerForms.{copied_at};
ghost use Rattle.life_writer.specs.PartUses.{expression_uses};
ghost use Rattle.life_writer.specs.Temporaries.{scoped};
ghost use Rattle.life_writer.specs.Uses.{lived, own};
ghost use Rattle.life_writer.specs.Views.{around_of, destination_of, last_of, state_of};
ghost use Rattle.life_writer.specs.Writing.{apart};
ghost use Rattle.life_elab.specs.IteratorViews.{iterators_of};
ghost use Rattle.life_elab.specs.RangeForms as spec;

use crate::declarations::home;
use life_core::{
    Base, Condition, Direction, Instr, Location, Operand, Operation, RangeEnd, Source, Stmt, Test,
};
use life_typed::{Category, TypedExpr, TypedLocal, range_element};
use life_types::{Class, NoMemory, Place, Ty, TyId};
use life_writer::{
    Act, Around, Destination, Last, Pointing, Writer, class, copied_location, copied_operand,
    own_type,
};

/// The hidden iterators: the one at the element of the turn, and the end.
#[derive(Clone, Copy)]
pub(crate) struct Iterators {
    pub first: u32,
    pub last: u32,
}

// An owner that is a value lives as long as the loop.
fn owner_range(writer: &mut Writer, a: &Around, range: &TypedExpr) -> Result<Operand, NoMemory>
    ensures { Answers operand_of result (spec.owner_range (expression_uses (around_of a.now) range.now).category (expression_uses (around_of a.now) range.now) (state_of writer.old)) (state_of writer.new) }
{
    match range.category {
        Category::Value => {
            let goal = Destination::Scoped(range.place, own_type(range.ty));
            let local = writer.built_by(a, range, goal)?;
            Ok(Operand::name(writer.alloc, local))
        }
        Category::Place { .. } => writer.operand(a, range),
    }
}

// The type of the hidden reference.
fn range_type(writer: &mut Writer, category: Category, ty: Ty) -> Result<Ty, NoMemory>
    ensures { Answers (λ x. x) result (spec.range_type category ty (state_of writer.old)) (state_of writer.new) }
{
    match category {
        Category::Value => Ok(Ty::Reference {
            target: writer.type_number(ty)?,
            constant: false,
        }),
        Category::Place { ty, constant } => Ok(Ty::Reference {
            target: ty,
            constant,
        }),
    }
}

// .. which refers to it.
fn hidden_owner(
    writer: &mut Writer,
    a: &Around,
    colon: Place,
    range: &TypedExpr,
) -> Result<Base, NoMemory>
    ensures { Answers base_of result (spec.hidden_owner colon (expression_uses (around_of a.now) range.now) (state_of writer.old)) (state_of writer.new) }
{
    let place = owner_range(writer, a, range)?;
    let ty = range_type(writer, range.category, own_type(range.ty))?;
    let last = Last::Point(colon, Pointing::At(Source::Place(place)));
    let register = writer.built(last, Destination::Hidden(colon, ty))?;
    Ok(Base::Owner(Operand::through(writer.alloc, register)))
}

// A span or a view is what it is.
fn hidden_pointer(
    writer: &mut Writer,
    a: &Around,
    colon: Place,
    range: &TypedExpr,
) -> Result<Base, NoMemory>
    ensures { Answers base_of result (spec.hidden_pointer colon (expression_uses (around_of a.now) range.now) (state_of writer.old)) (state_of writer.new) }
{
    let own = own_type(range.ty);
    let location = writer.pointer(a, range, own)?;
    let last = Last::Point(colon, Pointing::As(location));
    let register = writer.built(last, Destination::Hidden(colon, own))?;
    Ok(Base::Pointer(Location::whole(writer.alloc, register)))
}

// The hidden range.
fn hidden(
    writer: &mut Writer,
    a: &Around,
    colon: Place,
    range: &TypedExpr,
) -> Result<Base, NoMemory>
    ensures { Answers base_of result (spec.hidden_by (own (expression_uses (around_of a.now) range.now)) colon (expression_uses (around_of a.now) range.now) (state_of writer.old)) (state_of writer.new) }
{
    match own_type(range.ty) {
        Ty::View => hidden_pointer(writer, a, colon, range),
        Ty::Span { .. } => hidden_pointer(writer, a, colon, range),
        _ => hidden_owner(writer, a, colon, range),
    }
}

// .. and other temporaries of the range end at the parenthesis behind it.
fn hidden_range(
    writer: &mut Writer,
    a: &Around,
    colon: Place,
    closing: Place,
    range: &TypedExpr,
) -> Result<Base, NoMemory>
    ensures { Answers base_of result (spec.hidden_range colon closing (expression_uses (around_of a.now) range.now) (state_of writer.old)) (state_of writer.new) }
{
    let pending = writer.pending_count();
    let base = hidden(writer, a, colon, range)?;
    writer.end_pending(pending, closing)?;
    Ok(base)
}

// What an element is: its type, and whether it is const.
fn element_of(range: &TypedExpr) -> Option<(TyId, bool)>
    ensures { result ≡ range_element (typed_view range.now).ty (is_const_place (typed_view range.now).category) }
{
    range_element(range.ty, is_const_place(range.category))
}

fn is_const_place(category: Category) -> bool
    ensures { result ≡ is_const_place category }
{
    match category {
        Category::Value => false,
        Category::Place { constant, .. } => constant,
    }
}

fn iterator_type(element: Option<(TyId, bool)>) -> Ty
    ensures { result ≡ spec.iterator_type element }
{
    match element {
        Some((target, constant)) => Ty::Iterator { target, constant },
        None => Ty::Void,
    }
}

fn cursor_at(
    writer: &mut Writer,
    colon: Place,
    ty: Ty,
    base: Base,
    end: RangeEnd,
) -> Result<u32, NoMemory>
    ensures { Answers (λ x. x) result (spec.cursor_at colon ty (base_of base) end (state_of writer.old)) (state_of writer.new) }
{
    let last = Last::Point(colon, Pointing::Cursor(base, end));
    writer.built(last, Destination::Hidden(colon, ty))
}

fn copied_base(base: &Base) -> Result<Base, NoMemory>
    ensures { IfOk result (λ copy. base_of copy ≡ base_of base.now) }
{
    match base {
        Base::Owner(place) => Ok(Base::Owner(copied_operand(place)?)),
        Base::Pointer(location) => Ok(Base::Pointer(copied_location(location)?)),
    }
}

/// The range and its ends.
pub(crate) fn open_range(
    writer: &mut Writer,
    a: &Around,
    colon: Place,
    closing: Place,
    range: &TypedExpr,
) -> Result<Iterators, NoMemory>
    ensures { Answers iterators_of result (spec.opened colon closing (expression_uses (around_of a.now) range.now) (state_of writer.old)) (state_of writer.new) }
{
    let base = hidden_range(writer, a, colon, closing, range)?;
    let ty = iterator_type(element_of(range));
    let first = cursor_at(writer, colon, ty, copied_base(&base)?, RangeEnd::Begin)?;
    let last = cursor_at(writer, colon, ty, base, RangeEnd::End)?;
    Ok(Iterators { first, last })
}

/// There is one more while the iterators differ.
pub(crate) fn goes_on(
    writer: &mut Writer,
    colon: Place,
    iterators: Iterators,
) -> Result<Condition, NoMemory>
    ensures { Answers condition_tree result (spec.goes_on colon (iterators_of iterators) (state_of writer.old)) (state_of writer.new) }
{
    let before = writer.begin_test();
    let register = writer.new_register(colon, Ty::Bool)?;
    writer.emit(
        colon,
        Instr::Same {
            into: register,
            left: Location::whole(writer.alloc, iterators.first),
            right: Location::whole(writer.alloc, iterators.last),
            equal: false,
        },
    )?;
    writer.behind_code(before, colon, None, Test::NonZero(register))
}

// The iterator goes on to the next element.
fn next(writer: &mut Writer, colon: Place, iterators: Iterators) -> Result<(), NoMemory>
    ensures { OnOk result (state_of writer.new ≡ spec.next colon (iterators_of iterators) (state_of writer.old)) }
{
    let count = writer.eval(None, Ty::Int, colon, Operation::Number(1))?;
    writer.emit(
        colon,
        Instr::Advance {
            pointer: Location::whole(writer.alloc, iterators.first),
            from: Location::whole(writer.alloc, iterators.first),
            count,
            direction: Direction::Forward,
        },
    )
}

/// .. in a list of its own.
pub(crate) fn next_in_list(
    writer: &mut Writer,
    colon: Place,
    iterators: Iterators,
) -> Result<Stmt, NoMemory>
    ensures { Answers tree_of result (apart (spec.next colon (iterators_of iterators)) (state_of writer.old)) (state_of writer.new) }
{
    let before = writer.begin_list();
    next(writer, colon, iterators)?;
    Ok(writer.end_list(before))
}

// The value of the element, as one of a type.
fn element_value(
    writer: &mut Writer,
    own: Ty,
    colon: Place,
    iterator: u32,
    ty: Ty,
) -> Result<u32, NoMemory>
    ensures { Answers (λ x. x) result (spec.element_value own colon iterator ty (state_of writer.old)) (state_of writer.new) }
{
    let from = Operand::through(writer.alloc, iterator);
    let register = writer.load(None, own, colon, from)?;
    writer.converted(own, ty, colon, register)
}

// What the element gives a pointer: a string is seen by a view of the whole of it, and a vector by a
// span.
fn element_seen(writer: &Writer, own: Ty, iterator: u32) -> Result<Source, NoMemory>
    ensures whole { IfOk result (λ source. source_of source ≡ Whole (behind iterator)) }
    ensures seen { IfOk result (λ source. spec.IsSeenWhole own) }
{
    match own {
        Ty::Text => Ok(Source::Whole(Operand::through(writer.alloc, iterator))),
        Ty::Vector(_) => Ok(Source::Whole(Operand::through(writer.alloc, iterator))),
        _ => Err(NoMemory),
    }
}

// Something of a type is given the element, and built where it goes.
fn element_given(
    writer: &mut Writer,
    a: &Around,
    element: (TyId, bool),
    colon: Place,
    iterator: u32,
    ty: Ty,
    destination: Destination,
) -> Result<u32, NoMemory>
    ensures { Answers (λ x. x) result (given_in (spec.element_at (around_of a.now).program.types colon iterator (Some element)) ty colon (destination_of destination) (state_of writer.old)) (state_of writer.new) }
{
    let (number, _) = element;
    let own = a.type_of(number);
    match class(ty) {
        Class::Value => {
            let register = element_value(writer, own, colon, iterator, ty)?;
            writer.built(Last::Saved(register), destination)
        }
        Class::Pointer => {
            let source = element_seen(writer, own, iterator)?;
            writer.built(Last::Point(colon, Pointing::At(source)), destination)
        }
        Class::Owner => {
            let from = Operand::through(writer.alloc, iterator);
            writer.built(Last::Lived(Act::Copied(from)), destination)
        }
        Class::Aggregate => {
            let from = Operand::through(writer.alloc, iterator);
            writer.built(Last::Lived(Act::Copied(from)), destination)
        }
    }
}

// A reference refers to the element, where that has its type, and else to a temporary.
fn element_bound(
    writer: &mut Writer,
    a: &Around,
    element: (TyId, bool),
    colon: Place,
    iterator: u32,
    target: TyId,
) -> Result<Last, NoMemory>
    ensures { Answers last_of result (bound (around_of a.now) scoped (spec.element_at (around_of a.now).program.types colon iterator (Some element)) target colon (state_of writer.old)) (state_of writer.new) }
{
    let (number, _) = element;
    if number == target {
        let place = Operand::through(writer.alloc, iterator);
        return Ok(Last::Point(colon, Pointing::At(Source::Place(place))));
    }
    let ty = a.type_of(target);
    let goal = Destination::Scoped(colon, ty);
    let local = element_given(writer, a, element, colon, iterator, ty, goal)?;
    let place = Operand::name(writer.alloc, local);
    Ok(Last::Point(colon, Pointing::At(Source::Place(place))))
}

// A variable that is given the element.
fn element_initial(
    writer: &mut Writer,
    a: &Around,
    element: (TyId, bool),
    colon: Place,
    iterator: u32,
    ty: Ty,
    destination: Destination,
) -> Result<u32, NoMemory>
    ensures { Answers (λ x. x) result (initialised (around_of a.now) (spec.element_at (around_of a.now).program.types colon iterator (Some element)) ty colon (destination_of destination) (state_of writer.old)) (state_of writer.new) }
{
    match ty {
        Ty::Reference { target, .. } => {
            let last = element_bound(writer, a, element, colon, iterator, target)?;
            writer.built(last, destination)
        }
        _ => element_given(writer, a, element, colon, iterator, ty, destination),
    }
}

// .. by the class of the variable: a copy of the element stands at the colon, too.
fn given_element(
    writer: &mut Writer,
    a: &Around,
    variable: &TypedLocal,
    colon: Place,
    element: Option<(TyId, bool)>,
    iterator: u32,
) -> Result<(), NoMemory>
    ensures { OnOk result (state_of writer.new ≡ spec.given_element (around_of a.now) (types.class (Some (type_of (around_of a.now) variable.now.ty))) variable.now colon iterator (spec.element_at (around_of a.now).program.types colon iterator element) (state_of writer.old)) }
{
    let Some(element) = element else {
        return Err(NoMemory);
    };
    let goal = home(a, variable);
    let ty = a.type_of(variable.ty);
    match class(ty) {
        Class::Value => {
            element_initial(writer, a, element, colon, iterator, ty, goal)?;
            Ok(())
        }
        Class::Pointer => {
            element_initial(writer, a, element, colon, iterator, ty, goal)?;
            Ok(())
        }
        Class::Owner => copied_element(writer, colon, iterator, goal),
        Class::Aggregate => copied_element(writer, colon, iterator, goal),
    }
}

fn copied_element(
    writer: &mut Writer,
    colon: Place,
    iterator: u32,
    destination: Destination,
) -> Result<(), NoMemory>
    ensures { OnOk result (state_of writer.new ≡ (lived Plain (copied_at colon (behind iterator)) (destination_of destination) (state_of writer.old)).state) }
{
    let from = Operand::through(writer.alloc, iterator);
    writer.built(Last::Lived(Act::CopiedAt(colon, from)), destination)?;
    Ok(())
}

/// The variable of a turn.
pub(crate) fn declared_from(
    writer: &mut Writer,
    a: &Around,
    local: u32,
    colon: Place,
    range: &TypedExpr,
    iterator: u32,
) -> Result<(), NoMemory>
    ensures { OnOk result (state_of writer.new ≡ spec.declared_from (around_of a.now) (slice_get (around_of a.now).function.locals local) colon iterator (spec.element_at (around_of a.now).program.types colon iterator (spec.element_of (expression_uses (around_of a.now) range.now))) (state_of writer.old)) }
{
    match a.function.locals.get(local as usize) {
        Some(variable) => given_element(writer, a, variable, colon, element_of(range), iterator),
        None => Ok(()),
    }
}
