// Operands: literals, variables, and what operators make of operands.
ghost use Rattle.std.specs.Prelude.{◌≡◌, IfOk};
ghost use Rattle.life_typed.specs.TypedForm.{form_view, nothing, typed_view, whole};
ghost use Rattle.life_names.specs.Checked.{Gives};
ghost use Rattle.life_names.specs.Found.{Finds};
ghost use Rattle.life_type_expr.specs.Operands as spec;
ghost use Rattle.life_typed.specs.BaseTypes as table;
ghost use Rattle.life_typed.specs.Operators as tables;

use life_names::{IllFault, IllKind, allowed, ill, type_at};
use life_tree::PrefixOperator;
use life_typed::{
    BinaryOperator, Category, ExprForm, ExprType, Misfit, TypedExpr, TypedLocal, combined,
    dereferenced, is_condition, negated,
};
use life_types::{NoMemory, Place, Ty, TyId, TypeTable, is_plain};
use std::alloc::Global;
use std::vec::Vec;

/// A value of this type, of a form that isn't applied to an operand.
pub(crate) fn value(alloc: Global, place: Place, ty: Ty, form: ExprForm) -> TypedExpr
    ensures { typed_view result ≡ spec.value place ty (form_view form nothing) }
{
    TypedExpr {
        place,
        ty: ExprType::Of(ty),
        category: Category::Value,
        form,
        within: Vec::new(alloc),
    }
}

/// A value of this type, which a form makes of an operand.
pub(crate) fn value_of(
    operand: TypedExpr,
    place: Place,
    ty: Ty,
    form: ExprForm,
) -> Result<TypedExpr, NoMemory>
    ensures { IfOk result (λ e. typed_view e ≡ spec.value place ty (form_view form (whole (typed_view operand)))) }
{
    operand.applied(place, ExprType::Of(ty), Category::Value, form)
}

/// The place of an object of this type, which may be changed through it or not.
pub(crate) fn place_of(
    alloc: Global,
    types: &TypeTable,
    id: TyId,
    constant: bool,
    place: Place,
    form: ExprForm,
) -> TypedExpr
    ensures { typed_view result ≡ spec.place_of types.now id constant place (form_view form nothing) }
{
    TypedExpr {
        place,
        ty: ExprType::Of(type_at(types, id)),
        category: Category::Place { ty: id, constant },
        form,
        within: Vec::new(alloc),
    }
}

/// .. that a form makes of an operand.
pub(crate) fn place_in(
    types: &TypeTable,
    operand: TypedExpr,
    id: TyId,
    constant: bool,
    place: Place,
    form: ExprForm,
) -> Result<TypedExpr, NoMemory>
    ensures { IfOk result (λ e. typed_view e ≡ spec.place_of types.now id constant place (form_view form (whole (typed_view operand)))) }
{
    let ty = ExprType::Of(type_at(types, id));
    operand.applied(place, ty, Category::Place { ty: id, constant }, form)
}

/// A variable; one of a reference type is the place that it refers to.
pub(crate) fn variable(
    alloc: Global,
    types: &TypeTable,
    place: Place,
    number: u32,
    local: TypedLocal,
) -> TypedExpr
    ensures { typed_view result ≡ spec.variable types.now place (number, local) }
{
    let form = ExprForm::Local(number);
    match type_at(types, local.ty) {
        Ty::Reference { target, constant } => place_of(alloc, types, target, constant, place, form),
        _ => place_of(alloc, types, local.ty, local.constant, place, form),
    }
}

/// What a call answers, whose result has this type.
pub(crate) fn answer(
    alloc: Global,
    types: &TypeTable,
    result_type: TyId,
    place: Place,
    form: ExprForm,
) -> TypedExpr
    ensures { typed_view result ≡ spec.answer_of (table.type_at types.now result_type) types.now place (form_view form nothing) }
{
    match type_at(types, result_type) {
        Ty::Reference { target, constant } => place_of(alloc, types, target, constant, place, form),
        ty => value(alloc, place, ty, form),
    }
}

/// Whether it is a place that may not be changed.
pub fn is_constant(category: Category) -> bool
    ensures { result ≡ spec.is_constant category }
{
    match category {
        Category::Value => false,
        Category::Place { constant, .. } => constant,
    }
}

/// The type of a number: up to 2^31 - 1 it is an `int` (ISO/IEC 14882:2017 [lex.icon]).
pub(crate) fn number_type(number: u64) -> Ty
    ensures { result ≡ spec.number_type number }
{
    if number <= 2_147_483_647 {
        Ty::Int
    } else {
        Ty::Long
    }
}

fn literal_fault(takes: bool, ty: ExprType) -> Option<IllKind>
    ensures { result ≡ spec.literal_fault takes ty }
{
    match ty {
        ExprType::Of(_) => None,
        ExprType::NullPointer => None,
        ExprType::TextLiteral => {
            if takes {
                None
            } else {
                Some(IllKind::Unsupported)
            }
        }
    }
}

/// A string literal stands only where it is taken.
#[tactic(auto, using(life_names::proofs::Views::views))]
pub fn literal_allowed(takes: bool, e: &TypedExpr) -> Result<(), IllFault>
    ensures { Finds (λ x. x) result (spec.literal_allowed takes (typed_view e.now)) }
{
    allowed(literal_fault(takes, e.ty), e.place)
}

fn is_literal(ty: ExprType) -> bool
    ensures { result ≡ tables.is_literal ty }
{
    match ty {
        ExprType::Of(_) => false,
        ExprType::NullPointer => false,
        ExprType::TextLiteral => true,
    }
}

/// Where the first literal of two operands stands.
#[tactic(auto, using(life_names::proofs::Views::views))]
fn literal_place(left: &TypedExpr, right: &TypedExpr) -> Place
    ensures { result ≡ spec.literal_place (typed_view left.now) (typed_view right.now) }
{
    if is_literal(left.ty) {
        left.place
    } else {
        right.place
    }
}

/// The rule that is broken where something doesn't fit.
pub fn misfit_kind(general: IllKind, misfit: Misfit) -> IllKind
    ensures { result ≡ spec.misfit_kind general misfit }
{
    match misfit {
        Misfit::General => general,
        Misfit::Literal => IllKind::Unsupported,
        Misfit::Constant => IllKind::ConstBroken,
        Misfit::Copy => IllKind::NotAssignable,
        Misfit::Unsupported => IllKind::Unsupported,
    }
}

fn misfit_place(misfit: Misfit, place: Place, left: &TypedExpr, right: &TypedExpr) -> Place
    ensures { result ≡ spec.misfit_place misfit place (typed_view left.now) (typed_view right.now) }
{
    match misfit {
        Misfit::General => place,
        Misfit::Literal => literal_place(left, right),
        Misfit::Constant => place,
        Misfit::Copy => place,
        Misfit::Unsupported => place,
    }
}

/// Two operands with the operator between them, which stands at this place.
#[tactic(auto, using(life_names::proofs::Views::views))]
pub(crate) fn combination(
    alloc: Global,
    operator: BinaryOperator,
    place: Place,
    left: TypedExpr,
    right: TypedExpr,
) -> Result<TypedExpr, IllFault>
    ensures { Finds typed_view result (spec.combination operator place (typed_view left) (typed_view right)) }
{
    match combined(operator, left.ty, right.ty) {
        Ok(ty) => {
            let right = Box::new(alloc, right)?;
            let form = ExprForm::Binary { operator, right };
            Ok(value_of(left, place, ty, form)?)
        }
        Err(misfit) => {
            let kind = misfit_kind(IllKind::WrongType, misfit);
            Err(ill(kind, misfit_place(misfit, place, &left, &right)))
        }
    }
}

/// `-e`.
#[tactic(auto, using(life_names::proofs::Views::views))]
fn negation(place: Place, e: TypedExpr) -> Result<TypedExpr, IllFault>
    ensures { Finds typed_view result (spec.negated_to (tables.negated (typed_view e).ty) place (typed_view e)) }
{
    match negated(e.ty) {
        Ok(ty) => { Ok(value_of(e, place, ty, ExprForm::Negate)?) }
        Err(misfit) => Err(ill(misfit_kind(IllKind::WrongType, misfit), place)),
    }
}

/// `!e`.
#[tactic(auto, using(life_names::proofs::Views::views))]
fn inverted(place: Place, e: TypedExpr) -> Result<TypedExpr, IllFault>
    ensures { Finds typed_view result (spec.inverted place (typed_view e)) }
{
    if is_condition(e.ty) {
        Ok(value_of(e, place, Ty::Bool, ExprForm::Not)?)
    } else {
        Err(ill(IllKind::WrongType, place))
    }
}

/// What an operand points to.
#[tactic(auto, using(life_names::proofs::Views::views))]
pub(crate) fn pointed_to(
    types: &TypeTable,
    place: Place,
    e: TypedExpr,
) -> Result<TypedExpr, IllFault>
    ensures { Finds typed_view result (spec.pointed_to types.now place (typed_view e)) }
{
    match dereferenced(e.ty) {
        None => Err(ill(IllKind::WrongType, place)),
        Some((id, constant)) => {
            let form = ExprForm::Dereference;
            Ok(place_in(types, e, id, constant, place, form)?)
        }
    }
}

/// `&e`.
#[tactic(auto, using(life_names::proofs::Views::views))]
fn address(types: &TypeTable, place: Place, e: TypedExpr) -> Result<TypedExpr, IllFault>
    ensures { Finds typed_view result (spec.address_to (typed_view e).category types.now place (typed_view e)) }
{
    match e.category {
        Category::Value => Err(ill(IllKind::WrongType, place)),
        Category::Place { ty, constant } => {
            if is_plain(types, ty) {
                let pointer = Ty::Raw {
                    target: ty,
                    constant,
                };
                Ok(value_of(e, place, pointer, ExprForm::AddressOf)?)
            } else {
                Err(ill(IllKind::NotPlain, place))
            }
        }
    }
}

fn prefixed_by(
    types: &TypeTable,
    operator: PrefixOperator,
    place: Place,
    e: TypedExpr,
) -> Result<TypedExpr, IllFault>
    ensures { Finds typed_view result (spec.prefixed_by operator types.now place (typed_view e)) }
{
    match operator {
        PrefixOperator::Not => inverted(place, e),
        PrefixOperator::Negate => negation(place, e),
        PrefixOperator::Dereference => pointed_to(types, place, e),
        PrefixOperator::AddressOf => address(types, place, e),
    }
}

/// An operator before an operand.
pub(crate) fn prefixed(
    types: &TypeTable,
    operator: PrefixOperator,
    place: Place,
    e: TypedExpr,
) -> Result<TypedExpr, IllFault>
    ensures { Gives typed_view types.now result (spec.prefixed operator place (typed_view e, types.now)) }
{
    literal_allowed(false, &e)?;
    prefixed_by(types, operator, place, e)
}

/// An expression in parentheses.
#[tactic(auto, using(life_names::proofs::Views::views))]
pub(crate) fn parenthesized(closing: Place, e: TypedExpr) -> Result<TypedExpr, IllFault>
    ensures { Finds typed_view result (spec.parenthesized closing (typed_view e)) }
{
    let place = e.place;
    let ty = e.ty;
    let category = e.category;
    Ok(e.applied(place, ty, category, ExprForm::Paren { closing })?)
}

/// The rule for what is `const`, or another.
pub fn const_or(constant: bool, other: Option<IllKind>) -> Option<IllKind>
    ensures { result ≡ spec.const_or constant other }
{
    if constant {
        Some(IllKind::ConstBroken)
    } else {
        other
    }
}

/// The rule that is broken where a variable or parameter of this type is moved from.
fn move_fault_of(ty: Ty, constant: bool) -> Option<IllKind>
    ensures { result ≡ spec.move_fault_of ty constant }
{
    match ty {
        Ty::Text => const_or(constant, None),
        Ty::Vector(_) => const_or(constant, None),
        Ty::Unique(_) => const_or(constant, None),
        Ty::Reference { constant, .. } => const_or(constant, Some(IllKind::Unsupported)),
        _ => const_or(constant, Some(IllKind::Unsupported)),
    }
}

/// `std::move` of a variable or parameter, where `move` stands at this place.
pub(crate) fn moved(
    alloc: Global,
    types: &TypeTable,
    place: Place,
    number: u32,
    local: TypedLocal,
) -> Result<TypedExpr, IllFault>
    ensures { Finds typed_view result (spec.moved types.now place (number, local)) }
{
    let ty = type_at(types, local.ty);
    match move_fault_of(ty, local.constant) {
        None => Ok(value(alloc, place, ty, ExprForm::Move(number))),
        Some(kind) => Err(ill(kind, place)),
    }
}

/// Whether `std::string` is made of it.
fn makes_text(ty: ExprType) -> bool
    ensures { result ≡ spec.makes_text ty }
{
    match ty {
        ExprType::Of(Ty::Text) => true,
        ExprType::Of(Ty::View) => true,
        ExprType::Of(_) => false,
        ExprType::NullPointer => false,
        ExprType::TextLiteral => true,
    }
}

/// `std::string(e)`, where `string` stands at this place.
#[tactic(auto, using(life_names::proofs::Views::views))]
pub(crate) fn text_made(place: Place, closing: Place, e: TypedExpr) -> Result<TypedExpr, IllFault>
    ensures { Finds typed_view result (spec.text_made place closing (typed_view e)) }
{
    if makes_text(e.ty) {
        let form = ExprForm::TextOf { closing };
        Ok(value_of(e, place, Ty::Text, form)?)
    } else {
        Err(ill(IllKind::WrongType, place))
    }
}
