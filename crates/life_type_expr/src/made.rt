// Literals, calls and structs, once their parts are read.
ghost use Rattle.std.specs.Prelude.{◌≡◌, map};
ghost use Rattle.life_typed.specs.Delimiters.{delimiters_view};
ghost use Rattle.life_typed.specs.TypedForm.{boolean, call, character, construct, forms, input, null, number, text, typed_view};
ghost use Rattle.life_typed.specs.declared.typed_expr.Category.TheVariants as categories;
ghost use Rattle.life_typed.specs.declared.typed_expr.ExprType.TheVariants as expr_types;
ghost use Rattle.life_types.specs.declared.ty.Ty.TheVariants as kinds_of_type;
ghost use Rattle.life_typed.specs.BaseTypes as table;
ghost use Rattle.life_type_expr.specs.Operands as spec;

use crate::operands::{answer, number_type, value};
use life_typed::{Category, Delimiters, ExprForm, ExprType, TypedExpr};
use life_types::{Place, Ty, TyId, TypeTable};
use std::alloc::Global;
use std::vec::Vec;

pub(crate) fn number_literal(alloc: Global, place: Place, literal: u64) -> TypedExpr
    ensures { typed_view result ≡ spec.value place (spec.number_type literal) (number literal) }
{
    value(
        alloc,
        place,
        number_type(literal),
        ExprForm::Number(literal),
    )
}

pub(crate) fn char_literal(alloc: Global, place: Place, literal: u8) -> TypedExpr
    ensures { typed_view result ≡ spec.value place kinds_of_type.Char (character literal) }
{
    value(alloc, place, Ty::Char, ExprForm::Char(literal))
}

pub(crate) fn bool_literal(alloc: Global, place: Place, literal: bool) -> TypedExpr
    ensures { typed_view result ≡ spec.value place kinds_of_type.Bool (boolean literal) }
{
    value(alloc, place, Ty::Bool, ExprForm::Bool(literal))
}

/// A string literal, by its number in the table of texts.
pub(crate) fn text_literal(alloc: Global, place: Place, id: u32) -> TypedExpr
    ensures { typed_view result ≡ record { place = place; ty = expr_types.TextLiteral; category = categories.Value; form = text id } }
{
    TypedExpr {
        place,
        ty: ExprType::TextLiteral,
        category: Category::Value,
        form: ExprForm::Text(id),
        within: Vec::new(alloc),
    }
}

/// `nullptr`.
pub(crate) fn null_literal(alloc: Global, place: Place) -> TypedExpr
    ensures { typed_view result ≡ record { place = place; ty = expr_types.NullPointer; category = categories.Value; form = null } }
{
    TypedExpr {
        place,
        ty: ExprType::NullPointer,
        category: Category::Value,
        form: ExprForm::Null,
        within: Vec::new(alloc),
    }
}

/// `life::input()`.
pub(crate) fn input_read(alloc: Global, place: Place) -> TypedExpr
    ensures { typed_view result ≡ spec.value place kinds_of_type.Long input }
{
    value(alloc, place, Ty::Long, ExprForm::Input)
}

/// A call of a function whose result has this type.
pub(crate) fn call_made(
    alloc: Global,
    types: &TypeTable,
    place: Place,
    function: u32,
    result_type: TyId,
    arguments: Vec<TypedExpr>,
    delimiters: Box<Delimiters>,
) -> TypedExpr
    ensures { typed_view result ≡ spec.answer_of (table.type_at types.now result_type) types.now place (call function (forms (map typed_view arguments.items)) (delimiters_view delimiters.value)) }
{
    let form = ExprForm::Call {
        function,
        arguments,
        delimiters,
    };
    answer(alloc, types, result_type, place, form)
}

/// A struct made of a list.
pub(crate) fn struct_made(
    alloc: Global,
    opening: Place,
    structure: u32,
    elements: Vec<TypedExpr>,
    delimiters: Box<Delimiters>,
) -> TypedExpr
    ensures { typed_view result ≡ spec.value opening (kinds_of_type.Struct structure) (construct structure (forms (map typed_view elements.items)) (delimiters_view delimiters.value)) }
{
    let form = ExprForm::Construct {
        structure,
        elements,
        delimiters,
    };
    value(alloc, opening, Ty::Struct(structure), form)
}
