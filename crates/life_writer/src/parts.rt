// Expressions and the operands within them, and what each is made of.
ghost use Rattle.std.specs.Prelude.{◌≡◌, ◌-◌, IfSome, length, take};
ghost use Rattle.life_typed.specs.TypedForm.{form_view, typed_view};
ghost use Rattle.life_writer.specs.Parts as spec;

use life_typed::{
    BinaryOperator, Category, Delimiters, ExprForm, ExprType, Method, TypedExpr, TypedOperand,
};
use life_types::{Place, TyId};

/// An expression, or an operand within one, which is what stands last in a list of operands.
#[derive(Clone, Copy)]
pub(crate) struct Part<'a> {
    pub place: Place,
    pub ty: ExprType,
    pub category: Category,
    pub form: &'a ExprForm,
    /// What its form is applied to, from the innermost operand on.
    pub within: &'a [TypedOperand],
}

/// What a part is made of: its form with the operand that this is applied to, if one is there.
#[derive(Clone, Copy)]
pub(crate) enum Shape<'a> {
    Number(u64),
    Char(u8),
    Bool(bool),
    Text(u32),
    Null,
    Local(u32),
    Call {
        function: u32,
        arguments: &'a [TypedExpr],
        delimiters: &'a Delimiters,
    },
    Construct {
        structure: u32,
        elements: &'a [TypedExpr],
        delimiters: &'a Delimiters,
    },
    Paren {
        inner: Option<Part<'a>>,
        closing: Place,
    },
    Move(u32),
    MakeUnique {
        element: TyId,
        argument: Option<Part<'a>>,
        closing: Place,
    },
    TextOf {
        inner: Option<Part<'a>>,
        closing: Place,
    },
    Input,
    Member {
        base: Option<Part<'a>>,
        member: u32,
    },
    Dereference(Option<Part<'a>>),
    Index {
        base: Option<Part<'a>>,
        index: Part<'a>,
        closing: Place,
    },
    Method {
        base: Option<Part<'a>>,
        method: Method,
        arguments: &'a [TypedExpr],
        delimiters: &'a Delimiters,
    },
    Negate(Option<Part<'a>>),
    Not(Option<Part<'a>>),
    AddressOf(Option<Part<'a>>),
    Binary {
        operator: BinaryOperator,
        left: Option<Part<'a>>,
        right: Part<'a>,
    },
}

/// A part, and what it is made of.
#[derive(Clone, Copy)]
pub(crate) struct Node<'a> {
    pub place: Place,
    pub ty: ExprType,
    pub category: Category,
    pub shape: Shape<'a>,
}

impl<'a> Part<'a> {
    /// A whole expression.
    pub(crate) fn of(expression: &'a TypedExpr) -> Part<'a>
        ensures { spec.part_view result ≡ typed_view expression.now }
    {
        Part {
            place: expression.place,
            ty: expression.ty,
            category: expression.category,
            form: &expression.form,
            within: &expression.within,
        }
    }

    /// What it is made of.
    pub(crate) fn opened(self) -> Node<'a>
        ensures node { spec.node_view result ≡ spec.part_view self.entry }
        ensures left { spec.HasLeft result.shape (spec.inside self.entry.within.now) }
    {
        Node {
            place: self.place,
            ty: self.ty,
            category: self.category,
            shape: shape_of(self.form, last_of(self.within)),
        }
    }
}

/// What an operand is made of, if it is there.
pub(crate) fn opened(operand: Option<Part<'_>>) -> Option<Node<'_>>
    ensures { spec.node_form result ≡ spec.part_form operand.entry }
{
    match operand {
        Some(part) => Some(part.opened()),
        None => None,
    }
}

/// The last of these operands, with the others within it.
pub(crate) fn last_of(operands: &[TypedOperand]) -> Option<Part<'_>>
    ensures form { spec.part_form result ≡ spec.inside operands.now }
    ensures within { IfSome result (λ p. p.within.now ≡ take (length operands.now - 1) operands.now) }
{
    let count = operands.len();
    if count == 0 {
        return None;
    }
    let last = &operands[count - 1];
    Some(Part {
        place: last.place,
        ty: last.ty,
        category: last.category,
        form: &last.form,
        within: &operands[..count - 1],
    })
}

// A form with the operand to which it is applied.
fn shape_of<'a>(form: &'a ExprForm, operand: Option<Part<'a>>) -> Shape<'a>
    ensures form { spec.shape_form result ≡ form_view form.now (spec.part_form operand.entry) }
    ensures left { spec.HasLeft result (spec.part_form operand.entry) }
{
    match form {
        ExprForm::Number(number) => Shape::Number(*number),
        ExprForm::Char(code) => Shape::Char(*code),
        ExprForm::Bool(value) => Shape::Bool(*value),
        ExprForm::Text(text) => Shape::Text(*text),
        ExprForm::Null => Shape::Null,
        ExprForm::Local(number) => Shape::Local(*number),
        ExprForm::Call {
            function,
            arguments,
            delimiters,
        } => Shape::Call {
            function: *function,
            arguments,
            delimiters,
        },
        ExprForm::Construct {
            structure,
            elements,
            delimiters,
        } => Shape::Construct {
            structure: *structure,
            elements,
            delimiters,
        },
        ExprForm::Paren { closing } => Shape::Paren {
            inner: operand,
            closing: *closing,
        },
        ExprForm::Move(number) => Shape::Move(*number),
        ExprForm::MakeUnique {
            element,
            argument,
            closing,
        } => Shape::MakeUnique {
            element: *element,
            argument: argument_of(argument),
            closing: *closing,
        },
        ExprForm::TextOf { closing } => Shape::TextOf {
            inner: operand,
            closing: *closing,
        },
        ExprForm::Input => Shape::Input,
        ExprForm::Member(member) => Shape::Member {
            base: operand,
            member: *member,
        },
        ExprForm::Dereference => Shape::Dereference(operand),
        ExprForm::Index { index, closing } => Shape::Index {
            base: operand,
            index: Part::of(index),
            closing: *closing,
        },
        ExprForm::Method {
            method,
            arguments,
            delimiters,
        } => Shape::Method {
            base: operand,
            method: *method,
            arguments,
            delimiters,
        },
        ExprForm::Negate => Shape::Negate(operand),
        ExprForm::Not => Shape::Not(operand),
        ExprForm::AddressOf => Shape::AddressOf(operand),
        ExprForm::Binary { operator, right } => Shape::Binary {
            operator: *operator,
            left: operand,
            right: Part::of(right),
        },
    }
}

fn argument_of(argument: &Option<Box<TypedExpr>>) -> Option<Part<'_>>
    ensures { spec.part_form result ≡ spec.argument_form argument.now }
{
    match argument {
        Some(argument) => Some(Part::of(argument)),
        None => None,
    }
}
