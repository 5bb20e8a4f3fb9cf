// Expressions with their types.
ghost use Rattle.std.specs.Prelude.{◌≡◌, IfOk};
ghost use Rattle.life_typed.specs.TypedForm.{applied, form_view, typed_view};

use crate::delimiters::Delimiters;
use life_types::{NoMemory, Place, Ty, TyId};
use std::vec::Vec;

/// What an expression is before anything is initialised with it.
#[derive(Clone, Copy, Debug, PartialEq, Eq)]
pub enum ExprType {
    /// Of a type.
    Of(Ty),
    /// `nullptr`, which converts to any raw pointer and any `std::unique_ptr`.
    NullPointer,
    /// A string literal, which stands only where it converts.
    TextLiteral,
}

/// The value category of an expression (ISO/IEC 14882:2017 [basic.lval]).
#[derive(Clone, Copy, Debug, PartialEq, Eq)]
pub enum Category {
    /// A value.
    Value,
    /// A place that holds an object of this type, which may be changed through it or not.
    Place { ty: TyId, constant: bool },
}

/// An operator between two operands.
#[derive(Clone, Copy, Debug, PartialEq, Eq)]
pub enum BinaryOperator {
    /// `||`, whose right operand is read only where the left one doesn't hold
    /// (ISO/IEC 14882:2017 [expr.log.or]).
    Or,
    /// `&&`, whose right operand is read only where the left one holds ([expr.log.and]).
    And,
    /// `==` ([expr.eq]).
    Equal,
    /// `!=`.
    NotEqual,
    /// `<` ([expr.rel]).
    Less,
    /// `<=`.
    LessEqual,
    /// `>`.
    Greater,
    /// `>=`.
    GreaterEqual,
    /// `+` ([expr.add], [string.op+]).
    Add,
    /// `-`.
    Subtract,
    /// `*` ([expr.mul]).
    Multiply,
    /// `/`.
    Divide,
    /// `%`.
    Remainder,
}

/// A member function of the library's types.
#[derive(Clone, Copy, Debug, PartialEq, Eq)]
pub enum Method {
    /// How many elements there are.
    Size,
    /// Whether there are none.
    Empty,
    /// The first element of a vector.
    Front,
    /// Its last element.
    Back,
    /// The iterator at its first element.
    Begin,
    /// The iterator behind its last element.
    End,
    /// One more element, at the end of a vector or string.
    PushBack,
    /// One element less, at the end of a vector.
    PopBack,
    /// No more elements.
    Clear,
    /// Room for so many elements of a vector.
    Reserve,
    /// Without the element at an iterator; it answers the iterator behind.
    Erase,
    /// The raw pointer to what a `std::unique_ptr` owns.
    Get,
    /// A `std::unique_ptr` that owns nothing any more.
    Reset,
    /// A part of a span, by where it begins and its size.
    Subspan,
    /// A part of a view, by where it begins and at most so many characters.
    Substr,
}

/// An expression with its type.
#[cycle(typed_expr)]
pub struct TypedExpr {
    /// Where its own token stands: a name, a literal, an operator, the `[`, the member behind `.`
    /// or `->`, the called name, or the word behind `std::` and `life::`. An expression in
    /// parentheses stands where what it holds does.
    pub place: Place,
    /// Its type; of a place, the type of what stands there, and never a reference type.
    pub ty: ExprType,
    /// Whether it is a place.
    pub category: Category,
    /// What it is made of.
    pub form: ExprForm,
    /// What its form is applied to, if to an operand, as what is within that is applied to what is
    /// within it: from the innermost operand on. So a chain of operators is as long as this list,
    /// and no deeper than one of its operands.
    pub within: Vec<TypedOperand>,
}

/// An operand to which what stands around or behind it is applied.
#[cycle(typed_expr)]
#[derive(Drop)]
pub struct TypedOperand {
    pub place: Place,
    pub ty: ExprType,
    pub category: Category,
    pub form: ExprForm,
}

/// What an expression is made of. A form that is applied to an operand, the left one of two, doesn't
/// hold it.
#[cycle(typed_expr)]
#[derive(Drop)]
pub enum ExprForm {
    /// A number.
    Number(u64),
    /// A character literal, by the value of its `char`.
    Char(u8),
    /// `true` or `false`.
    Bool(bool),
    /// A string literal, by its number in the table of texts.
    Text(u32),
    /// `nullptr`.
    Null,
    /// A variable or parameter, by its number in its function.
    Local(u32),
    /// A call of a function, by its number in the program.
    Call {
        function: u32,
        arguments: Vec<TypedExpr>,
        delimiters: Box<Delimiters>,
    },
    /// A struct made of a list: one element for each member, or none.
    Construct {
        structure: u32,
        elements: Vec<TypedExpr>,
        delimiters: Box<Delimiters>,
    },
    /// An expression in parentheses.
    Paren {
        closing: Place,
    },
    /// `std::move` of a variable or parameter.
    Move(u32),
    /// `std::make_unique`.
    MakeUnique {
        element: TyId,
        argument: Option<Box<TypedExpr>>,
        closing: Place,
    },
    /// `std::string(e)`.
    TextOf {
        closing: Place,
    },
    /// `life::input()`.
    Input,
    /// A member of a struct, by its number there.
    Member(u32),
    /// What an operand points to; `e->m` is the member of this.
    Dereference,
    /// `e[i]`.
    Index {
        index: Box<TypedExpr>,
        closing: Place,
    },
    /// A member function of one of the library's types.
    Method {
        method: Method,
        arguments: Vec<TypedExpr>,
        delimiters: Box<Delimiters>,
    },
    /// `-e`.
    Negate,
    /// `!e`.
    Not,
    /// `&e`.
    AddressOf,
    /// Two operands with an operator between them.
    Binary {
        operator: BinaryOperator,
        right: Box<TypedExpr>,
    },
}

// By hand, so that what lets an expression go calls this and doesn't take its parts one by one.
impl Drop for TypedExpr {
    #[cycle(typed_expr)]
    fn drop(self) {
        let TypedExpr {
            place: _,
            ty: _,
            category: _,
            form: _form,
            within: _within,
        } = self;
    }
}

impl TypedExpr {
    /// What a form makes of an operand to which it is applied.
    #[tactic(auto, using(crate::proofs::Applied::applied_is))]
    pub fn applied(
        self,
        place: Place,
        ty: ExprType,
        category: Category,
        form: ExprForm,
    ) -> Result<TypedExpr, NoMemory>
        ensures { IfOk result (λ e. typed_view e ≡ applied (typed_view self) place ty category (form_view form)) }
    {
        let TypedExpr {
            place: innermost,
            ty: own,
            category: kind,
            form: operand,
            mut within,
        } = self;
        // most operators stand alone
        if within.is_empty() {
            within.reserve_exact(1)?;
        }
        within.push(TypedOperand {
            place: innermost,
            ty: own,
            category: kind,
            form: operand,
        })?;
        Ok(TypedExpr {
            place,
            ty,
            category,
            form,
            within,
        })
    }
}
