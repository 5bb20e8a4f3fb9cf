//! Trees with a type at each expression, and the tables of the type rules: what operators and member
//! functions take and give, and what initialises a type.
#![tactic(auto)]

mod basic;
mod conversions;
mod delimiters;
mod members;
mod method_names;
mod misfit;
mod operators;
mod statements;
mod strings;
mod typed_expr;
mod typed_program;
mod typed_stmt;

pub use basic::{BOOL, CHAR, INT, LONG, SIZE, TEXT, VIEW, VOID, base_types};
pub use conversions::fits;
pub use delimiters::Delimiters;
pub use members::{MethodParameters, has_method, method_answer, method_parameters, mutates};
pub use method_names::method_named;
pub use misfit::Misfit;
pub use operators::{
    combined, dereferenced, indexed, is_condition, negated, promoted, takes_literals,
};
pub use statements::{can_step, compounded, is_printed, range_element};
pub use typed_expr::{
    BinaryOperator, Category, ExprForm, ExprType, Method, TypedExpr, TypedOperand,
};
pub use typed_program::{
    ParameterPromise, ResultPromise, Typed, TypedFunction, TypedLocal, TypedStruct,
};
pub use typed_stmt::{
    TypedBlock, TypedBlockItem, TypedBranch, TypedDeclaration, TypedForHead, TypedForStart,
    TypedInitial, TypedItem, TypedList, TypedSimple, TypedStmt,
};
