//! The trees of source files: one type for each rule of the grammar.
//!
//! The grammar is a subset of ISO/IEC 14882:2017 [gram]. It has no preprocessor, no templates but
//! the named ones of the library, one declarator a declaration, and no statements that the lifetime
//! profile does not speak of. Each node keeps where the tokens of its own rule stand.
#![tactic(auto)]

mod arithmetic;
mod attribute;
mod comparison;
mod declaration;
mod expr;
pub mod fixed;
mod function;
mod identifier;
mod key;
mod limit;
mod operator;
mod primary;
mod program;
mod simple;
mod stmt;
mod token;
mod type_name;

pub use arithmetic::{Additive, AdditivePart, Multiplicative, MultiplicativePart};
pub use attribute::{Attribute, AttributeArguments, AttributeScope, AttributeWord};
pub use comparison::{Equality, EqualityPart, Relational, RelationalPart};
pub use declaration::{AutoType, Declaration, DeclaredType, InitialValue, Initializer};
pub use expr::{AndPart, Arguments, Expr, InitList, LogicalAnd, OrPart};
pub use function::{Function, FunctionBody, Parameter, ResultType};
pub use identifier::{Identifier, Qualified};
pub use key::TokenKey;
pub use limit::{LimitFault, LimitName};
pub use operator::{
    AdditiveOperator, CompoundOperator, EqualityOperator, MultiplicativeOperator, PrefixOperator,
    RelationalOperator, StepOperator,
};
pub use primary::{Postfix, PostfixPart, Primary, Unary};
pub use program::{Definition, Member, Program, StructDefinition};
pub use simple::{Simple, Target};
pub use stmt::{
    Block, BlockItem, Branch, Else, ElseIf, For, ForStart, If, PlainStmt, PrintItem, PrintPart,
    RangeFor, Stmt,
};
pub use token::TreeToken;
pub use type_name::{Base, IteratorKind, IteratorName, Suffix, TypeArgument, TypeName};
