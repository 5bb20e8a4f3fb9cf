// Declarations of variables.
use crate::expr::{Expr, InitList};
use crate::identifier::Identifier;
use crate::type_name::TypeName;
use life_types::Place;

/// `dtype NAME [ "=" ( expr | list ) | list ]` (ISO/IEC 14882:2017 [dcl.decl]): one variable.
#[derive(Drop)]
pub struct Declaration {
    /// The type that is declared.
    pub ty: DeclaredType,
    /// The variable.
    pub name: Identifier,
    /// What it is given.
    pub initializer: Option<Initializer>,
}

/// `type | [ "const" ] "auto" [ "&" ]` ([dcl.spec.auto]).
#[derive(Drop)]
pub enum DeclaredType {
    /// A type that is written.
    Written(TypeName),
    /// The type of what the variable is given.
    Auto(AutoType),
}

/// `[ "const" ] "auto" [ "&" ]`.
#[derive(Clone, Copy)]
pub struct AutoType {
    /// Where `const` stands.
    pub constant: Option<Place>,
    /// The `auto`.
    pub keyword: Place,
    /// Where `&` stands.
    pub reference: Option<Place>,
}

/// What a variable is given ([dcl.init]).
#[derive(Drop)]
pub enum Initializer {
    /// `"=" ( expr | list )`.
    Equals { equals: Place, value: InitialValue },
    /// A list alone.
    List(InitList),
}

/// `expr | list`: what stands behind a `=`.
#[derive(Drop)]
pub enum InitialValue {
    /// An expression.
    Expr(Box<Expr>),
    /// A list.
    List(InitList),
}
