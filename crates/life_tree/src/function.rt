// Functions.
use crate::attribute::Attribute;
use crate::identifier::Identifier;
use crate::stmt::Block;
use crate::type_name::TypeName;
use life_types::Place;

/// `{ attribute } ( "void" | type ) NAME "(" [ param { "," param } ] ")" ( block | ";" )` (ISO/IEC
/// 14882:2017 [dcl.fct]).
#[derive(Drop)]
pub struct Function {
    /// Its attributes.
    pub attributes: Vec<Attribute>,
    /// What it answers.
    pub returned: ResultType,
    /// Its name.
    pub name: Identifier,
    /// The `(`.
    pub opening: Place,
    /// Its parameters.
    pub parameters: Vec<Parameter>,
    /// The commas between them.
    pub commas: Vec<Place>,
    /// The `)`.
    pub closing: Place,
    /// Its body.
    pub body: FunctionBody,
}

/// `"void" | type`.
#[derive(Drop)]
pub enum ResultType {
    /// `void`.
    Void(Place),
    /// A type.
    Type(TypeName),
}

/// `block | ";"` ([dcl.fct.def]).
#[derive(Drop)]
pub enum FunctionBody {
    /// A body.
    Block(Block),
    /// None: the function is declared.
    Declared(Place),
}

/// `{ attribute } type NAME`.
#[derive(Drop)]
pub struct Parameter {
    /// Its attributes.
    pub attributes: Vec<Attribute>,
    /// Its type.
    pub ty: TypeName,
    /// Its name.
    pub name: Identifier,
}
