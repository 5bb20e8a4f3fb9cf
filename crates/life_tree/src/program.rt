// Whole files.
use crate::function::Function;
use crate::identifier::Identifier;
use crate::type_name::TypeName;
use life_types::Place;

/// `{ struct | function }` (ISO/IEC 14882:2017 [basic.link]), with the tables of its names and texts.
pub struct Program {
    /// The structs and functions in their order.
    pub definitions: Vec<Definition>,
    /// The names by their numbers: each once, in the order in which they first stand.
    pub names: Vec<Vec<u8>>,
    /// The contents of the string literals by their numbers: each once, in the order in which they
    /// first stand.
    pub texts: Vec<Vec<u8>>,
}

// By hand, so that letting one go is a call, and not a walk over its parts in each crate.
impl Drop for Program {
    fn drop(self) {
        let Program {
            definitions: _definitions,
            names: _names,
            texts: _texts,
        } = self;
    }
}

/// `struct | function`.
#[derive(Drop)]
pub enum Definition {
    /// A struct.
    Struct(StructDefinition),
    /// A function.
    Function(Function),
}

/// `"struct" NAME "{" member { member } "}" ";"` ([class]).
#[derive(Drop)]
pub struct StructDefinition {
    /// The `struct`.
    pub keyword: Place,
    /// Its name.
    pub name: Identifier,
    /// The `{`.
    pub opening: Place,
    /// Its members, at least one.
    pub members: Vec<Member>,
    /// The `}`.
    pub closing: Place,
    /// The `;`.
    pub semicolon: Place,
}

/// `type NAME ";"` ([class.mem]).
#[derive(Drop)]
pub struct Member {
    /// Its type.
    pub ty: TypeName,
    /// Its name.
    pub name: Identifier,
    /// The `;`.
    pub semicolon: Place,
}
