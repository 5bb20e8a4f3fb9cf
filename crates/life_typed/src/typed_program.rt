// Programs with their types.
use crate::typed_stmt::TypedBlock;
use life_types::{NameId, Place, TyId, TypeTable};

/// A variable or a parameter.
#[derive(Clone, Copy)]
pub struct TypedLocal {
    /// Its name.
    pub name: NameId,
    /// Where its name stands where it is declared.
    pub place: Place,
    /// Its type as declared, a reference type too.
    pub ty: TyId,
    /// Whether it may not be changed: `const` before a type that is neither a raw pointer nor a
    /// reference, where it belongs to what is pointed to (ISO/IEC 14882:2017 [dcl.type.cv]).
    pub constant: bool,
}

/// What the attributes of a parameter say.
#[derive(Clone, Copy)]
pub struct ParameterPromise {
    /// `[[life::nonnull]]`: no null is handed in.
    pub nonnull: bool,
    /// `[[life::keeps]]`: no Owner at or under it is changed.
    pub keeps: bool,
}

/// What a function promises of the pointers in its result.
#[derive(Drop)]
pub enum ResultPromise {
    /// What the profile takes where nothing is said.
    Default,
    /// `[[life::ret(..)]]`: these parameters by their numbers, and the words `static` and `null`.
    Listed {
        parameters: Vec<u32>,
        fixed: bool,
        null: bool,
    },
}

/// A function with its body.
#[derive(Drop)]
pub struct TypedFunction {
    /// Its name.
    pub name: NameId,
    /// Where its name stands where it has its body.
    pub place: Place,
    /// Where its name stands where it is declared first.
    pub first_place: Place,
    /// The type of its result, which may be `void` or a reference type.
    pub result: TyId,
    /// What the attributes say of each parameter, in their order.
    pub parameters: Vec<ParameterPromise>,
    /// What is promised of the pointers in the result.
    pub promise: ResultPromise,
    /// The parameters, and then the variables in the order of their declarations.
    pub locals: Vec<TypedLocal>,
    /// Its body.
    pub body: TypedBlock,
}

/// A struct.
#[derive(Drop)]
pub struct TypedStruct {
    /// Its name.
    pub name: NameId,
    /// Where its name stands.
    pub place: Place,
    /// The names of its members; their types are in the table.
    pub members: Vec<NameId>,
}

/// A file with a type at each expression and each name resolved.
pub struct Typed {
    /// The names by their numbers.
    pub names: Vec<Vec<u8>>,
    /// The string literals by their numbers.
    pub texts: Vec<Vec<u8>>,
    /// The types of the program, which begin with the eight that have no parts.
    pub types: TypeTable,
    /// The structs by their numbers, which are those of the table.
    pub structs: Vec<TypedStruct>,
    /// Each function once, in the order of the first declarations.
    pub functions: Vec<TypedFunction>,
}

// By hand, so that letting one go is a call, and not a walk over its parts in each crate.
impl Drop for Typed {
    fn drop(self) {
        let Typed {
            names: _names,
            texts: _texts,
            types: _types,
            structs: _structs,
            functions: _functions,
        } = self;
    }
}
