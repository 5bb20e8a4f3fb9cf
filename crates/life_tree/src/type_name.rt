// Types as they are written.
use crate::identifier::{Identifier, Qualified};
use life_types::Place;

/// `[ "const" ] base [ "*" | "&" ]` (ISO/IEC 14882:2017 [dcl.name]).
#[cycle(type_names)]
pub struct TypeName {
    /// Where `const` stands.
    pub constant: Option<Place>,
    /// What it is without `const`, `*` and `&`.
    pub base: Base,
    /// `*` or `&`.
    pub suffix: Option<Suffix>,
}

// By hand, so that letting one go is a call, and not a walk over its parts in each crate.
impl Drop for TypeName {
    #[cycle(type_names)]
    fn drop(self) {
        let TypeName {
            constant: _,
            base: _base,
            suffix: _,
        } = self;
    }
}

/// A type without `const`, `*` and `&` ([dcl.type.simple]).
#[cycle(type_names)]
#[derive(Drop)]
pub enum Base {
    /// `bool`.
    Bool(Place),
    /// `char`.
    Char(Place),
    /// `int`.
    Int(Place),
    /// `long`.
    Long(Place),
    /// The name of a struct.
    Named(Identifier),
    /// `std::size_t`.
    SizeT(Qualified),
    /// `std::string`.
    Text(Qualified),
    /// `std::string_view`.
    View(Qualified),
    /// `std::vector<T>`, or one of its iterators.
    Vector {
        name: Qualified,
        element: TypeArgument,
        iterator: Option<IteratorName>,
    },
    /// `std::unique_ptr<T>`.
    UniquePtr {
        name: Qualified,
        element: TypeArgument,
    },
    /// `gsl::span<T>`.
    Span {
        name: Qualified,
        element: TypeArgument,
    },
}

/// `"<" type ">"` ([temp.names]).
#[cycle(type_names)]
#[derive(Drop)]
pub struct TypeArgument {
    /// The `<`.
    pub opening: Place,
    /// The type.
    pub ty: Box<TypeName>,
    /// The `>`.
    pub closing: Place,
}

/// `*` or `&` behind a type ([dcl.ptr], [dcl.ref]).
#[derive(Clone, Copy)]
pub enum Suffix {
    /// `*`.
    Pointer(Place),
    /// `&`.
    Reference(Place),
}

/// `"::" ( "iterator" | "const_iterator" )`.
#[derive(Clone, Copy)]
pub struct IteratorName {
    /// The `::`.
    pub scope: Place,
    /// Which of the two.
    pub kind: IteratorKind,
    /// The word.
    pub word: Place,
}

/// `iterator` or `const_iterator`.
#[derive(Clone, Copy)]
pub enum IteratorKind {
    /// `iterator`.
    Mutable,
    /// `const_iterator`.
    Constant,
}
