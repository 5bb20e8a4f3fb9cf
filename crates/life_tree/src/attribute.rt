// Attributes.
use crate::identifier::Identifier;
use life_types::Place;

/// `"[" "[" ANY [ "::" ANY ] [ "(" word { "," word } ")" ] "]" "]"` (ISO/IEC 14882:2017
/// [dcl.attr.grammar]). Any name may stand in it, also `std`.
#[derive(Drop)]
pub struct Attribute {
    /// The first `[`.
    pub outer_opening: Place,
    /// The second `[`.
    pub inner_opening: Place,
    /// The name, or its namespace where `scope` is there.
    pub name: Identifier,
    /// The name behind a namespace.
    pub scope: Option<AttributeScope>,
    /// The words in parentheses.
    pub arguments: Option<AttributeArguments>,
    /// The first `]`.
    pub inner_closing: Place,
    /// The second `]`.
    pub outer_closing: Place,
}

/// `"::" ANY`.
#[derive(Clone, Copy)]
pub struct AttributeScope {
    /// The `::`.
    pub scope: Place,
    /// The name.
    pub name: Identifier,
}

/// `"(" word { "," word } ")"`.
#[derive(Drop)]
pub struct AttributeArguments {
    /// The `(`.
    pub opening: Place,
    /// The words, at least one.
    pub words: Vec<AttributeWord>,
    /// The commas between them.
    pub commas: Vec<Place>,
    /// The `)`.
    pub closing: Place,
}

/// `ANY | "static"`.
#[derive(Clone, Copy)]
pub enum AttributeWord {
    /// A name.
    Name(Identifier),
    /// `static`.
    Static(Place),
}
