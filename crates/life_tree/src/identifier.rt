// Names, and the names of the library, where they stand.
use life_types::{NameId, Place};

/// A name where it stands (ISO/IEC 14882:2017 [lex.name]).
#[derive(Clone, Copy)]
pub struct Identifier {
    /// Its number in the table of the program's names.
    pub id: NameId,
    /// Where it stands.
    pub place: Place,
}

/// A word of a namespace, as `std::string`: where its three tokens stand ([expr.prim.id.qual]).
#[derive(Clone, Copy)]
pub struct Qualified {
    /// The namespace.
    pub namespace: Place,
    /// The `::`.
    pub scope: Place,
    /// The word.
    pub word: Place,
}
