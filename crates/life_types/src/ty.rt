// Types, by numbers of a table.

/// The number of a type in a `TypeTable`.
#[derive(Clone, Copy, Debug, PartialEq, Eq, PartialOrd, Ord, Hash)]
pub struct TyId(pub u32);

/// The number of a name in a program's list of names.
#[derive(Clone, Copy, Debug, PartialEq, Eq, PartialOrd, Ord, Hash)]
pub struct NameId(pub u32);

/// A type of the subset. The widths are those that ISO/IEC 14882:2017 [basic.fundamental] leaves
/// open; whether `constant` holds is whether the type that is pointed to is const.
#[derive(Clone, Copy, Debug, PartialEq, Eq, Hash)]
pub enum Ty {
    /// `void`, a result only ([basic.fundamental]).
    Void,
    /// `bool`, 0 or 1 ([basic.fundamental]).
    Bool,
    /// `char`, signed, 8 bits ([basic.fundamental]).
    Char,
    /// `int`, signed, 32 bits ([basic.fundamental]).
    Int,
    /// `long`, signed, 64 bits ([basic.fundamental]).
    Long,
    /// `std::size_t`, unsigned, 64 bits ([support.types.layout]).
    Size,
    /// `std::string`, which owns its characters ([basic.string]).
    Text,
    /// `std::string_view`, which points to characters that don't change through it ([string.view]).
    View,
    /// `std::vector<T>`, which owns its elements ([vector]).
    Vector(TyId),
    /// `std::unique_ptr<T>`, which owns one object or none ([unique.ptr]).
    Unique(TyId),
    /// A raw pointer, `T*` or `const T*` ([dcl.ptr]).
    Raw { target: TyId, constant: bool },
    /// A reference, `T&` or `const T&` ([dcl.ref]).
    Reference { target: TyId, constant: bool },
    /// `std::vector<T>::iterator` or `std::vector<T>::const_iterator` ([vector.overview]).
    Iterator { target: TyId, constant: bool },
    /// `gsl::span<T>` or `gsl::span<const T>`, which points to elements that follow one another. It
    /// isn't the standard's: the C++ Core Guidelines describe it.
    Span { target: TyId, constant: bool },
    /// The struct with this number, whose members the table has ([class]).
    Struct(u32),
}

/// The class of a type, by which the lifetime profile treats its objects (WG21 P1179R1, 2.1).
#[derive(Clone, Copy, Debug, PartialEq, Eq, PartialOrd, Ord, Hash)]
pub enum Class {
    /// A number, which neither owns nor points.
    Value,
    /// What points to an object without owning it.
    Pointer,
    /// What owns the objects that it points to.
    Owner,
    /// A struct, which is taken member by member.
    Aggregate,
}
