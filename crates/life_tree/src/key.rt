// Tokens by their kind and value.
use life_types::NameId;

/// A token by its kind and value, without its place.
#[derive(Clone, Copy, Debug, PartialEq, Eq)]
pub enum TokenKey {
    /// A keyword or a mark, or a name that a rule of the grammar quotes, as `std` and `vector`: one
    /// of the constants of `fixed`.
    Fixed(u16),
    /// A name, by its number in the table of the program's names (ISO/IEC 14882:2017 [lex.name]).
    Name(NameId),
    /// A decimal number; at most 2^63 - 1 where it was read from a file ([lex.icon]).
    Number(u64),
    /// A character literal, by the value of its `char` ([lex.ccon]).
    Char(u8),
    /// A string literal, by its number in the table of the program's texts ([lex.string]).
    Text(u32),
}
