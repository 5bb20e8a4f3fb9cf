// The numbers of the words and marks that rules of the grammar quote, by their texts.
ghost use Rattle.std.specs.Prelude.{◌≡◌, ℕ, List, [], ◌∷◌, map};
ghost use Rattle.life_keys.specs.Keys as keys;
ghost use Rattle.life_keys.specs.Words as spec;

use crate::before::Before;
use life_tree::fixed;

/// The number of a text among these.
fn number_in(words: &[(u16, &[u8])], text: &[u8]) -> Option<u16>
    ensures { result ≡ spec.number_in (map (λ w. (w.0, w.1.now)) words.now) text.now }
{
    for word in words {
        if word.1 == text {
            return Some(word.0);
        }
    }
    None
}

/// The keywords that begin with this byte: so a word is compared with a few of them alone.
#[tactic(auto, unfolding(crate::specs::Words::keywords))]
fn keywords_from(first: u8) -> &'static [(u16, &'static [u8])]
    ensures { (rest : List ℕ) → spec.number_in (map (λ w. (w.0, w.1.now)) result.now) (first ∷ rest) ≡ spec.number_in spec.keywords (first ∷ rest) }
{
    match first {
        b'a' => &[(fixed::AUTO, b"auto")],
        b'b' => &[(fixed::BOOL, b"bool"), (fixed::BREAK, b"break")],
        b'c' => &[
            (fixed::CHAR, b"char"),
            (fixed::CONST, b"const"),
            (fixed::CONTINUE, b"continue"),
        ],
        b'e' => &[(fixed::ELSE, b"else")],
        b'f' => &[(fixed::FALSE, b"false"), (fixed::FOR, b"for")],
        b'i' => &[(fixed::IF, b"if"), (fixed::INT, b"int")],
        b'l' => &[(fixed::LONG, b"long")],
        b'n' => &[(fixed::NULLPTR, b"nullptr")],
        b'r' => &[(fixed::RETURN, b"return")],
        b's' => &[(fixed::STATIC, b"static"), (fixed::STRUCT, b"struct")],
        b't' => &[(fixed::TRUE, b"true")],
        b'v' => &[(fixed::VOID, b"void")],
        b'w' => &[(fixed::WHILE, b"while")],
        _ => &[],
    }
}

/// The number of a keyword that a rule quotes.
pub(crate) fn keyword_number(text: &[u8]) -> Option<u16>
    ensures { result ≡ spec.number_in spec.keywords text.now }
{
    match text {
        [] => None,
        [first, ..] => number_in(keywords_from(*first), text),
    }
}

/// The number of a mark of one byte.
#[tactic(auto, unfolding(crate::specs::Words::marks))]
fn short_mark(b: u8) -> Option<u16>
    ensures { result ≡ spec.number_in spec.marks (b ∷ []) }
{
    match b {
        b'{' => Some(fixed::LEFT_BRACE),
        b'}' => Some(fixed::RIGHT_BRACE),
        b'(' => Some(fixed::LEFT_PAREN),
        b')' => Some(fixed::RIGHT_PAREN),
        b'[' => Some(fixed::LEFT_BRACKET),
        b']' => Some(fixed::RIGHT_BRACKET),
        b';' => Some(fixed::SEMICOLON),
        b',' => Some(fixed::COMMA),
        b'.' => Some(fixed::DOT),
        b'-' => Some(fixed::MINUS),
        b'&' => Some(fixed::AMPERSAND),
        b'*' => Some(fixed::STAR),
        b'+' => Some(fixed::PLUS),
        b'/' => Some(fixed::SLASH),
        b'%' => Some(fixed::PERCENT),
        b'!' => Some(fixed::NOT),
        b'=' => Some(fixed::ASSIGN),
        b'<' => Some(fixed::LESS),
        b'>' => Some(fixed::GREATER),
        b':' => Some(fixed::COLON),
        _ => None,
    }
}

/// The number of a mark of two bytes.
#[tactic(auto, unfolding(crate::specs::Words::marks))]
fn long_mark(first: u8, second: u8) -> Option<u16>
    ensures { result ≡ spec.number_in spec.marks (first ∷ second ∷ []) }
{
    match (first, second) {
        (b'-', b'>') => Some(fixed::ARROW),
        (b'&', b'&') => Some(fixed::AND_AND),
        (b'|', b'|') => Some(fixed::OR_OR),
        (b'=', b'=') => Some(fixed::EQUAL),
        (b'!', b'=') => Some(fixed::NOT_EQUAL),
        (b'<', b'=') => Some(fixed::LESS_EQUAL),
        (b'>', b'=') => Some(fixed::GREATER_EQUAL),
        (b'<', b'<') => Some(fixed::SHIFT_LEFT),
        (b'+', b'+') => Some(fixed::PLUS_PLUS),
        (b'-', b'-') => Some(fixed::MINUS_MINUS),
        (b'+', b'=') => Some(fixed::PLUS_ASSIGN),
        (b'-', b'=') => Some(fixed::MINUS_ASSIGN),
        (b'*', b'=') => Some(fixed::STAR_ASSIGN),
        (b'/', b'=') => Some(fixed::SLASH_ASSIGN),
        (b'%', b'=') => Some(fixed::PERCENT_ASSIGN),
        (b':', b':') => Some(fixed::SCOPE),
        _ => None,
    }
}

/// The number of a mark that a rule quotes.
#[tactic(auto, unfolding(crate::specs::Words::marks))]
pub(crate) fn mark_number(text: &[u8]) -> Option<u16>
    ensures { result ≡ spec.number_in spec.marks text.now }
{
    match text {
        [b] => short_mark(*b),
        [first, second] => long_mark(*first, *second),
        _ => None,
    }
}

/// The names that begin with this byte and are such in attributes alone.
#[tactic(auto, unfolding(crate::specs::Words::reserved))]
fn reserved_from(first: u8) -> &'static [(u16, &'static [u8])]
    ensures { (rest : List ℕ) → spec.number_in (map (λ w. (w.0, w.1.now)) result.now) (first ∷ rest) ≡ spec.number_in spec.reserved (first ∷ rest) }
{
    match first {
        b'a' => &[(fixed::ASSERT, b"assert")],
        b'g' => &[(fixed::GSL, b"gsl")],
        b'l' => &[(fixed::LIFE, b"life")],
        b's' => &[(fixed::STD, b"std")],
        _ => &[],
    }
}

/// The number of a name that is one in attributes alone.
fn reserved_number(text: &[u8]) -> Option<u16>
    ensures { result ≡ spec.number_in spec.reserved text.now }
{
    match text {
        [] => None,
        [first, ..] => number_in(reserved_from(*first), text),
    }
}

/// The number of a name that a rule quotes behind `::`.
fn library_number(text: &[u8]) -> Option<u16>
    ensures { result ≡ spec.number_in spec.library text.now }
{
    number_in(
        &[
            (fixed::SIZE_T, b"size_t"),
            (fixed::STRING, b"string"),
            (fixed::STRING_VIEW, b"string_view"),
            (fixed::VECTOR, b"vector"),
            (fixed::ITERATOR, b"iterator"),
            (fixed::CONST_ITERATOR, b"const_iterator"),
            (fixed::UNIQUE_PTR, b"unique_ptr"),
            (fixed::SPAN, b"span"),
            (fixed::COUT, b"cout"),
            (fixed::ENDL, b"endl"),
            (fixed::MOVE, b"move"),
            (fixed::MAKE_UNIQUE, b"make_unique"),
            (fixed::INPUT, b"input"),
        ],
        text,
    )
}

/// The number of a name that a rule quotes there.
pub(crate) fn quoted_name(before: Before, text: &[u8]) -> Option<u16>
    ensures { result ≡ keys.quoted_name before text.now }
{
    match before {
        Before::Attribute => None,
        Before::Scope => match library_number(text) {
            Some(number) => Some(number),
            None => reserved_number(text),
        },
        Before::Other | Before::Bracket => reserved_number(text),
    }
}
