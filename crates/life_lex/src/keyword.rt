//! The words that no name may be.

ghost use Rattle.std.specs.Prelude.{◌≡◌, ℕ, List, ◌∷◌, map};
ghost use Rattle.std.specs.Str.{bytes_eq};
ghost use Rattle.life_lex.specs.Keywords as spec;

/// Whether two words are the same: most differ in their lengths, which costs no call.
fn is_same(word: &[u8], other: &[u8]) -> bool
    ensures { result ≡ bytes_eq word.now other.now }
{
    word.len() == other.len() && word == other
}

/// Whether a word is one of these.
fn is_one_of(word: &[u8], words: &[&[u8]]) -> bool
    ensures { result ≡ spec.is_one_of word.now (map (λ w. w.now) words.now) }
{
    for other in words {
        if is_same(other, word) {
            return true;
        }
    }
    false
}

/// The keywords that begin with this byte: so a name is compared with a few of them alone.
#[tactic(auto, unfolding(crate::specs::Keywords::is_keyword))]
fn keywords_from(first: u8) -> &'static [&'static [u8]]
    ensures { (rest : List ℕ) → spec.is_one_of (first ∷ rest) (map (λ w. w.now) result.now) ≡ spec.is_keyword (first ∷ rest) }
{
    match first {
        b'a' => &[b"alignas", b"alignof", b"asm", b"auto", b"and", b"and_eq"],
        b'b' => &[b"bool", b"break", b"bitand", b"bitor"],
        b'c' => &[
            b"case",
            b"catch",
            b"char",
            b"char16_t",
            b"char32_t",
            b"class",
            b"const",
            b"const_cast",
            b"constexpr",
            b"continue",
            b"compl",
        ],
        b'd' => &[
            b"decltype",
            b"default",
            b"delete",
            b"do",
            b"double",
            b"dynamic_cast",
        ],
        b'e' => &[b"else", b"enum", b"explicit", b"export", b"extern"],
        b'f' => &[b"false", b"float", b"for", b"friend"],
        b'g' => &[b"goto"],
        b'i' => &[b"if", b"inline", b"int"],
        b'l' => &[b"long"],
        b'm' => &[b"mutable"],
        b'n' => &[
            b"namespace",
            b"new",
            b"noexcept",
            b"nullptr",
            b"not",
            b"not_eq",
        ],
        b'o' => &[b"operator", b"or", b"or_eq"],
        b'p' => &[b"private", b"protected", b"public"],
        b'r' => &[b"register", b"reinterpret_cast", b"return"],
        b's' => &[
            b"short",
            b"signed",
            b"sizeof",
            b"static",
            b"static_assert",
            b"static_cast",
            b"struct",
            b"switch",
        ],
        b't' => &[
            b"template",
            b"this",
            b"thread_local",
            b"throw",
            b"true",
            b"try",
            b"typedef",
            b"typeid",
            b"typename",
        ],
        b'u' => &[b"union", b"unsigned", b"using"],
        b'v' => &[b"virtual", b"void", b"volatile"],
        b'w' => &[b"wchar_t", b"while"],
        b'x' => &[b"xor", b"xor_eq"],
        _ => &[],
    }
}

/// Whether a word is a keyword of C++17 (ISO/IEC 14882:2017 [lex.key]), or one of the words for
/// operators, such as `and`, which the standard treats as operators ([lex.digraph]) and the subset
/// does not have.
#[tactic(auto, unfolding(crate::specs::Keywords::is_keyword))]
pub(crate) fn is_keyword(word: &[u8]) -> bool
    ensures { result ≡ spec.is_keyword word.now }
{
    match word {
        [] => false,
        [first, ..] => is_one_of(word, keywords_from(*first)),
    }
}
