// Words that have one bit for each pair: a bit, and a pair.
ghost use Rattle.std.specs.Prelude.{◌≡◌, ◌||◌, ◌&&◌, ◌==◌, ℕ, ◌+◌, ◌*◌, ◌/◌, ◌%◌, ◌<◌, ◌≤◌, ◌^◌, IsTrue, not, length, bit_or};
ghost use Rattle.life_sets.specs.BitSets.{words_for, has_bit, word_of, contains_bit, IsClean, IsFilled};

// How many words a location has.
pub fn words_for(elements: u32) -> usize
    ensures { result ≡ words_for elements }
{
    (elements as usize).div_ceil(64)
}

// The word of a pair.
pub fn word_of(elements: u32, location: u32, element: u32) -> usize
    ensures { result ≡ word_of elements location element }
{
    location as usize * words_for(elements) + element as usize / 64
}

// Whether a bit of a word is set.
pub fn test_bit(word: u64, place: u32) -> bool
    requires { place < 64 }
    ensures { result ≡ has_bit word place }
{
    (word >> place) & 1 == 1
}

// The word with that bit set.
pub fn set_bit(word: u64, place: u32) -> u64
    requires { place < 64 }
    ensures { result ≡ bit_or word (2 ^ place) }
{
    word | (1 << place)
}

// Whether a pair is in the set.
pub fn test_pair(words: &[u64], locations: u32, elements: u32, l: u32, e: u32) -> bool
    requires { IsFilled locations elements words.now }
    ensures { result ≡ contains_bit locations elements words.now l e }
{
    if l < locations && e < elements {
        let word = words[word_of(elements, l, e)];
        test_bit(word, e % 64)
    } else {
        false
    }
}

// Adds a pair, and says whether it is new.
pub fn set_pair(words: &mut [u64], locations: u32, elements: u32, l: u32, e: u32) -> bool
    requires filled { IsFilled locations elements words.old }
    requires clean { IsClean elements words.old }
    requires location { l < locations }
    requires element { e < elements }
    ensures added { (x y : ℕ) → contains_bit locations elements words.new x y ≡ ((x == l && y == e) || contains_bit locations elements words.old x y) }
    ensures fresh { result ≡ not (contains_bit locations elements words.old l e) }
    ensures clean { IsClean elements words.new }
{
    let k = word_of(elements, l, e);
    let word = words[k];
    let had = test_bit(word, e % 64);
    words[k] = set_bit(word, e % 64);
    !had
}
