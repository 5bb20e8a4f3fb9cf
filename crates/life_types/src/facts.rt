// What a table keeps with each type.
ghost use Rattle.std.specs.Prelude.{◌≡◌, ◌≤◌, ◌^◌};
ghost use Rattle.life_types.specs.Facts.{together};

// What follows for a type from its parts: whether it is plain, whether it holds an owner, whether it
// holds a `std::unique_ptr`, and how many words it has, at most `MOST_WORDS`.
#[derive(Clone, Copy)]
pub(crate) struct Facts {
    pub(crate) plain: bool,
    pub(crate) owner: bool,
    pub(crate) unique: bool,
    pub(crate) words: u64,
}

// 2^48; more words aren't told apart.
const MOST_WORDS: u64 = 1 << 48;

pub(crate) const VALUE: Facts = Facts {
    plain: true,
    owner: false,
    unique: false,
    words: 1,
};

pub(crate) const POINTER: Facts = Facts {
    plain: false,
    owner: false,
    unique: false,
    words: 5,
};

pub(crate) const TEXT: Facts = Facts {
    plain: true,
    owner: true,
    unique: false,
    words: 1,
};

pub(crate) const UNIQUE: Facts = Facts {
    plain: false,
    owner: true,
    unique: true,
    words: 1,
};

pub(crate) const NO_MEMBERS: Facts = Facts {
    plain: true,
    owner: false,
    unique: false,
    words: 0,
};

// The facts of the members of a struct, some and one more.
pub(crate) fn together(a: Facts, b: Facts) -> Facts
    requires few { a.words ≤ 2 ^ 48 }
    requires few_more { b.words ≤ 2 ^ 48 }
    ensures { result ≡ together a b }
{
    Facts {
        plain: a.plain && b.plain,
        owner: a.owner || b.owner,
        unique: a.unique || b.unique,
        words: (a.words + b.words).min(MOST_WORDS),
    }
}
