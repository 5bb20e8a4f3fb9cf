// What stands before a token.
ghost use Rattle.std.specs.Prelude.{◌≡◌};
ghost use Rattle.life_keys.specs.Keys as spec;

use life_tree::{TokenKey, fixed};

/// What stands before a token, as far as it says whether a name there is a word that a rule quotes.
#[derive(Clone, Copy, Debug, PartialEq, Eq)]
pub enum Before {
    /// None of the others.
    Other,
    /// A `::`, outside of an attribute.
    Scope,
    /// A `[`, outside of an attribute.
    Bracket,
    /// The `[[` of an attribute (ISO/IEC 14882:2017 [dcl.attr.grammar]) and no `]` behind it: every
    /// name there is just a name.
    Attribute,
}

impl Before {
    /// What stands before the next token, behind one that a rule quotes.
    fn behind_fixed(self, number: u16) -> Before
        ensures { result ≡ spec.before_fixed self number }
    {
        match self {
            Before::Attribute => {
                if number == fixed::RIGHT_BRACKET {
                    Before::Other
                } else {
                    Before::Attribute
                }
            }
            Before::Bracket if number == fixed::LEFT_BRACKET => Before::Attribute,
            Before::Other | Before::Scope | Before::Bracket => {
                if number == fixed::LEFT_BRACKET {
                    Before::Bracket
                } else if number == fixed::SCOPE {
                    Before::Scope
                } else {
                    Before::Other
                }
            }
        }
    }

    /// What stands before the next token, behind a token with this key.
    pub(crate) fn next(self, key: TokenKey) -> Before
        ensures { result ≡ spec.before_next self key }
    {
        match key {
            TokenKey::Fixed(number) => self.behind_fixed(number),
            TokenKey::Name(_) | TokenKey::Number(_) | TokenKey::Char(_) | TokenKey::Text(_) => {
                match self {
                    Before::Attribute => Before::Attribute,
                    Before::Other | Before::Scope | Before::Bracket => Before::Other,
                }
            }
        }
    }
}
