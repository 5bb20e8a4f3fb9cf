// The tokens of a whole file by their keys.
ghost use Rattle.std.specs.Prelude.{◌≡◌, ◌<◌, ◌^◌, All, map, length, IfOk};
ghost use Rattle.life_keys.specs.Keys as spec;
ghost use Rattle.life_lex.specs.Answers.{lexeme, NumberFits};

use crate::keyer::Keyer;
use life_lex::Token;
use life_tree::TreeToken;
use life_types::NoMemory;
use std::alloc::Global;

/// The tokens of a file by their keys, with the tables of its names and texts.
#[derive(Drop)]
pub struct KeyedTokens {
    /// The tokens in their order.
    pub tokens: Vec<TreeToken>,
    /// The names by their numbers: each once, in the order in which they first stand.
    pub names: Vec<Vec<u8>>,
    /// The contents of the string literals by their numbers: each once, in the order in which they
    /// first stand.
    pub texts: Vec<Vec<u8>>,
}

/// The tokens of a file by their keys, with the tables of its names and texts.
///
/// # Errors
///
/// For want of memory.
pub fn keyed(alloc: Global, lexed: &[Token]) -> Result<KeyedTokens, NoMemory>
    requires numbers { All NumberFits (map lexeme lexed.now) }
    requires count { length lexed.now < 2 ^ 32 }
    ensures tokens { IfOk result (λ keyed. keyed.tokens.items ≡ spec.file_tokens (map lexeme lexed.now)) }
    ensures names { IfOk result (λ keyed. map (λ name. name.items) keyed.names.items ≡ (spec.file_tables (map lexeme lexed.now)).names) }
    ensures texts { IfOk result (λ keyed. map (λ text. text.items) keyed.texts.items ≡ (spec.file_tables (map lexeme lexed.now)).texts) }
{
    let mut keyer = Keyer::new(alloc);
    let mut tokens = Vec::with_capacity(alloc, lexed.len())?;
    for token in lexed {
        let key = keyer.key(token)?;
        tokens.push(TreeToken {
            key,
            place: token.place,
        })?;
    }
    let (names, texts) = keyer.finish()?;
    Ok(KeyedTokens {
        tokens,
        names,
        texts,
    })
}
