// The keys of a text's tokens, and the tables of its names and string literals, a line each.
ghost use Rattle.std.specs.Prelude.{◌<◌, ◌^◌, length};

use life_keys::{KeyedTokens, keyed};
use life_lex::tokens_of_file;
use life_tree::TreeToken;
use life_types::NoMemory;
use std::alloc::{AllocError, Global};

/// A line for each token with its key and the place that trees keep of it, then one for each name, and
/// one for each string literal. Of a text that has no tokens the fault.
pub fn keys(alloc: Global, source: &[u8]) -> Result<String, AllocError>
    requires { length source.now < 2 ^ 28 }
{
    match tokens_of_file(alloc, source) {
        Ok(lexed) => match keyed(alloc, &lexed) {
            Ok(keyed) => keyed_told(alloc, &keyed),
            Err(NoMemory) => Err(AllocError),
        },
        Err(stop) => format!(in alloc; "{stop}\n"),
    }
}

fn keyed_told(alloc: Global, keyed: &KeyedTokens) -> Result<String, AllocError> {
    let mut told = String::new(alloc);
    for token in &keyed.tokens {
        add_key(&mut told, token)?;
    }
    for name in &keyed.names {
        add_entry(&mut told, "name", name)?;
    }
    for text in &keyed.texts {
        add_entry(&mut told, "text", text)?;
    }
    Ok(told)
}

fn add_key(told: &mut String, token: &TreeToken) -> Result<(), AllocError> {
    let key = token.key;
    let line = token.place.line;
    let column = token.place.column;
    writeln!(told, "{key:?} {line}:{column}")
}

fn add_entry(told: &mut String, table: &str, bytes: &[u8]) -> Result<(), AllocError> {
    let shown = bytes.escape_ascii().to_string(*told.allocator())?;
    writeln!(told, "{table} {shown}")
}
