// A text as a row.
ghost use Rattle.std.specs.Prelude.{◌<◌, ◌^◌, length};

use crate::keys::keys;
use crate::tokens::{bytes, tokens};
use crate::tree::{core, tree, types};
use life_rows::{Form, Judge, Key, Row, RowFault, compare_part};
use std::alloc::{AllocError, Global};

// Texts are shorter.
const MOST: usize = 1_000_000;

/// Rows of texts.
pub struct Texts;

impl Judge for Texts {
    const KEYS: &'static [Key] = &[
        ("text", Form::Text),
        ("tokens", Form::Text),
        ("bytes", Form::Text),
        ("keys", Form::Text),
        ("tree", Form::Text),
        ("types", Form::Text),
        ("core", Form::Text),
    ];

    fn differences(alloc: Global, row: &Row) -> Result<String, RowFault> {
        let source = row.text(alloc, "text")?;
        let mut told = String::new(alloc);
        if source.len() < MOST {
            compare_all(&mut told, row, &source)?;
        } else {
            told.push_str("  a text that is too long\n")?;
        }
        Ok(told)
    }
}

// Compares whatever the row wants.
fn compare_all(told: &mut String, row: &Row, source: &[u8]) -> Result<(), RowFault>
    requires { length source.now < 2 ^ 28 }
{
    for (word, _) in Texts::KEYS {
        if row.find(word).is_some() {
            compare_one(told, row, word, source)?;
        }
    }
    Ok(())
}

fn compare_one(told: &mut String, row: &Row, word: &str, source: &[u8]) -> Result<(), RowFault>
    requires { length source.now < 2 ^ 28 }
{
    match told_of(*told.allocator(), word, source)? {
        Some(got) => compare_part(told, row, word, got.as_bytes()),
        None => Ok(()),
    }
}

// What is told of the text under the key of this word.
fn told_of(alloc: Global, word: &str, source: &[u8]) -> Result<Option<String>, AllocError>
    requires { length source.now < 2 ^ 28 }
{
    match word {
        "tokens" => Ok(Some(tokens(alloc, source)?)),
        "bytes" => Ok(Some(bytes(alloc)?)),
        "keys" => Ok(Some(keys(alloc, source)?)),
        "tree" => Ok(Some(tree(alloc, source)?)),
        "types" => Ok(Some(types(alloc, source)?)),
        "core" => Ok(Some(core(alloc, source)?)),
        _ => Ok(None),
    }
}
