// What is told of a text's tree, of its types and of its core program. Trees are leaked: the process ends
// soon, and dropping them here would be proved here.
ghost use Rattle.std.specs.Prelude.{◌<◌, ◌^◌, length};

use crate::program::core_told;
use crate::types::types_told;
use life_elab::elaborate;
use life_keys::keyed;
use life_lex::tokens_of_file;
use life_parse::parse;
use life_tree::{Program, TokenKey, TreeToken};
use life_tree_tokens::write_tokens;
use life_typed::Typed;
use life_types::NoMemory;
use life_typing::resolve;
use std::alloc::{AllocError, Global};
use std::mem;

/// Whether the tokens that are written of the text's tree are the text's own, and how many they are. Of a
/// text that has no tree the fault.
pub fn tree(alloc: Global, source: &[u8]) -> Result<String, AllocError>
    requires { length source.now < 2 ^ 28 }
{
    match parse(alloc, source) {
        Ok(tree) => {
            let told = written_told(alloc, source, &tree);
            mem::forget(tree);
            told
        }
        Err(fault) => format!(in alloc; "{fault:?}\n"),
    }
}

fn written_told(alloc: Global, source: &[u8], tree: &Program) -> Result<String, AllocError>
    requires { length source.now < 2 ^ 28 }
{
    let Ok(lexed) = tokens_of_file(alloc, source) else {
        return "no tokens\n".to_string(alloc);
    };
    match (keyed(alloc, &lexed), write_tokens(alloc, tree)) {
        (Ok(keyed), Ok(written)) => compared(alloc, &keyed.tokens, &written),
        _ => Err(AllocError),
    }
}

fn compared(alloc: Global, read: &[TreeToken], written: &[TokenKey]) -> Result<String, AllocError> {
    let count = written.len();
    let same = read
        .iter()
        .zip(written)
        .take_while(|(token, key)| token.key == **key)
        .count();
    if same == count && count == read.len() {
        format!(in alloc; "{count} tokens, written as they were read\n")
    } else {
        format!(in alloc;
            "{count} tokens written, of which the first {same} are as they were read\n"
        )
    }
}

/// The types of the text, and the structs' members. Of a text that has none the fault.
pub fn types(alloc: Global, source: &[u8]) -> Result<String, AllocError>
    requires { length source.now < 2 ^ 28 }
{
    typed(alloc, source, false)
}

/// The functions of the text's core program. Of a text that has none the fault.
pub fn core(alloc: Global, source: &[u8]) -> Result<String, AllocError>
    requires { length source.now < 2 ^ 28 }
{
    typed(alloc, source, true)
}

fn typed(alloc: Global, source: &[u8], translate: bool) -> Result<String, AllocError>
    requires { length source.now < 2 ^ 28 }
{
    match parse(alloc, source) {
        Ok(tree) => {
            let told = resolved(alloc, &tree, translate);
            mem::forget(tree);
            told
        }
        Err(fault) => format!(in alloc; "{fault:?}\n"),
    }
}

fn resolved(alloc: Global, tree: &Program, translate: bool) -> Result<String, AllocError> {
    match resolve(alloc, tree) {
        Ok(typed) => {
            let told = if translate {
                translated(alloc, &typed)
            } else {
                types_told(alloc, &typed.types)
            };
            mem::forget(typed);
            told
        }
        Err(fault) => format!(in alloc; "{fault:?}\n"),
    }
}

fn translated(alloc: Global, typed: &Typed) -> Result<String, AllocError> {
    match elaborate(alloc, typed) {
        Ok(program) => {
            let told = core_told(alloc, &program);
            mem::forget(program);
            told
        }
        Err(fault) => format!(in alloc; "{fault:?}\n"),
    }
}
