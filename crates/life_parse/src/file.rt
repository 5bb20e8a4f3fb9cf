// The parser of whole files.
ghost use Rattle.std.specs.Prelude.{◌≡◌, ◌<◌, ◌^◌, ◌-◌, length, map, IfErr};
ghost use Rattle.life_lex.specs.Answers.{lexeme};
ghost use Rattle.life_lex.specs.Places.{place_at};
ghost use Rattle.life_parse.specs.Ends as spec;

use crate::fault::ParseFault;
use crate::tokens::{TokensFault, definitions};
use life_keys::keyed;
use life_lex::{LexStop, Token, tokens_of_file};
use life_tree::{LimitFault, LimitName, Program};
use life_types::Place;
use std::alloc::Global;

/// The place behind the last byte of a file.
fn end_of_file(source: &[u8]) -> Place
    requires { length source.now < 2 ^ 32 - 1 }
    ensures { result ≡ place_at source.now (length source.now) }
{
    let mut line = 1;
    let mut column = 1;
    for b in source {
        if *b == b'\n' {
            line += 1;
            column = 1;
        } else {
            column += 1;
        }
    }
    Place { line, column }
}

/// The place of a token, or of the end of the file.
fn place_of(source: &[u8], lexed: &[Token], at: usize) -> Place
    requires { length source.now < 2 ^ 32 - 1 }
    ensures { result ≡ spec.place_of_token source.now (map lexeme lexed.now) at }
{
    match lexed.get(at) {
        Some(token) => token.place,
        None => end_of_file(source),
    }
}

/// The tree of a file, which is the one tree of the grammar with the file's tokens.
///
/// # Errors
///
/// `Lex` where the file has a lexical fault. Else `Refused` at the first token at which no program
/// goes on, or `Limit` at the token that opens the 65th construct, whichever stands first: nesting
/// set aside, some program begins with the tokens before a token that is refused, and none with
/// that token too. `NoMemory` for want of memory.
#[tactic(auto, using(crate::proofs::OneFault::only_fault))]
pub fn parse(alloc: Global, source: &[u8]) -> Result<Program, ParseFault>
    requires { length source.now < 2 ^ 32 - 1 }
    ensures ends { spec.Ends source.now result }
    ensures only { IfErr result (λ fault. spec.IsOnlyFault source.now fault) }
{
    tree_or_fault(alloc, source)
}

// The tree of a file, or why it has none.
fn tree_or_fault(alloc: Global, source: &[u8]) -> Result<Program, ParseFault>
    requires { length source.now < 2 ^ 32 - 1 }
    ensures { spec.Ends source.now result }
{
    let lexed = match tokens_of_file(alloc, source) {
        Ok(lexed) => lexed,
        Err(LexStop::Fault(fault)) => return Err(ParseFault::Lex(fault)),
        Err(LexStop::NoMemory) => return Err(ParseFault::NoMemory),
    };
    let keyed = keyed(alloc, &lexed)?;
    match definitions(alloc, &keyed.tokens) {
        Ok(definitions) => Ok(Program {
            definitions,
            names: keyed.names,
            texts: keyed.texts,
        }),
        Err(TokensFault::Refused(at)) => Err(ParseFault::Refused {
            at,
            place: place_of(source, &lexed, at),
        }),
        Err(TokensFault::Deep(at)) => Err(ParseFault::Limit(LimitFault {
            name: LimitName::Nesting,
            place: Some(place_of(source, &lexed, at)),
        })),
        Err(TokensFault::NoMemory) => Err(ParseFault::NoMemory),
    }
}
