// The tokens of a text, a line each.
ghost use Rattle.std.specs.Prelude.{◌<◌, ◌^◌, length};

use life_lex::{LexFault, LexFaultKind, Lexer, Token, TokenKind};
use std::alloc::{AllocError, Global};

/// A line for each token with its kind, offset, place and text, and one for each of the first two answers
/// behind the last: the fault at which the tokens end, or the end of the text.
pub fn tokens(alloc: Global, source: &[u8]) -> Result<String, AllocError>
    requires { length source.now < 2 ^ 28 }
{
    let mut told = String::new(alloc);
    let mut lexer = Lexer::new(source);
    let mut ends = 0u8;
    for _ in 0..u64::MAX {
        if ends == 2 {
            break;
        }
        if !add_answer(&mut told, lexer.next())? {
            ends = ends.saturating_add(1);
        }
    }
    Ok(told)
}

// Tells an answer, and answers whether it is a token.
fn add_answer(
    told: &mut String,
    answer: Result<Option<Token>, LexFault>,
) -> Result<bool, AllocError> {
    match answer {
        Ok(Some(token)) => {
            add_token(told, token)?;
            Ok(true)
        }
        Ok(None) => {
            told.push_str("end\n")?;
            Ok(false)
        }
        Err(fault) => {
            add_fault(told, fault)?;
            Ok(false)
        }
    }
}

fn add_token(told: &mut String, token: Token) -> Result<(), AllocError> {
    let kind = token.kind;
    let offset = token.offset;
    let line = token.place.line;
    let column = token.place.column;
    let text = token.text.escape_ascii().to_string(*told.allocator())?;
    writeln!(told, "{kind:?} {offset} {line}:{column} {text}")
}

fn add_fault(told: &mut String, fault: LexFault) -> Result<(), AllocError> {
    let kind = fault.kind;
    let offset = fault.offset;
    let line = fault.place.line;
    let column = fault.place.column;
    writeln!(told, "{kind:?} {offset} {line}:{column}")
}

/// A line for each byte: what a text of it alone begins with.
pub fn bytes(alloc: Global) -> Result<String, AllocError> {
    let mut told = String::new(alloc);
    for byte in 0..=255u8 {
        let source = [byte];
        match Lexer::new(&source).next() {
            Ok(Some(token)) => add_kind(&mut told, token.kind)?,
            Ok(None) => told.push_str("nothing\n")?,
            Err(fault) => add_fault_kind(&mut told, fault.kind)?,
        }
    }
    Ok(told)
}

fn add_kind(told: &mut String, kind: TokenKind) -> Result<(), AllocError> {
    writeln!(told, "{kind:?}")
}

fn add_fault_kind(told: &mut String, kind: LexFaultKind) -> Result<(), AllocError> {
    writeln!(told, "{kind:?}")
}
