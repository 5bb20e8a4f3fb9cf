//! All tokens of a file.

ghost use Rattle.std.specs.Prelude.{◌<◌, ◌≤◌, ◌^◌, length, map, All, IfOk, IfErr};
ghost use Rattle.life_lex.specs.Answers.{lexeme, LexesOnly, NumberFits, StopsOnly};
ghost use Rattle.life_lex.specs.Slices.{AreSlices};

use crate::fault::LexStop;
use crate::lexer::Lexer;
use crate::token::Token;
use std::alloc::Global;
use std::vec::Vec;

/// All tokens of a file in their order, or its first fault.
///
/// # Errors
///
/// `Fault` exactly where the file has that fault, want of memory aside, and `NoMemory` for want of
/// memory.
pub fn tokens_of_file<'a>(alloc: Global, source: &'a [u8]) -> Result<Vec<Token<'a>>, LexStop>
    requires { length source.now < 2 ^ 32 }
    ensures tokens { IfOk result (λ tokens. LexesOnly source.now (map lexeme tokens.items)) }
    ensures numbers { IfOk result (λ tokens. All NumberFits (map lexeme tokens.items)) }
    ensures count { IfOk result (λ tokens. length tokens.items ≤ length source.now) }
    ensures slices { IfOk result (λ tokens. AreSlices 0 source.now (map lexeme tokens.items)) }
    ensures fault { IfErr result (λ stop. StopsOnly source.now stop) }
{
    let mut lexer = Lexer::new(source);
    // usual code has a token for each four bytes
    let mut tokens = Vec::with_capacity(alloc, source.len() / 4)?;
    loop {
        match lexer.next() {
            Ok(Some(token)) => tokens.push(token)?,
            Ok(None) => return Ok(tokens),
            Err(fault) => return Err(LexStop::Fault(fault)),
        }
    }
}
