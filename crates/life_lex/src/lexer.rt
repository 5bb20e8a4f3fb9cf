//! The lexer: a value that hands out one token after the other, and takes no memory.

ghost use Rattle.std.specs.Prelude.{◌≡◌, ◌<◌, ◌≤◌, ◌+◌, ◌^◌, length, IfOk, IfSome};
ghost use Rattle.life_lex.specs.Answers.{lexeme, Answers};
ghost use Rattle.life_lex.specs.Cursors.{start, advance, rest_of};
ghost use Rattle.life_lex.specs.Readings.{lexeme_at, fault_at};
ghost use Rattle.life_lex.specs.Places as places;
ghost use Rattle.life_lex.specs.Scan.{scan_at, IsWithin};
ghost use Rattle.life_lex.specs.Slices.{IsNextSlice};

use crate::fault::{LexFault, LexFaultKind};
use crate::kind::kind_of;
use crate::position::Position;
use crate::scan::{Scanned, scan_front};
use crate::token::Token;
use std::marker::Model;

/// The tokens of a file, one after the other. Contracts see it as the point of the file at which it
/// stands.
#[derive(Drop)]
pub struct Lexer<'a> {
    source: &'a [u8],
    position: Position,
}

impl<'a> Model for Lexer<'a> {
    ghost use Rattle.life_lex.specs.Cursors.{Cursor};
    ghost use Rattle.life_lex.specs.Positions.{IsPosition};

    ghost Value = { Cursor };

    ghost view = { λ l. record { source = l.source.now; offset = l.position.offset } };

    ghost invariant = { λ l. IsPosition l.source.now l.position };
}

/// The length of a leading byte order mark, EF BB BF: 3 bytes, or none.
fn byte_order_mark_len(source: &[u8]) -> usize
    ensures value { result ≡ places.byte_order_mark_len source.now }
    ensures bound { result ≤ length source.now }
{
    if source.starts_with(b"\xEF\xBB\xBF") {
        3
    } else {
        0
    }
}

impl<'a> Lexer<'a> {
    /// A lexer at the beginning of a file of fewer than 2^32 bytes, behind a leading EF BB BF.
    ///
    /// The mark is no part of the text, but columns count its three bytes.
    pub fn new(source: &'a [u8]) -> Lexer<'a>
        requires { length source.now < 2 ^ 32 }
        ensures { result ≡ start source.now }
    {
        Lexer {
            source,
            position: Position::first(byte_order_mark_len(source)),
        }
    }

    /// What is left of the file.
    fn rest(&self) -> &'a [u8]
        ensures { result.now ≡ rest_of self.now }
    {
        &self.source[self.position.offset..]
    }

    /// What begins here.
    fn scan(&self) -> Scanned
        ensures value { result ≡ scan_at self.now }
        ensures bound { IsWithin (length (rest_of self.now)) result }
    {
        scan_front(self.position.line_blank, self.rest())
    }

    /// Passes over so many bytes.
    fn advance(&mut self, len: usize)
        requires { len ≤ length (rest_of self.old) }
        ensures { self.new ≡ advance len self.old }
    {
        let rest = self.rest();
        self.position = self.position.after(&rest[..len]);
    }

    /// Takes the token of so many bytes.
    fn take_token(&mut self, len: usize) -> Token<'a>
        requires some { 0 < len }
        requires within { len ≤ length (rest_of self.old) }
        ensures token { lexeme result ≡ lexeme_at len self.old }
        ensures point { self.new ≡ advance len self.old }
    {
        let rest = self.rest();
        let text = &rest[..len];
        let token = Token {
            kind: kind_of(text),
            text,
            offset: self.position.offset,
            place: self.position.place(),
        };
        self.advance(len);
        token
    }

    /// A fault of this kind, here.
    fn fault(&self, kind: LexFaultKind) -> LexFault
        requires { 0 < length (rest_of self.now) }
        ensures { result ≡ fault_at kind self.now }
    {
        LexFault {
            kind,
            offset: self.position.offset,
            place: self.position.place(),
        }
    }

    /// The next token, which is the longest at its place; `None` at the end of the file and ever
    /// after. It takes no memory.
    ///
    /// # Errors
    ///
    /// The file's first fault, once the tokens before it were answered. It stays, and is answered
    /// again.
    pub fn next(&mut self) -> Result<Option<Token<'a>>, LexFault>
        ensures reading { Answers self.old result self.new }
        ensures slice { IfOk result (λ next. IfSome next (λ t. IsNextSlice self.old (lexeme t) self.new)) }
    {
        loop {
            match self.scan() {
                Scanned::End => return Ok(None),
                Scanned::Gap(len) => self.advance(len),
                Scanned::Token(len) => return Ok(Some(self.take_token(len))),
                Scanned::Fault(kind) => return Err(self.fault(kind)),
            }
        }
    }
}
