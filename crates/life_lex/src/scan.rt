//! What begins at a point of a file.

ghost use Rattle.std.specs.Prelude.{◌≡◌, ◌<◌, ◌^◌, length};
ghost use Rattle.life_lex.specs.Scan.{scan_of, IsWithin};

use crate::comment::opens_comment;
use crate::fault::LexFaultKind;
use crate::gap::gap_len;
use crate::literal::opens_literal;
use crate::number::is_too_large;
use crate::token_scan::token_len;

/// What begins at a point of a file.
#[derive(Clone, Copy, Debug, PartialEq, Eq)]
pub(crate) enum Scanned {
    /// Nothing: the file ends here.
    End,
    /// A gap of so many bytes.
    Gap(usize),
    /// A token of so many bytes.
    Token(usize),
    /// Neither.
    Fault(LexFaultKind),
}

/// What begins in front. `line_blank`: only spaces and tabs stand before it on its line.
#[tactic(auto, unfolding(crate::specs::Scan::scan_of))]
pub(crate) fn scan_front(line_blank: bool, bytes: &[u8]) -> Scanned
    requires { length bytes.now < 2 ^ 32 }
    ensures value { result ≡ scan_of line_blank bytes.now }
    ensures bound { IsWithin (length bytes.now) result }
{
    if bytes.is_empty() {
        return Scanned::End;
    }
    if let Some(len) = gap_len(line_blank, bytes) {
        return Scanned::Gap(len);
    }
    if opens_comment(bytes) {
        return Scanned::Fault(LexFaultKind::UnclosedComment);
    }
    if let Some(len) = token_len(bytes) {
        let text = &bytes[..len];
        if is_too_large(text) {
            return Scanned::Fault(LexFaultKind::NumberTooLarge);
        }
        return Scanned::Token(len);
    }
    if opens_literal(bytes) {
        Scanned::Fault(LexFaultKind::UnclosedText)
    } else {
        Scanned::Fault(LexFaultKind::BadByte)
    }
}
