//! The lexer: the tokens of a file one after the other, and its first fault.
//!
//! It follows ISO/IEC 14882:2017 [lex] for a subset of C++17, and departs from it as follows.
//! - Lines end at the byte 10. A backslash at the end of a line joins nothing ([lex.phases]).
//! - There is no preprocessor: the lines of `#include` and `#pragma once` are passed over, and any
//!   other `#` is a fault.
//! - Behind a byte order mark, a byte past 127 may stand in comments, in those lines and in string
//!   literals alone.
//! - Numbers are decimal, and literals have no prefix and no suffix: `012` and `1u` are two tokens
//!   each ([lex.icon]).
//! - There is no `>>`, and no mark that the subset does not use; `and` and the like are keywords
//!   ([lex.operators], [lex.digraph]).
#![tactic(auto)]

mod byte;
mod comment;
mod directive;
mod fault;
mod gap;
mod keyword;
mod kind;
mod lexer;
mod literal;
mod mark;
mod number;
mod position;
mod scan;
mod token;
mod token_list;
mod token_scan;

pub use fault::{LexFault, LexFaultKind, LexStop};
pub use lexer::Lexer;
pub use token::{Token, TokenKind};
pub use token_list::tokens_of_file;
