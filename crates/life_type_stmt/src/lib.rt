//! Types of statements, and where control goes at their ends: a function's body with the type of each expression.
#![tactic(auto)]

mod around;
mod autos;
mod bodies;
mod conditions;
mod declarations;
mod ends;
mod given;
mod ranges;
mod returns;
mod sentences;
mod simples;
mod statements;

pub use bodies::body;
