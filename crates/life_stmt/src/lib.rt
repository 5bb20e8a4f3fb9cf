//! Reading statements, functions and whole programs from the front of a list of tokens.
#![tactic(auto)]

mod attributes;
mod calls;
mod declarations;
mod fronts;
mod functions;
mod heads;
mod programs;
mod sentences;
mod simples;
mod statements;
mod targets;

pub use programs::program;
