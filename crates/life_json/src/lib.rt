//! Reports as JSON: what is printed of a program and its diagnostics for editors and other programs.
#![tactic(auto)]

mod json;

pub use json::json_report;
