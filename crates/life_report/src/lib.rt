//! Reports: what is printed of a program and its diagnostics.
#![tactic(auto)]

mod text;

pub use text::text_report;
