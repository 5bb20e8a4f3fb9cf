//! Tests of a program's names and of a store, over public calls. They stand apart from what they test, since a
//! crate with tests is proved twice.
#![tactic(auto)]

#[cfg(test)]
mod name_tests;
#[cfg(test)]
mod store_tests;
