//! Which typed programs are well typed: each part of one is what the rules of types give from its parts.
#![tactic(auto)]
