//! What the facts of the rules say of a store: where a place lies, and which pointers a fact covers.
#![tactic(auto)]
