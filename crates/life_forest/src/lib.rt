//! The forest of owners: which object owns which, and what a step of a program touches.
#![tactic(auto)]
