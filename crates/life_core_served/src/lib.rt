//! What is served of core programs so far, and what a program is whose verdict is trusted or that is run.
#![tactic(auto)]
