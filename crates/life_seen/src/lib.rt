//! What content of the meaning the words of a store stand for, where rows are used again and the
//! numbers of objects are not.
#![tactic(auto)]
