//! What one step of a core does to the words of the memory: nothing, or one operation.
#![tactic(auto)]

pub mod laws;
