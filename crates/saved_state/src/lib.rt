//! Which state of the plain machine the durable words of a memory stand for.
#![tactic(auto)]

pub mod laws;
