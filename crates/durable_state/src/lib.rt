//! What the durable words of a memory stand for: the parts that each room says of a version, and the one state of the
//! plain machine that these are.
#![tactic(auto)]

pub mod laws;
