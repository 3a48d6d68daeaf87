//! The plain machine of one program of code words is that of the whole kernel, on the image of that program.
#![tactic(auto)]

pub mod laws;
