//! Tests of object_root, in a crate beside it, so that its proofs are made once.
#![tactic(auto)]

#[cfg(test)]
mod tests;
