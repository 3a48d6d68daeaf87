//! Tests of job_run, in a crate beside it, so that its proofs are made once.
#![tactic(auto)]

#[cfg(test)]
mod edge_tests;
#[cfg(test)]
mod tests;
