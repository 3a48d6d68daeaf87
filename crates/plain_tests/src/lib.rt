//! Tests of the plain machine: programs in source, with answers that were worked out by hand.
#![tactic(auto)]

#[cfg(test)]
mod test_programs;
#[cfg(test)]
mod tests;
#[cfg(test)]
mod thread_tests;
