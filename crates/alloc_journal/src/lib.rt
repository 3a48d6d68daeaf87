//! The numbers of objects and pages that are in use, in the persistent memory: a base, and a log that is redone where
//! its head names the committed version.
#![tactic(auto)]

mod bits;
mod entry;
mod history;
mod journal;
pub mod laws;
mod memory;
mod numbers;

pub use history::{Event, play};
pub use numbers::Numbers;

#[cfg(test)]
mod tests;
