//! The fault that prepares a page before it is stored to: its content of the committed version is copied to a slot
//! first.
#![tactic(auto)]

mod fault;
mod history;

pub use fault::step;
pub use history::{Event, play};

#[cfg(test)]
mod tests;
