//! Capabilities and groups: what a program may do with which object, and the slots in which it holds that.
#![tactic(auto)]

mod cap;
mod group;
mod laws;

pub use cap::Cap;
pub use group::Group;
pub use laws::one_lowest_free;

#[cfg(test)]
mod tests;
