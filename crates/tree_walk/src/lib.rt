//! Which objects the tree of capabilities reaches, and the sweep of those that it doesn't reach.
#![tactic(auto)]

mod changes;
mod reached;
mod swept;
mod walk;

pub use reached::reach;
pub use swept::sweep;

#[cfg(test)]
mod tests;
