//! The objects of the running kernel by number, with the lists of threads.
#![tactic(auto)]

mod laws;
mod objects;
mod slot;

pub use laws::lists_alone;
pub use objects::Objects;
pub use slot::{Cores, Slot};

#[cfg(test)]
mod tests;
