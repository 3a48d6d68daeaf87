//! The two words that tell what stands in a memory: the format word, which says that it is formatted, and the version
//! word, whose durable value is the committed version.
//!
//! Each of them is made durable by a store, a flush and a fence, one operation a step. The checkpoint is committed by
//! the event that makes the version word durable, be it the fence of these steps, another fence by the same core, or a
//! write-back of the word before.
#![tactic(auto)]

mod committer;
mod history;
pub mod laws;
mod step;

pub use committer::{Committer, version};
pub use history::{Event, play};
pub use step::Step;

#[cfg(test)]
mod tests;
