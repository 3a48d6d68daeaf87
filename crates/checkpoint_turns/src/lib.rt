//! A checkpoint in flight: the cores finish the pages that they prepare, the leader writes what changed and commits it,
//! and then the cores run on.
#![tactic(auto)]

mod begin;
mod checkpoint;
mod devices;
pub mod laws;
mod resume;

pub use checkpoint::{Checkpoint, Led};
