//! Running cores: the kernel, the rooms of the persistent memory, and the page that each core prepares. A turn is a
//! whole tick, or a step by which the core prepares a page to be stored to.
#![tactic(auto)]

mod begin;
mod devices;
pub mod laws;
mod running;
mod turn;

pub use begin::{count_of, counts_of};
pub use running::Running;
pub use turn::Turn;
