//! The machine of the kernel: it formats its memory from an image, or recovers, runs the cores and saves them by
//! checkpoints, and comes back after a power cut.
#![tactic(auto)]

mod ask;
mod devices;
mod images;
mod kernel;
pub mod laws;
mod machine;
mod off;
mod start;
mod turns;
mod work;

pub use kernel::Kernel;
pub use machine::KernelMachine;
pub use work::{FirstFormat, Restoring, Work};
