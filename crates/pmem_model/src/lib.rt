//! A persistent memory: each word has a cached value, a durable value, and the cores for which it is in flight.
#![tactic(auto)]

mod bank;
mod banks;
mod fences;
mod flushes;
mod frame;
mod kernel;
pub mod laws;
mod parts;
mod pmem;

pub use frame::Frame;
pub use pmem::Pmem;
