//! The outside of the kernel: where bytes come from, where they go to, and a shelf of named bytes; each as a trait
//! with its contract, in memory for tests, and over the standard streams.
#![tactic(auto)]

mod faults;
mod memory;
mod shelf;
mod sink;
mod source;
mod standard;

pub use memory::{MemShelf, MemSink, MemSource};
pub use shelf::{Found, Shelf, ShelfError};
pub use sink::{Sink, SinkError};
pub use source::{Failed, ReadError, Source, read_to_end};
pub use standard::{StdSink, StdSource};
