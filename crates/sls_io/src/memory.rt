//! The outside in memory, for tests: each object fails the calls whose numbers it was given.

mod shelf;
mod sink;
mod source;

pub use shelf::MemShelf;
pub use sink::MemSink;
pub use source::MemSource;
