//! All rooms of the persistent memory together: the version word, the numbers in use, the objects and the pages, from
//! one committed version to the next.
#![tactic(auto)]

pub mod laws;
mod rooms;
mod running;

pub use rooms::Rooms;
