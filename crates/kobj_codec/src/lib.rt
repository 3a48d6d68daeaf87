//! Objects as they stand in 64 words.
#![tactic(auto)]

mod connection;
mod group;
mod kinds;
pub mod laws;
mod list;
mod memory;
mod notification;
mod obj;
mod packing;
mod ranges;
mod reading;
mod ring;
mod scheduler;
mod space;
mod thread;
mod writing;

pub use obj::{ConnectionRec, NotificationRec, Obj, Scheduler};
pub use reading::decode;
pub use writing::encode;

#[cfg(test)]
mod tests;
