//! Connections and notifications: what passes between threads, and who waits for whom.
//!
//! A call works on the values that it is lent: the object, the lists of threads, and the threads that it concerns. It
//! is asked once the caller's capability is found to allow it. The caller's pc, and the core that it leaves where it
//! waits, are the care of whoever asks.
#![tactic(auto)]

mod connection;
pub mod laws;
mod lists;
mod notification;
mod thread;

pub use connection::{Connection, TAKEN, call, serve};
pub use lists::{RUN_QUEUE, ThreadLists};
pub use notification::{FULL, Notification, signal, wait};
pub use thread::{ANSWER, FIRST_VALUE, SECOND_VALUE};

#[cfg(test)]
mod tests;
