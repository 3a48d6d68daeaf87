//! The kernel's calls on the running objects, the tick of a core, and the inputs that wait.
#![tactic(auto)]

mod calls;
mod connection_calls;
mod done;
mod ecall;
mod get;
mod group_calls;
mod inputs;
mod instruction;
mod lent;
mod makers;
mod memory;
mod need;
mod note_calls;
mod put;
mod runtime;
mod space_calls;
mod store;
mod tick;

pub use calls::Calls;
pub use done::Done;

#[cfg(test)]
mod tests;
