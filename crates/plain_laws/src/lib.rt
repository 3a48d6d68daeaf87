//! Laws of the plain machine, which show that its definitions are the right ones.
//!
//! The definitions stand in `plain_model`. Each law is the contract of a function that does nothing; what the laws
//! say is in `specs/`.
#![tactic(auto)]

pub mod bounds;
pub mod calls;
pub mod fixed;
pub mod kept;
pub mod laws;
pub mod ticks;
pub mod whole;
