//! Formatting: the words of the first version of an image are stored in a memory, and made durable.
//!
//! Each word that isn't 0 is stored once, all of them are fenced, and the format word comes last and alone. So a cut
//! leaves no format word, and then formatting begins again from the same image, or a whole first version.
#![tactic(auto)]

mod formatting;
pub mod laws;
mod pieces;
mod stage;
mod words;

pub use formatting::{Formatting, MOST_TURNS};

#[cfg(test)]
mod tests;
