//! The objects that a machine begins with, and the words of their pages.
#![tactic(auto)]

mod content;
mod filling;
mod groups;
mod memories;
mod objects;
mod spaces;
mod threads;

pub use content::{WORD_BYTES, content_on, first_word, word_from};
pub use objects::{first_objects, pages_in_use};

#[cfg(test)]
mod tests;
