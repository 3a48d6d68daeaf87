//! Entries of output channels on the pages of their rings.
#![tactic(auto)]

mod entries;
mod laws;

pub use entries::{PLACE_BYTES, PLACE_WORDS, offer, place};
pub use laws::{entries_have_places, stored_entries_stand, waiting_entries_stand};

#[cfg(test)]
mod tests;
