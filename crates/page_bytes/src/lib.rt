//! Bytes of pages are loaded from their runtime frames and change there, and so does the plain state that the objects
//! are.
#![tactic(auto)]

mod laws;
mod load;
mod store;

pub use laws::{
    other_pages_are_not_seen, pages_of_rings_are_apart, stores_at_addresses, stores_change_content,
    stores_in_parts,
};
pub use load::{byte_on_page, bytes_at};
pub use store::{MOST_BYTES, store_bytes, store_number};

#[cfg(test)]
mod tests;
