//! Spaces and memory objects: which pages a program has, where they stand among its addresses, and what it may do
//! there.
#![tactic(auto)]

mod laws;
mod memory;
mod region;
mod space;

pub use laws::{one_region, region_tests};
pub use memory::{MemPage, Memory};
pub use region::Region;
pub use space::Space;

/// The index of a page in a memory object, or a number of such pages.
pub type PageIndex = u8;

#[cfg(test)]
mod tests;
