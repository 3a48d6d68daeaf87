//! What a call reads of the running kernel before anything is changed: whom its arguments name, which numbers are free,
//! whether it is refused, and which pages the next tick of a core reaches.
#![tactic(auto)]

mod content;
mod devices;
mod load;
mod named;
mod need;
mod numbers;
mod pages;
mod reach;
mod recount;
mod refusals;
mod regions;

pub use content::{WORD_BYTES, number_on_page};
pub use devices::Devices;
pub use load::number_at;
pub use named::{cap_named, id_named};
pub use need::{Need, need_of_core};
pub use numbers::NumbersInUse;
pub use pages::page_at;
pub use reach::{Reach, reach_of};
pub use refusals::refusal_of;
pub use regions::{is_covered, region_at};

#[cfg(test)]
mod tests;
