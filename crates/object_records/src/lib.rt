//! Between the objects of the running kernel and their records.
#![tactic(auto)]

mod contents;
mod copies;
pub mod laws;
mod marks;
mod putting;
mod taking;

pub use contents::is_content;
pub use marks::mark_page;
pub use putting::{has_free_threads, put_back};
pub use taking::record_at;

#[cfg(test)]
mod tests;
