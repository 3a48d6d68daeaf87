//! Versions of pages: where a page's content of the committed version stands while programs store to it, and the steps
//! that keep it.
#![tactic(auto)]

mod history;
pub mod laws;
mod recovery;
mod slot;
mod stage;
mod store;

pub use history::{commit, cut_and_recover};
pub use recovery::{RECOVERY_STEPS, Recovery};
pub use slot::slot_of;
pub use stage::{Origin, PageStage, PageState, Preparation, Writes};
pub use store::PageStore;
