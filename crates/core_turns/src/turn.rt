//! What a turn of a core came to.

use plain_state::Reply;
use sls_base::{CoreNo, PageNo};

/// What a turn of a core came to.
#[derive(Drop)]
pub enum Turn {
    /// A tick, whole.
    Ticked(Reply),
    /// A step by which the core prepares a page.
    Prepared(PageNo),
    /// The core waits for a page that another core prepares.
    Waits(PageNo, CoreNo),
}
