//! The bounds that a machine keeps.

use sls_base::{OBJECTS, PAGES};

/// The turns of the leader, and the operations on the memory, that formatting or recovery takes at most: eight for each
/// page and each object, and 64 for the rest.
pub const START_TURNS: usize = 8 * (PAGES + OBJECTS) + 64;
/// The turns that a core needs at most until it lets go of a page that it prepares, or of an entry that it holds.
pub const MOST_DUE: usize = 7;
/// The turns that a core needs at most until it lets go of an entry: it copies, flushes, fences, and puts it back.
pub const COPY_TURNS: usize = 4;
/// The turns by which a page is prepared at most from one commit to the next.
pub const MOST_PREPARES: usize = 7;
/// The hot pages at most.
pub const HOT_PAGES: usize = 32;
/// The epochs in a row in which a hot page was stored to.
pub const HOT_EPOCHS: usize = 3;
