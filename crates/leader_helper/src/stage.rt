//! What the leader does next, and what a step of it came to.

use sls_base::{ObjId, PageNo};

/// What the leader does next.
#[derive(Clone, Copy, PartialEq, Eq, Debug)]
pub enum Stage {
    /// Cores that prepare a page finish it first.
    Gather,
    /// It flushes the pages that were stored to, from this one on, and then fences.
    Pages(PageNo),
    /// It writes the records of the objects that changed, from this one on, and then begins the log.
    Records(ObjId),
    /// It writes the log.
    Log,
    /// It fences the records.
    Fence,
    /// It tags the records that were written, from this one on, and then fences the tags.
    Tags(ObjId),
    /// It makes the next version the committed one.
    Commit,
    /// It brings the base of the numbers up to date.
    Apply,
    /// It lets the cores go on.
    Resume,
}

/// What a step of the leader came to.
#[derive(Clone, Copy, PartialEq, Eq, Debug)]
pub enum Progress {
    /// The checkpoint goes on.
    Led,
    /// The next version is committed, and the checkpoint goes on.
    Committed,
    /// The checkpoint is at its end.
    Resumed,
}
