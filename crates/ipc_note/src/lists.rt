//! Where threads stand.

use link_lists::Links;
use sls_base::{OBJECTS, SCHEDULER};

/// The lists of threads, by number. List 1 is the run queue. List i has the waiters of notification i, or the clients
/// that wait on connection i.
pub type ThreadLists = Links<OBJECTS, OBJECTS>;

/// The list of the threads that are ready to run, which goes by the scheduler's number.
pub const RUN_QUEUE: usize = SCHEDULER as usize;
