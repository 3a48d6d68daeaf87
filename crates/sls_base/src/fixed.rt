//! The objects that are always there, the first numbers that a program's objects and pages may have, and the core that
//! leads.

use crate::{CoreNo, ObjId, PageNo};

/// The group from which every object is reached.
pub const ROOT_GROUP: ObjId = 0;
/// The scheduler.
pub const SCHEDULER: ObjId = 1;
/// The ring of output channel 0; those of the other output channels follow, in order.
pub const FIRST_OUTPUT_RING: ObjId = 2;
/// The ring of the input channel.
pub const INPUT_RING: ObjId = 6;
/// The first object of a program.
pub const FIRST_PROGRAM_OBJECT: ObjId = 7;
/// The first page of a program; the pages below it are those of the output rings, in order of channel.
pub const FIRST_PROGRAM_PAGE: PageNo = 4;
/// The core that makes every checkpoint.
pub const LEADER: CoreNo = 0;
