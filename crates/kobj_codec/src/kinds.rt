//! The kinds of objects, as the lowest byte of a record has them.

pub const GROUP_KIND: u8 = 1;

pub const THREAD_KIND: u8 = 2;

pub const SPACE_KIND: u8 = 3;

pub const MEMORY_KIND: u8 = 4;

pub const CONNECTION_KIND: u8 = 5;

pub const NOTIFICATION_KIND: u8 = 6;

pub const RING_KIND: u8 = 7;

pub const SCHEDULER_KIND: u8 = 8;
