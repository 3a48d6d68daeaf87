//! What befalls a world, and what it answers.

use arrayvec::ArrayVec;
use sls_base::{CoreNo, Entry, Version};

/// What befalls a world: a tick of a core, a commit, a cut, the device that accepts an entry of a channel, or an input.
#[derive(Drop)]
pub enum Label {
    Tick(CoreNo),
    Commit,
    Cut,
    Accept(u8),
    Input(ArrayVec<u8, 56>),
}

/// What a world answers: a tick retired, was idle, or retired with a wish for a checkpoint; a commit made a version; a cut went;
/// the device took an entry, or there is none; an input was put, or there is no room.
#[derive(Drop)]
pub enum Reply {
    Retired,
    Idle,
    Wished,
    Committed(Version),
    Went,
    Took(Entry),
    NoEntry,
    Put,
    Full,
}
