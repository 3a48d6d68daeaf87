//! The thread of the program.

use rv_core::Regs;

/// What the thread does: it stands in the run queue, runs with what is left of its slice, or has stopped with a cause.
#[derive(Clone, Copy)]
pub enum Status {
    Ready,
    Running(u8),
    Stopped(u8),
}

/// The thread: what it does, its pc and its registers.
#[derive(Clone, Copy)]
pub struct RunThread {
    pub status: Status,
    pub regs: Regs,
}
