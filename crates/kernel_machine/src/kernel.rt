//! The machine, as plain parts.

ghost use Rattle.std.specs.Prelude.{◌≡◌, ◌↔◌, ◌<◌, ◌≤◌, IsTrue, slice_index};
ghost use Rattle.sls_base.specs.declared.limits.TheConstants.{CORES, OUTPUT_CHANNELS as CHANNELS};
ghost use Rattle.plain_model.specs.States.{view_of};
ghost use Rattle.plain_model.specs.Worlds as worlds;
ghost use Rattle.machine_contract.specs.Side.{InCheckpoint, IsUp, Running};
ghost use Rattle.machine_contract.specs.Courses.{Course};
ghost use Rattle.machine_contract.specs.Goes.{WishGoes};
ghost use Rattle.kernel_machine.specs.Sides.{mode_of, seen_of};
ghost use Rattle.kernel_machine.specs.Shows.{IsAt, IsLive};

use crate::work::Work;
use pmem_model::Pmem;
use sls_base::{OUTPUT_CHANNELS, ObjId, PAGES, ThreadView, Version};

/// The memory, how many entries of each channel the device has accepted, what the machine is at with how many cores,
/// by how many turns each page was prepared since the last commit, and whether a checkpoint is wished for.
#[derive(Drop)]
pub struct Kernel {
    pub nvm: Pmem,
    pub accepted: [u64; OUTPUT_CHANNELS],
    pub cores: u8,
    pub work: Work,
    pub spent: [u8; PAGES],
    pub wish: bool,
}

impl Kernel {
    /// Whether it is up; else it formats or recovers.
    pub fn is_up(&self) -> bool
        ensures { IsTrue result ↔ IsUp (mode_of self.now.work) }
    {
        match self.work {
            Work::Formats(_) | Work::Recovers(_) => false,
            Work::Runs(_) | Work::Saves(_) | Work::Between => true,
        }
    }

    /// Whether a checkpoint is in flight.
    pub fn in_checkpoint(&self) -> bool
        ensures { IsTrue result ↔ InCheckpoint (mode_of self.now.work) }
    {
        matches!(self.work, Work::Saves(_))
    }

    /// The committed version.
    pub fn version(&self) -> Version
        ensures { (c : Course) → IsAt self.now c → result ≡ c.world.version }
    {
        crate::laws::machines_are_seen();
        version_commit::version(&self.nvm)
    }

    /// How many entries the running state has put on a channel.
    pub fn put_count(&self, channel: u8) -> u64
        requires up { IsUp (mode_of self.now.work) }
        requires channel { channel < CHANNELS }
        ensures { (c : Course) → IsAt self.now c → result ≡ worlds.put_count c.world channel }
    {
        match &self.work {
            Work::Runs(running) => running.calls.put_count(channel),
            Work::Saves(checkpoint) => checkpoint.put_count(channel),
            Work::Formats(_) | Work::Recovers(_) | Work::Between => 0,
        }
    }

    /// What is told of a thread of the running state; None exactly where it has no thread of that number.
    pub fn thread(&self, id: ObjId) -> Option<ThreadView>
        requires runs { mode_of self.now.work ≡ Running }
        ensures { (c : Course) → IsAt self.now c → result ≡ view_of (c.world.now.objects id) }
    {
        match &self.work {
            Work::Runs(running) => match running.calls.thread(id) {
                Some(thread) => Some(ThreadView {
                    state: thread.state,
                    pc: thread.pc,
                    x10: thread.x[10],
                }),
                None => None,
            },
            Work::Formats(_) | Work::Recovers(_) | Work::Saves(_) | Work::Between => None,
        }
    }

    /// Whether a checkpoint was wished for since the last one began, the last cut and the last call; the wish is
    /// forgotten.
    pub fn take_wish(&mut self) -> bool
        ensures goes { WishGoes result (seen_of self.old) (seen_of self.new) }
        ensures is_at { (c : Course) → IsAt self.old c → IsAt self.new c }
        ensures rest { self.new ≡ record self.old { wish = self.new.wish } }
    {
        let wish = self.wish;
        self.wish = false;
        wish
    }
}
