//! How a checkpoint is asked for.

ghost use Rattle.std.specs.Prelude.{◌≡◌};
ghost use Rattle.core_turns.specs.declared.running.Running.{Running};
ghost use Rattle.machine_contract.specs.Side.{IsUp};
ghost use Rattle.machine_contract.specs.Courses.{Course};
ghost use Rattle.machine_contract.specs.Goes.{AskGoes};
ghost use Rattle.kernel_machine.specs.Sides.{mode_of, seen_of};
ghost use Rattle.kernel_machine.specs.Shows.{IsAt, IsLive};
ghost use Rattle.kernel_machine.specs.Turns.{BeginsCheckpoint, IsRunningWork, StaysMade};

use crate::kernel::Kernel;
use crate::work::Work;
use checkpoint_turns::Checkpoint;
use machine_contract::Asked;
use pmem_model::Pmem;
use sls_base::LAST_VERSION;
use std::mem;

impl Kernel {
    /// Asks for a checkpoint: it begins, unless one is in flight or the version is the last. It takes no memory.
    pub fn ask(&mut self) -> Asked
        requires up { IsUp (mode_of self.old.work) }
        requires live { IsLive self.old }
        ensures goes { (c : Course) → IsAt self.old c → AskGoes result (seen_of self.old) c (seen_of self.new) }
        ensures is_at { (c : Course) → IsAt self.old c → IsAt self.new c }
        ensures made { StaysMade self.old self.new }
        ensures cores { self.new.cores ≡ self.old.cores }
    {
        if self.in_checkpoint() {
            return Asked::InFlight;
        }
        let version = self.version();
        if version == LAST_VERSION {
            return Asked::VersionSpent(version);
        }
        self.work = saving(mem::replace(&mut self.work, Work::Between), &self.nvm);
        self.wish = false;
        Asked::Started
    }
}

/// A checkpoint of running cores begins.
fn saving(work: Work, nvm: &Pmem) -> Work
    requires runs { IsRunningWork work nvm.now }
    ensures { (k : Running) → work ≡ Work.Runs k → BeginsCheckpoint k nvm.now result }
{
    match work {
        Work::Runs(running) => Work::Saves(Checkpoint::begin(running, nvm)),
        work => work,
    }
}
