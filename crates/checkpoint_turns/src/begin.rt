//! How a checkpoint begins.

ghost use Rattle.std.specs.Prelude.{◌≡◌, ◌+◌, ◌<◌, ◌≤◌, ℕ, List, length};
ghost use Rattle.sls_base.specs.declared.limits.TheConstants.{LAST_VERSION, PAGES};
ghost use Rattle.plain_state.specs.Worlds.{World};
ghost use Rattle.plain_model.specs.Cost.{cost};
ghost use Rattle.page_store.specs.Stages.{stage_of};
ghost use Rattle.machine_contract.specs.declared.bounds.TheConstants.{MOST_DUE};
ghost use Rattle.core_turns.specs.Runs.{IsRunning, Runs};
ghost use Rattle.checkpoint_turns.specs.Checkpoints.{IsBefore, turns_left};

use crate::checkpoint::Checkpoint;
use core_turns::Running;
use leader_helper::{Leader, sweep};
use pmem_model::Pmem;

impl Checkpoint {
    /// A checkpoint of running cores begins, some of which may have pages in hand. The objects are swept, and the
    /// leader finds what changed, so the turns that it takes are known. No word of the memory is other than before.
    pub fn begin(mut running: Running, nvm: &Pmem) -> Checkpoint
        requires runs { (accepted : List ℕ) × IsRunning running accepted nvm.now }
        ensures before { (accepted : List ℕ) (w : World) → w.version < LAST_VERSION
            → length w.now.cores ≡ length w.saved.cores → Runs running accepted nvm.now w
            → IsBefore result accepted nvm.now w }
        // The turns by which a core lets go of a page included, they are no more than the cost.
        ensures left { (accepted : List ℕ) (w : World) → w.version < LAST_VERSION
            → Runs running accepted nvm.now w → turns_left result + MOST_DUE ≤ cost w }
        ensures prepares { result.running.prepares ≡ running.prepares }
        ensures stages { (page : ℕ) → page < PAGES
            → stage_of result.running.rooms.pages page ≡ stage_of running.rooms.pages page }
        ensures spared { result.spared ≡ 0 }
    {
        // Their contracts say that the objects of a sound world can be saved once they are swept, and have records
        // then; and that the committed numbers are those that are saved.
        alloc_journal::laws::known();
        object_records::laws::sound_objects_have_records();
        saved_state::laws::running_objects_are_parts();
        sweep(running.calls.objects_mut(), &running.rooms);
        let leader = Leader::begin(running.calls.objects(), &mut running.rooms, nvm);
        Checkpoint {
            running,
            leader,
            spared: 0,
        }
    }
}
