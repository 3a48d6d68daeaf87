//! Turns within a checkpoint.

ghost use Rattle.std.specs.Prelude.{◌≡◌, ◌+◌, ◌<◌, ◌≢◌, ◌↔◌, ℕ, List, Option, IsSome, IfSome, IfNone, None, Some};
ghost use Rattle.sls_base.specs.declared.fixed.TheConstants.{LEADER as THE_LEADER};
ghost use Rattle.sls_base.specs.declared.limits.TheConstants.{CORES as EVERY_CORE, VERSION_AT};
ghost use Rattle.pmem_model.specs.Events.{IsCalm};
ghost use Rattle.pmem_model.specs.Memory.{Memory, word_at, SameHomes};
ghost use Rattle.plain_state.specs.Worlds.{World};
ghost use Rattle.core_turns.specs.Runs.{prepared_by};
ghost use Rattle.checkpoint_turns.specs.Checkpoints.{IsInFlight, IsOf, NoneInHand};
ghost use Rattle.checkpoint_turns.specs.Steps.{CommitsBack, TurnGoes};

use core_turns::Running;
use leader_helper::{Leader, Progress};
use pmem_model::Pmem;
use sls_base::{CoreNo, LEADER, OUTPUT_CHANNELS, PageNo, Version};

/// A checkpoint in flight: the cores that run on when it is at its end, their leader, and how many turns a commit by
/// write-back spared it. The objects are swept.
///
/// A turn does at most one operation on the memory, and no call takes memory. A turn costs a constant number of steps
/// beside that of the leader; the one that commits and the last one look at each page and object once.
#[derive(Drop)]
pub struct Checkpoint {
    pub running: Running,
    pub leader: Leader,
    pub spared: u8,
}

/// What a turn within a checkpoint came to.
#[derive(Drop)]
pub enum Led {
    /// A step by which the core prepares this page, which it had in hand.
    Prepared(PageNo),
    /// The leader waits for a core that has a page in hand.
    Waits,
    /// There is nothing to do for the core.
    Paused,
    /// A turn of the leader.
    Led,
    /// The fence that made this version durable.
    Committed(Version),
    /// The leader's last turn: the cores run on.
    Ended,
}

impl Checkpoint {
    /// A turn of a core: a step of the page that it has in hand; else, of core 0, a turn of the leader once no core has
    /// a page in hand.
    pub fn turn(&mut self, nvm: &mut Pmem, core: CoreNo, accepted: &[u64; OUTPUT_CHANNELS]) -> Led
        requires below { core < EVERY_CORE }
        requires in_flight { IsInFlight self.old accepted.now nvm.old }
        ensures goes { (w : World) → IsOf self.old accepted.now nvm.old w
            → TurnGoes self.old accepted.now nvm.old w core result self.new nvm.new }
    {
        if let Some(page) = self.running.prepares[core as usize] {
            return self.prepare(nvm, page, core);
        }
        if core != LEADER {
            return Led::Paused;
        }
        if self.has_page_in_hand() {
            return Led::Waits;
        }
        self.lead(nvm)
    }

    /// A step by which a core goes on with the page that it has in hand.
    fn prepare(&mut self, nvm: &mut Pmem, page: PageNo, core: CoreNo) -> Led
        requires below { core < EVERY_CORE }
        requires in_hand { prepared_by self.old.running core ≡ Some page }
        requires in_flight { (accepted : List ℕ) × IsInFlight self.old accepted nvm.old }
        ensures goes { (accepted : List ℕ) (w : World) → IsOf self.old accepted nvm.old w
            → TurnGoes self.old accepted nvm.old w core result self.new nvm.new }
    {
        // Their contracts say that such a step leaves the leader where it was, and that objects are what their records
        // stand for.
        leader_helper::laws::gathering();
        object_records::laws::records_stand_for_objects();
        object_records::laws::fresh_pages_are_zero();
        let is_done = self.running.rooms.fault_step(nvm, page, core);
        self.running.prepares[core as usize] = if is_done { None } else { Some(page) };
        Led::Prepared(page)
    }

    /// A turn of the leader, while no core has a page in hand.
    fn lead(&mut self, nvm: &mut Pmem) -> Led
        requires free { NoneInHand self.old }
        requires in_flight { (accepted : List ℕ) × IsInFlight self.old accepted nvm.old }
        ensures goes { (accepted : List ℕ) (w : World) → IsOf self.old accepted nvm.old w
            → TurnGoes self.old accepted nvm.old w THE_LEADER result self.new nvm.new }
    {
        // Their contracts say that objects have records and are what these stand for, that they are the parts of the
        // state that is saved, and that a commit keeps a world sound.
        object_records::laws::records_stand_for_objects();
        object_records::laws::fresh_pages_are_zero();
        object_records::laws::sound_objects_have_records();
        saved_state::laws::running_objects_are_parts();
        plain_laws::whole::worlds_are_sound();
        let objects = self.running.calls.objects();
        match self.leader.step(objects, &mut self.running.rooms, nvm) {
            Progress::Led => Led::Led,
            Progress::Committed => {
                self.count_saved();
                Led::Committed(self.running.rooms.version())
            }
            Progress::Resumed => {
                self.forget_unused();
                self.running.calls.settle();
                Led::Ended
            }
        }
    }

    /// After an event that stored nothing, as a write-back: the version that it committed, if it did.
    pub fn settle(&mut self, nvm: &Pmem) -> Option<Version>
        ensures none { IfNone result (self.new ≡ self.old) }
        ensures stays { (accepted : List ℕ) (m : Memory) (w : World) → IsCalm (word_at m) (word_at nvm.now)
            → SameHomes m nvm.now → IsOf self.old accepted m w → IfNone result (IsOf self.new accepted nvm.now w) }
        ensures commits { (accepted : List ℕ) (m : Memory) (w : World) → IsCalm (word_at m) (word_at nvm.now)
            → SameHomes m nvm.now → IsOf self.old accepted m w
            → IfSome result (λ version. CommitsBack self.old accepted m w version self.new nvm.now) }
        ensures committed { (accepted : List ℕ) (m : Memory) (w : World) → IsCalm (word_at m) (word_at nvm.now)
            → SameHomes m nvm.now → IsOf self.old accepted m w
            → IsSome result ↔ ((word_at nvm.now VERSION_AT).durable ≢ w.version) }
    {
        // Their contracts say that rooms outlive such an event where nothing is being committed, and that the objects
        // are the parts of the state that is saved.
        version_rooms::laws::calm();
        saved_state::laws::running_objects_are_parts();
        object_records::laws::records_stand_for_objects();
        object_records::laws::fresh_pages_are_zero();
        plain_laws::whole::worlds_are_sound();
        match self.leader.settle(&mut self.running.rooms, nvm) {
            Some(spared) => {
                self.spared = spared;
                self.count_saved();
                Some(self.running.rooms.version())
            }
            None => None,
        }
    }
}
