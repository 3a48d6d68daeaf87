//! Laws. Each of these functions does nothing: its contract is the law.

ghost use Rattle.std.specs.Prelude.{◌≡◌, ◌≢◌, ℕ, Option};
ghost use Rattle.sls_base.specs.declared.limits.TheConstants.{VERSION_AT};
ghost use Rattle.pmem_model.specs.Words.{Word};
ghost use Rattle.pmem_model.specs.Events.{Left};
ghost use Rattle.page_store.specs.declared.stage.PageStage.{PageStage};
ghost use Rattle.page_store.specs.Known.{Open};
ghost use Rattle.page_store.specs.Stages.{stage_of};
ghost use Rattle.cow_fault.specs.Faults.{faulted};
ghost use Rattle.durable_state.specs.Parts.{Parts, PartsStand};
ghost use Rattle.version_rooms.specs.declared.rooms.Rooms.{Rooms};
ghost use Rattle.version_rooms.specs.Rooms.{Contents, LeavesOne, RoomsShow};
ghost use Rattle.leader_helper.specs.declared.leader.Leader.{Leader};
ghost use Rattle.leader_helper.specs.declared.stage.Stage.TheVariants as at;
ghost use Rattle.leader_helper.specs.Leads.{AreNext, IsApplying, IsWriting};
ghost use Rattle.leader_helper.specs.Turns.{is_unflushed, turns_left};

/// Whatever a cut leaves in a checkpoint, wherever it comes, says one version whole: before the commit what was saved,
/// or what the commit was to make of it; and after the commit what it made.
pub fn commit_point()
    ensures before { (l : Leader) (r : Rooms) (f : ℕ → Word) (left : ℕ → ℕ) (v : ℕ) (c : Contents) (next : Parts)
        → ((i : ℕ) → Left (f i) (left i)) → IsWriting l r f v c → AreNext r c next → LeavesOne left v c.saved next }
    ensures after { (l : Leader) (r : Rooms) (f : ℕ → Word) (left : ℕ → ℕ) (v : ℕ) (saved : Parts)
        (pages : ℕ → Option (ℕ → ℕ)) → ((i : ℕ) → Left (f i) (left i)) → IsApplying l r f v saved pages
        → (left VERSION_AT ≡ v) × PartsStand left v saved }
{
    version_rooms::laws::commit_point();
    version_rooms::laws::at_rest();
}

/// While the leader waits for the cores that prepare a page, a step of such a core's fault leaves the checkpoint where it
/// was: the next version is being written still, and as many turns are left, since no such step is a store to a page.
pub fn gathering()
    ensures fault { (l : Leader) (r s : Rooms) (f g : ℕ → Word) (v : ℕ) (c : Contents) (page core : ℕ)
        → IsWriting l r f v c → l.stage ≡ at.Gather → s ≡ record r { pages = s.pages }
        → stage_of s.pages page ≡ faulted (stage_of r.pages page) core
        → ((i : ℕ) → i ≢ page → stage_of s.pages i ≡ stage_of r.pages i)
        → RoomsShow s g v c Open → IsWriting l s g v c }
    ensures left { (l : Leader) (r s : Rooms) (page core : ℕ)
        → l.stage ≡ at.Gather → s ≡ record r { pages = s.pages }
        → stage_of s.pages page ≡ faulted (stage_of r.pages page) core
        → ((i : ℕ) → i ≢ page → stage_of s.pages i ≡ stage_of r.pages i)
        → turns_left l s ≡ turns_left l r }
    ensures unflushed { (stage : PageStage) (core : ℕ) → is_unflushed (faulted stage core) ≡ is_unflushed stage }
{}
