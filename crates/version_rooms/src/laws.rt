//! Laws. Each of these functions does nothing: its contract is the law.

ghost use Rattle.std.specs.Prelude.{◌≡◌, ◌≢◌, ◌+◌, ◌<◌, ℕ, Bool, Option, true};
ghost use Rattle.sls_base.specs.declared.limits.TheConstants.{PAGES, VERSION_AT};
ghost use Rattle.sls_base.specs.declared.fixed.TheConstants.{LEADER};
ghost use Rattle.pmem_model.specs.Words.{Word};
ghost use Rattle.pmem_model.specs.Events.{Clean, IsBurst, IsCalm, IsFenced, Left, WordIs};
ghost use Rattle.pmem_layout.specs.Places.{frame_at};
ghost use Rattle.pmem_layout.specs.Owners.{Numbers, Objects, Pages, Version};
ghost use Rattle.version_commit.specs.declared.committer.Committer.{Committer};
ghost use Rattle.pmem_layout.specs.Rooms.{StoresOnlyIn};
ghost use Rattle.alloc_journal.specs.Work.{InUse};
ghost use Rattle.alloc_journal.specs.Shows.{NumbersShow};
ghost use Rattle.object_root.specs.Room.{Passes, Room};
ghost use Rattle.object_root.specs.Steps.{fenced};
ghost use Rattle.object_root.specs.Shows.{ObjectsShow};
ghost use Rattle.page_store.specs.declared.store.PageStore.{PageStore};
ghost use Rattle.page_store.specs.Shows.{PagesShow};
ghost use Rattle.page_store.specs.Known.{Phase, Open, Fenced};
ghost use Rattle.page_store.specs.Stages.{stage_of};
ghost use Rattle.page_store.specs.Stores.{after_stores, IsStored, StoresInPages};
ghost use Rattle.durable_state.specs.Parts.{Parts, PartsStand};
ghost use Rattle.version_rooms.specs.declared.rooms.Rooms.{Rooms};
ghost use Rattle.version_rooms.specs.Rooms.{Contents, IsAtRest, IsReady, RoomsKeep, RoomsShow, MayCommit, LeavesOne};

/// While no commit is under way, what the rooms show outlives whatever stores nothing: flushes and fences of any core,
/// and write-backs of any words.
pub fn calm()
    ensures { (r : Rooms) (f g : ℕ → Word) (v : ℕ) (c : Contents) (phase : Phase) → IsAtRest r → IsCalm f g
        → RoomsShow r f v c phase → RoomsShow r g v c phase }
{
    version_commit::laws::version_word();
    alloc_journal::laws::calm();
    object_root::laws::room();
    page_store::laws::page_versions();
    pmem_layout::laws::owners();
    pmem_layout::laws::owners_take_part();
}

/// Whatever a cut leaves says one version whole, through each step and within a commit too: what was saved, or what was
/// written to be saved next.
pub fn commit_point()
    ensures { (r : Rooms) (f : ℕ → Word) (left : ℕ → ℕ) (v : ℕ) (c : Contents) (next : Parts) (phase : Phase)
        → ((i : ℕ) → Left (f i) (left i)) → MayCommit r v c next phase → RoomsShow r f v c phase
        → LeavesOne left v c.saved next }
{
    version_commit::laws::version_word();
    alloc_journal::laws::stands();
    alloc_journal::laws::commits();
    object_root::laws::room();
    page_store::laws::page_versions();
    pmem_layout::laws::owners();
    pmem_layout::laws::owners_take_part();
}

/// While no commit is under way, whatever a cut leaves is the committed version, as it is saved.
pub fn at_rest()
    ensures { (r : Rooms) (f : ℕ → Word) (left : ℕ → ℕ) (v : ℕ) (c : Contents) (phase : Phase)
        → ((i : ℕ) → Left (f i) (left i)) → IsAtRest r → RoomsShow r f v c phase
        → (left VERSION_AT ≡ v) × PartsStand left v c.saved }
{
    version_commit::laws::version_word();
    alloc_journal::laws::stands();
    object_root::laws::room();
    page_store::laws::page_versions();
    pmem_layout::laws::owners_take_part();
}

/// A step of one room stores nothing in the words of the others, so these show what they did.
pub(crate) fn rooms_are_apart()
    ensures numbers { (r : Rooms) (numbers : InUse) (f g : ℕ → Word) (v : ℕ) (c : Contents) (phase : Phase)
        → IsAtRest r → StoresOnlyIn Numbers f g → RoomsShow r f v c phase → NumbersShow numbers.work g v c.saved.numbers
        → RoomsShow (record r { numbers = numbers }) g v c phase }
    ensures objects { (r : Rooms) (roots : Room) (f g : ℕ → Word) (v : ℕ) (c : Contents) (phase : Phase)
        → IsAtRest r → StoresOnlyIn Objects f g → RoomsShow r f v c phase
        → ObjectsShow roots g v c.saved.objects c.objects → RoomsShow (record r { roots = roots }) g v c phase }
    ensures pages { (r : Rooms) (pages : PageStore) (f g : ℕ → Word) (v : ℕ) (c : Contents)
        (now : ℕ → Option (ℕ → ℕ)) (phase then : Phase) → IsAtRest r → StoresOnlyIn Pages f g
        → RoomsShow r f v c phase → PagesShow pages g v c.saved.pages now then
        → RoomsShow (record r { pages = pages }) g v (record c { pages = now }) then }
{
    version_commit::laws::version_word();
    alloc_journal::laws::calm();
    object_root::laws::room();
    page_store::laws::page_versions();
    pmem_layout::laws::owners();
    pmem_layout::laws::owners_are_apart();
}

/// A burst of words in a frame of a page stores in words of the pages alone.
pub(crate) fn burst_on_page()
    ensures { (f g : ℕ → Word) (frame at count : ℕ) (value : ℕ → ℕ) → IsBurst f g (frame_at frame + at) count value
        → StoresOnlyIn Pages f g }
{
    pmem_layout::laws::owners();
    pmem_layout::laws::owners_are_apart();
}

/// After a fence by the leader what it flushed of the pages is durable, and so are the records and tags that it
/// flushed.
pub(crate) fn fenced_rooms()
    ensures pages { (r : Rooms) (f g : ℕ → Word) (v : ℕ) (c : Contents) (phase : Phase) → IsAtRest r
        → IsFenced LEADER f g → RoomsShow r f v c phase → RoomsShow r g v c Fenced }
    ensures objects { (r : Rooms) (roots : Room) (f g : ℕ → Word) (v : ℕ) (c : Contents) (phase : Phase)
        → IsAtRest r → IsFenced LEADER f g → Passes r.roots roots (fenced r.roots.phase)
        → RoomsShow r f v c phase → RoomsShow (record r { roots = roots }) g v c Fenced }
{
    version_commit::laws::version_word();
    alloc_journal::laws::calm();
    object_root::laws::room();
    page_store::laws::page_versions();
    pmem_layout::laws::owners();
    pmem_layout::laws::owners_take_part();
}

/// What the rooms keep beside the version word outlives whatever stores nothing.
pub(crate) fn kept_rooms()
    ensures { (r : Rooms) (f g : ℕ → Word) (v : ℕ) (c : Contents) (phase : Phase) → IsCalm f g
        → RoomsKeep r f v c phase → RoomsKeep r g v c phase }
{
    alloc_journal::laws::calm();
    object_root::laws::room();
    page_store::laws::page_versions();
    pmem_layout::laws::owners();
    pmem_layout::laws::owners_take_part();
}

/// A step of the commit stores nothing in the words of the other rooms, so these keep what they did.
pub(crate) fn version_apart()
    ensures keep { (r : Rooms) (committer : Committer) (f g : ℕ → Word) (v : ℕ) (c : Contents) (phase : Phase)
        → StoresOnlyIn Version f g → RoomsKeep r f v c phase
        → RoomsKeep (record r { committer = committer }) g v c phase }
    ensures ready { (r : Rooms) (committer : Committer) (v : ℕ) (c : Contents) (next : Parts)
        → IsReady r v c next → IsReady (record r { committer = committer }) v c next }
{
    alloc_journal::laws::calm();
    object_root::laws::room();
    page_store::laws::page_versions();
    pmem_layout::laws::owners();
    pmem_layout::laws::owners_are_apart();
}

/// After an event that stored nothing, all is as before where the version that is durable is the committed one; else
/// the next version, which is written whole, is durable in the version word.
pub(crate) fn settled_rooms()
    ensures same { (r : Rooms) (f g : ℕ → Word) (v : ℕ) (c : Contents) (phase : Phase) → IsCalm f g
        → RoomsShow r f v c phase → (g VERSION_AT).durable ≡ v → RoomsShow r g v c phase }
    ensures next { (r : Rooms) (f g : ℕ → Word) (v : ℕ) (c : Contents) (next : Parts) (phase : Phase) → IsCalm f g
        → MayCommit r v c next phase → RoomsShow r f v c phase → (g VERSION_AT).durable ≢ v
        → (phase ≡ Fenced) × IsReady r v c next × WordIs LEADER Clean (g VERSION_AT) (v + 1)
        × RoomsKeep r g v c phase }
{
    version_commit::laws::version_word();
    kept_rooms();
    pmem_layout::laws::owners_take_part();
}

/// Where words are stored in the runtime frames of some pages alone, and that was noted of each of them, what is saved is
/// kept, and each of these pages runs as its frame reads.
pub fn stored_pages_run()
    ensures { (r : Rooms) (f g : ℕ → Word) (v : ℕ) (c : Contents) (test : ℕ → Bool) → IsAtRest r
        → ((page : ℕ) → page < PAGES → test page ≡ true → IsStored (stage_of r.pages page)) → StoresInPages test f g
        → RoomsShow r f v c Open → RoomsShow r g v (record c { pages = after_stores test g c.pages }) Open }
{
    page_store::laws::stored_pages_run();
    rooms_are_apart();
    pmem_layout::laws::owners();
}
