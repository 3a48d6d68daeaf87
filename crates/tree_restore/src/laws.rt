//! Laws. Each of these functions does nothing: its contract is the law.

ghost use Rattle.std.specs.Prelude.{◌≡◌, ℕ, Option};
ghost use Rattle.sls_base.specs.declared.limits.TheConstants.{VERSION_AT};
ghost use Rattle.pmem_model.specs.Words.{Word};
ghost use Rattle.pmem_model.specs.Events.{IsCalm, Left};
ghost use Rattle.pmem_layout.specs.Owners.{Numbers, Objects, Pages};
ghost use Rattle.pmem_layout.specs.Rooms.{StoresOnlyIn};
ghost use Rattle.kobj_codec.specs.declared.obj.Obj.{Obj};
ghost use Rattle.alloc_journal.specs.Work.{InUse};
ghost use Rattle.alloc_journal.specs.Shows.{NumbersShow};
ghost use Rattle.object_root.specs.Room.{Room};
ghost use Rattle.object_root.specs.Shows.{ObjectsShow};
ghost use Rattle.page_store.specs.declared.recovery.Recovery.{Recovery as PageRecovery};
ghost use Rattle.page_store.specs.Back.{RecoveryShows as PagesReturn};
ghost use Rattle.durable_state.specs.Parts.{Parts, PartsStand};
ghost use Rattle.tree_restore.specs.declared.recovery.Recovery.{Recovery};
ghost use Rattle.tree_restore.specs.Restores.{AreCleared, AreRedone, RestoreShows};

/// What recovery shows outlives whatever stores nothing: flushes and fences of any core, and write-backs of any words.
pub fn calm()
    ensures { (r : Recovery) (f g : ℕ → Word) (v : ℕ) (saved : Parts) → IsCalm f g → RestoreShows r f v saved
        → RestoreShows r g v saved }
{
    alloc_journal::laws::calm();
    object_root::laws::room();
    page_store::laws::recovery();
    pmem_layout::laws::owners();
    pmem_layout::laws::owners_take_part();
}

/// Whatever a cut leaves, wherever in recovery it comes, is the committed version as it is saved: recovery begins anew
/// for the same.
pub fn recovery_is_clean()
    ensures { (r : Recovery) (f : ℕ → Word) (left : ℕ → ℕ) (v : ℕ) (saved : Parts) → ((i : ℕ) → Left (f i) (left i))
        → RestoreShows r f v saved → (left VERSION_AT ≡ v) × PartsStand left v saved }
{
    alloc_journal::laws::stands();
    object_root::laws::room();
    page_store::laws::recovery();
    pmem_layout::laws::owners_take_part();
}

/// A step of one room stores nothing in the words of the others, so these show what they did.
pub(crate) fn rooms_are_apart()
    ensures numbers { (r : Recovery) (numbers : InUse) (f g : ℕ → Word) (v : ℕ) (saved : Parts)
        → StoresOnlyIn Numbers f g → RestoreShows r f v saved → NumbersShow numbers.work g v saved.numbers
        → AreRedone numbers → RestoreShows (record r { numbers = numbers }) g v saved }
    ensures objects { (r : Recovery) (roots : Room) (f g : ℕ → Word) (v : ℕ) (saved : Parts)
        → StoresOnlyIn Objects f g → RestoreShows r f v saved
        → ((next : ℕ → Option Obj) → ObjectsShow roots g v saved.objects next)
        → AreCleared roots → RestoreShows (record r { roots = roots }) g v saved }
    ensures pages { (r : Recovery) (pages : PageRecovery) (f g : ℕ → Word) (v : ℕ) (saved : Parts)
        → StoresOnlyIn Pages f g → RestoreShows r f v saved → PagesReturn pages g v saved.pages
        → RestoreShows (record r { pages = pages }) g v saved }
{
    alloc_journal::laws::calm();
    object_root::laws::room();
    page_store::laws::recovery();
    pmem_layout::laws::owners();
    pmem_layout::laws::owners_are_apart();
}
