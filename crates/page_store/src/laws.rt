//! Laws. Each of these functions does nothing: its contract is the law.

ghost use Rattle.std.specs.Prelude.{◌≡◌, ◌≢◌, ◌⊎◌, ◌+◌, ◌<◌, ◌≤◌, ℕ, Bool, Option, Some, None, true};
ghost use Rattle.sls_base.specs.declared.limits.TheConstants.{FRAME_WORDS, PAGES};
ghost use Rattle.sls_base.specs.declared.fixed.TheConstants.{LEADER};
ghost use Rattle.pmem_model.specs.Words.{Word};
ghost use Rattle.pmem_layout.specs.Owners as owners;
ghost use Rattle.pmem_layout.specs.Places.{runtime_frame, frame_at};
ghost use Rattle.pmem_layout.specs.Rooms.{CalmIn, FencedIn, LeftIn};
ghost use Rattle.page_store.specs.Slots.{Slot, slot_frame, slot_tag_at, slot_tag, HasSlot, IsUntagged, IsFrameClean, durable_words};
ghost use Rattle.page_store.specs.Format.{Is, PagesStand, frame_of};
ghost use Rattle.page_store.specs.Stages.{stage_of, IsFlushed};
ghost use Rattle.page_store.specs.Known.{Phase, Open, Fenced};
ghost use Rattle.page_store.specs.Shows.{PagesShow};
ghost use Rattle.page_store.specs.Stores.{after_stores, IsStored, StoresInPages};
ghost use Rattle.page_store.specs.Back.{RecoveryShows};
ghost use Rattle.page_store.specs.declared.recovery.Recovery.{Recovery};
ghost use Rattle.page_store.specs.declared.stage.Origin.{Origin};
ghost use Rattle.page_store.specs.declared.stage.PageStage.TheVariants as PageStage;
ghost use Rattle.page_store.specs.declared.stage.Preparation.{Preparation};
ghost use Rattle.page_store.specs.declared.stage.Writes.{Writes};
ghost use Rattle.page_store.specs.declared.store.PageStore.{PageStore};

/// What a page store shows outlives whatever stores nothing in the pages' words; a fence by the leader makes durable
/// what it flushed; and whatever a cut leaves, the pages stand in it as they are saved, or as they run where the leader
/// has flushed and fenced all that was stored to them.
pub fn page_versions()
    ensures calm { (s : PageStore) (f g : ℕ → Word) (v : ℕ) (saved now : ℕ → Option (ℕ → ℕ)) (phase : Phase)
        → CalmIn owners.Pages f g → PagesShow s f v saved now phase → PagesShow s g v saved now phase }
    ensures fenced { (s : PageStore) (f g : ℕ → Word) (v : ℕ) (saved now : ℕ → Option (ℕ → ℕ)) (phase : Phase)
        → FencedIn owners.Pages LEADER f g → PagesShow s f v saved now phase → PagesShow s g v saved now Fenced }
    ensures stands { (s : PageStore) (f : ℕ → Word) (left : ℕ → ℕ) (v : ℕ) (saved now : ℕ → Option (ℕ → ℕ))
        (phase : Phase) → LeftIn owners.Pages f left → PagesShow s f v saved now phase → PagesStand left v saved }
    ensures commits { (s : PageStore) (f : ℕ → Word) (left : ℕ → ℕ) (v : ℕ) (saved now : ℕ → Option (ℕ → ℕ))
        → ((page : ℕ) → page < PAGES → IsFlushed (stage_of s page))
        → LeftIn owners.Pages f left → PagesShow s f v saved now Fenced → PagesStand left (v + 1) now }
    ensures reads { (s : PageStore) (f : ℕ → Word) (v : ℕ) (saved now : ℕ → Option (ℕ → ℕ)) (phase : Phase)
        (page : ℕ) (content : ℕ → ℕ) (j : ℕ) → page < PAGES → j < FRAME_WORDS → now page ≡ Some content
        → PagesShow s f v saved now phase → (f (frame_at (runtime_frame page) + j)).cached ≡ content j }
    ensures same { (s : PageStore) (f : ℕ → Word) (v : ℕ) (saved now same next : ℕ → Option (ℕ → ℕ)) (phase : Phase)
        → ((page : ℕ) → page < PAGES → (same page ≡ saved page) × (next page ≡ now page))
        → PagesShow s f v saved now phase → PagesShow s f v same next phase }
{}

/// Of the saved pages some may be left out, which no version needs any more.
pub fn saved_pages_may_be_fewer()
    ensures { (s : PageStore) (f : ℕ → Word) (v : ℕ) (saved now fewer : ℕ → Option (ℕ → ℕ)) (phase : Phase)
        → ((page : ℕ) → page < PAGES → (fewer page ≡ saved page) ⊎ (fewer page ≡ None))
        → PagesShow s f v saved now phase → PagesShow s f v fewer now phase }
{}

/// What the states say of the words of a page. A protected page's runtime frame has no dirty word, and no slot has the
/// tag of the committed version. Of a page that is being prepared the runtime frame stays the content. A writable page
/// that has a content at the committed version has it in a clean slot whose durable tag is that of the version. No slot
/// has the tag of a later version, whatever a cut leaves.
pub fn states()
    ensures protected { (s : PageStore) (f : ℕ → Word) (v : ℕ) (saved now : ℕ → Option (ℕ → ℕ)) (phase : Phase)
        (page : ℕ) → page < PAGES → stage_of s page ≡ PageStage.Protected → PagesShow s f v saved now phase
        → IsFrameClean f (runtime_frame page) × ((slot : Slot) → IsUntagged f page slot v) }
    ensures prepared { (s : PageStore) (f : ℕ → Word) (v : ℕ) (saved now : ℕ → Option (ℕ → ℕ)) (phase : Phase)
        (page core : ℕ) (next : Preparation) → page < PAGES → stage_of s page ≡ PageStage.Preparing core next
        → PagesShow s f v saved now phase
        → IsFrameClean f (runtime_frame page) × Is (saved page) (frame_of (durable_words f) (runtime_frame page)) }
    ensures writable { (s : PageStore) (f : ℕ → Word) (v : ℕ) (saved now : ℕ → Option (ℕ → ℕ)) (phase : Phase)
        (page : ℕ) (origin : Origin) (writes : Writes) → page < PAGES
        → stage_of s page ≡ PageStage.Writable origin writes → saved page ≢ None → PagesShow s f v saved now phase
        → (slot : Slot) × IsFrameClean f (slot_frame page slot)
        × Is (saved page) (frame_of (durable_words f) (slot_frame page slot)) × HasSlot (durable_words f) page slot v }
    ensures below { (s : PageStore) (f : ℕ → Word) (left : ℕ → ℕ) (v : ℕ) (saved now : ℕ → Option (ℕ → ℕ))
        (phase : Phase) (page : ℕ) (slot : Slot) → page < PAGES → LeftIn owners.Pages f left
        → PagesShow s f v saved now phase → left (slot_tag_at page slot) ≤ slot_tag slot v }
{}

/// What recovery shows outlives whatever stores nothing in the pages' words, and whatever a cut leaves of it, the pages
/// stand in it: then recovery begins anew.
pub fn recovery()
    ensures calm { (r : Recovery) (f g : ℕ → Word) (v : ℕ) (saved : ℕ → Option (ℕ → ℕ))
        → CalmIn owners.Pages f g → RecoveryShows r f v saved → RecoveryShows r g v saved }
    ensures stands { (r : Recovery) (f : ℕ → Word) (left : ℕ → ℕ) (v : ℕ) (saved : ℕ → Option (ℕ → ℕ))
        → LeftIn owners.Pages f left → RecoveryShows r f v saved → PagesStand left v saved }
{}

/// Where words are stored in the runtime frames of some pages alone, and that was noted of each of them, what is saved is
/// kept, and each of these pages runs as its frame reads.
pub fn stored_pages_run()
    ensures { (s : PageStore) (f g : ℕ → Word) (v : ℕ) (saved now : ℕ → Option (ℕ → ℕ)) (test : ℕ → Bool)
        → ((page : ℕ) → page < PAGES → test page ≡ true → IsStored (stage_of s page)) → StoresInPages test f g
        → PagesShow s f v saved now Open → PagesShow s g v saved (after_stores test g now) Open }
{}
