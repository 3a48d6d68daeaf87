//! Laws. Each of these functions does nothing: its contract is the law.

ghost use Rattle.std.specs.Prelude.{◌≡◌, ◌≢◌, ℕ, ◌+◌, ◌%◌, ◌<◌, ◌≤◌, false, true, List, ◌++◌, Option, Some, find, length};
ghost use Rattle.sls_base.specs.declared.limits.TheConstants.{PAGE_BYTES, PAGES};
ghost use Rattle.mem_space.specs.declared.memory.MemPage.{MemPage};
ghost use Rattle.plain_state.specs.declared.objects.Region.{Region};
ghost use Rattle.plain_model.specs.Objects.{Object, OutputRing, page_of_channel, regions_of};
ghost use Rattle.plain_model.specs.Memory.{bytes_of_number, covers, is_covered, place_in, places_of, stores_at, with_stores};
ghost use Rattle.plain_laws.specs.Sound.{AreApart};
ghost use Rattle.kobj_table.specs.declared.objects.Objects.{Objects};
ghost use Rattle.kobj_table.specs.Objects.{object_at, Rest, state_of};
ghost use Rattle.page_bytes.specs.Bytes.{with_bytes, IsSameOnPages, IsStoredAt, SeesPage};

/// Where each page is of one object alone, bytes that come to stand on a page are the stores of the plain machine to
/// the addresses at which a region has it.
pub fn stores_change_content()
    ensures { (objects : Objects) (rest : Rest) (regions : List Region) (region : Region) (right at : ℕ)
        (page : MemPage) (bytes : List ℕ) → AreApart (state_of objects rest)
        → find (covers right at) regions ≡ Some region → at % PAGE_BYTES + length bytes ≤ PAGE_BYTES
        → IsStoredAt objects (place_in at region) page
        → state_of objects (record rest { content = with_bytes rest.content page.page (at % PAGE_BYTES) bytes })
        ≡ record (state_of objects rest) {
          objects = with_stores (state_of objects rest).objects
              (stores_at (places_of regions right at (length bytes)) bytes);
        } }
{
    plain_laws::calls::bytes_on_one_page();
}

/// So they are where a space has the page at the address, and something was stored to it before. There is such a page.
pub fn stores_at_addresses()
    ensures state { (objects : Objects) (rest : Rest) (space right at : ℕ) (page : MemPage) (bytes : List ℕ)
        → AreApart (state_of objects rest) → SeesPage objects space right at page → page.fresh ≡ false
        → at % PAGE_BYTES + length bytes ≤ PAGE_BYTES
        → state_of objects (record rest { content = with_bytes rest.content page.page (at % PAGE_BYTES) bytes })
        ≡ record (state_of objects rest) {
          objects = with_stores (state_of objects rest).objects
              (stores_at (places_of (regions_of (object_at rest.content objects space)) right at (length bytes)) bytes);
        } }
    ensures number { (objects : Objects) (rest : Rest) (space right at size value : ℕ) (page : MemPage)
        → AreApart (state_of objects rest) → SeesPage objects space right at page → page.fresh ≡ false
        → at % PAGE_BYTES + size ≤ PAGE_BYTES
        → state_of objects
        (record rest { content = with_bytes rest.content page.page (at % PAGE_BYTES) (bytes_of_number size value) })
        ≡ record (state_of objects rest) {
          objects = with_stores (state_of objects rest).objects
              (stores_at (places_of (regions_of (object_at rest.content objects space)) right at size)
              (bytes_of_number size value));
        } }
    ensures range { (objects : Objects) (rest : Rest) (space right at : ℕ) (page : MemPage)
        → AreApart (state_of objects rest) → SeesPage objects space right at page → page.fresh ≡ false
        → page.page < PAGES }
{
    stores_change_content();
}

/// Bytes may be stored in parts: the first of them, and then those behind. Where each page is of one object alone, it
/// is so whatever the content of pages is.
pub fn stores_in_parts()
    ensures parts { (objects : ℕ → Option Object) (regions : List Region) (right at : ℕ) (first behind : List ℕ)
        → is_covered regions right at (length first) ≡ true
        → with_stores objects (stores_at (places_of regions right at (length first + length behind)) (first ++ behind))
        ≡ with_stores (with_stores objects (stores_at (places_of regions right at (length first)) first))
        (stores_at (places_of regions right (at + length first) (length behind)) behind) }
    ensures apart { (objects : Objects) (rest : Rest) (content : ℕ → ℕ → ℕ) → AreApart (state_of objects rest)
        → AreApart (state_of objects (record rest { content = content })) }
{}

/// The content of a page that no memory object has, or that is fresh, is no part of the state. Where each page is of
/// one object alone, the page of an output ring is such a page.
pub fn other_pages_are_not_seen()
    ensures pages { (objects : Objects) (rest : Rest) (content : ℕ → ℕ → ℕ) → IsSameOnPages objects content rest.content
        → state_of objects (record rest { content = content }) ≡ state_of objects rest }
    ensures rings { (objects : Objects) (rest : Rest) (id channel at : ℕ) (bytes : List ℕ)
        → AreApart (state_of objects rest) → object_at rest.content objects id ≡ Some (OutputRing channel)
        → state_of objects (record rest { content = with_bytes rest.content (page_of_channel channel) at bytes })
        ≡ state_of objects rest }
{}

/// A page that a space shows, and to which something was stored before, is not that of an output ring.
pub fn pages_of_rings_are_apart()
    ensures { (objects : Objects) (rest : Rest) (space right at id channel : ℕ) (page : MemPage)
        → AreApart (state_of objects rest) → SeesPage objects space right at page → page.fresh ≡ false
        → object_at rest.content objects id ≡ Some (OutputRing channel) → page.page ≢ page_of_channel channel }
{}
