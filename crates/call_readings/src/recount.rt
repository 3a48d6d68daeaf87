//! The numbers that objects use.

ghost use Rattle.std.specs.Prelude.{◌≡◌, ◌==◌, ◌&&◌, ◌||◌, ◌<◌, ◌≤◌, ℕ, false, List, is_some};
ghost use Rattle.std.specs.List.{list_any};
ghost use Rattle.sls_base.specs.declared.limits.TheConstants.{OBJECTS, PAGES};
ghost use Rattle.plain_model.specs.Objects.{page_numbers};
ghost use Rattle.plain_model.specs.Worlds.{World, has_page};
ghost use Rattle.plain_laws.specs.Laws.{AreInRange};
ghost use Rattle.plain_laws.specs.Sound.{AreApart};
ghost use Rattle.kobj_table.specs.Slots.{object_of};
ghost use Rattle.kobj_table.specs.Objects.{Rest, state_of};
ghost use Rattle.call_readings.specs.NumberSets.{uses_object, uses_page};
ghost use Rattle.call_readings.specs.Kernel.{IsCounted, world_of};

use crate::numbers::NumbersInUse;
use kobj_table::{Objects, Slot};
use mem_space::MemPage;
use sls_base::{OUTPUT_CHANNELS, ObjId, PAGES, PageNo};

impl NumbersInUse {
    /// The numbers that objects use: their own, and those of their pages.
    #[tactic(auto, unfolding(kobj_table::specs::Objects::state_of))]
    pub fn of(objects: &Objects) -> Self
        ensures objects { (rest : Rest) (id : ℕ) → id < OBJECTS → uses_object result id
            ≡ is_some ((state_of objects.now rest).objects id) }
        ensures pages { (rest : Rest) (page : ℕ) → page < PAGES → uses_page result page
            ≡ has_page (state_of objects.now rest) page }
        // They are the numbers in use of a world whose saved copy has the same objects.
        ensures counted { (w : World) (rest : Rest) → AreInRange (state_of objects.now rest)
            → AreApart (state_of objects.now rest)
            → ((id : ℕ) → w.saved.objects id ≡ (state_of objects.now rest).objects id)
            → IsCounted result (world_of objects.now rest w) }
        ensures no_object { (id : ℕ) → OBJECTS ≤ id → uses_object result id ≡ false }
        ensures no_page { (page : ℕ) → PAGES ≤ page → uses_page result page ≡ false }
    {
        let mut numbers = NumbersInUse::new();
        for (id, slot) in objects.slots.iter().enumerate() {
            numbers.take_slot(id as ObjId, slot);
        }
        numbers
    }

    /// Takes the number of an object into use, if one stands in its slot, and those of its pages.
    fn take_slot(&mut self, id: ObjId, slot: &Slot)
        requires { id < OBJECTS }
        ensures objects { (content : ℕ → ℕ → ℕ) (threads : List ℕ) (other : ℕ) → uses_object self.new other
            ≡ (uses_object self.old other || ((other == id) && is_some (object_of content slot.now threads))) }
        ensures pages { (content : ℕ → ℕ → ℕ) (threads : List ℕ) (page : ℕ) → page < PAGES → uses_page self.new page
            ≡ (uses_page self.old page
            || list_any (λ number. number == page) (page_numbers (object_of content slot.now threads))) }
        ensures no_page { (page : ℕ) → PAGES ≤ page → uses_page self.new page ≡ uses_page self.old page }
    {
        if let Slot::Empty = slot {
            return;
        }
        self.take_object(id);
        match slot {
            Slot::Memory(memory) => self.take_pages(memory.pages.as_slice()),
            Slot::Ring(ring) if usize::from(ring.channel) != OUTPUT_CHANNELS => {
                self.take_page(PageNo::from(ring.channel));
            }
            _ => {}
        }
    }

    /// Takes the numbers of pages into use, but for those that there aren't.
    fn take_pages(&mut self, pages: &[MemPage])
        ensures objects { self.new.objects ≡ self.old.objects }
        ensures pages { (number : ℕ) → number < PAGES → uses_page self.new number
            ≡ (uses_page self.old number || list_any (λ page. page.page == number) pages.now) }
        ensures no_page { (number : ℕ) → PAGES ≤ number → uses_page self.new number ≡ uses_page self.old number }
    {
        for page in pages {
            if usize::from(page.page) < PAGES {
                self.take_page(page.page);
            }
        }
    }
}
