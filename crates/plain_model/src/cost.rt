//! What a checkpoint may cost.

ghost use Rattle.std.specs.Prelude.{◌≡◌, ◌+◌, ◌*◌, ◌≤◌, is_some};
ghost use Rattle.sls_base.specs.declared.limits.TheConstants.{OBJECTS, PAGES};
ghost use Rattle.plain_state.specs.Objects.{every_object, every_page};
ghost use Rattle.plain_model.specs.Cost as plain;
ghost use Rattle.plain_state.specs.Worlds.{has_page};
ghost use Rattle.plain_state.specs.Sweep.{swept};
ghost use Rattle.plain_state.specs.Slow.{state_of};
ghost use Rattle.plain_state.specs.SlowSweep.{TellsReached};
ghost use Rattle.plain_model.specs.SlowWorld.{world_of};

use crate::world::{World, has_number};
use plain_state::{OBJECT_END, PAGE_END, Reached, State, has_page_number};
use sls_base::{ObjId, PageNo};

/// Whether a state has an object of a number.
fn has_object(state: &State, id: ObjId) -> bool
    ensures { result ≡ is_some ((state_of state.now).objects id) }
{
    state.object(id).is_some()
}

#[tactic(auto, unfolding(crate::specs::SlowWorld::world_of))]
impl World {
    fn is_written(&self, reached: &Reached, id: ObjId) -> bool
        ensures { TellsReached reached.now (state_of self.now.running) → result
            ≡ plain.is_written (world_of self.now) id }
    {
        has_number(self.changed.as_slice(), u16::from(id))
            || self.running.is_swept_otherwise(reached, id)
    }

    /// Whether a page is one of an object that is reached.
    fn keeps_page(&self, reached: &Reached, page: PageNo) -> bool
        ensures { TellsReached reached.now (state_of self.now.running) → result
            ≡ has_page (swept (state_of self.now.running)) page }
    {
        (0..OBJECT_END).any(|id| reached.has(id) && has_page_number(self.running.object(id), page))
    }

    /// Whether an object is there, and is reached.
    fn keeps_object(&self, reached: &Reached, id: ObjId) -> bool
        ensures { TellsReached reached.now (state_of self.now.running) → result
            ≡ is_some ((swept (state_of self.now.running)).objects id) }
    {
        reached.has(id) && has_object(&self.running, id)
    }

    fn object_turns(&self, reached: &Reached, id: ObjId) -> bool
        ensures { TellsReached reached.now (state_of self.now.running) → result
            ≡ plain.object_turns (world_of self.now) id }
    {
        has_object(&self.saved, id) != self.keeps_object(reached, id)
    }

    fn page_turns(&self, reached: &Reached, page: PageNo) -> bool
        ensures { TellsReached reached.now (state_of self.now.running) → result
            ≡ plain.page_turns (world_of self.now) page }
    {
        self.saved.has_page(page) != self.keeps_page(reached, page)
    }

    fn count_of_stored(&self) -> usize
        ensures count { result ≡ plain.count_of every_page (world_of self.now).stored }
        ensures few { result ≤ PAGES }
    {
        (0..PAGE_END)
            .filter(|page| has_number(self.stored.as_slice(), *page))
            .count()
    }

    fn count_of_written(&self, reached: &Reached) -> usize
        requires { TellsReached reached.now (state_of self.now.running) }
        ensures count { result ≡ plain.count_of every_object (plain.is_written (world_of self.now)) }
        ensures few { result ≤ OBJECTS }
    {
        (0..OBJECT_END)
            .filter(|id| self.is_written(reached, *id))
            .count()
    }

    fn count_of_object_turns(&self, reached: &Reached) -> usize
        requires { TellsReached reached.now (state_of self.now.running) }
        ensures count { result ≡ plain.count_of every_object (plain.object_turns (world_of self.now)) }
        ensures few { result ≤ OBJECTS }
    {
        (0..OBJECT_END)
            .filter(|id| self.object_turns(reached, *id))
            .count()
    }

    fn count_of_page_turns(&self, reached: &Reached) -> usize
        requires { TellsReached reached.now (state_of self.now.running) }
        ensures count { result ≡ plain.count_of every_page (plain.page_turns (world_of self.now)) }
        ensures few { result ≤ PAGES }
    {
        (0..PAGE_END)
            .filter(|page| self.page_turns(reached, *page))
            .count()
    }

    /// What a checkpoint may cost, in operations on the memory.
    pub fn cost(&self) -> u32
        ensures cost { result ≡ plain.cost (world_of self.now) }
        ensures most { result ≤ 8 * (PAGES + OBJECTS + OBJECTS + PAGES) + 64 }
    {
        let reached = self.running.reached();
        let count = self.count_of_stored()
            + self.count_of_written(&reached)
            + self.count_of_object_turns(&reached)
            + self.count_of_page_turns(&reached);
        8 * count as u32 + 64
    }
}
