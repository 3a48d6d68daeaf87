//! The walk over the tree of capabilities.

ghost use Rattle.std.specs.Prelude.{◌≡◌, ℕ, ◌==◌, ◌||◌, List, nat_lt, true, ◌<◌, count_by, map, option_map};
ghost use Rattle.std.specs.List.{list_any};
ghost use Rattle.sls_base.specs.declared.limits.TheConstants.{OBJECTS};
ghost use Rattle.sls_base.specs.declared.fixed.TheConstants.{FIRST_PROGRAM_OBJECT};
ghost use Rattle.arrayvec.specs.ArrayVec.{array_vec_len};
ghost use Rattle.tree_walk.specs.Reached.{has};
ghost use Rattle.tree_walk.specs.Walk.{is_among, Continues};

use crate::reached::{NUMBERS, Reached};
use arrayvec::ArrayVec;
use cap_group::Cap;
use kobj_table::{Objects, Slot};
use mem_space::Region;
use sls_base::{FIRST_PROGRAM_OBJECT, ObjId};

/// The numbers that were found to be reached, each once and in the order in which they were found. So the last ones are
/// the work that is left.
#[derive(Drop)]
pub(crate) struct Walk {
    pub(crate) reached: Reached,
    pub(crate) found: ArrayVec<ObjId, NUMBERS>,
    ghost listed: { (i : ℕ) → has reached i ≡ is_among found.items i },
    ghost once: { array_vec_len found ≡ count_by (λ is. is) reached.is },
}

impl Walk {
    ghost use Rattle.plain_model.specs.Sweep.{is_to, leads_to};
    ghost use Rattle.kobj_table.specs.Slots.{capability_of, object_of};
    ghost use Rattle.kobj_table.specs.Objects.{object_at};

    /// The objects that are always there are found.
    pub(crate) fn new() -> Walk
        ensures { (i : ℕ) → has result.reached i ≡ nat_lt i FIRST_PROGRAM_OBJECT }
    {
        let mut walk = Walk {
            reached: Reached {
                is: [false; NUMBERS],
            },
            found: ArrayVec::new(),
        };
        for id in 0..FIRST_PROGRAM_OBJECT {
            walk.find(id);
        }
        walk
    }

    /// Finds a number, if it wasn't found before.
    fn find(&mut self, id: ObjId)
        ensures reached { (i : ℕ) → has self.new.reached i ≡ (has self.old.reached i || id == i) }
        ensures found { Continues self.old.found.items self.new.found.items }
    {
        if !self.reached.has(id) {
            self.reached.is[usize::from(id)] = true;
            self.found.push(id);
        }
    }

    /// Finds the objects to which the slots of a group have capabilities.
    fn find_held(&mut self, slots: &[Option<Cap>])
        ensures reached { (i : ℕ) → has self.new.reached i
            ≡ (has self.old.reached i || list_any (is_to i) (map (option_map capability_of) slots.now)) }
        ensures found { Continues self.old.found.items self.new.found.items }
    {
        for held in slots {
            if let Some(cap) = held {
                self.find(cap.object);
            }
        }
    }

    /// Finds the memory objects of the regions of a space.
    fn find_mapped(&mut self, regions: &[Region])
        ensures reached { (i : ℕ) → has self.new.reached i
            ≡ (has self.old.reached i || list_any (λ region. region.memory == i) regions.now) }
        ensures found { Continues self.old.found.items self.new.found.items }
    {
        for region in regions {
            self.find(region.memory);
        }
    }

    /// Finds what an object leads to.
    fn follow(&mut self, slot: &Slot)
        ensures reached { (content : ℕ → ℕ → ℕ) (threads : List ℕ) (i : ℕ) → has self.new.reached i
            ≡ (has self.old.reached i || leads_to (object_of content slot.now threads) i) }
        ensures found { Continues self.old.found.items self.new.found.items }
    {
        match slot {
            Slot::Group(group) => self.find_held(&group.slots),
            Slot::Thread(thread) => {
                self.find(thread.group);
                self.find(thread.space);
            }
            Slot::Space(space) => self.find_mapped(space.regions.as_slice()),
            Slot::Connection(connection) => self.find(connection.server),
            _ => {}
        }
    }

    /// Finds what the object of a number leads to, if there is one.
    pub(crate) fn enter(&mut self, objects: &Objects, id: ObjId)
        ensures reached { (content : ℕ → ℕ → ℕ) (i : ℕ) → has self.new.reached i
            ≡ (has self.old.reached i || leads_to (object_at content objects.now id) i) }
        ensures found { Continues self.old.found.items self.new.found.items }
        ensures there { (content : ℕ → ℕ → ℕ) (i : ℕ) → leads_to (object_at content objects.now id) i ≡ true
            → id < OBJECTS }
    {
        if let Some(slot) = objects.slot(id) {
            self.follow(slot);
        }
    }
}
