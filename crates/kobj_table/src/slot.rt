//! What stands at a number.

ghost use Rattle.std.specs.Prelude.{◌≡◌, ℕ, ◌<◌, true, List, length, slice_get, Some};
ghost use Rattle.sls_base.specs.declared.limits.TheConstants.{SPACE_REGIONS};
ghost use Rattle.mem_space.specs.declared.memory.MemPage.{MemPage};
ghost use Rattle.mem_space.specs.Memory.{MarksPage};

use cap_group::Group;
use ipc_note::{Connection, Notification};
use mem_space::{Memory, PageIndex, Region, Space};
use sls_base::{CORES, ObjId, Ring, Thread};

/// How many cores there are, and of each its thread with what is left of its slice.
#[derive(Clone, Copy)]
pub struct Cores {
    pub cores: u8,
    pub running: [Option<(ObjId, u8)>; CORES],
}

/// An object, or none. The threads that wait on it stand in a list of its own.
#[derive(Drop)]
pub enum Slot {
    Empty,
    Group(Group),
    Thread(Thread),
    Space(Space),
    Memory(Memory),
    Connection(Connection),
    Notification(Notification),
    Ring(Ring),
    Scheduler(Cores),
}

impl Slot {
    ghost use Rattle.kobj_table.specs.Slots.{memory_in, space_in, is_space, object_of};
    ghost use Rattle.mem_space.specs.Region.{IsRegion};
    ghost use Rattle.mem_space.specs.Space.{IsSpace, Overlaps, inserted, without_base};

    /// Adds a region to a space.
    pub(crate) fn map_region(&mut self, region: Region)
        requires there { is_space self.old ≡ true }
        requires space { IsSpace (space_in self.old) }
        requires region { IsRegion region }
        requires apart { ¬ Overlaps (space_in self.old) region.base region.count }
        requires room { length (space_in self.old).regions.items < SPACE_REGIONS }
        ensures regions { (space_in self.new).regions.items ≡ inserted region (space_in self.old).regions.items }
        ensures there { self.new ≡ Slot.Space (space_in self.new) }
    {
        match self {
            Slot::Space(space) => space.map(region),
            _ => {}
        }
    }

    /// Takes away the region of a space that begins at a page of addresses, if there is one.
    pub(crate) fn unmap_region(&mut self, base: u32)
        requires { is_space self.old ≡ true }
        ensures regions { (space_in self.new).regions.items ≡ without_base (space_in self.old).regions.items base }
        ensures there { self.new ≡ Slot.Space (space_in self.new) }
    {
        match self {
            Slot::Space(space) => {
                space.unmap(base);
            }
            _ => {}
        }
    }

    /// Says of a page of a memory object whether it is fresh.
    pub(crate) fn set_fresh(&mut self, index: PageIndex, fresh: bool)
        requires { index < length (memory_in self.old).pages.items }
        ensures marked { MarksPage (memory_in self.old) (memory_in self.new) index fresh }
        ensures memory { self.new ≡ Slot.Memory (memory_in self.new) }
        ensures object { (content : ℕ → ℕ → ℕ) (threads : List ℕ) (page : MemPage)
            → slice_get (memory_in self.old).pages.items index ≡ Some page
            → ((offset : ℕ) → content page.page offset ≡ 0)
            → object_of content self.new threads ≡ object_of content self.old threads }
    {
        match self {
            Slot::Memory(memory) => memory.set_fresh(index, fresh),
            _ => {}
        }
    }
}
