//! The state of the plain machine, whole.

ghost use Rattle.std.specs.Prelude.{◌≡◌, length};
ghost use Rattle.plain_state.specs.declared.state.TheConstants.{NUMBERS};

use crate::copies::{copies_of_inputs, copies_of_objects, copies_of_outputs};
use crate::effect::{Output, Place};
use crate::memory::place_of;
use crate::object::{Object, has_page_number, pages_of};
use crate::objects::{Occupant, Region};
use arrayvec::ArrayVec;
use sls_base::{OBJECTS, ObjId, PAGES, PageNo, REGISTERS, Thread, ThreadState};
use std::alloc::{AllocError, Global};

/// The numbers that a `u8` can have.
pub const NUMBERS: usize = 256;

/// The first number that no object has.
pub const OBJECT_END: ObjId = OBJECTS as ObjId;

/// The first number that no page has.
pub const PAGE_END: PageNo = PAGES as PageNo;

/// An input that waits.
#[derive(Drop)]
pub struct Waiting {
    pub bytes: ArrayVec<u8, 56>,
}

/// A state: the objects by number, the run queue, what each core runs, the entries that were put, and the inputs that wait.
#[derive(Drop)]
pub struct State {
    pub objects: Vec<Option<Object>>,
    pub queue: Vec<ObjId>,
    pub cores: Vec<Option<Occupant>>,
    pub out: Vec<Output>,
    pub inputs: Vec<Waiting>,
    ghost sized: { length objects.items ≡ NUMBERS },
}

/// What stands where no thread is.
const NO_THREAD: Thread = Thread {
    group: 0,
    space: 0,
    state: ThreadState::Ready,
    pc: 0,
    x: [0; REGISTERS],
};

#[tactic(auto, unfolding(crate::specs::Slow::state_of))]
impl State {
    ghost use Rattle.std.specs.Prelude.{◌+◌, ◌^◌, ◌<◌, ◌≤◌, IfOk, drop};
    ghost use Rattle.plain_state.specs.States as plain;
    ghost use Rattle.plain_state.specs.Memory as memory;
    ghost use Rattle.plain_state.specs.Worlds as worlds;
    ghost use Rattle.plain_state.specs.Instructions as instructions;
    ghost use Rattle.plain_state.specs.Slow.{slot_of, state_of};

    /// A copy of the state, with the inputs from a place on.
    pub fn copy(&self, alloc: Global, first_input: usize) -> Result<State, AllocError>
        ensures { IfOk result (λ s. state_of s
            ≡ record (state_of self.now) { inputs = drop first_input (state_of self.now).inputs }) }
    {
        Ok(State {
            objects: copies_of_objects(alloc, self.objects.as_slice())?,
            queue: Vec::from_slice(alloc, self.queue.as_slice())?,
            cores: Vec::from_slice(alloc, self.cores.as_slice())?,
            out: copies_of_outputs(alloc, self.out.as_slice())?,
            inputs: copies_of_inputs(alloc, self.inputs.as_slice(), first_input)?,
        })
    }

    /// The object of a number, if there is one.
    pub fn object(&self, id: ObjId) -> &Option<Object>
        ensures { slot_of result.now ≡ (state_of self.now).objects id }
    {
        &self.objects[usize::from(id)]
    }

    /// The thread of a number.
    pub fn thread_at(&self, id: ObjId) -> Thread
        ensures { result ≡ plain.thread_at (state_of self.now) id }
    {
        match self.object(id) {
            Some(Object::Thread(thread)) => *thread,
            _ => NO_THREAD,
        }
    }

    /// Whether an object of the state has a page.
    pub fn has_page(&self, page: PageNo) -> bool
        ensures { result ≡ worlds.has_page (state_of self.now) page }
    {
        (0..OBJECT_END).any(|id| has_page_number(self.object(id), page))
    }

    /// The byte at a place.
    pub fn byte_at(&self, place: Place) -> u8
        ensures { result ≡ memory.byte_at (state_of self.now).objects place }
    {
        match pages_of(self.object(place.memory)).get(place.page as usize) {
            Some(page) => page.byte(place.offset),
            None => 0,
        }
    }

    /// The number of the page of a place.
    pub fn page_number_at(&self, place: Place) -> PageNo
        ensures { result ≡ (memory.page_at (state_of self.now).objects place).number }
    {
        match pages_of(self.object(place.memory)).get(place.page as usize) {
            Some(page) => page.number,
            None => PAGE_END,
        }
    }

    /// The bytes at up to four addresses from one on as a number, the lowest first, of those that have a place.
    pub fn value_of(&self, regions: &[Region], right: u32, at: u64, count: u32) -> u32
        requires count { count ≤ 4 }
        requires at { at + count ≤ 2 ^ 33 }
        ensures value { result ≡ instructions.value_at (state_of self.now)
            (memory.places_of regions.now right at count) }
        ensures small { result < 256 ^ count }
    {
        if count == 0 {
            return 0;
        }
        let higher = self.value_of(regions, right, at + 1, count - 1);
        match place_of(regions, right, at) {
            Some(place) => higher
                .wrapping_mul(256)
                .wrapping_add(u32::from(self.byte_at(place))),
            None => higher,
        }
    }

    /// How many entries were put on a channel.
    pub fn put_count(&self, channel: u8) -> usize
        ensures { result ≡ length ((state_of self.now).out channel) }
    {
        self.out
            .iter()
            .filter(|output| output.channel == channel)
            .count()
    }
}
