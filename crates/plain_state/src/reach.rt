//! What a load, a store, a put and a get reach in memory, told without carrying them out.

ghost use Rattle.std.specs.Prelude.{◌≡◌, ℕ};
ghost use Rattle.rv_table.specs.Table.{IsOneOf, load_ops, store_ops};
ghost use Rattle.plain_state.specs.Memory.{places_of};
ghost use Rattle.plain_state.specs.CallEffects as calls;
ghost use Rattle.plain_state.specs.Instructions as plain;
ghost use Rattle.plain_state.specs.Slow.{state_of};
ghost use Rattle.plain_state.specs.SlowReach.{IsReach, is_any_on};

use crate::memory::{is_covered, place_of};
use crate::object_effects::channel_of;
use crate::objects::Region;
use crate::slow_calls::arg;
use crate::state::State;
use rv_core::access_size;
use sls_base::{PageNo, READ, Thread, WRITE};

/// Bytes by their addresses: so many from one on.
#[derive(Clone, Copy)]
pub struct Span {
    pub at: u32,
    pub count: u32,
}

/// What an instruction reaches beside its own bytes: those that it loads, those that it stores, and the channel on which it puts.
#[derive(Clone, Copy)]
pub struct Reach {
    pub loads: Span,
    pub stores: Span,
    pub channel: Option<u8>,
}

/// No bytes.
const NONE: Span = Span { at: 0, count: 0 };

/// Nothing is reached.
pub const NO_REACH: Reach = Reach {
    loads: NONE,
    stores: NONE,
    channel: None,
};

#[tactic(auto, unfolding(crate::specs::Slow::state_of))]
impl State {
    /// Whether one of some bytes stands on a page.
    pub fn is_on_page(&self, regions: &[Region], right: u32, span: Span, page: PageNo) -> bool
        ensures { result ≡ is_any_on (state_of self.now) page (places_of regions.now right span.at span.count) }
    {
        (u64::from(span.at)..u64::from(span.at) + u64::from(span.count)).any(|address| {
            self.is_byte_on_page(regions, right, address, page)
        })
    }

    /// Whether the byte at an address stands on a page.
    fn is_byte_on_page(&self, regions: &[Region], right: u32, at: u64, page: PageNo) -> bool
        ensures { result ≡ is_any_on (state_of self.now) page (places_of regions.now right at 1) }
    {
        match place_of(regions, right, at) {
            Some(place) => self.page_number_at(place) == page,
            None => false,
        }
    }

    /// What a load reaches.
    pub fn reach_of_load(&self, thread: &Thread, op: u8, at: u32) -> Reach
        requires { IsOneOf op load_ops }
        ensures { (rd : ℕ) → IsReach (state_of self.now) thread.now result
            (plain.load_effect (state_of self.now) thread.now op rd at) }
    {
        let count = access_size(op);
        if is_covered(self.seen_by(thread), u32::from(READ), at, count) {
            Reach {
                loads: Span { at, count },
                ..NO_REACH
            }
        } else {
            NO_REACH
        }
    }

    /// What a store reaches.
    pub fn reach_of_store(&self, thread: &Thread, op: u8, at: u32) -> Reach
        requires { IsOneOf op store_ops }
        ensures { (value : ℕ) → IsReach (state_of self.now) thread.now result
            (plain.store_effect (state_of self.now) thread.now op at value) }
    {
        let count = access_size(op);
        if is_covered(self.seen_by(thread), u32::from(WRITE), at, count) {
            Reach {
                stores: Span { at, count },
                ..NO_REACH
            }
        } else {
            NO_REACH
        }
    }

    /// A put loads its buffer.
    pub fn reach_of_put(&self, thread: &Thread) -> Reach
        ensures { IsReach (state_of self.now) thread.now result (calls.put_effect (state_of self.now) thread.now) }
    {
        let loads = Span {
            at: arg(thread, 1),
            count: arg(thread, 2),
        };
        Reach {
            loads,
            channel: Some(channel_of(self.named(thread, 0))),
            ..NO_REACH
        }
    }

    /// A get stores as much of the first input as its buffer has room for.
    pub fn reach_of_get(&self, thread: &Thread) -> Reach
        ensures { IsReach (state_of self.now) thread.now result (calls.get_effect (state_of self.now) thread.now) }
    {
        let length = self.first_input().len() as u32;
        let stores = Span {
            at: arg(thread, 1),
            count: length.min(arg(thread, 2)),
        };
        Reach { stores, ..NO_REACH }
    }
}
