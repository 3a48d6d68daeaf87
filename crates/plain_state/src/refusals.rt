//! What a state refuses: the capabilities that a call needs, and its buffer.

ghost use Rattle.std.specs.Prelude.{◌≡◌, ◌==◌, length};
ghost use Rattle.std.specs.List.{list_any};
ghost use Rattle.plain_state.specs.Calls as calls;
ghost use Rattle.plain_state.specs.CallRefusals as plain;
ghost use Rattle.plain_state.specs.Slow.{slot_of, state_of};

use crate::calls::{Need, Refusal};
use crate::memory::is_covered;
use crate::object::{Object, includes, is_kind, regions_of, slots_of};
use crate::objects::Capability;
use crate::slow_calls::arg;
use crate::state::State;
use sls_base::{ENTRY_BYTES, ObjId, Thread};

/// The bytes that an entry may have.
const ENTRY: u32 = ENTRY_BYTES as u32;

#[tactic(auto, unfolding(crate::specs::Slow::state_of))]
impl State {
    /// The capability that an argument names.
    pub fn cap_named(&self, thread: &Thread, i: u8) -> Option<Capability>
        ensures { result ≡ calls.cap_named (state_of self.now) thread.now i }
    {
        cap_in(slots_of(self.object(thread.group)), arg(thread, i))
    }

    /// The number of the object that an argument names.
    pub fn id_named(&self, thread: &Thread, i: u8) -> ObjId
        ensures { result ≡ calls.id_named (state_of self.now) thread.now i }
    {
        match self.cap_named(thread, i) {
            Some(cap) => cap.object,
            None => 0,
        }
    }

    /// The rights by which an argument names it.
    fn rights_named(&self, thread: &Thread, i: u8) -> u32
        ensures { result ≡ calls.rights_of_cap (calls.cap_named (state_of self.now) thread.now i) }
    {
        match self.cap_named(thread, i) {
            Some(cap) => cap.rights,
            None => 0,
        }
    }

    /// The object that an argument names.
    pub fn named(&self, thread: &Thread, i: u8) -> &Option<Object>
        ensures { slot_of result.now ≡ calls.named (state_of self.now) thread.now i }
    {
        self.object(self.id_named(thread, i))
    }

    /// Whether something that a call needs isn't there.
    fn is_unmet(&self, thread: &Thread, refusal: Refusal, need: &Need) -> bool
        ensures { result ≡ plain.is_unmet (state_of self.now) thread.now refusal need.now }
    {
        match refusal {
            Refusal::NoCap => self.cap_named(thread, need.argument).is_none(),
            Refusal::WrongKind => !is_kind(need.kind, self.named(thread, need.argument)),
            Refusal::NoRight => !includes(self.rights_named(thread, need.argument), need.rights),
            _ => false,
        }
    }

    /// Whether one of the things that a call needs isn't there.
    pub fn is_any_unmet(&self, thread: &Thread, refusal: Refusal, needs: &[Need]) -> bool
        ensures { result ≡ list_any (plain.is_unmet (state_of self.now) thread.now refusal) needs.now }
    {
        needs
            .iter()
            .any(|need| self.is_unmet(thread, refusal, need))
    }

    /// Whether no input waits.
    pub fn has_no_input(&self) -> bool
        ensures { result ≡ (length (state_of self.now).inputs == 0) }
    {
        self.inputs.is_empty()
    }

    /// Whether a byte of the buffer that a thread names, at most as many as an entry has, can't be reached with a right.
    pub fn is_bad_buffer(&self, thread: &Thread, right: u8) -> bool
        ensures { result ≡ plain.is_bad_buffer (state_of self.now) thread.now right }
    {
        !is_covered(
            regions_of(self.object(thread.space)),
            u32::from(right),
            arg(thread, 1),
            arg(thread, 2).min(ENTRY),
        )
    }
}

/// The capability in a slot.
pub fn cap_in(slots: &[Option<Capability>], slot: u32) -> Option<Capability>
    ensures { result ≡ calls.cap_in slots.now slot }
{
    slots.get(slot as usize).copied().unwrap_or(None)
}

/// The lowest free slot.
pub fn free_slot(slots: &[Option<Capability>]) -> Option<usize>
    ensures { result ≡ calls.free_slot slots.now }
{
    slots.iter().position(|slot| slot.is_none())
}
