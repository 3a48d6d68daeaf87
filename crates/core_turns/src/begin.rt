//! How cores begin to run what was restored.

ghost use Rattle.std.specs.Prelude.{◌≡◌, ◌+◌, ◌<◌, ℕ, List, slice_index};
ghost use Rattle.sls_base.specs.declared.fixed.TheConstants.{FIRST_OUTPUT_RING};
ghost use Rattle.sls_base.specs.declared.limits.TheConstants.{OUTPUT_CHANNELS as CHANNELS};
ghost use Rattle.sls_base.specs.declared.thread.Ring.{Ring};
ghost use Rattle.pmem_model.specs.Memory.{Memory};
ghost use Rattle.plain_state.specs.Worlds.{World};
ghost use Rattle.kobj_table.specs.declared.slot.Slot.{Slot};
ghost use Rattle.kobj_table.specs.Objects.{slot_at};
ghost use Rattle.core_turns.specs.Restored.{IsRestored};
ghost use Rattle.core_turns.specs.Runs.{Runs};

use crate::running::Running;
use kernel_calls::Calls;
use kobj_table::Objects;
use sls_base::{CORES, FIRST_OUTPUT_RING, OUTPUT_CHANNELS};
use tree_restore::Restored;

impl Running {
    /// Begins to run what was restored, by a kernel whose objects and inputs are given up. No core has a page in hand.
    pub fn begin(mut calls: Calls, restored: Restored) -> Running
        ensures runs { (accepted : List ℕ) (m : Memory) (w : World) → IsRestored restored accepted m w
            → Runs result accepted m w }
        ensures rooms { result.rooms ≡ restored.rooms }
    {
        page_store::laws::page_versions();
        object_records::laws::records_stand_for_objects();
        object_records::laws::fresh_pages_are_zero();
        saved_state::laws::parts_are_running_objects();
        let saved = counts_of(&restored.objects);
        calls.begin(restored.objects);
        Running {
            calls,
            rooms: restored.rooms,
            prepares: [None; CORES],
            saved,
        }
    }
}

/// How many entries the output rings count.
pub fn counts_of(objects: &Objects) -> [u64; OUTPUT_CHANNELS]
    ensures counts { (channel : ℕ) (ring : Ring) → channel < CHANNELS
        → slot_at objects.now (FIRST_OUTPUT_RING + channel) ≡ Slot.Ring ring
        → slice_index result channel ≡ ring.count }
{
    let mut counts = [0; OUTPUT_CHANNELS];
    for channel in 0..OUTPUT_CHANNELS {
        counts[channel] = count_of(objects, channel as u8);
    }
    counts
}

/// How many entries the ring of an output channel counts.
pub fn count_of(objects: &Objects, channel: u8) -> u64
    requires { channel < CHANNELS }
    ensures { (ring : Ring) → slot_at objects.now (FIRST_OUTPUT_RING + channel) ≡ Slot.Ring ring
        → result ≡ ring.count }
{
    match objects.ring(FIRST_OUTPUT_RING + channel) {
        Some(ring) => ring.count,
        None => 0,
    }
}
