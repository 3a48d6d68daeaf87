//! What devices do while cores run: they give inputs, and accept entries.

ghost use Rattle.std.specs.Prelude.{◌≡◌, ◌<◌, ◌≤◌, ◌↔◌, ℕ, List, length, IsErr, IfSome, IfNone, true, false};
ghost use Rattle.sls_base.specs.declared.limits.TheConstants.{ENTRY_BYTES, OUTPUT_CHANNELS as CHANNELS};
ghost use Rattle.pmem_model.specs.Memory.{Memory};
ghost use Rattle.plain_state.specs.Worlds.{World};
ghost use Rattle.plain_model.specs.Play.{has_input_room, input, is_offered, next_entry};
ghost use Rattle.core_turns.specs.Runs.{IsRunning, Runs};

use crate::running::Running;
use pmem_model::Pmem;
use sls_base::{Entry, Full, OUTPUT_CHANNELS};

impl Running {
    /// Gives an input of 1 to 56 bytes, which waits behind the others; Full exactly where there is no room for it.
    pub fn give_input(&mut self, bytes: &[u8]) -> Result<(), Full>
        requires some { 1 ≤ length bytes.now }
        requires most { length bytes.now ≤ ENTRY_BYTES }
        ensures full { (accepted : List ℕ) (m : Memory) (w : World) → Runs self.old accepted m w
            → IsErr result ↔ (has_input_room w ≡ false) }
        ensures runs { (accepted : List ℕ) (m : Memory) (w : World) → Runs self.old accepted m w
            → Runs self.new accepted m (input w bytes.now) }
        ensures rest { self.new ≡ record self.old { calls = record self.old.calls { inputs = self.new.calls.inputs } } }
    {
        self.calls.give_input(bytes)
    }

    /// The entry of a channel that is offered to the device; None exactly where the saved copy has put none that it
    /// hasn't accepted.
    pub fn offered(
        &self,
        nvm: &Pmem,
        accepted: &[u64; OUTPUT_CHANNELS],
        channel: u8,
    ) -> Option<Entry>
        requires channel { channel < CHANNELS }
        requires runs { IsRunning self.now accepted.now nvm.now }
        ensures none { (w : World) → Runs self.now accepted.now nvm.now w
            → IfNone result (is_offered w channel ≡ false) }
        ensures some { (w : World) → Runs self.now accepted.now nvm.now w
            → IfSome result (λ entry. (is_offered w channel ≡ true) × (entry ≡ next_entry w channel)) }
    {
        if accepted[channel as usize] == self.saved[channel as usize] {
            return None;
        }
        out_gate::waiting_entries_stand();
        Some(out_gate::offer(nvm, channel, accepted[channel as usize]))
    }
}
