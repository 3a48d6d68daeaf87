//! What devices do within a checkpoint: they give inputs, and accept entries.

ghost use Rattle.std.specs.Prelude.{◌≡◌, ◌+◌, ◌<◌, ◌≤◌, ◌↔◌, ℕ, List, length, IsErr, IfSome, IfNone, true, false};
ghost use Rattle.sls_base.specs.declared.limits.TheConstants.{ENTRY_BYTES, OUTPUT_CHANNELS as CHANNELS};
ghost use Rattle.plain_state.specs.Worlds.{World, put_count};
ghost use Rattle.pmem_model.specs.Memory.{Memory};
ghost use Rattle.plain_model.specs.Play.{has_input_room, input, is_offered, next_entry};
ghost use Rattle.checkpoint_turns.specs.Checkpoints.{IsInFlight, IsOf};

use crate::checkpoint::Checkpoint;
use core_turns::count_of;
use pmem_model::Pmem;
use sls_base::{Entry, Full, OUTPUT_CHANNELS};

impl Checkpoint {
    /// Gives an input of 1 to 56 bytes, which waits behind the others; Full exactly where there is no room for it.
    pub fn give_input(&mut self, bytes: &[u8]) -> Result<(), Full>
        requires some { 1 ≤ length bytes.now }
        requires most { length bytes.now ≤ ENTRY_BYTES }
        ensures full { (accepted : List ℕ) (m : Memory) (w : World) → IsOf self.old accepted m w
            → IsErr result ↔ (has_input_room w ≡ false) }
        ensures is_of { (accepted : List ℕ) (m : Memory) (w : World) → IsOf self.old accepted m w
            → IsOf self.new accepted m (input w bytes.now) }
        ensures rest { self.new ≡ record self.old {
          running = record self.old.running {
            calls = record self.old.running.calls { inputs = self.new.running.calls.inputs };
          };
        } }
    {
        // Its contract says that an input, and a commit behind it, keep a world sound.
        plain_laws::whole::worlds_are_sound();
        self.running.calls.give_input(bytes)
    }

    /// The entry of a channel that is offered to the device; None exactly where the saved copy has put none that it
    /// hasn't accepted.
    pub fn offered(
        &self,
        nvm: &Pmem,
        accepted: &[u64; OUTPUT_CHANNELS],
        channel: u8,
    ) -> Option<Entry>
        requires channel { channel < CHANNELS }
        requires in_flight { IsInFlight self.now accepted.now nvm.now }
        ensures none { (w : World) → IsOf self.now accepted.now nvm.now w
            → IfNone result (is_offered w channel ≡ false) }
        ensures some { (w : World) → IsOf self.now accepted.now nvm.now w
            → IfSome result (λ entry. (is_offered w channel ≡ true) × (entry ≡ next_entry w channel)) }
    {
        // Their contracts say that the world behind the commit is sound, and that the next entry stands on its page.
        plain_laws::whole::worlds_are_sound();
        out_gate::waiting_entries_stand();
        if accepted[channel as usize] == self.running.saved[channel as usize] {
            return None;
        }
        Some(out_gate::offer(nvm, channel, accepted[channel as usize]))
    }

    /// How many entries the running state has put on a channel, of those before the play began too.
    pub fn put_count(&self, channel: u8) -> u64
        requires channel { channel < CHANNELS }
        ensures { (accepted : List ℕ) (m : Memory) (w : World) → IsOf self.now accepted m w
            → result ≡ put_count w channel }
    {
        count_of(self.running.calls.objects(), channel)
    }
}
