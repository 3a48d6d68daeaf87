//! Laws. Each of these functions does nothing: its contract is the law.

ghost use Rattle.std.specs.Prelude.{◌≡◌, ◌≢◌, ℕ, ◌+◌, ◌*◌, ◌%◌, ◌<◌, ◌≤◌, true, List, length, Some};
ghost use Rattle.sls_base.specs.declared.limits.TheConstants.{ENTRY_BYTES, OUTPUT_CHANNELS, PAGE_BYTES, RING_ENTRIES};
ghost use Rattle.plain_model.specs.Objects.{page_of_channel};
ghost use Rattle.plain_model.specs.Worlds.{World, accepted_count};
ghost use Rattle.plain_model.specs.Ticks.{with_output};
ghost use Rattle.plain_model.specs.Play.{accept, commit, cut, is_offered, next_bytes};
ghost use Rattle.plain_laws.specs.Laws.{IsFirstPart};
ghost use Rattle.page_bytes.specs.Bytes.{with_bytes};
ghost use Rattle.out_gate.specs.declared.entries.TheConstants.{PLACE_BYTES};
ghost use Rattle.out_gate.specs.Entries.{entry_at, with_entry, EntriesStand, HasEntry};

/// Entry n has its place at byte 64 (n mod 64), within the page. No two entries stand in one place.
pub fn entries_have_places()
    ensures at { (number : ℕ) → entry_at number ≡ 64 * (number % 64) }
    ensures inside { (number : ℕ) → entry_at number + PLACE_BYTES ≤ PAGE_BYTES }
    ensures one { (byte : ℕ → ℕ) (number : ℕ) (first second : List ℕ) → HasEntry byte number first
        → HasEntry byte number second → first ≡ second }
{}

/// An entry of 1 to 56 bytes that is put into its place stands there. Each other of the last 64 entries of its channel
/// is there still, and all other pages are as they were.
pub fn stored_entries_stand()
    ensures there { (content : ℕ → ℕ → ℕ) (channel number : ℕ) (entry : List ℕ) → 1 ≤ length entry
        → length entry ≤ ENTRY_BYTES
        → HasEntry (with_entry content channel number entry (page_of_channel channel)) number entry }
    ensures others { (content : ℕ → ℕ → ℕ) (channel number other : ℕ) (entry before : List ℕ)
        → length entry ≤ ENTRY_BYTES → other < number → number < other + RING_ENTRIES
        → HasEntry (content (page_of_channel channel)) other before
        → HasEntry (with_entry content channel number entry (page_of_channel channel)) other before }
    ensures pages { (content : ℕ → ℕ → ℕ) (channel number page : ℕ) (entry : List ℕ) → page ≢ page_of_channel channel
        → with_entry content channel number entry page ≡ content page }
{}

/// The entries that wait to be accepted stand where there are none, after one more where the ring isn't full, after
/// one was accepted, and after all that leaves the pages of rings alone. What a device is offered is the next of them.
pub fn waiting_entries_stand()
    ensures none { (content : ℕ → ℕ → ℕ) (w : World) (out : ℕ → List (List ℕ))
        → ((channel : ℕ) → length (out channel) ≤ length (w.released channel)) → EntriesStand content w out }
    ensures put { (content : ℕ → ℕ → ℕ) (w : World) (out : ℕ → List (List ℕ)) (channel : ℕ) (entry : List ℕ)
        → 1 ≤ length entry → length entry ≤ ENTRY_BYTES
        → w.base channel + length (out channel) < accepted_count w channel + RING_ENTRIES
        → EntriesStand content w out
        → EntriesStand (with_entry content channel (w.base channel + length (out channel)) entry) w
        (with_output out (Some (record { channel = channel; bytes = record { items = entry } }))) }
    ensures accepted { (content : ℕ → ℕ → ℕ) (w : World) (out : ℕ → List (List ℕ)) (channel : ℕ)
        → EntriesStand content w out → EntriesStand content (accept w channel) out }
    ensures offered { (content : ℕ → ℕ → ℕ) (w : World) (out : ℕ → List (List ℕ)) (channel : ℕ)
        → channel < OUTPUT_CHANNELS → IsFirstPart (w.saved.out channel) (out channel)
        → is_offered w channel ≡ true → EntriesStand content w out
        → HasEntry (content (page_of_channel channel)) (accepted_count w channel) (next_bytes w channel) }
    ensures pages { (first second : ℕ → ℕ → ℕ) (w : World) (out : ℕ → List (List ℕ))
        → ((channel offset : ℕ) → channel < OUTPUT_CHANNELS
        → second (page_of_channel channel) offset ≡ first (page_of_channel channel) offset)
        → EntriesStand first w out → EntriesStand second w out }
    ensures stored { (content : ℕ → ℕ → ℕ) (w : World) (out : ℕ → List (List ℕ)) (page at : ℕ) (bytes : List ℕ)
        → ((channel : ℕ) → channel < OUTPUT_CHANNELS → page ≢ page_of_channel channel)
        → EntriesStand content w out → EntriesStand (with_bytes content page at bytes) w out }
    ensures committed { (content : ℕ → ℕ → ℕ) (w : World) → EntriesStand content w w.now.out
        → EntriesStand content (commit w) (commit w).now.out }
    ensures cut_off { (content : ℕ → ℕ → ℕ) (w : World) → EntriesStand content w w.saved.out
        → EntriesStand content (cut w) (cut w).now.out }
{}
