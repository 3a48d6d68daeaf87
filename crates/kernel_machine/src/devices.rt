//! What devices do, and write-backs.

ghost use Rattle.std.specs.Prelude.{◌≡◌, ◌<◌, ◌≤◌, true, false, length, IfNone, IfSome};
ghost use Rattle.sls_base.specs.declared.limits.TheConstants.{ENTRY_BYTES, OUTPUT_CHANNELS as CHANNELS, WORDS};
ghost use Rattle.plain_state.specs.declared.label.Label.TheVariants as label;
ghost use Rattle.plain_model.specs.Play as plain;
ghost use Rattle.machine_contract.specs.Side.{IsUp};
ghost use Rattle.machine_contract.specs.Courses.{Course, after, after_label, back_label};
ghost use Rattle.machine_contract.specs.Goes.{AcceptGoes, InputGoes, WriteBackGoes};
ghost use Rattle.kernel_machine.specs.Sides.{mode_of, seen_of};
ghost use Rattle.kernel_machine.specs.Formats.{format};
ghost use Rattle.kernel_machine.specs.Shows.{IsAt, IsLive};
ghost use Rattle.kernel_machine.specs.Turns.{StaysMade};

use crate::kernel::Kernel;
use crate::work::Work;
use sls_base::{Entry, Full, PAGES, Version};

impl Kernel {
    /// Gives an input of 1 to 56 bytes, which waits behind the others; Full exactly where there is no room for it.
    pub fn input(&mut self, bytes: &[u8]) -> Result<(), Full>
        requires up { IsUp (mode_of self.old.work) }
        requires some { 1 ≤ length bytes.now }
        requires most { length bytes.now ≤ ENTRY_BYTES }
        requires live { IsLive self.old }
        ensures goes { (c : Course) → IsAt self.old c → InputGoes result (seen_of self.old) c (seen_of self.new) }
        ensures is_at { (c : Course) → IsAt self.old c
            → IsAt self.new (record c { world = plain.input c.world bytes.now }) }
        ensures made { StaysMade self.old self.new }
        ensures cores { self.new.cores ≡ self.old.cores }
    {
        match &mut self.work {
            Work::Runs(running) => running.give_input(bytes),
            Work::Saves(checkpoint) => checkpoint.give_input(bytes),
            Work::Formats(_) | Work::Recovers(_) | Work::Between => Err(Full),
        }
    }

    /// The entry of a channel that is offered to the device.
    fn offered(&self, channel: u8) -> Option<Entry>
        requires up { IsUp (mode_of self.now.work) }
        requires channel { channel < CHANNELS }
        requires live { IsLive self.now }
        ensures none { (c : Course) → IsAt self.now c → IfNone result (plain.is_offered c.world channel ≡ false) }
        ensures some { (c : Course) → IsAt self.now c → IfSome result (λ entry.
            (plain.is_offered c.world channel ≡ true) × (entry ≡ plain.next_entry c.world channel)) }
    {
        match &self.work {
            Work::Runs(running) => running.offered(&self.nvm, &self.accepted, channel),
            Work::Saves(checkpoint) => checkpoint.offered(&self.nvm, &self.accepted, channel),
            Work::Formats(_) | Work::Recovers(_) | Work::Between => None,
        }
    }

    /// Accepts the next entry of a channel for the device; None exactly where the saved copy has put none that it
    /// hasn't accepted.
    pub fn accept(&mut self, channel: u8) -> Option<Entry>
        requires up { IsUp (mode_of self.old.work) }
        requires channel { channel < CHANNELS }
        requires live { IsLive self.old }
        ensures goes { (c : Course) → IsAt self.old c
            → AcceptGoes channel result (seen_of self.old) c (seen_of self.new) }
        ensures is_at { (c : Course) → IsAt self.old c → IsAt self.new (after_label c (label.Accept channel)) }
        ensures made { StaysMade self.old self.new }
        ensures cores { self.new.cores ≡ self.old.cores }
    {
        // Their contracts say that an entry that is accepted is accepted by the world.
        core_turns::laws::running_cores();
        checkpoint_turns::laws::accepts();
        let entry = self.offered(channel)?;
        self.accepted[channel as usize] += 1;
        Some(entry)
    }

    /// Makes the cached value of a word durable, at any moment. It tells the version, exactly where that commits a
    /// checkpoint.
    pub fn write_back(&mut self, word: usize) -> Option<Version>
        requires word { word < WORDS }
        requires live { IsLive self.old }
        ensures goes { (c : Course) → IsAt self.old c
            → WriteBackGoes format word result (seen_of self.old) c (seen_of self.new) }
        ensures is_at { (c : Course) → IsAt self.old c → IsAt self.new (after c (back_label result)) }
        ensures made { StaysMade self.old self.new }
        ensures cores { self.new.cores ≡ self.old.cores }
    {
        // Their contracts say that what the machine is at outlives whatever stores nothing, and that no page that is
        // protected or fresh has a slot of the version that was committed.
        first_format::laws::formatting();
        tree_restore::laws::calm();
        core_turns::laws::running_cores();
        durable_state::laws::parts_are_of_one();
        leader_helper::laws::commit_point();
        page_store::laws::states();
        self.nvm.write_back(word);
        let Work::Saves(checkpoint) = &mut self.work else {
            return None;
        };
        let Some(version) = checkpoint.settle(&self.nvm) else {
            return None;
        };
        self.spent = [0; PAGES];
        Some(version)
    }
}
