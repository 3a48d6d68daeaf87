//! The running kernel: its objects, and the inputs that wait.

ghost use Rattle.std.specs.Prelude.{◌≡◌, ◌<◌, ◌≤◌, ◌↔◌, false, Some, None, List, ℕ, [], ◌∷◌, ◌++◌, length, IfOk, OnOk, OnErr, IsErr, IfSome, IfNone};
ghost use Rattle.sls_base.specs.declared.limits.TheConstants.{ENTRY_BYTES, OBJECTS, OUTPUT_CHANNELS, WAITING_INPUTS};
ghost use Rattle.link_lists.specs.Lists.{list_at};
ghost use Rattle.pmem_model.specs.Memory.{Memory};
ghost use Rattle.plain_state.specs.Worlds as worlds;
ghost use Rattle.plain_state.specs.Worlds.{World};
ghost use Rattle.plain_model.specs.Play.{input};
ghost use Rattle.plain_state.specs.Objects as plain;
ghost use Rattle.kobj_table.specs.declared.slot.Slot.{Slot};
ghost use Rattle.kobj_table.specs.Objects.{Rest, slot_at};
ghost use Rattle.object_records.specs.Marks as marks;
ghost use Rattle.call_readings.specs.Kernel.{IsCounted};
ghost use Rattle.call_readings.specs.NumberSets.{uses_object, uses_page};
ghost use Rattle.kernel_calls.specs.Kernel.{Holds, IsJustSaved, devices_of, without_inputs};

use crate::inputs::Inputs;
use crate::runtime::Runtime;
use call_readings::{Devices, NumbersInUse};
use kobj_table::Objects;
use sls_base::{FIRST_OUTPUT_RING, Full, OUTPUT_CHANNELS, ObjId, PageNo, Thread};
use std::alloc::{AllocError, Global};

/// The running kernel: its objects with the numbers in use, and the inputs that wait.
#[derive(Drop)]
pub struct Calls {
    pub(crate) runtime: Runtime,
    pub(crate) inputs: Inputs,
}

impl Calls {
    ghost use Rattle.std.specs.Borrow.{sem};
    ghost use Rattle.kernel_calls.specs.Lending.{LendsObjects};

    /// A kernel without objects, in which no input waits. No other call takes memory.
    pub fn new(alloc: Global) -> Result<Self, AllocError>
        ensures slots { IfOk result (λ calls. (i : ℕ) → slot_at calls.runtime.objects i ≡ Slot.Empty) }
        ensures lists { IfOk result (λ calls. (i : ℕ) → list_at calls.runtime.objects.links i ≡ []) }
        ensures no_object { IfOk result (λ calls. (id : ℕ) → uses_object calls.runtime.numbers id ≡ false) }
        ensures no_page { IfOk result (λ calls. (page : ℕ) → uses_page calls.runtime.numbers page ≡ false) }
        ensures made { IfOk result (λ calls. calls.runtime.made ≡ None) }
        ensures inputs { IfOk result (λ calls. calls.inputs ≡ []) }
    {
        Ok(Calls {
            inputs: Inputs::new(alloc)?,
            runtime: Runtime::new(Objects::new(), NumbersInUse::new()),
        })
    }

    /// Begins with objects as they were saved, in the place of those that are there: the numbers in use are theirs and
    /// those of their pages, and no input waits.
    pub fn begin(&mut self, objects: Objects)
        ensures objects { self.new.runtime.objects ≡ objects }
        ensures made { self.new.runtime.made ≡ None }
        ensures inputs { self.new.inputs ≡ [] }
        // A world with these objects that was just saved, and in which no input waits, is held.
        ensures holds { (accepted : List ℕ) (m : Memory) (rest : Rest) (w : World)
            → IsJustSaved objects [] accepted m rest w → Holds self.new accepted m rest w }
    {
        let numbers = NumbersInUse::of(&objects);
        self.runtime = Runtime::new(objects, numbers);
        self.inputs.clear();
    }

    /// Goes on from objects that were just saved: the numbers in use are theirs and those of their pages alone.
    pub fn settle(&mut self)
        ensures objects { self.new.runtime.objects ≡ self.old.runtime.objects }
        ensures made { self.new.runtime.made ≡ self.old.runtime.made }
        ensures inputs { self.new.inputs ≡ self.old.inputs }
        ensures holds { (accepted : List ℕ) (m : Memory) (rest : Rest) (w : World)
            → IsJustSaved self.old.runtime.objects self.old.inputs accepted m rest w
            → Holds self.new accepted m rest w }
    {
        let numbers = NumbersInUse::of(&self.runtime.objects);
        self.runtime.numbers = numbers;
    }

    /// The objects.
    pub fn objects(&self) -> &Objects
        ensures { result.now ≡ self.now.runtime.objects }
    {
        &self.runtime.objects
    }

    /// The objects, to be put back, swept or marked. Numbers in use and inputs stay as they are.
    pub fn objects_mut(&mut self) -> &mut Objects
        ensures* writes_back { sem 𝓛 (LendsObjects self.entry result) }
        ensures value { result.now ≡ self.old.runtime.objects }
    {
        let runtime = &mut self.runtime;
        &mut runtime.objects
    }

    /// The thread of a number, if there is one.
    pub fn thread(&self, id: ObjId) -> Option<Thread>
        ensures some { (accepted : List ℕ) (m : Memory) (rest : Rest) (w : World) → Holds self.now accepted m rest w
            → IfSome result (λ thread. w.now.objects id ≡ Some (plain.Thread thread)) }
        ensures none { (accepted : List ℕ) (m : Memory) (rest : Rest) (w : World) → Holds self.now accepted m rest w
            → IfNone result (plain.is_thread (w.now.objects id) ≡ false) }
    {
        self.runtime.objects.thread(id)
    }

    /// How many entries were put on an output channel.
    pub fn put_count(&self, channel: u8) -> u64
        requires { channel < OUTPUT_CHANNELS }
        ensures { (accepted : List ℕ) (m : Memory) (rest : Rest) (w : World) → Holds self.now accepted m rest w
            → result ≡ worlds.put_count w channel }
    {
        match self.runtime.objects.ring(FIRST_OUTPUT_RING + channel) {
            Some(ring) => ring.count,
            None => 0,
        }
    }

    /// Marks a page as fresh, or as one that has content, wherever an object has it.
    pub fn mark_page(&mut self, page: PageNo, fresh: bool)
        ensures slots { (i : ℕ) → i < OBJECTS → slot_at self.new.runtime.objects i
            ≡ marks.marked page fresh (slot_at self.old.runtime.objects i) }
        ensures past { (i : ℕ) → OBJECTS ≤ i
            → slot_at self.new.runtime.objects i ≡ slot_at self.old.runtime.objects i }
        ensures links { self.new.runtime.objects.links ≡ self.old.runtime.objects.links }
        ensures numbers { self.new.runtime.numbers ≡ self.old.runtime.numbers }
        ensures made { self.new.runtime.made ≡ self.old.runtime.made }
        ensures inputs { self.new.inputs ≡ self.old.inputs }
        // Where the page is zero, a world that was held still is.
        ensures holds { (accepted : List ℕ) (m : Memory) (rest : Rest) (w : World)
            → ((offset : ℕ) → rest.content page offset ≡ 0)
            → Holds self.old accepted m rest w → Holds self.new accepted m rest w }
    {
        object_records::mark_page(&mut self.runtime.objects, page, fresh);
    }

    /// Whether the number of an object is in use, by the running or the saved state.
    pub fn used_object(&self, id: ObjId) -> bool
        ensures { (w : World) → IsCounted self.now.runtime.numbers w → result ≡ worlds.is_used_object w id }
    {
        self.runtime.numbers.uses_object(id)
    }

    /// Whether the number of a page is in use, by the running or the saved state.
    pub fn used_page(&self, page: PageNo) -> bool
        ensures { (w : World) → IsCounted self.now.runtime.numbers w → result ≡ worlds.is_used_page w page }
    {
        self.runtime.numbers.uses_page(page)
    }

    /// The object that the last tick made, if it made one.
    pub fn made(&self) -> Option<ObjId>
        ensures { result ≡ self.now.runtime.made }
    {
        self.runtime.made
    }

    /// What devices tell that have accepted so many entries of each channel.
    pub(crate) fn devices(&self, accepted: &[u64; OUTPUT_CHANNELS]) -> Devices
        ensures { result ≡ devices_of accepted.now self.now.inputs }
    {
        Devices {
            accepted: *accepted,
            first_input: self.inputs.first_length(),
        }
    }

    /// An input of 1 to 56 bytes waits behind the others. It is Full exactly where 64 wait.
    pub fn give_input(&mut self, bytes: &[u8]) -> Result<(), Full>
        requires some { 1 ≤ length bytes.now }
        requires most { length bytes.now ≤ ENTRY_BYTES }
        ensures full { IsErr result ↔ (length self.old.inputs ≡ WAITING_INPUTS) }
        ensures err { OnErr result (self.new ≡ self.old) }
        ensures ok { OnOk result (self.new ≡ record self.old { inputs = self.old.inputs ++ bytes.now ∷ [] }) }
        // A world that was held is held with this input.
        ensures holds { (accepted : List ℕ) (m : Memory) (rest : Rest) (w : World)
            → Holds self.old accepted m rest w → (after : Rest) × Holds self.new accepted m after (input w bytes.now) }
    {
        // Its contract says that an input keeps a world sound.
        plain_laws::whole::worlds_are_sound();
        self.inputs.push(bytes)
    }

    /// No input waits afterwards.
    pub fn drop_inputs(&mut self)
        ensures dropped { self.new ≡ record self.old { inputs = [] } }
        // A world that was held is held without its inputs.
        ensures holds { (accepted : List ℕ) (m : Memory) (rest : Rest) (w : World)
            → Holds self.old accepted m rest w → (after : Rest) × Holds self.new accepted m after (without_inputs w) }
    {
        self.inputs.clear();
    }
}
