//! Who runs on a core, and what becomes of it.

ghost use Rattle.std.specs.Prelude.{◌≡◌, ◌≢◌, ◌<◌, ℕ, if◌then◌else◌, true, false, length, Some, None, IfSome, IfNone, option_map};
ghost use Rattle.link_lists.specs.Lists.{list_at, IsFree};
ghost use Rattle.ipc_note.specs.declared.lists.TheConstants.{RUN_QUEUE};
ghost use Rattle.plain_state.specs.Worlds.{World};
ghost use Rattle.plain_state.specs.Instructions.{instruction};
ghost use Rattle.call_readings.specs.Kernel.{world_of};
ghost use Rattle.sls_base.specs.declared.thread.Thread.{Thread as ThreadRecord};
ghost use Rattle.plain_state.specs.declared.label.Reply.TheVariants as ReplyNames;
ghost use Rattle.plain_state.specs.States.{thread_at};
ghost use Rattle.plain_state.specs.Ticks as plain;
ghost use Rattle.plain_state.specs.Ticks.{Chosen};
ghost use Rattle.kobj_table.specs.Slots.{cores_of, has_list, is_scheduler, occupant_of};
ghost use Rattle.kobj_table.specs.Objects.{Rest, slot_at, state_of, HasNoStrays};
ghost use Rattle.object_records.specs.Untold.{KeepsUntold};
ghost use Rattle.kernel_calls.specs.Kernel.{Held, Holds, IsHeld};
ghost use Rattle.kernel_calls.specs.Callers.{IsCaller};
ghost use Rattle.kernel_calls.specs.Instructions.{Finds, IsNow, StoresPages};
ghost use Rattle.kernel_calls.specs.Needed.{IsPrepared, MayRun};
ghost use Rattle.kernel_calls.specs.Ticking.{Takes, Settles};

use crate::calls::Calls;
use crate::done::Done;
use crate::need::pages_are_there;
use crate::runtime::Runtime;
use call_readings::Devices;
use plain_state::{Goes, Reply};
use pmem_model::Pmem;
use sls_base::{
    CORE_SLICE, CORES, CoreNo, OBJECTS, OUTPUT_CHANNELS, ObjId, SCHEDULER, Thread, ThreadState,
};

/// What becomes of a thread with so much left of its slice.
fn at_slice_end(left: u8, goes: Goes) -> Goes
    ensures { result ≡ plain.at_slice_end left goes }
{
    match goes {
        Goes::On if left == 0 => Goes::Back,
        goes => goes,
    }
}

/// What a thread then does.
fn state_after(core: CoreNo, goes: Goes) -> ThreadState
    ensures { result ≡ plain.state_after core goes }
{
    match goes {
        Goes::On => ThreadState::Running(core),
        Goes::Back => ThreadState::Ready,
        Goes::Asleep(state) => state,
        Goes::Stop(cause) => ThreadState::Stopped(cause),
    }
}

/// What its core then runs: the thread with what is left of its slice, where it goes on.
fn on_core(id: ObjId, left: u8, goes: Goes) -> Option<(ObjId, u8)>
    ensures { option_map occupant_of result ≡ plain.on_core id left goes }
{
    match goes {
        Goes::On => Some((id, left)),
        Goes::Back | Goes::Asleep(_) | Goes::Stop(_) => None,
    }
}

/// The reply of a tick that wasn't idle.
fn reply_of(wishes: bool) -> Reply
    ensures { result ≡ (if wishes then ReplyNames.Wished else ReplyNames.Retired) }
{
    if wishes {
        Reply::Wished
    } else {
        Reply::Retired
    }
}

impl Runtime {
    /// Takes the thread that a core runs next, with what is left of its slice: its own, or the front of the run queue
    /// with a whole slice. It is None exactly where the core has none and the queue is empty. A tick begins so, and has
    /// made no object yet.
    pub(crate) fn take_next(&mut self, core: CoreNo) -> Option<(ObjId, u8)>
        requires held { Held self.old }
        requires below { core < CORES }
        requires core { core < length (cores_of (slot_at self.old.objects SCHEDULER)) }
        ensures none { IfNone result ((rest : Rest) → plain.chosen (state_of self.old.objects rest) core ≡ None) }
        ensures idle { IfNone result (self.new.objects ≡ self.old.objects) }
        ensures some { IfSome result (λ next. Takes self.old.objects self.new.objects core next.0 next.1) }
        ensures caller { IfSome result (λ next. (thread : ThreadRecord) × IsCaller self.new.objects next.0 thread) }
        ensures held { Held self.new }
        ensures numbers { self.new.numbers ≡ self.old.numbers }
        ensures made { self.new.made ≡ None }
    {
        kobj_table::lists_alone();
        self.made = None;
        if let Some(own) = self.objects.running(core) {
            return Some(own);
        }
        match self.objects.dequeue() {
            Some(front) => Some((front, CORE_SLICE)),
            None => None,
        }
    }

    /// Lets a thread that a core has taken do its instruction, and puts it down. It says what became of the thread.
    pub(crate) fn run_instruction(
        &mut self,
        devices: &Devices,
        input: &[u8],
        nvm: &mut Pmem,
        core: CoreNo,
        next: (ObjId, u8),
        thread: &Thread,
    ) -> Done
        requires core { core < CORES }
        requires may { MayRun self.old devices.now input.now nvm.old next.0 thread.now }
        requires caller { IsCaller self.old.objects next.0 thread.now }
        ensures is_now { (w : World) (rest : Rest)
            → Finds self.old devices.now input.now nvm.old rest w
            → (after : Rest) × IsNow self.new nvm.new after w
            (plain.state_of_effect (state_of self.old.objects rest) core
            (record {
              occupant = record { thread = next.0; slice = next.1 };
              queue = list_at self.old.objects.links RUN_QUEUE;
            }) (instruction (world_of self.old.objects rest w) next.0 thread.now)) }
        ensures wishes { (w : World) (rest : Rest)
            → Finds self.old devices.now input.now nvm.old rest w
            → result.wishes ≡ (instruction (world_of self.old.objects rest w) next.0 thread.now).wishes }
        ensures takes { (w : World) (rest : Rest)
            → Finds self.old devices.now input.now nvm.old rest w
            → result.takes ≡ (instruction (world_of self.old.objects rest w) next.0 thread.now).takes }
        ensures words { (w : World) (rest : Rest)
            → Finds self.old devices.now input.now nvm.old rest w
            → StoresPages (plain.stores_to (state_of self.old.objects rest)
            (instruction (world_of self.old.objects rest w) next.0 thread.now)) nvm.old nvm.new }
        ensures scheduler { is_scheduler (slot_at self.new.objects SCHEDULER) ≡ true }
        ensures strays { HasNoStrays self.new.objects }
        ensures untold { core < length (cores_of (slot_at self.old.objects SCHEDULER))
            → KeepsUntold self.old.objects self.new.objects }
    {
        let (id, slice) = next;
        let done = self.obey(devices, input, nvm, id, thread);
        let left = slice.saturating_sub(1);
        self.settle(core, id, left, thread, &done);
        done
    }

    /// Puts a thread down after its instruction, with so much left of its slice: on its core, at the queue's back, or
    /// in neither.
    pub(crate) fn settle(&mut self, core: CoreNo, id: ObjId, left: u8, thread: &Thread, done: &Done)
        requires id { id < OBJECTS }
        requires no_scheduler { id ≢ SCHEDULER }
        requires core { core < CORES }
        requires free { plain.at_slice_end left done.now.goes ≡ Goes.Back → IsFree self.old.objects.links id }
        ensures settles { Settles self.old.objects self.new.objects core id left thread.now done.now }
        ensures numbers { self.new.numbers ≡ self.old.numbers }
        ensures made { self.new.made ≡ self.old.made }
        ensures strays { HasNoStrays self.old.objects → has_list (slot_at self.old.objects id) ≡ false
            → HasNoStrays self.new.objects }
        ensures untold { core < length (cores_of (slot_at self.old.objects SCHEDULER))
            → KeepsUntold self.old.objects self.new.objects }
    {
        let goes = at_slice_end(left, done.goes);
        self.objects.set_thread(
            id,
            Thread {
                group: thread.group,
                space: thread.space,
                state: state_after(core, goes),
                pc: done.regs.pc,
                x: done.regs.x,
            },
        );
        self.objects.run(core, on_core(id, left, goes));
        if let Goes::Back = goes {
            self.objects.enqueue(id);
        }
    }
}

impl Calls {
    /// A tick of a core: it takes a thread where it has none, the thread does one instruction, and its slice falls by
    /// one. A core that has no thread to run is idle. The reply says so, and whether the thread wishes for a
    /// checkpoint. The devices have accepted so many entries of each channel.
    pub fn tick(&mut self, nvm: &mut Pmem, core: CoreNo, accepted: &[u64; OUTPUT_CHANNELS]) -> Reply
        requires below { core < CORES }
        requires core { core < length (cores_of (slot_at self.old.runtime.objects SCHEDULER)) }
        requires held { IsHeld self.old accepted.now nvm.old }
        requires prepared { (w : World) (rest : Rest) → Holds self.old accepted.now nvm.old rest w
            → IsPrepared self.old.runtime.objects nvm.old w core }
        ensures holds { (w : World) (rest : Rest) → Holds self.old accepted.now nvm.old rest w
            → (after : Rest) × Holds self.new accepted.now nvm.new after (plain.tick w core) }
        ensures reply { (w : World) (rest : Rest) → Holds self.old accepted.now nvm.old rest w
            → result ≡ plain.tick_reply w core }
        ensures words { (w : World) (rest : Rest) → Holds self.old accepted.now nvm.old rest w
            → StoresPages (plain.must_store w core) nvm.old nvm.new }
        // An idle core leaves the memory alone.
        ensures idle { result ≡ ReplyNames.Idle → nvm.new ≡ nvm.old }
        // What no plain state tells of the objects is left alone, and of one that the tick makes it is as made.
        ensures untold { KeepsUntold self.old.runtime.objects self.new.runtime.objects }
        // What the plain machine's tick doesn't change has its slot and its list as before.
        ensures unchanged { (w : World) (rest : Rest) (i : ℕ) → Holds self.old accepted.now nvm.old rest w
            → (plain.tick w core).changed i ≡ false
            → (slot_at self.new.runtime.objects i ≡ slot_at self.old.runtime.objects i)
            × (list_at self.new.runtime.objects.links i ≡ list_at self.old.runtime.objects.links i) }
    {
        // Their contracts say that neither objects nor what an instruction does depend on the run queue, and that a
        // tick keeps a world sound; and that an instruction whose tick is prepared has its pages.
        kobj_table::lists_alone();
        plain_laws::ticks::effect_depends_on_little();
        plain_laws::whole::worlds_are_sound();
        pages_are_there();
        let Some(next) = self.runtime.take_next(core) else {
            return Reply::Idle;
        };
        let thread = self.runtime.objects.thread_or_zeros(next.0);
        let devices = self.devices(accepted);
        let input = self.inputs.first();
        let done = self
            .runtime
            .run_instruction(&devices, input, nvm, core, next, &thread);
        self.inputs.take_first_if(done.takes);
        reply_of(done.wishes)
    }
}
