//! The kernel beside the plain machine, tick by tick.

ghost use Rattle.std.specs.Prelude.{IfOk};
ghost use Rattle.kernel_calls.specs.Kernel.{IsHeld};

use crate::machine::Kernel;
use arrayvec::ArrayVec;
use kobj_table::Slot;
use mem_space::MemPage;
use page_bytes::byte_on_page;
use plain_model::{Label, Place, Reply, World, is_accepted};
use pmem_layout::runtime_frame;
use pmem_model::Pmem;
use sls_base::{
    CoreNo, FIRST_OUTPUT_RING, Image, Lcg, OBJECTS, OUTPUT_CHANNELS, ObjId, PAGE_BYTES, PAGES,
    PageNo, SCHEDULER, Thread,
};
use std::alloc::Global;
use std::process::Abort;
use std::test::Fail;

/// What the plain machine answers.
fn step(rt: &impl Abort, alloc: Global, world: &mut World, label: Label) -> Result<Reply, Fail> {
    assert!(rt; world.may_step(&label));
    Ok(world.step(alloc, label)?)
}

fn is_same_thread(a: &Thread, b: &Thread) -> bool {
    a.group == b.group && a.space == b.space && a.state == b.state && a.pc == b.pc && a.x == b.x
}

/// Whether the thread of a number is the same in both, if there is one.
fn is_same_at(kernel: &Kernel, world: &World, id: ObjId) -> bool {
    match kernel.calls.thread(id) {
        Some(thread) => {
            world.thread(id).is_some() && is_same_thread(&thread, &world.running().thread_at(id))
        }
        None => world.thread(id).is_none(),
    }
}

/// Whether an object stands at a number.
fn is_there(kernel: &Kernel, id: ObjId) -> bool {
    !matches!(kernel.calls.objects().slot(id), None | Some(Slot::Empty))
}

/// Whether each thread, each count of entries, and the object of each number are there in both alike.
fn are_same(kernel: &Kernel, world: &World) -> bool {
    for id in 0..OBJECTS {
        let id = id as ObjId;
        if !is_same_at(kernel, world, id)
            || is_there(kernel, id) != world.running().object(id).is_some()
        {
            return false;
        }
    }
    for channel in 0..OUTPUT_CHANNELS {
        if kernel.calls.put_count(channel as u8) != world.put_count(channel as u8) {
            return false;
        }
    }
    true
}

/// The number of a reply of a tick.
fn number_of(reply: &Reply) -> u8 {
    match reply {
        Reply::Idle => 0,
        Reply::Retired => 1,
        Reply::Wished => 2,
        _ => 3,
    }
}

/// The byte of a page in the memory, if it is there.
fn byte_in(nvm: &Pmem, page: PageNo, offset: usize) -> Option<u8> {
    if usize::from(page) < PAGES && offset < PAGE_BYTES && nvm.is_home(runtime_frame(page)) {
        Some(byte_on_page(nvm, MemPage { page, fresh: false }, offset as u32))
    } else {
        None
    }
}

/// Whether the place of an entry on its channel's page has its length, and these bytes behind it.
fn has_entry(nvm: &Pmem, channel: u8, number: usize, bytes: &[u8]) -> bool {
    let at = 64 * (number % 64);
    if byte_in(nvm, PageNo::from(channel), at).map(usize::from) != Some(bytes.len()) {
        return false;
    }
    for (k, byte) in bytes.iter().enumerate() {
        if byte_in(
            nvm,
            PageNo::from(channel),
            at.saturating_add(8).saturating_add(k),
        ) != Some(*byte)
        {
            return false;
        }
    }
    true
}

/// The kernel, and the plain machine.
#[derive(Drop)]
pub struct Beside {
    pub kernel: Kernel,
    pub world: World,
}

impl Beside {
    /// Both begin with an image, on so many cores.
    pub fn begin(rt: &impl Abort, alloc: Global, image: &Image, cores: u8) -> Result<Self, Fail>
        ensures { IfOk result (λ b. IsHeld b.kernel.calls b.kernel.accepted b.kernel.nvm) }
    {
        assert!(rt; is_accepted(image) && 1 <= cores && cores <= 8);
        let world = World::new(alloc, image, cores)?;
        let kernel = Kernel::begin(rt, alloc, image, cores)?;
        Ok(Beside { kernel, world })
    }

    /// A cut before any commit: both go back to what the image begins with.
    pub fn cut(self, rt: &impl Abort, alloc: Global, image: &Image, cores: u8) -> Result<Self, Fail>
        ensures { IfOk result (λ b. IsHeld b.kernel.calls b.kernel.accepted b.kernel.nvm) }
    {
        let mut world = self.world;
        step(rt, alloc, &mut world, Label::Cut)?;
        let kernel = self.kernel.begin_again(rt, alloc, image, cores)?;
        assert!(rt;
            world.version() == 0 && are_same(&kernel, &world),
            "after a cut"
        );
        Ok(Beside { kernel, world })
    }

    /// A tick of a core: the reply is the same, and so is what is told of each thread, of each object and of channels.
    pub fn tick(&mut self, rt: &impl Abort, alloc: Global, core: CoreNo) -> Result<u8, Fail>
        requires { IsHeld self.old.kernel.calls self.old.kernel.accepted self.old.kernel.nvm }
        ensures { IsHeld self.new.kernel.calls self.new.kernel.accepted self.new.kernel.nvm }
    {
        let wanted = step(rt, alloc, &mut self.world, Label::Tick(core))?;
        let given = self.kernel.tick(rt, core);
        let number = number_of(&given);
        assert!(rt; number == number_of(&wanted), "the reply of core {core}");
        assert!(rt;
            are_same(&self.kernel, &self.world),
            "after a tick of core {core}"
        );
        Ok(number)
    }

    /// So many ticks of the first core.
    pub fn ticks(&mut self, rt: &impl Abort, alloc: Global, count: usize) -> Result<(), Fail>
        requires { IsHeld self.old.kernel.calls self.old.kernel.accepted self.old.kernel.nvm }
        ensures { IsHeld self.new.kernel.calls self.new.kernel.accepted self.new.kernel.nvm }
    {
        for _ in 0..count {
            self.tick(rt, alloc, 0)?;
        }
        Ok(())
    }

    /// So many ticks of drawn cores, of so many. It says how many of them weren't idle.
    pub fn drawn(
        &mut self,
        rt: &impl Abort,
        alloc: Global,
        cores: u8,
        count: usize,
        seed: u64,
    ) -> Result<usize, Fail>
        requires { IsHeld self.old.kernel.calls self.old.kernel.accepted self.old.kernel.nvm }
        ensures { IsHeld self.new.kernel.calls self.new.kernel.accepted self.new.kernel.nvm }
    {
        let mut turns = Lcg { state: seed };
        let mut busy = 0usize;
        for _ in 0..count {
            let core = ((turns.next() >> 40) % u64::from(cores.max(1))) as u8;
            if self.tick(rt, alloc, core)? != 0 {
                busy = busy.wrapping_add(1);
            }
        }
        Ok(busy)
    }

    /// An input waits in both. It says whether it was Full.
    pub fn input(
        &mut self,
        rt: &impl Abort,
        alloc: Global,
        bytes: ArrayVec<u8, 56>,
    ) -> Result<bool, Fail>
        requires { IsHeld self.old.kernel.calls self.old.kernel.accepted self.old.kernel.nvm }
        ensures { IsHeld self.new.kernel.calls self.new.kernel.accepted self.new.kernel.nvm }
    {
        assert!(rt; !bytes.is_empty());
        let full = self.kernel.input(bytes.as_slice());
        let reply = step(rt, alloc, &mut self.world, Label::Input(bytes))?;
        assert!(rt; matches!(reply, Reply::Full) == full);
        Ok(full)
    }

    /// So many inputs, each of another length and of another byte. It says how many were Full.
    pub fn inputs(&mut self, rt: &impl Abort, alloc: Global, count: u8) -> Result<usize, Fail>
        requires { IsHeld self.old.kernel.calls self.old.kernel.accepted self.old.kernel.nvm }
        ensures { IsHeld self.new.kernel.calls self.new.kernel.accepted self.new.kernel.nvm }
    {
        let mut full = 0usize;
        for number in 0..count {
            let mut bytes = ArrayVec::from([number; 56]);
            bytes.truncate(1 + usize::from(number) * 7 % 56);
            if self.input(rt, alloc, bytes)? {
                full = full.wrapping_add(1);
            }
        }
        Ok(full)
    }

    /// Whether the pages of a memory object have the same bytes in both.
    pub fn has_same_bytes(&self, memory: ObjId, pages: u8) -> bool {
        for page in 0..pages {
            for offset in 0..PAGE_BYTES {
                let place = Place {
                    memory,
                    page: u64::from(page),
                    offset: offset as u32,
                };
                let number = self.world.running().page_number_at(place);
                let byte = byte_in(&self.kernel.nvm, number, offset);
                if byte != Some(self.world.running().byte_at(place)) {
                    return false;
                }
            }
        }
        true
    }

    /// Whether the entries that were put on a channel are the same in both.
    pub fn has_same_entries(&self, channel: u8) -> bool {
        let mut number = 0usize;
        for output in &self.world.running().out {
            if output.channel == channel {
                if !has_entry(&self.kernel.nvm, channel, number, output.bytes.as_slice()) {
                    return false;
                }
                number = number.wrapping_add(1);
            }
        }
        true
    }

    /// The byte of a page of a memory object.
    pub fn byte(&self, memory: ObjId, offset: u32) -> u8 {
        self.world.running().byte_at(Place {
            memory,
            page: 0,
            offset,
        })
    }

    /// Whether an entry of these bytes was put on a channel first.
    pub fn has_first_entry(&self, channel: u8, bytes: &[u8]) -> bool {
        let first = self
            .world
            .running()
            .out
            .iter()
            .find(|output| output.channel == channel);
        first.is_some_and(|output| output.bytes.as_slice() == bytes)
    }

    /// Whether these threads stand in the run queue of both, in this order, and no others.
    pub fn has_queue(&self, ids: &[ObjId]) -> bool {
        let objects = self.kernel.calls.objects();
        let mut next = objects.first(SCHEDULER);
        for id in ids {
            if next != Some(*id) || usize::from(*id) >= OBJECTS {
                return false;
            }
            next = objects.next(*id);
        }
        next.is_none() && self.world.running().queue.as_slice() == ids
    }

    /// How many signals of a notification wait to be taken.
    pub fn signals(&self, id: ObjId) -> Option<u32> {
        let note = self.kernel.calls.objects().notification(id)?;
        Some(note.count)
    }

    /// What is told of a thread, and zeros where there is none.
    pub fn thread(&self, id: ObjId) -> Thread {
        self.kernel.calls.objects().thread_or_zeros(id)
    }
}
