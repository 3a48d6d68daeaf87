//! The kernel, from an image on.

ghost use Rattle.std.specs.Prelude.{◌≡◌, ◌<◌, ◌≤◌, true, length, IfOk, OnOk};
ghost use Rattle.sls_base.specs.declared.limits.TheConstants.{CORES, ENTRY_BYTES};
ghost use Rattle.sls_base.specs.declared.fixed.TheConstants.{SCHEDULER};
ghost use Rattle.kobj_table.specs.declared.slot.Slot.{Slot};
ghost use Rattle.kobj_table.specs.Slots.{cores_of};
ghost use Rattle.kobj_table.specs.Objects.{slot_at};
ghost use Rattle.kernel_calls.specs.Kernel.{IsHeld};

use crate::begun::{count_none, is_of_bytes, memory_of, stands};
use crate::pages::{are_home, are_stored, has_bytes, is_stored, is_there};
use first_state::first_objects;
use kernel_calls::Calls;
use kobj_table::{Cores, Objects, Slot};
use plain_model::{Label, Reply, World, is_accepted};
use pmem_model::Pmem;
use sls_base::{CORES, CoreNo, Image, OUTPUT_CHANNELS, PageNo, SCHEDULER};
use std::alloc::Global;
use std::process::Abort;
use std::test::Fail;

/// How many cores there are.
fn core_count(cores: Cores) -> usize
    ensures count { result ≡ length (cores_of (Slot.Scheduler cores)) }
    ensures most { result ≤ CORES }
{
    usize::from(cores.cores).min(CORES)
}

/// Whether the objects have a core.
pub fn has_core(objects: &Objects, core: CoreNo) -> bool
    ensures { result ≡ true → (core < CORES) × (core < length (cores_of (slot_at objects.now SCHEDULER))) }
{
    match objects.slot(SCHEDULER) {
        Some(Slot::Scheduler(cores)) => usize::from(core) < core_count(*cores),
        _ => false,
    }
}

/// The kernel with its memory, and how many entries the devices have accepted.
#[derive(Drop)]
pub struct Kernel {
    pub calls: Calls,
    pub nvm: Pmem,
    pub accepted: [u64; OUTPUT_CHANNELS],
}

impl Kernel {
    /// The first kernel of an image on so many cores.
    pub fn begin(rt: &impl Abort, alloc: Global, image: &Image, cores: u8) -> Result<Self, Fail>
        ensures { IfOk result (λ kernel. IsHeld kernel.calls kernel.accepted kernel.nvm) }
    {
        let calls = Calls::new(alloc)?;
        Kernel::begin_with(rt, alloc, calls, image, cores)
    }

    /// The first kernel of an image on so many cores, in the place of this one.
    pub fn begin_again(
        self,
        rt: &impl Abort,
        alloc: Global,
        image: &Image,
        cores: u8,
    ) -> Result<Self, Fail>
        ensures { IfOk result (λ kernel. IsHeld kernel.calls kernel.accepted kernel.nvm) }
    {
        Kernel::begin_with(rt, alloc, self.calls, image, cores)
    }

    /// The first kernel of an image on so many cores, whatever ran before.
    fn begin_with(
        rt: &impl Abort,
        alloc: Global,
        mut calls: Calls,
        image: &Image,
        cores: u8,
    ) -> Result<Self, Fail>
        ensures { IfOk result (λ kernel. IsHeld kernel.calls kernel.accepted kernel.nvm) }
    {
        // Its contract says that the first world is sound.
        plain_laws::whole::worlds_are_sound();
        assert!(rt; is_accepted(image));
        assert!(rt; is_of_bytes(image));
        assert!(rt; usize::from(cores) <= CORES);
        let nvm = memory_of(alloc, image)?;
        assert!(rt; stands(&nvm, image));
        let objects = first_objects(image, cores);
        assert!(rt; count_none(&objects));
        calls.begin(objects);
        Ok(Kernel {
            calls,
            nvm,
            accepted: [0; OUTPUT_CHANNELS],
        })
    }

    /// Marks a page as one with content where it is fresh, and zero.
    fn mark(&mut self, page: PageNo)
        requires { IsHeld self.old.calls self.old.accepted self.old.nvm }
        ensures { IsHeld self.new.calls self.new.accepted self.new.nvm }
    {
        if !is_stored(self.calls.objects(), page)
            && is_there(&self.nvm, page)
            && has_bytes(&self.nvm, page, &[])
        {
            self.calls.mark_page(page, false);
        }
    }

    /// Marks pages so.
    fn mark_all(&mut self, pages: &[PageNo])
        requires { IsHeld self.old.calls self.old.accepted self.old.nvm }
        ensures { IsHeld self.new.calls self.new.accepted self.new.nvm }
    {
        for page in pages {
            self.mark(*page);
        }
    }

    /// A tick of a core, for which pages are made ready.
    pub fn tick(&mut self, rt: &impl Abort, core: CoreNo) -> Reply
        requires { IsHeld self.old.calls self.old.accepted self.old.nvm }
        ensures { IsHeld self.new.calls self.new.accepted self.new.nvm }
    {
        assert!(rt; has_core(self.calls.objects(), core));
        let need = self.calls.need(&self.nvm, core, &self.accepted);
        self.mark_all(need.stored.as_slice());
        self.tick_prepared(rt, core)
    }

    /// A tick of a core whose pages are ready.
    pub fn tick_prepared(&mut self, rt: &impl Abort, core: CoreNo) -> Reply
        requires { IsHeld self.old.calls self.old.accepted self.old.nvm }
        ensures { IsHeld self.new.calls self.new.accepted self.new.nvm }
    {
        assert!(rt; has_core(self.calls.objects(), core));
        let need = self.calls.need(&self.nvm, core, &self.accepted);
        assert!(rt; are_home(&self.nvm, need.touched.as_slice()));
        assert!(rt; are_stored(self.calls.objects(), need.stored.as_slice()));
        self.calls.tick(&mut self.nvm, core, &self.accepted)
    }

    /// An input, and whether it was Full.
    pub fn input(&mut self, bytes: &[u8]) -> bool
        requires some { 1 ≤ length bytes.now }
        requires most { length bytes.now ≤ ENTRY_BYTES }
        requires held { IsHeld self.old.calls self.old.accepted self.old.nvm }
        ensures { IsHeld self.new.calls self.new.accepted self.new.nvm }
    {
        self.calls.give_input(bytes).is_err()
    }
}
