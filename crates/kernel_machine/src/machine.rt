//! The machine of the kernel, as every machine is.

ghost use Rattle.std.specs.Prelude.{◌≡◌};
ghost use Rattle.kernel_machine.specs.declared.kernel.Kernel.{Kernel as Parts};
ghost use Rattle.kernel_machine.specs.Formats as formats;
ghost use Rattle.kernel_machine.specs.Shows as shown;
ghost use Rattle.kernel_machine.specs.Sides.{seen_of};

use crate::kernel::Kernel;
use machine_contract::{Asked, BootRefused, Did, LightRefused, Machine, Off};
use pmem_model::Pmem;
use sls_base::{CoreNo, Entry, Full, Image, ObjId, ThreadView, Version};
use std::alloc::Global;
use std::marker::Model;

/// The machine of the kernel. It is at some course of the plain machine at every moment.
#[derive(Drop)]
pub struct KernelMachine {
    kernel: Kernel,
}

impl Model for KernelMachine {
    ghost Value = { Parts };

    ghost view = { λ m. m.kernel };

    ghost invariant = { λ m. shown.IsLive m.kernel };
}

impl Machine for KernelMachine {
    ghost seen = { seen_of };

    ghost shows = { shown.Shows };

    ghost shows_off = { shown.ShowsOff };

    ghost is_lightable = { shown.IsLightable };

    ghost format = { formats.format };

    ghost is_made_from = { shown.IsMadeFrom };

    fn boot(alloc: Global, image: &Image, cores: u8, nvm: Pmem) -> Result<Self, BootRefused> {
        crate::laws::machines_are_seen();
        match Kernel::boot(alloc, image, cores, nvm) {
            Ok(kernel) => Ok(KernelMachine { kernel }),
            Err(refused) => Err(refused),
        }
    }

    fn is_up(&self) -> bool {
        self.kernel.is_up()
    }

    fn in_checkpoint(&self) -> bool {
        self.kernel.in_checkpoint()
    }

    fn version(&self) -> Version {
        self.kernel.version()
    }

    fn cores(&self) -> u8 {
        self.kernel.cores
    }

    fn put_count(&self, channel: u8) -> u64 {
        self.kernel.put_count(channel)
    }

    fn accepted(&self, channel: u8) -> u64 {
        self.kernel.accepted[channel as usize]
    }

    fn thread(&self, id: ObjId) -> Option<ThreadView> {
        self.kernel.thread(id)
    }

    fn nvm(&self) -> &Pmem {
        &self.kernel.nvm
    }

    fn take_wish(&mut self) -> bool {
        crate::laws::machines_are_seen();
        self.kernel.take_wish()
    }

    fn ask(&mut self, alloc: Global) -> Asked {
        crate::laws::machines_are_seen();
        self.kernel.ask()
    }

    fn turn(&mut self, core: CoreNo) -> Did {
        crate::laws::machines_are_seen();
        self.kernel.take_turn(core)
    }

    fn write_back(&mut self, word: usize) -> Option<Version> {
        crate::laws::machines_are_seen();
        self.kernel.write_back(word)
    }

    fn dirty_from(&self, word: usize) -> Option<usize> {
        self.kernel.nvm.dirty_from(word)
    }

    fn input(&mut self, bytes: &[u8]) -> Result<(), Full> {
        crate::laws::machines_are_seen();
        self.kernel.input(bytes)
    }

    fn accept(&mut self, channel: u8) -> Option<Entry> {
        crate::laws::machines_are_seen();
        self.kernel.accept(channel)
    }

    fn cut(self) -> Off {
        crate::laws::machines_are_seen();
        self.kernel.cut()
    }

    fn light(off: Off, alloc: Global, image: &Image, cores: u8) -> Result<Self, LightRefused> {
        crate::laws::machines_are_seen();
        match Kernel::light(off, alloc, image, cores) {
            Ok(kernel) => Ok(KernelMachine { kernel }),
            Err(refused) => Err(refused),
        }
    }

    ghost is_shown = { λ m c s. s.shown };

    ghost shown_is_lightable = { λ off c s. record { course = c; shows = s } };
}
