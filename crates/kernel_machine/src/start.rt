//! How a machine begins: booted on an empty memory, or lit on one that was left.

ghost use Rattle.std.specs.Prelude.{◌≡◌, ℕ, ◌≤◌, false, replicate, IfOk, IfErr};
ghost use Rattle.sls_base.specs.declared.limits.TheConstants.{CORES, PAGES, VERSION_AT};
ghost use Rattle.pmem_model.specs.Words.{Word};
ghost use Rattle.pmem_model.specs.Memory.{AllHome, word_at};
ghost use Rattle.pmem_layout.specs.declared.places.TheConstants.{CORES_AT, FORMAT_AT};
ghost use Rattle.plain_model.specs.Initial.{IsAccepted, first_world};
ghost use Rattle.plain_laws.specs.Bounds.{IsOfBytes};
ghost use Rattle.boot_image.specs.Values.{programs_of};
ghost use Rattle.page_store.specs.Slots.{IsAllClean, durable_words};
ghost use Rattle.durable_state.specs.Parts.{Parts, PartsStand};
ghost use Rattle.first_format.specs.declared.formatting.TheConstants.{MOST_TURNS};
ghost use Rattle.first_format.specs.Clean.{HoldsClean};
ghost use Rattle.first_format.specs.Formatted.{Formats};
ghost use Rattle.first_format.specs.Shows.{FormattingShows, turns_left};
ghost use Rattle.tree_restore.specs.declared.recovery.TheConstants.{RECOVERY_TURNS};
ghost use Rattle.tree_restore.specs.Restores as restores;
ghost use Rattle.machine_contract.specs.Courses.{Course, first_course};
ghost use Rattle.machine_contract.specs.Shown.{durable_of};
ghost use Rattle.machine_contract.specs.Begins.{IsBooted, IsLit, IsZero};
ghost use Rattle.kernel_machine.specs.Sides.{seen_of};
ghost use Rattle.kernel_machine.specs.Shows.{IsAt, IsLightable, IsLive, IsMadeFrom, ShowsOff};

use crate::images::{copy_of_image, image_is_of_bytes};
use crate::kernel::Kernel;
use crate::work::{FirstFormat, Restoring, Work};
use first_format::Formatting;
use kernel_calls::Calls;
use machine_contract::{BootRefused, LightCause, LightRefused, Off};
use pmem_layout::{CORES_AT as CORES_WORD, FORMAT_AT as FORMAT_WORD_AT};
use pmem_model::Pmem;
use sls_base::{Image, OUTPUT_CHANNELS, PAGES as EVERY_PAGE};
use std::alloc::{AllocError, Global};
use tree_restore::Recovery;

/// All that it takes to format from an image: a copy of that, and the kernel that is to run.
fn first_format(alloc: Global, image: &Image, cores: u8) -> Result<FirstFormat, AllocError>
    requires accepted { IsAccepted image.now }
    requires cores { (1 ≤ cores) × (cores ≤ CORES) }
    ensures programs { IfOk result (λ s. programs_of s.image ≡ programs_of image.now) }
    ensures bytes { IfOk result (λ s. IsOfBytes s.image) }
    ensures world { IfOk result (λ s. first_world s.image cores ≡ first_world image.now cores) }
    ensures left { IfOk result (λ s. turns_left s.formatting ≤ MOST_TURNS) }
    ensures shows { IfOk result (λ s. (f : ℕ → Word) (words : ℕ → ℕ) → Formats image.now cores words
        → HoldsClean f words → FormattingShows s.formatting f s.image cores) }
{
    crate::laws::images_of_programs();
    let copy = copy_of_image(alloc, image)?;
    image_is_of_bytes(&copy);
    let calls = Calls::new(alloc)?;
    let formatting = Formatting::new(&copy, cores);
    Ok(FirstFormat {
        image: copy,
        formatting,
        calls,
    })
}

/// All that it takes to recover from a memory, and the kernel that is to run.
fn restoring(alloc: Global, nvm: &Pmem) -> Result<Restoring, AllocError>
    ensures first { IfOk result (λ s. s.is_first ≡ false) }
    ensures left { IfOk result (λ s. restores.turns_left s.recovery ≤ RECOVERY_TURNS) }
    ensures shows { IfOk result (λ s. (v : ℕ) (saved : Parts) → IsAllClean (word_at nvm.now)
        → (word_at nvm.now VERSION_AT).durable ≡ v → PartsStand (durable_words (word_at nvm.now)) v saved
        → restores.RestoreShows s.recovery (word_at nvm.now) v saved) }
{
    let calls = Calls::new(alloc)?;
    Ok(Restoring {
        recovery: Recovery::new(nvm),
        calls,
        is_first: false,
    })
}

/// How many cores a memory was formatted for.
fn cores_of(nvm: &Pmem) -> u8
    requires few { (word_at nvm.now CORES_AT).durable ≤ CORES }
    ensures { result ≡ (word_at nvm.now CORES_AT).durable }
{
    nvm.durable(CORES_WORD) as u8
}

impl Kernel {
    /// A machine that formats an empty memory from an image, by turns of core 0 until it is up.
    ///
    /// The only refusal is want of memory, with the persistent memory as it was.
    pub fn boot(alloc: Global, image: &Image, cores: u8, nvm: Pmem) -> Result<Kernel, BootRefused>
        requires accepted { IsAccepted image.now }
        requires cores { (1 ≤ cores) × (cores ≤ CORES) }
        requires zero { (i : ℕ) → IsZero (word_at nvm i) }
        requires home { AllHome nvm }
        ensures booted { IfOk result (λ k. IsBooted cores nvm (seen_of k)) }
        ensures made { IfOk result (λ k. IsMadeFrom k image.now) }
        ensures is_at { IfOk result (λ k. IsAt k (first_course image.now cores nvm)) }
        ensures refused { IfErr result (λ e. e.nvm ≡ nvm) }
    {
        // Their contracts say that formatting begins with words that are zero, and that what begins is sound.
        first_format::laws::formatting();
        machine_contract::laws::beginning_is_sound();
        match first_format(alloc, image, cores) {
            Ok(start) => Ok(begun(nvm, [0; OUTPUT_CHANNELS], cores, Work::Formats(start))),
            Err(_) => Err(BootRefused { nvm }),
        }
    }

    /// Gives the power back: the machine recovers from its memory, or formats it where that hasn't been done, by turns
    /// of core 0 until it is up. The image and the number of cores count only where it formats.
    ///
    /// A refusal gives the memory back as it was, and is for want of memory.
    pub fn light(off: Off, alloc: Global, image: &Image, cores: u8) -> Result<Kernel, LightRefused>
        requires cores { (1 ≤ cores) × (cores ≤ CORES) }
        requires home { AllHome off.nvm }
        requires clean { (i : ℕ) → (word_at off.nvm i).cached ≡ (word_at off.nvm i).durable }
        requires lightable { IsLightable off }
        requires image { durable_of (word_at off.nvm) FORMAT_AT ≡ 0
            → IsAccepted image.now × Formats image.now cores (durable_of (word_at off.nvm)) }
        ensures lit { IfOk result (λ k. IsLit off (seen_of k)) }
        ensures made { IfOk result (λ k. IsMadeFrom k image.now) }
        ensures is_at { IfOk result (λ k. (c : Course) → ShowsOff off c
            → (durable_of (word_at off.nvm) FORMAT_AT ≡ 0 → c.world ≡ first_world image.now cores) → IsAt k c) }
        ensures live { IfOk result IsLive }
        ensures refused { IfErr result (λ e. e.off ≡ off) }
        ensures cause { IfErr result (λ e. e.cause ≡ LightCause.Memory) }
    {
        machine_contract::laws::beginning_is_sound();
        if off.nvm.durable(FORMAT_WORD_AT) == 0 {
            match first_format(alloc, image, cores) {
                Ok(start) => Ok(begun(off.nvm, off.accepted, cores, Work::Formats(start))),
                Err(_) => Err(refused(off)),
            }
        } else {
            match restoring(alloc, &off.nvm) {
                Ok(start) => {
                    let cores = cores_of(&off.nvm);
                    Ok(begun(off.nvm, off.accepted, cores, Work::Recovers(start)))
                }
                Err(_) => Err(refused(off)),
            }
        }
    }
}

/// A machine that begins: no page was prepared, and no checkpoint is wished for.
fn begun(nvm: Pmem, accepted: [u64; OUTPUT_CHANNELS], cores: u8, work: Work) -> Kernel
    ensures { result ≡ record {
      nvm = nvm;
      accepted = accepted;
      cores = cores;
      work = work;
      spent = replicate PAGES 0;
      wish = false;
    } }
{
    Kernel {
        nvm,
        accepted,
        cores,
        work,
        spent: [0; EVERY_PAGE],
        wish: false,
    }
}

/// There was no memory.
fn refused(off: Off) -> LightRefused
    ensures { result ≡ record { cause = LightCause.Memory; off = off } }
{
    LightRefused {
        cause: LightCause::Memory,
        off,
    }
}
