//! The machine: a program that runs on persistent memory, is saved by checkpoints, and goes on after a power cut from
//! the last one.

ghost use Rattle.std.specs.Prelude.{◌≡◌, ℕ, ◌<◌, ◌^◌, IsTrue, IfOk, length, replicate, slice_index};
ghost use Rattle.pmem_model.specs.Memory.{AllHome};
ghost use Rattle.sls_kernel.specs.Stages.{is_stage};
ghost use Rattle.sls_kernel.specs.Program.{program_bytes, page_bytes};
ghost use Rattle.sls_kernel.specs.declared.thread.Status.TheVariants as status;

use crate::answers::{Asked, BootRefused, Did, LightCause, LightRefused, Why};
use crate::stage::{
    CheckpointStep, FormatStep, STATE_PAGES, SaveStep, Stage, checkpoint_after, format_after,
    resumed,
};
use crate::thread::{RunThread, Status};
use crate::{area, memory, program, record, ring, run};
use pmem_model::Pmem;
use rv_core::Regs;
use sls_base::{CoreNo, Entry, Image, LAST_VERSION, Version, WORDS};
use std::alloc::{AllocError, Global};

/// The place of the format word, which is durable once the memory is formatted.
const FORMAT_PLACE: usize = 0;

/// The place of the version word, which says which area is the committed one.
const VERSION_PLACE: usize = 1;

/// The format word: the bytes `TREESLS1`.
const FORMAT_WORD: u64 = 0x3153_4C53_4545_5254;

/// The page of the program; the pages below it are the rings of the output channels.
const PROGRAM_PAGE: u8 = 4;

/// A machine without power: its memory, and how many entries of each channel the device has accepted.
#[derive(Drop)]
pub struct Off {
    pub nvm: Pmem,
    pub accepted: [u64; 4],
}

/// A machine with power.
#[derive(Drop)]
pub struct Machine {
    nvm: Pmem,
    accepted: [u64; 4],
    stage: Stage,
    thread: RunThread,
    put: [u64; 4],
    /// The version that the checkpoint in flight makes.
    next: u64,
    /// The page that the program begins with.
    program: Vec<u64>,
    /// Room for the thread's record.
    room: Vec<u64>,
    ghost home: { AllHome nvm },
    ghost staged: { IsTrue (is_stage stage) },
    ghost sized: { length program.items ≡ 512 },
    ghost roomy: { length room.items ≡ 21 },
}

#[tactic(auto, unfolding(crate::specs::Side::mode, crate::specs::Side::left, crate::specs::Shows::image_of, crate::specs::Shows::memory_of, crate::specs::Shows::accepted_of))]
impl Machine {
    ghost use Rattle.std.specs.Prelude.{◌≢◌, ◌⊎◌, ◌+◌, ◌-◌, ◌*◌, ◌<◌, ◌≤◌, ◌==◌, ◌↔◌, ℕ, true, false, None, Some};
    ghost use Rattle.std.specs.Prelude.{IfOk, IfErr, IfSome, IfNone, slice_index, if◌then◌else◌};
    ghost use Rattle.sls_base.specs.declared.entry.Entry.{Entry};
    ghost use Rattle.pmem_model.specs.Words.{is_within, writes_back, cuts};
    ghost use Rattle.pmem_model.specs.Memory.{word_at};
    ghost use Rattle.sls_kernel.specs.Plain.{World, first, cut, accept, offered};
    ghost use Rattle.sls_base.specs.Counts.{one_more};
    ghost use Rattle.sls_kernel.specs.Program.{IsOfCode, program_bytes};
    ghost use Rattle.sls_kernel.specs.Shows.{Shows, ShowsOff, StandsFor, IsUnformatted, IsPrefixOf, IsZero};
    ghost use Rattle.sls_kernel.specs.Shows.{durable_words, image_of, memory_of, accepted_of};
    ghost use Rattle.sls_kernel.specs.Side.{Mode, Formatting, Recovering, Running, BeforeCommit, AfterCommit, mode};
    ghost use Rattle.sls_kernel.specs.Side.{left, IsServing, ModeGoes, turned, IsLawful, written, IsWritten, AskGoes};
    ghost use Rattle.sls_kernel.specs.Side.{IsLawfulAsked};
    ghost use Rattle.sls_kernel.specs.declared.stage.Stage.TheVariants as stage;

    /// A machine that formats an empty memory with a program of code words, by turns of core 0 until it is up.
    ///
    /// The image is one that code words make, there is one core, and each word of the memory is zero. The only refusal
    /// is want of memory, with the persistent memory as it was.
    pub fn boot(alloc: Global, image: &Image, cores: u8, nvm: Pmem) -> Result<Machine, BootRefused>
        requires image { IsOfCode image.now }
        requires one_core { cores ≡ 1 }
        requires zero { (i : ℕ) → IsZero (word_at nvm i) }
        requires home { AllHome nvm }
        ensures mode { IfOk result (λ m. mode m ≡ Formatting) }
        ensures left { IfOk result (λ m. left m ≡ 17) }
        ensures image_is { IfOk result (λ m. image_of m ≡ program_bytes image.now) }
        ensures memory { IfOk result (λ m. memory_of m ≡ nvm) }
        ensures shows { IfOk result (λ m. Shows m (first (program_bytes image.now) nvm.commits nvm.cuts)) }
        ensures refused { IfErr result (λ e. e.nvm ≡ nvm) }
    {
        match rooms(alloc, image) {
            Ok((program, room)) => Ok(Machine {
                nvm,
                accepted: [0; 4],
                stage: Stage::Format(FormatStep::Fill),
                thread: initial_thread(),
                put: [0; 4],
                next: 0,
                program,
                room,
            }),
            Err(_) => Err(BootRefused { nvm }),
        }
    }

    /// Whether it runs, in a checkpoint or not; else it formats or recovers.
    pub fn is_up(&self) -> bool
        ensures serving { IsTrue result ↔ IsServing (mode self.now) }
    {
        match self.stage {
            Stage::Up | Stage::Checkpoint(_) => true,
            Stage::Format(_) | Stage::Recover(_) => false,
        }
    }

    /// Whether a checkpoint is in flight.
    pub fn in_checkpoint(&self) -> bool
        ensures { IsTrue result ↔ ((mode self.now ≡ BeforeCommit) ⊎ (mode self.now ≡ AfterCommit)) }
    {
        match self.stage {
            Stage::Checkpoint(_) => true,
            Stage::Up | Stage::Format(_) | Stage::Recover(_) => false,
        }
    }

    /// The committed version.
    pub fn version(&self) -> Version
        ensures { (w : World) → Shows self.now w → result ≡ w.version }
    {
        memory::table_durable(&self.nvm, VERSION_PLACE)
    }

    /// The number of cores.
    pub fn cores(&self) -> u8
        ensures { result ≡ 1 }
    {
        1
    }

    /// The memory. Its durable words stand for the saved state of the version in word 1; but while the machine formats,
    /// they may be without a format word.
    pub fn nvm(&self) -> &Pmem
        ensures memory { result.now ≡ memory_of self.now }
        ensures stands { (w : World) → Shows self.now w
            → StandsFor (durable_words result.now) w
            ⊎ (mode self.now ≡ Formatting) × IsUnformatted (durable_words result.now) w }
        ensures released { (w : World) → Shows self.now w
            → (channel : ℕ) → IsPrefixOf (w.released channel) (w.saved.out channel) }
        ensures home { AllHome result.now }
    {
        &self.nvm
    }

    /// Asks for a checkpoint. This machine needs no memory for one, so it never answers so.
    pub fn ask(&mut self, _alloc: Global) -> Asked
        requires { IsServing (mode self.old) }
        ensures goes { AskGoes (mode self.old) result (mode self.new) }
        ensures memory { memory_of self.new ≡ memory_of self.old }
        ensures left { result ≡ Asked.Started → left self.new ≡ 16 }
        ensures same { result ≢ Asked.Started → self.new ≡ self.old }
        ensures image { image_of self.new ≡ image_of self.old }
        ensures world { (w : World) → Shows self.old w → IsLawfulAsked w result × Shows self.new w }
    {
        match self.stage {
            Stage::Up => {
                let version = self.version();
                if version >= LAST_VERSION {
                    return Asked::VersionSpent(version);
                }
                self.next = version + 1;
                self.stage = Stage::Checkpoint(CheckpointStep::Save(SaveStep::FIRST));
                Asked::Started
            }
            _ => Asked::InFlight,
        }
    }

    /// One turn of the core: a step of formatting, of recovery or of a checkpoint, or else a tick of the program.
    pub fn turn(&mut self, core: CoreNo) -> Did
        requires { core ≡ 0 }
        ensures goes { ModeGoes (mode self.old) result (mode self.new) }
        ensures fewer { (mode self.old ≡ Running) ⊎ (left self.new < left self.old) }
        ensures image { image_of self.new ≡ image_of self.old }
        ensures world { (w : World) → Shows self.old w → IsLawful w result × Shows self.new (turned w result) }
        ensures end { (left self.new ≡ 0) ↔ (mode self.new ≡ Running) }
    {
        match self.stage {
            Stage::Format(step) => self.format(step),
            Stage::Recover(page) => self.recover(page),
            Stage::Up => self.tick(),
            Stage::Checkpoint(step) => self.lead(step),
        }
    }

    fn tick(&mut self) -> Did
        requires { self.old.stage ≡ stage.Up }
        ensures goes { ModeGoes (mode self.old) result (mode self.new) }
        ensures image { image_of self.new ≡ image_of self.old }
        ensures world { (w : World) → Shows self.old w → IsLawful w result × Shows self.new (turned w result) }
    {
        if run::tick(
            &mut self.thread,
            &mut self.put,
            &mut self.nvm,
            &self.accepted,
        ) {
            Did::Retired
        } else {
            Did::Idle
        }
    }

    fn format(&mut self, step: FormatStep) -> Did
        requires { self.old.stage ≡ stage.Format step }
        ensures goes { ModeGoes (mode self.old) result (mode self.new) }
        ensures fewer { left self.new < left self.old }
        ensures image { image_of self.new ≡ image_of self.old }
        ensures world { (w : World) → Shows self.old w → IsLawful w result × Shows self.new (turned w result) }
    {
        match step {
            FormatStep::Fill => {
                memory::store(
                    &mut self.nvm,
                    area::running_frame(PROGRAM_PAGE),
                    0,
                    &self.program,
                );
                self.stage = Stage::Format(FormatStep::Save(SaveStep::FIRST));
                Did::Inner(Why::Format)
            }
            FormatStep::Save(step) => {
                area::save(
                    &mut self.nvm,
                    0,
                    step,
                    &self.thread,
                    &self.put,
                    &mut self.room,
                );
                self.stage = format_after(step.after());
                Did::Inner(Why::Format)
            }
            FormatStep::StoreWord => {
                memory::store_word(&mut self.nvm, FORMAT_PLACE, FORMAT_WORD);
                self.stage = Stage::Format(FormatStep::FlushWord);
                Did::Inner(Why::Format)
            }
            FormatStep::FlushWord => {
                memory::flush_first_line(&mut self.nvm);
                self.stage = Stage::Format(FormatStep::FenceWord);
                Did::Inner(Why::Format)
            }
            FormatStep::FenceWord => {
                memory::fence(&mut self.nvm);
                self.stage = Stage::Up;
                Did::Up(memory::table_durable(&self.nvm, VERSION_PLACE))
            }
        }
    }

    fn recover(&mut self, page: u8) -> Did
        requires { self.old.stage ≡ stage.Recover page }
        ensures goes { ModeGoes (mode self.old) result (mode self.new) }
        ensures fewer { left self.new < left self.old }
        ensures image { image_of self.new ≡ image_of self.old }
        ensures world { (w : World) → Shows self.old w → IsLawful w result × Shows self.new (turned w result) }
    {
        let version = memory::table_durable(&self.nvm, VERSION_PLACE);
        let area = area::area_of_version(version);
        memory::copy(
            &mut self.nvm,
            area::area_frame(area, page),
            area::running_frame(page),
        );
        if page + 1 < STATE_PAGES {
            self.stage = Stage::Recover(page + 1);
            return Did::Inner(Why::Recover);
        }
        let (thread, put) = record::read_back(&self.nvm, area::area_frame(area, area::RECORD_PART));
        self.thread = thread;
        self.put = put;
        self.stage = Stage::Up;
        Did::Up(version)
    }

    fn lead(&mut self, step: CheckpointStep) -> Did
        requires { self.old.stage ≡ stage.Checkpoint step }
        ensures goes { ModeGoes (mode self.old) result (mode self.new) }
        ensures fewer { left self.new < left self.old }
        ensures image { image_of self.new ≡ image_of self.old }
        ensures world { (w : World) → Shows self.old w → IsLawful w result × Shows self.new (turned w result) }
    {
        match step {
            CheckpointStep::Save(step) => {
                let area = area::area_of_version(self.next);
                area::save(
                    &mut self.nvm,
                    area,
                    step,
                    &self.thread,
                    &self.put,
                    &mut self.room,
                );
                self.stage = checkpoint_after(step.after());
                Did::Inner(Why::Lead)
            }
            CheckpointStep::StoreVersion => {
                memory::store_word(&mut self.nvm, VERSION_PLACE, self.next);
                self.stage = Stage::Checkpoint(CheckpointStep::FlushVersion);
                Did::Inner(Why::Lead)
            }
            CheckpointStep::FlushVersion => {
                memory::flush_first_line(&mut self.nvm);
                self.stage = Stage::Checkpoint(CheckpointStep::FenceVersion);
                Did::Inner(Why::Lead)
            }
            CheckpointStep::FenceVersion => {
                memory::fence(&mut self.nvm);
                self.stage = Stage::Up;
                Did::Committed(self.next)
            }
            CheckpointStep::FlushAgain => {
                memory::flush_first_line(&mut self.nvm);
                self.stage = Stage::Checkpoint(CheckpointStep::FenceAgain);
                Did::Inner(Why::Lead)
            }
            CheckpointStep::FenceAgain => {
                memory::fence(&mut self.nvm);
                self.stage = Stage::Up;
                Did::Inner(Why::Lead)
            }
        }
    }

    /// Makes the cached value of a word durable, at any moment. Where that commits a checkpoint, it tells the version.
    pub fn write_back(&mut self, word: usize) -> Option<Version>
        requires { word < WORDS }
        ensures words { (i : ℕ) → word_at (memory_of self.new) i
            ≡ writes_back (is_within word 1) (word_at (memory_of self.old)) i }
        ensures none { IfNone result ((mode self.new ≡ mode self.old) × (left self.new ≡ left self.old)) }
        ensures commit { IfSome result (λ v.
            (mode self.old ≡ BeforeCommit) × (mode self.new ≡ AfterCommit) × (left self.old ≤ 2)) }
        ensures left { left self.new ≡ left self.old }
        ensures image { image_of self.new ≡ image_of self.old }
        ensures world { (w : World) → Shows self.old w → IsWritten w result × Shows self.new (written w result) }
    {
        memory::write_back(&mut self.nvm, word);
        if word == VERSION_PLACE {
            if let Some(stage) = resumed(self.stage) {
                self.stage = stage;
                return Some(self.next);
            }
        }
        None
    }

    /// The least word from `word` on whose cached and durable values differ.
    pub fn dirty_from(&self, word: usize) -> Option<usize>
        ensures found { IfSome result (λ i. (word ≤ i) × (i < WORDS)
            × ((word_at (memory_of self.now) i).cached ≢ (word_at (memory_of self.now) i).durable)) }
        ensures before { IfSome result (λ k. (i : ℕ) → word ≤ i → i < k
            → (word_at (memory_of self.now) i).cached ≡ (word_at (memory_of self.now) i).durable) }
        ensures none { IfNone result ((i : ℕ) → word ≤ i → i < WORDS
            → (word_at (memory_of self.now) i).cached ≡ (word_at (memory_of self.now) i).durable) }
    {
        self.nvm.dirty_from(word)
    }

    /// Accepts the next entry of a channel for the device, if the committed state has put one that it hasn't accepted.
    pub fn accept(&mut self, channel: u8) -> Option<Entry>
        requires serving { IsServing (mode self.old) }
        requires channel { channel < 4 }
        ensures mode { (mode self.new ≡ mode self.old) × (left self.new ≡ left self.old) }
        ensures memory { memory_of self.new ≡ memory_of self.old }
        ensures image { image_of self.new ≡ image_of self.old }
        ensures world { (w : World) → Shows self.old w
            → (result ≡ offered w channel) × Shows self.new (accept w channel) }
    {
        let area = area::area_of_version(memory::table_durable(&self.nvm, VERSION_PLACE));
        let put = memory::durable(
            &self.nvm,
            area::area_frame(area, area::RECORD_PART),
            record::PUT_WORD + channel as usize,
        );
        let number = self.accepted[channel as usize];
        if number >= put {
            return None;
        }
        let bytes = ring::durable_entry(&self.nvm, area::area_frame(area, channel), number);
        self.accepted[channel as usize] = number + 1;
        Some(Entry { number, bytes })
    }

    /// Cuts the power. What is durable stays, and the device keeps its counts.
    pub fn cut(self) -> Off
        ensures words { (i : ℕ) → word_at result.nvm i ≡ cuts (word_at (memory_of self)) i }
        ensures home { AllHome result.nvm }
        ensures accepted { result.accepted ≡ accepted_of self }
        ensures shows { (w : World) → Shows self w → ShowsOff result (cut w) }
        ensures formatted { (w : World) → Shows self w → durable_words result.nvm 0 ≡ 0
            → cut w ≡ first (image_of self) w.commits (one_more w.cuts) }
        ensures unformatted { (w : World) → Shows self w → durable_words result.nvm 0 ≡ 0 → mode self ≡ Formatting }
    {
        let Machine {
            mut nvm,
            accepted,
            stage: _,
            thread: _,
            put: _,
            next: _,
            program: _,
            room: _,
        } = self;
        memory::cut(&mut nvm);
        Off { nvm, accepted }
    }
}

#[tactic(auto, unfolding(crate::specs::Side::mode, crate::specs::Side::left, crate::specs::Shows::image_of, crate::specs::Shows::memory_of, crate::specs::Shows::accepted_of))]
impl Off {
    ghost use Rattle.std.specs.Prelude.{◌≢◌, ◌⊎◌, ◌↔◌, ◌≤◌, ℕ, IfOk, IfErr};
    ghost use Rattle.sls_base.specs.declared.limits.TheConstants.{CORES};
    ghost use Rattle.sls_kernel.specs.Plain.{World, first};
    ghost use Rattle.sls_kernel.specs.Program.{IsOfCode, program_bytes};
    ghost use Rattle.sls_kernel.specs.Shows.{Shows, ShowsOff, durable_words, image_of, memory_of};
    ghost use Rattle.sls_kernel.specs.Side.{Formatting, Recovering, mode, left};

    /// Gives the power back: the machine recovers from its memory, or formats it again where it was cut within
    /// formatting, by turns of core 0 until it is up. The only refusal is want of memory, and gives this value back.
    ///
    /// The image is the one that the memory was formatted with, and there is one core. Both are ignored unless
    /// formatting begins again.
    pub fn light(self, alloc: Global, image: &Image, cores: u8) -> Result<Machine, LightRefused>
        requires home { AllHome self.nvm }
        requires image { durable_words self.nvm 0 ≡ 0 → IsOfCode image.now }
        requires cores { (1 ≤ cores) × (cores ≤ CORES) }
        requires one_core { durable_words self.nvm 0 ≡ 0 → cores ≡ 1 }
        ensures mode { IfOk result (λ m. (mode m ≡ Formatting) ⊎ (mode m ≡ Recovering)) }
        ensures formats { IfOk result (λ m. (mode m ≡ Formatting) ↔ (durable_words self.nvm 0 ≡ 0)) }
        ensures fewer { IfOk result (λ m. left m ≤ 17) }
        ensures image_is { IfOk result (λ m. image_of m ≡ program_bytes image.now) }
        ensures memory { IfOk result (λ m. memory_of m ≡ self.nvm) }
        ensures shows { IfOk result (λ m. (w : World) → ShowsOff self w
            → (durable_words self.nvm 0 ≡ 0 → w ≡ first (program_bytes image.now) w.commits w.cuts) → Shows m w) }
        ensures refused { IfErr result (λ e. (e.cause ≡ LightCause.Memory) × (e.off ≡ self)) }
    {
        match rooms(alloc, image) {
            Ok((program, room)) => {
                let Off { nvm, accepted } = self;
                let stage = if memory::table_durable(&nvm, FORMAT_PLACE) == 0 {
                    Stage::Format(FormatStep::Fill)
                } else {
                    Stage::Recover(0)
                };
                Ok(Machine {
                    nvm,
                    accepted,
                    stage,
                    thread: initial_thread(),
                    put: [0; 4],
                    next: 0,
                    program,
                    room,
                })
            }
            Err(_) => Err(LightRefused {
                cause: LightCause::Memory,
                off: self,
            }),
        }
    }
}

/// The page that the image's program begins with, and room for a record.
fn rooms(alloc: Global, image: &Image) -> Result<(Vec<u64>, Vec<u64>), AllocError>
    ensures program { IfOk result (λ rooms. length rooms.0.items ≡ 512) }
    ensures room { IfOk result (λ rooms. length rooms.1.items ≡ 21) }
    ensures range { IfOk result (λ rooms. (i : ℕ) → slice_index rooms.0.items i < 2 ^ 64) }
    ensures bytes { IfOk result (λ rooms. page_bytes rooms.0.items ≡ program_bytes image.now) }
{
    let program = program::page_words(alloc, image)?;
    let room = vec![in alloc; 0; record::RECORD_WORDS]?;
    Ok((program, room))
}

/// The thread that a program begins with.
fn initial_thread() -> RunThread
    ensures { result ≡ record { status = status.Ready; regs = record { pc = 0; x = replicate 32 0 } } }
{
    RunThread {
        status: Status::Ready,
        regs: Regs { pc: 0, x: [0; 32] },
    }
}
