//! The calls of a machine, with what each promises.

ghost use Rattle.std.specs.Prelude.{◌≡◌, ◌≢◌, ◌↔◌, ℕ, ◌<◌, ◌≤◌, length, IsTrue, IfOk, IfErr, IfSome, IfNone, slice_index};
ghost use Rattle.sls_base.specs.declared.limits.TheConstants.{CORES, WORDS, OUTPUT_CHANNELS, ENTRY_BYTES};
ghost use Rattle.sls_base.specs.declared.fixed.TheConstants.{LEADER};
ghost use Rattle.sls_base.specs.declared.image.Image.{Image};
ghost use Rattle.pmem_model.specs.Words.{cuts};
ghost use Rattle.pmem_model.specs.Memory.{AllHome, word_at};
ghost use Rattle.pmem_layout.specs.declared.places.TheConstants.{FORMAT_AT};
ghost use Rattle.plain_state.specs.declared.label.Label.TheVariants as label;
ghost use Rattle.plain_model.specs.States.{view_of};
ghost use Rattle.plain_model.specs.Worlds as worlds;
ghost use Rattle.plain_model.specs.Play as plain;
ghost use Rattle.plain_model.specs.Initial.{IsAccepted, first_world};
ghost use Rattle.machine_contract.specs.declared.answers.Off.{Off};
ghost use Rattle.machine_contract.specs.Side.{IsStarting, InCheckpoint, IsUp, Running};
ghost use Rattle.machine_contract.specs.Courses.{Course, first_course, turn_label, back_label, after, after_label};
ghost use Rattle.machine_contract.specs.Shown.{Seen, Format, IsShown, IsShownOff, IsLent, durable_of};
ghost use Rattle.machine_contract.specs.Begins.{IsZero, IsBooted, IsLit, WasFormatting, CountsCut, Keeps};
ghost use Rattle.machine_contract.specs.Goes.{TurnGoes, AskGoes, WishGoes, WriteBackGoes, InputGoes, AcceptGoes};

use crate::answers::{Asked, BootRefused, Did, LightCause, LightRefused, Off};
use pmem_model::Pmem;
use sls_base::{CoreNo, Entry, Full, Image, ObjId, ThreadView, Version};
use std::alloc::Global;

/// A machine: a kernel that runs programs over persistent memory, is saved by checkpoints, and goes on after a power
/// cut from the last one. Core 0 leads.
///
/// What a call says of a course, it says of each that the machine shows before it. Only `boot`, `ask` and `light` take
/// memory.
pub trait Machine: Sized + Drop {
    // What is seen of a machine, and which courses of the plain machine it shows.
    ghost seen: { Self → Seen };

    ghost shows: { Self → Course → Type 0 };

    // Which courses a memory without power shows, and from which of them a machine can be lit.
    ghost shows_off: { Off → Course → Type 0 };

    ghost is_lightable: { Off → Type 0 };

    // What durable words mean.
    ghost format: { Format };

    // As long as the machine formats, it formats from this image.
    ghost is_made_from: { Self → Image → Type 0 };

    /// A machine that formats an empty memory from an image, by turns of core 0 until it is up.
    ///
    /// The only refusal is want of memory, with the persistent memory as it was.
    fn boot(alloc: Global, image: &Image, cores: u8, nvm: Pmem) -> Result<Self, BootRefused>
        requires accepted { IsAccepted image.now }
        requires cores { (1 ≤ cores) × (cores ≤ CORES) }
        requires zero { (i : ℕ) → IsZero (word_at nvm i) }
        requires home { AllHome nvm }
        ensures booted { IfOk result (λ m. IsBooted cores nvm (seen m)) }
        ensures made { IfOk result (λ m. is_made_from m image.now) }
        ensures shows { IfOk result (λ m. shows m (first_course image.now cores nvm)) }
        ensures refused { IfErr result (λ e. e.nvm ≡ nvm) };

    /// Whether it is up; else it formats or recovers.
    fn is_up(&self) -> bool
        ensures { IsTrue result ↔ IsUp (seen self.now).side.mode };

    /// Whether a checkpoint is in flight.
    fn in_checkpoint(&self) -> bool
        ensures { IsTrue result ↔ InCheckpoint (seen self.now).side.mode };

    /// The committed version.
    fn version(&self) -> Version
        ensures { (c : Course) → shows self.now c → result ≡ c.world.version };

    /// The number of cores.
    fn cores(&self) -> u8
        ensures number { result ≡ length (seen self.now).side.cores }
        ensures range { (1 ≤ result) × (result ≤ CORES) };

    /// How many entries the running state has put on a channel.
    fn put_count(&self, channel: u8) -> u64
        requires up { IsUp (seen self.now).side.mode }
        requires channel { channel < OUTPUT_CHANNELS }
        ensures { (c : Course) → shows self.now c → result ≡ worlds.put_count c.world channel };

    /// How many entries of a channel the device has accepted.
    fn accepted(&self, channel: u8) -> u64
        requires { channel < OUTPUT_CHANNELS }
        ensures { result ≡ slice_index (seen self.now).accepted channel };

    /// What is told of a thread of the running state; None exactly where it has no thread of that number.
    fn thread(&self, id: ObjId) -> Option<ThreadView>
        requires { (seen self.now).side.mode ≡ Running }
        ensures { (c : Course) → shows self.now c → result ≡ view_of (c.world.now.objects id) };

    /// The memory. What is seen of the machine says the course: so at every moment the durable words stand for what the
    /// plain machine has saved.
    fn nvm(&self) -> &Pmem
        ensures lent { IsLent (seen self.now) result.now }
        ensures shown { (c : Course) → shows self.now c → IsShown format (seen self.now) c };

    /// Whether a checkpoint was wished for since the last one began, the last cut and the last call; the wish is
    /// forgotten.
    fn take_wish(&mut self) -> bool
        ensures keeps { Keeps seen is_made_from self.old self.new }
        ensures goes { WishGoes result (seen self.old) (seen self.new) }
        ensures shows { (c : Course) → shows self.old c → shows self.new c };

    /// Asks for a checkpoint. Want of memory changes nothing.
    fn ask(&mut self, alloc: Global) -> Asked
        requires { IsUp (seen self.old).side.mode }
        ensures keeps { Keeps seen is_made_from self.old self.new }
        ensures goes { (c : Course) → shows self.old c → AskGoes result (seen self.old) c (seen self.new) }
        ensures shows { (c : Course) → shows self.old c → shows self.new c };

    /// One turn of a core: a step of formatting, of recovery, of a checkpoint, of preparing a page or of copying one,
    /// or else a tick.
    fn turn(&mut self, core: CoreNo) -> Did
        requires { core < length (seen self.old).side.cores }
        ensures keeps { Keeps seen is_made_from self.old self.new }
        ensures fewer { IsStarting (seen self.old).side.mode → core ≡ LEADER
            → (seen self.new).side.left < (seen self.old).side.left }
        ensures goes { (c : Course) → shows self.old c
            → TurnGoes format core result (seen self.old) c (seen self.new) }
        ensures shows { (c : Course) → shows self.old c → shows self.new (after c (turn_label core result)) };

    /// Makes the cached value of a word durable, at any moment. It tells the version, exactly where that commits a
    /// checkpoint.
    fn write_back(&mut self, word: usize) -> Option<Version>
        requires { word < WORDS }
        ensures keeps { Keeps seen is_made_from self.old self.new }
        ensures goes { (c : Course) → shows self.old c
            → WriteBackGoes format word result (seen self.old) c (seen self.new) }
        ensures shows { (c : Course) → shows self.old c → shows self.new (after c (back_label result)) };

    /// The least word from `word` on whose cached and durable values differ.
    fn dirty_from(&self, word: usize) -> Option<usize>
        ensures found { IfSome result (λ k. (word ≤ k) × (k < WORDS)
            × (((seen self.now).words k).cached ≢ ((seen self.now).words k).durable)) }
        ensures before { IfSome result (λ k. (i : ℕ) → word ≤ i → i < k
            → ((seen self.now).words i).cached ≡ ((seen self.now).words i).durable) }
        ensures none { IfNone result ((i : ℕ) → word ≤ i → i < WORDS
            → ((seen self.now).words i).cached ≡ ((seen self.now).words i).durable) };

    /// Gives an input, which waits behind the others; Full exactly where there is no room for it.
    fn input(&mut self, bytes: &[u8]) -> Result<(), Full>
        requires up { IsUp (seen self.old).side.mode }
        requires some { 1 ≤ length bytes.now }
        requires most { length bytes.now ≤ ENTRY_BYTES }
        ensures keeps { Keeps seen is_made_from self.old self.new }
        ensures goes { (c : Course) → shows self.old c → InputGoes result (seen self.old) c (seen self.new) }
        ensures shows { (c : Course) → shows self.old c
            → shows self.new (record c { world = plain.input c.world bytes.now }) };

    /// Accepts the next entry of a channel for the device; None exactly where the saved copy has put none that it
    /// hasn't accepted.
    fn accept(&mut self, channel: u8) -> Option<Entry>
        requires up { IsUp (seen self.old).side.mode }
        requires channel { channel < OUTPUT_CHANNELS }
        ensures keeps { Keeps seen is_made_from self.old self.new }
        ensures goes { (c : Course) → shows self.old c
            → AcceptGoes channel result (seen self.old) c (seen self.new) }
        ensures shows { (c : Course) → shows self.old c → shows self.new (after_label c (label.Accept channel)) };

    /// Cuts the power. What is durable stays, all frames come home, and the device keeps its counts.
    fn cut(self) -> Off
        ensures words { (i : ℕ) → word_at result.nvm i ≡ cuts (seen self).words i }
        ensures home { AllHome result.nvm }
        ensures accepted { result.accepted ≡ (seen self).accepted }
        ensures counts { CountsCut (seen self) result }
        ensures shows { (c : Course) → shows self c → shows_off result (after_label c label.Cut) }
        ensures shown { (c : Course) → shows self c
            → IsShownOff format result.nvm result.accepted (after_label c label.Cut) }
        ensures unformatted { (c : Course) (image : Image) → shows self c → is_made_from self image
            → durable_of (word_at result.nvm) FORMAT_AT ≡ 0 → WasFormatting format (seen self) image result c };

    /// Gives the power back: the machine recovers from its memory, or formats it where that hasn't been done, by turns
    /// of core 0 until it is up. The image and the number of cores count only where it formats.
    ///
    /// A refusal gives the memory back as it was. A memory that a machine left is refused only for want of memory.
    fn light(off: Off, alloc: Global, image: &Image, cores: u8) -> Result<Self, LightRefused>
        requires cores { (1 ≤ cores) × (cores ≤ CORES) }
        requires home { AllHome off.nvm }
        requires clean { (i : ℕ) → (word_at off.nvm i).cached ≡ (word_at off.nvm i).durable }
        requires lightable { is_lightable off }
        requires image { durable_of (word_at off.nvm) FORMAT_AT ≡ 0
            → IsAccepted image.now × format.Formats image.now cores (durable_of (word_at off.nvm)) }
        ensures lit { IfOk result (λ m. IsLit off (seen m)) }
        ensures made { IfOk result (λ m. is_made_from m image.now) }
        ensures shows { IfOk result (λ m. (c : Course) → shows_off off c
            → (durable_of (word_at off.nvm) FORMAT_AT ≡ 0 → c.world ≡ first_world image.now cores) → shows m c) }
        ensures refused { IfErr result (λ e. e.off ≡ off) }
        ensures cause { IfErr result (λ e. (c : Course) → shows_off off c → e.cause ≡ LightCause.Memory) };

    // What a machine shows says this to a caller.
    ghost is_shown: { (m : Self) (c : Course) → shows m c → IsShown format (seen m) c };

    // A machine can be lit from a memory that shows a course.
    ghost shown_is_lightable: { (off : Off) (c : Course) → shows_off off c → is_lightable off };
}
