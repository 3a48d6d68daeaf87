//! Puts a machine through a list of events of any kind and order.

ghost use Rattle.std.specs.Prelude.{◌≡◌, ◌↔◌, ◌<◌, ℕ, IsTrue, IfOk, IfErr, OnErr, All};
ghost use Rattle.pmem_model.specs.Memory.{AllHome, word_at};
ghost use Rattle.sls_kernel.specs.Plain.{World, first, cut};
ghost use Rattle.sls_kernel.specs.Program.{IsOfCode, program_bytes};
ghost use Rattle.sls_kernel.specs.Shows.{Shows, IsZero, image_of};
ghost use Rattle.sls_kernel.specs.Play.{IsPossible, IsAnswer, IsPlayed, IsUnlit, IsDark, IsReleased, IfNoRoom, IfUnlit, IfNotBooted, IfBroken, side_of, booted, after, played};

use crate::answers::{Asked, BootRefused, Did};
use crate::machine::{Machine, Off};
use pmem_model::Pmem;
use sls_base::{CoreNo, Entry, Image, OUTPUT_CHANNELS, Version, WORDS};
use std::alloc::Global;

/// The one core.
pub const CORE: CoreNo = 0;

/// How many cores there are.
const CORE_COUNT: u8 = 1;

/// What befalls a machine.
#[derive(Clone, Copy)]
pub enum Event {
    /// A turn of the core.
    Turn,
    /// A checkpoint is asked for.
    Ask,
    /// The cached value of this word becomes durable.
    WriteBack(usize),
    /// The device accepts the next entry of this channel.
    Accept(u8),
    /// The power goes and comes back.
    Cut,
}

/// What a machine answers to an event.
#[derive(Drop)]
pub enum Answer {
    Did(Did),
    Asked(Asked),
    /// With the version, where that committed a checkpoint.
    WroteBack(Option<Version>),
    /// The channel, and its entry if it has one to accept.
    Accepted(u8, Option<Entry>),
    /// Nothing was done: the machine formats or recovers.
    NotUp,
    /// It formats or recovers again.
    Restarted,
}

/// A machine that went through a list of events, with an answer to each.
#[derive(Drop)]
pub struct Played {
    pub machine: Machine,
    pub answers: Vec<Answer>,
}

/// There was no memory to go through all events.
#[derive(Drop)]
pub enum PlayBroken {
    /// None for the answers; the machine comes back as it was.
    NoRoom(Machine),
    /// None to light the machine after a cut; it comes back without power, with the answers to the events before that.
    Unlit(Off, Vec<Answer>),
}

/// There was no memory to boot a machine, or to put it through all events.
#[derive(Drop)]
pub enum BootPlayBroken {
    NotBooted(BootRefused),
    Broken(PlayBroken),
}

impl Event {
    /// Whether it names a word and a channel that there are, if it names any.
    pub fn is_possible(self) -> bool
        ensures { IsTrue result ↔ IsPossible self }
    {
        match self {
            Event::WriteBack(word) => word < WORDS,
            Event::Accept(channel) => (channel as usize) < OUTPUT_CHANNELS,
            Event::Turn | Event::Ask | Event::Cut => true,
        }
    }
}

impl Machine {
    /// Puts the machine through a list of events of any kind and order, and gives an answer to each. The image is the
    /// one that it was made with.
    ///
    /// The only refusal is want of memory. With none for the answers the machine comes back as it was; with none to
    /// light it again after a cut it comes back without power, with the answers to the events before that cut.
    pub fn play(self, alloc: Global, image: &Image, events: &[Event]) -> Result<Played, PlayBroken>
        requires image { IsOfCode image.now }
        requires made { image_of self ≡ program_bytes image.now }
        requires events { All IsPossible events.now }
        ensures image_is { IfOk result (λ p. image_of p.machine ≡ program_bytes image.now) }

        // Each answer is one that the plain machine allows, and the machine shows the world after the answers.
        ensures plays { IfOk result (λ p. (w : World) → Shows self w
            → IsPlayed events.now p.answers.items (side_of self) w (side_of p.machine)) }
        ensures shows { IfOk result (λ p. (w : World) → Shows self w → Shows p.machine (played w p.answers.items)) }
        ensures released { IfOk result (λ p. (w : World) → Shows self w → IsReleased (played w p.answers.items)) }

        ensures no_room { IfErr result (λ e. IfNoRoom e (λ machine. machine ≡ self)) }
        ensures home { IfErr result (λ e. IfUnlit e (λ off answers. AllHome off.nvm)) }
        ensures unlit { IfErr result (λ e. IfUnlit e (λ off answers. (w : World) → Shows self w
            → IsUnlit image.now events.now answers (side_of self) w off)) }
    {
        let Ok(mut answers) = Vec::with_capacity(alloc, events.len()) else {
            return Err(PlayBroken::NoRoom(self));
        };
        let mut machine = self;
        for event in events {
            match machine.step(alloc, image, *event) {
                Ok((next, answer)) => {
                    machine = next;
                    answers.push_reserved(answer);
                }
                Err(off) => return Err(PlayBroken::Unlit(off, answers)),
            }
        }
        Ok(Played { machine, answers })
    }

    /// Puts the machine through one event, with its answer. Where a cut finds no memory to light it again, the memory
    /// without power comes back.
    fn step(mut self, alloc: Global, image: &Image, event: Event) -> Result<(Machine, Answer), Off>
        requires image { IsOfCode image.now }
        requires made { image_of self ≡ program_bytes image.now }
        requires possible { IsPossible event }
        ensures image_is { IfOk result (λ next. image_of next.0 ≡ program_bytes image.now) }
        ensures world { IfOk result (λ next. (w : World) → Shows self w
            → IsAnswer event next.1 (side_of self) w (side_of next.0) × Shows next.0 (after w next.1)) }
        ensures cut { OnErr result (event ≡ Event.Cut) }
        ensures home { IfErr result (λ off. AllHome off.nvm) }
        ensures dark { IfErr result (λ off. (w : World) → Shows self w → IsDark image.now (side_of self) (cut w) off) }
    {
        match event {
            Event::Turn => {
                let did = self.turn(CORE);
                Ok((self, Answer::Did(did)))
            }
            Event::Ask => {
                let answer = self.ask_if_up(alloc);
                Ok((self, answer))
            }
            Event::WriteBack(word) => {
                let version = self.write_back(word);
                Ok((self, Answer::WroteBack(version)))
            }
            Event::Accept(channel) => {
                let answer = self.accept_if_up(channel);
                Ok((self, answer))
            }
            Event::Cut => match self.cut().light(alloc, image, CORE_COUNT) {
                Ok(machine) => Ok((machine, Answer::Restarted)),
                Err(refused) => Err(refused.off),
            },
        }
    }

    fn ask_if_up(&mut self, alloc: Global) -> Answer
        ensures image { image_of self.new ≡ image_of self.old }
        ensures world { (w : World) → Shows self.old w
            → IsAnswer Event.Ask result (side_of self.old) w (side_of self.new) × Shows self.new (after w result) }
    {
        if self.is_up() {
            Answer::Asked(self.ask(alloc))
        } else {
            Answer::NotUp
        }
    }

    fn accept_if_up(&mut self, channel: u8) -> Answer
        requires { channel < OUTPUT_CHANNELS }
        ensures image { image_of self.new ≡ image_of self.old }
        ensures world { (w : World) → Shows self.old w
            → IsAnswer (Event.Accept channel) result (side_of self.old) w (side_of self.new)
            × Shows self.new (after w result) }
    {
        if self.is_up() {
            Answer::Accepted(channel, self.accept(channel))
        } else {
            Answer::NotUp
        }
    }
}

/// Boots a machine on an empty memory, and puts it through a list of events of any kind and order.
///
/// The image is one that code words make, there is one core, and each word of the memory is zero. The only refusal is
/// want of memory: with none to boot the persistent memory comes back as it was, and else it is as in `Machine::play`.
pub fn play_from_boot(
    alloc: Global,
    image: &Image,
    cores: u8,
    nvm: Pmem,
    events: &[Event],
) -> Result<Played, BootPlayBroken>
    requires image { IsOfCode image.now }
    requires one_core { cores ≡ 1 }
    requires zero { (i : ℕ) → IsZero (word_at nvm i) }
    requires home { AllHome nvm }
    requires events { All IsPossible events.now }
    ensures image_is { IfOk result (λ p. image_of p.machine ≡ program_bytes image.now) }

    // Each answer is one that the plain machine allows, and the machine shows the world after the answers.
    ensures plays { IfOk result (λ p. IsPlayed events.now p.answers.items
        (booted nvm) (first (program_bytes image.now) nvm.commits nvm.cuts) (side_of p.machine)) }
    ensures shows { IfOk result (λ p. Shows p.machine
        (played (first (program_bytes image.now) nvm.commits nvm.cuts) p.answers.items)) }
    ensures released { IfOk result (λ p. IsReleased
        (played (first (program_bytes image.now) nvm.commits nvm.cuts) p.answers.items)) }

    ensures not_booted { IfErr result (λ e. IfNotBooted e (λ refused. refused.nvm ≡ nvm)) }
    ensures no_room { IfErr result (λ e. IfBroken e (λ broken. IfNoRoom broken (λ machine.
        (side_of machine ≡ booted nvm) × (image_of machine ≡ program_bytes image.now)
        × Shows machine (first (program_bytes image.now) nvm.commits nvm.cuts)))) }
    ensures home { IfErr result (λ e. IfBroken e (λ broken. IfUnlit broken (λ off answers. AllHome off.nvm))) }
    ensures unlit { IfErr result (λ e. IfBroken e (λ broken. IfUnlit broken (λ off answers.
        IsUnlit image.now events.now answers
        (booted nvm) (first (program_bytes image.now) nvm.commits nvm.cuts) off))) }
{
    let machine = match Machine::boot(alloc, image, cores, nvm) {
        Ok(machine) => machine,
        Err(refused) => return Err(BootPlayBroken::NotBooted(refused)),
    };
    match machine.play(alloc, image, events) {
        Ok(played) => Ok(played),
        Err(broken) => Err(BootPlayBroken::Broken(broken)),
    }
}
