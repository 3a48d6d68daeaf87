//! Puts a machine through a list of events of any kind and order.

ghost use Rattle.std.specs.Prelude.{◌≡◌, ℕ, ◌<◌, ◌≤◌, IfOk, IfErr, OnErr, All, length};
ghost use Rattle.sls_base.specs.declared.limits.TheConstants.{CORES, OUTPUT_CHANNELS, ENTRY_BYTES};
ghost use Rattle.pmem_model.specs.Memory.{AllHome, word_at};
ghost use Rattle.plain_model.specs.Initial.{IsAccepted};
ghost use Rattle.machine_contract.specs.Courses.{Course, first_course, after, label_of, labels_of, played};
ghost use Rattle.machine_contract.specs.Begins.{IsZero, IsBooted, IsKept, Keeps};
ghost use Rattle.machine_contract.specs.Goes.{Goes};
ghost use Rattle.machine_contract.specs.Play.{IsPossible, IsPlayed, IsReleased};
ghost use Rattle.machine_contract.specs.Broken.{IsDark, IsUnlit, IfNoRoom, IfUnlit, IfNotBooted, IfBroken};

use crate::answers::{Answer, BootRefused, Event, Off};
use crate::machine::Machine;
use arrayvec::ArrayVec;
use pmem_model::Pmem;
use sls_base::Image;
use std::alloc::Global;

/// A machine that went through a list of events, with an answer to each.
#[derive(Drop)]
pub struct Played<M> {
    pub machine: M,
    pub answers: Vec<Answer>,
}

/// There was no memory to go through all events.
#[derive(Drop)]
pub enum PlayBroken<M> {
    /// None for the answers; the machine comes back as it was.
    NoRoom(M),
    /// None to light the machine after a cut; it comes back without power, with the answers to the events before that.
    Unlit(Off, Vec<Answer>),
}

/// There was no memory to boot a machine, or to put it through all events.
#[derive(Drop)]
pub enum BootPlayBroken<M> {
    NotBooted(BootRefused),
    Broken(PlayBroken<M>),
}

/// Puts a machine through a list of events of any kind and order, and gives an answer to each. The image is the one
/// that it was made from.
///
/// The only refusal is want of memory. With none for the answers the machine comes back as it was; with none to light
/// it again after a cut it comes back without power, with the answers to the events before that cut.
pub fn play<M: Machine>(
    machine: M,
    alloc: Global,
    image: &Image,
    events: &[Event],
) -> Result<Played<M>, PlayBroken<M>>
    requires shown { (c : Course) × M.shows machine c }
    requires made { M.is_made_from machine image.now }
    requires events { All (IsPossible (length (M.seen machine).side.cores)) events.now }

    // Each answer is one that the plain machine allows, and at each moment the machine shows the course so far.
    ensures plays { IfOk result (λ p. (c : Course) → M.shows machine c
        → IsPlayed M.format M.seen M.shows events.now p.answers.items machine c p.machine) }
    ensures shows { IfOk result (λ p. (c : Course) → M.shows machine c
        → M.shows p.machine (played c (labels_of events.now p.answers.items))) }
    ensures released { IfOk result (λ p. (c : Course) → M.shows machine c
        → IsReleased (played c (labels_of events.now p.answers.items)).world) }
    ensures kept { IfOk result (λ p. IsKept (M.seen machine) (M.seen p.machine)) }
    ensures made { IfOk result (λ p. M.is_made_from p.machine image.now) }

    ensures no_room { IfErr result (λ e. IfNoRoom e (λ m. m ≡ machine)) }
    ensures unlit { IfErr result (λ e. IfUnlit e (λ off answers. (c : Course) → M.shows machine c
        → IsUnlit M.format M.seen M.shows M.shows_off events.now answers machine c off)) }
{
    let Ok(mut answers) = Vec::with_capacity(alloc, events.len()) else {
        return Err(PlayBroken::NoRoom(machine));
    };
    let mut now = machine;
    for event in events {
        match step(now, alloc, image, event) {
            Ok((next, answer)) => {
                now = next;
                answers.push_reserved(answer);
            }
            Err(off) => return Err(PlayBroken::Unlit(off, answers)),
        }
    }
    Ok(Played {
        machine: now,
        answers,
    })
}

/// Puts the machine through one event, with its answer. Where a cut finds no memory to light it again, the memory
/// without power comes back.
fn step<M: Machine>(
    mut machine: M,
    alloc: Global,
    image: &Image,
    event: &Event,
) -> Result<(M, Answer), Off>
    requires shown { (c : Course) × M.shows machine c }
    requires made { M.is_made_from machine image.now }
    requires possible { IsPossible (length (M.seen machine).side.cores) event.now }
    ensures kept { IfOk result (λ next. IsKept (M.seen machine) (M.seen next.0)) }
    ensures made { IfOk result (λ next. M.is_made_from next.0 image.now) }
    ensures goes { IfOk result (λ next. (c : Course) → M.shows machine c
        → Goes M.format event.now next.1 (M.seen machine) c (M.seen next.0)) }
    ensures shows { IfOk result (λ next. (c : Course) → M.shows machine c
        → M.shows next.0 (after c (label_of event.now next.1))) }
    ensures cut { OnErr result (event.now ≡ Event.Cut) }
    ensures dark { IfErr result (λ off. (c : Course) → M.shows machine c
        → IsDark M.format M.shows_off (M.seen machine) c off) }
{
    match event {
        Event::Turn(core) => {
            let did = machine.turn(*core);
            Ok((machine, Answer::Did(did)))
        }
        Event::Ask => {
            let answer = ask_if_up(&mut machine, alloc);
            Ok((machine, answer))
        }
        Event::TakeWish => {
            let wish = machine.take_wish();
            Ok((machine, Answer::Wish(wish)))
        }
        Event::WriteBack(word) => {
            let version = machine.write_back(*word);
            Ok((machine, Answer::WroteBack(version)))
        }
        Event::Input(bytes) => {
            let answer = input_if_up(&mut machine, bytes);
            Ok((machine, answer))
        }
        Event::Accept(channel) => {
            let answer = accept_if_up(&mut machine, *channel);
            Ok((machine, answer))
        }
        Event::Cut => restart(machine, alloc, image),
    }
}

/// Asks for a checkpoint, if the machine is up.
fn ask_if_up<M: Machine>(machine: &mut M, alloc: Global) -> Answer
    requires shown { (c : Course) × M.shows machine.old c }
    ensures keeps { Keeps M.seen M.is_made_from machine.old machine.new }
    ensures goes { (c : Course) → M.shows machine.old c
        → Goes M.format Event.Ask result (M.seen machine.old) c (M.seen machine.new) }
    ensures shows { (c : Course) → M.shows machine.old c
        → M.shows machine.new (after c (label_of Event.Ask result)) }
{
    if machine.is_up() {
        Answer::Asked(machine.ask(alloc))
    } else {
        Answer::NotUp
    }
}

/// Gives an input, if the machine is up.
fn input_if_up<M: Machine>(machine: &mut M, bytes: &ArrayVec<u8, 56>) -> Answer
    requires shown { (c : Course) × M.shows machine.old c }
    requires some { 1 ≤ length bytes.now.items }
    requires most { length bytes.now.items ≤ ENTRY_BYTES }
    ensures keeps { Keeps M.seen M.is_made_from machine.old machine.new }
    ensures goes { (c : Course) → M.shows machine.old c
        → Goes M.format (Event.Input bytes.now) result (M.seen machine.old) c (M.seen machine.new) }
    ensures shows { (c : Course) → M.shows machine.old c
        → M.shows machine.new (after c (label_of (Event.Input bytes.now) result)) }
{
    if machine.is_up() {
        Answer::Given(machine.input(bytes.as_slice()))
    } else {
        Answer::NotUp
    }
}

/// Accepts the next entry of a channel, if the machine is up.
fn accept_if_up<M: Machine>(machine: &mut M, channel: u8) -> Answer
    requires shown { (c : Course) × M.shows machine.old c }
    requires channel { channel < OUTPUT_CHANNELS }
    ensures keeps { Keeps M.seen M.is_made_from machine.old machine.new }
    ensures goes { (c : Course) → M.shows machine.old c
        → Goes M.format (Event.Accept channel) result (M.seen machine.old) c (M.seen machine.new) }
    ensures shows { (c : Course) → M.shows machine.old c
        → M.shows machine.new (after c (label_of (Event.Accept channel) result)) }
{
    if machine.is_up() {
        Answer::Accepted(machine.accept(channel))
    } else {
        Answer::NotUp
    }
}

/// Cuts the power and gives it back, with as many cores as before.
fn restart<M: Machine>(machine: M, alloc: Global, image: &Image) -> Result<(M, Answer), Off>
    requires shown { (c : Course) × M.shows machine c }
    requires made { M.is_made_from machine image.now }
    ensures kept { IfOk result (λ next. IsKept (M.seen machine) (M.seen next.0)) }
    ensures made { IfOk result (λ next. M.is_made_from next.0 image.now) }
    ensures goes { IfOk result (λ next. (c : Course) → M.shows machine c
        → Goes M.format Event.Cut next.1 (M.seen machine) c (M.seen next.0)) }
    ensures shows { IfOk result (λ next. (c : Course) → M.shows machine c
        → M.shows next.0 (after c (label_of Event.Cut next.1))) }
    ensures dark { IfErr result (λ off. (c : Course) → M.shows machine c
        → IsDark M.format M.shows_off (M.seen machine) c off) }
{
    let cores = machine.cores();
    match M::light(machine.cut(), alloc, image, cores) {
        Ok(lit) => {
            let version = lit.version();
            Ok((lit, Answer::Restarted(version)))
        }
        Err(refused) => Err(refused.off),
    }
}

/// Boots a machine on an empty memory, and puts it through a list of events of any kind and order.
///
/// The only refusal is want of memory: with none to boot the persistent memory comes back as it was, and else it is as
/// in `play`.
pub fn play_from_boot<M: Machine>(
    alloc: Global,
    image: &Image,
    cores: u8,
    nvm: Pmem,
    events: &[Event],
) -> Result<Played<M>, BootPlayBroken<M>>
    requires accepted { IsAccepted image.now }
    requires cores { (1 ≤ cores) × (cores ≤ CORES) }
    requires zero { (i : ℕ) → IsZero (word_at nvm i) }
    requires home { AllHome nvm }
    requires events { All (IsPossible cores) events.now }

    // There was a machine that formats this memory, and each answer is one that the plain machine allows from there on.
    ensures plays { IfOk result (λ p. (booted : M) × IsBooted cores nvm (M.seen booted)
        × IsPlayed M.format M.seen M.shows events.now p.answers.items
        booted (first_course image.now cores nvm) p.machine) }
    ensures shows { IfOk result (λ p.
        M.shows p.machine (played (first_course image.now cores nvm) (labels_of events.now p.answers.items))) }
    ensures released { IfOk result (λ p.
        IsReleased (played (first_course image.now cores nvm) (labels_of events.now p.answers.items)).world) }

    ensures not_booted { IfErr result (λ e. IfNotBooted e (λ refused. refused.nvm ≡ nvm)) }
    ensures no_room { IfErr result (λ e. IfBroken e (λ broken. IfNoRoom broken (λ booted.
        IsBooted cores nvm (M.seen booted) × M.shows booted (first_course image.now cores nvm)))) }
    ensures unlit { IfErr result (λ e. IfBroken e (λ broken. IfUnlit broken (λ off answers.
        (booted : M) × IsBooted cores nvm (M.seen booted)
        × IsUnlit M.format M.seen M.shows M.shows_off events.now answers
        booted (first_course image.now cores nvm) off))) }
{
    let machine: M = match M::boot(alloc, image, cores, nvm) {
        Ok(machine) => machine,
        Err(refused) => return Err(BootPlayBroken::NotBooted(refused)),
    };
    match play(machine, alloc, image, events) {
        Ok(played) => Ok(played),
        Err(broken) => Err(BootPlayBroken::Broken(broken)),
    }
}
