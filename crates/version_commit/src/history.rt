//! A commit among whatever else happens to the memory.

ghost use Rattle.std.specs.Prelude.{◌≡◌, ◌≢◌, ◌<◌, ℕ, All};
ghost use Rattle.pmem_model.specs.Memory.{word_at, AllHome};
ghost use Rattle.version_commit.specs.Shows.{IsBetween};
ghost use Rattle.version_commit.specs.Events.{IsPossible, Happens, Plays};

use crate::committer::Committer;
use pmem_layout::line_at;
use pmem_model::Pmem;
use sls_base::{CoreNo, Version};

/// What befalls the memory while a version is being committed.
#[derive(Clone, Copy)]
pub enum Event {
    /// The next step of the commit.
    Step,
    /// The cached value of this word becomes durable.
    WriteBack(usize),
    /// This core flushes the line of this word.
    Flush(CoreNo, usize),
    /// This core fences.
    Fence(CoreNo),
    /// Something is stored in this word, which is another one than the version word.
    Store(usize, u64),
    /// The power goes and comes back.
    Cut,
}

/// Lets one event happen while this version is being committed.
#[tactic(auto, using(crate::proofs::Places::places))]
fn happen(committer: &mut Committer, nvm: &mut Pmem, version: Version, event: Event)
    requires possible { IsPossible event }
    requires home { AllHome nvm.old }
    ensures home { AllHome nvm.new }
    ensures happens { Happens event version committer.old.version (word_at nvm.old)
        committer.new.version (word_at nvm.new) }
    ensures between { (v : ℕ) → IsBetween committer.old (word_at nvm.old) v version
        → IsBetween committer.new (word_at nvm.new) v version }
{
    match event {
        Event::Step => {
            committer.commit_step(nvm, version);
        }
        Event::WriteBack(at) => nvm.write_back(at),
        Event::Flush(core, at) => nvm.flush(core, line_at(at), 1),
        Event::Fence(core) => nvm.fence(core),
        Event::Store(at, value) => nvm.burst(at, &[value]),
        Event::Cut => {
            nvm.cut();
            *committer = Committer::new();
        }
    }
}

/// Lets these events happen, in order, while this version is being committed. The committed version is the one before
/// or this one, and from the moment that it is this one it stays so.
pub fn play(committer: &mut Committer, nvm: &mut Pmem, version: Version, events: &[Event])
    requires possible { All IsPossible events.now }
    requires home { AllHome nvm.old }
    ensures home { AllHome nvm.new }
    ensures plays { Plays events.now version committer.old.version (word_at nvm.old)
        committer.new.version (word_at nvm.new) }
    ensures between { (v : ℕ) → IsBetween committer.old (word_at nvm.old) v version
        → IsBetween committer.new (word_at nvm.new) v version }
{
    for event in events {
        happen(committer, nvm, version, *event);
    }
}
