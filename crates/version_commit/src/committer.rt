//! The format word and the version word, step by step.

ghost use Rattle.std.specs.Prelude.{◌≡◌, ℕ, ◌↔◌, IsTrue};
ghost use Rattle.pmem_model.specs.Words.{Word};
ghost use Rattle.pmem_model.specs.Memory.{word_at, SameHomes, count_up, KeepsCounts};
ghost use Rattle.pmem_model.specs.Events.{WordIs, Clean};
ghost use Rattle.pmem_operations.specs.Operations.{IsAtMostOne};
ghost use Rattle.pmem_layout.specs.Owners as owners;
ghost use Rattle.pmem_layout.specs.Rooms.{StoresOnlyIn};
ghost use Rattle.version_commit.specs.OnWay.{next, turns_of, durable_after, reads_after, words_after};
ghost use Rattle.version_commit.specs.Shows.{FormatShows, VersionShows};

use crate::step::{self, Step};
use pmem_layout::{FORMAT_AT, FORMAT_WORD};
use pmem_model::Pmem;
use sls_base::{LEADER, VERSION_AT, Version};

/// How far the format word and the version word came on their way to be durable.
#[derive(Drop)]
pub struct Committer {
    format: Step,
    version: Step,
}

/// The committed version.
pub fn version(nvm: &Pmem) -> Version
    ensures { result ≡ (word_at nvm.now VERSION_AT).durable }
{
    nvm.durable(VERSION_AT)
}

impl Committer {
    /// Neither word is on its way.
    pub fn new() -> Committer
        ensures steps { result ≡ record { format = Step.Store; version = Step.Store } }
        ensures format { (f : ℕ → Word) (word : ℕ) → WordIs LEADER Clean (f FORMAT_AT) word
            → FormatShows result f word word }
        ensures version { (f : ℕ → Word) (v : ℕ) → WordIs LEADER Clean (f VERSION_AT) v → VersionShows result f v v }
    {
        Committer {
            format: Step::Store,
            version: Step::Store,
        }
    }

    /// Stores, flushes and fences the format word, one operation a call. True exactly at the last, with which it is
    /// durable.
    pub fn format_step(&mut self, nvm: &mut Pmem) -> bool
        ensures last { IsTrue result ↔ (self.old.format ≡ Step.Fence) }
        ensures steps { self.new ≡ record self.old { format = next self.old.format } }
        ensures one { nvm.new.ops ≡ count_up nvm.old.ops }
        ensures operation { IsAtMostOne LEADER (word_at nvm.old) (word_at nvm.new) }
        ensures homes { SameHomes nvm.old nvm.new }
        ensures counts { KeepsCounts nvm.old nvm.new }
        ensures words { (i : ℕ) → word_at nvm.new i
            ≡ words_after self.old.format FORMAT_AT FORMAT_WORD (word_at nvm.old) i }
        ensures rest { StoresOnlyIn owners.Format (word_at nvm.old) (word_at nvm.new) }
        ensures shows { (was reads : ℕ) → FormatShows self.old (word_at nvm.old) was reads
            → FormatShows self.new (word_at nvm.new) (durable_after self.old.format was reads)
            (reads_after self.old.format FORMAT_WORD reads) }
    {
        let step = self.format;
        step::go_on(nvm, step, FORMAT_AT, FORMAT_WORD);
        self.format = step.next();
        step.is_last()
    }

    /// How many operations the commit still takes: three, two or one.
    pub fn commit_turns(&self) -> u8
        ensures { result ≡ turns_of self.now.version }
    {
        self.version.turns()
    }

    /// Stores, flushes and fences the version word, one operation a call. True exactly at the last, with which the
    /// version is committed at the latest.
    pub fn commit_step(&mut self, nvm: &mut Pmem, version: Version) -> bool
        ensures last { IsTrue result ↔ (self.old.version ≡ Step.Fence) }
        ensures steps { self.new ≡ record self.old { version = next self.old.version } }
        ensures one { nvm.new.ops ≡ count_up nvm.old.ops }
        ensures operation { IsAtMostOne LEADER (word_at nvm.old) (word_at nvm.new) }
        ensures homes { SameHomes nvm.old nvm.new }
        ensures counts { KeepsCounts nvm.old nvm.new }
        ensures words { (i : ℕ) → word_at nvm.new i
            ≡ words_after self.old.version VERSION_AT version (word_at nvm.old) i }
        ensures rest { StoresOnlyIn owners.Version (word_at nvm.old) (word_at nvm.new) }
        ensures shows { (v w : ℕ) → VersionShows self.old (word_at nvm.old) v w
            → VersionShows self.new (word_at nvm.new) (durable_after self.old.version v w)
            (reads_after self.old.version version w) }
    {
        let step = self.version;
        step::go_on(nvm, step, VERSION_AT, version);
        self.version = step.next();
        step.is_last()
    }
}
