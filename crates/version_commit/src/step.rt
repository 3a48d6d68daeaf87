//! One word of the table that is made durable.

ghost use Rattle.std.specs.Prelude.{◌≡◌, ◌≢◌, ℕ, ◌+◌, ◌<◌, ◌↔◌, IsTrue};
ghost use Rattle.pmem_model.specs.Words.{Word};
ghost use Rattle.pmem_model.specs.Memory.{word_at, SameHomes, count_up, KeepsCounts};
ghost use Rattle.pmem_model.specs.Events.{WordCalm};
ghost use Rattle.pmem_operations.specs.Operations.{IsAtMostOne};
ghost use Rattle.version_commit.specs.OnWay.{IsOnWay, next, turns_of, durable_after, reads_after, words_after};

use pmem_layout::line_at;
use pmem_model::Pmem;
use pmem_operations::laws::operations;
use sls_base::{LEADER, TABLE_WORDS};

/// The operation on a word that comes next.
#[derive(Clone, Copy)]
pub enum Step {
    Store,
    Flush,
    Fence,
}

/// Takes a word of the table one operation on.
#[tactic(auto, using(crate::proofs::Places::places))]
pub fn go_on(nvm: &mut Pmem, step: Step, at: usize, value: u64)
    requires table { at < TABLE_WORDS }
    ensures words { (i : ℕ) → word_at nvm.new i ≡ words_after step at value (word_at nvm.old) i }
    ensures others { (i : ℕ) → i ≢ at → WordCalm (word_at nvm.old i) (word_at nvm.new i) }
    ensures homes { SameHomes nvm.old nvm.new }
    ensures counts { KeepsCounts nvm.old nvm.new }
    ensures one { nvm.new.ops ≡ count_up nvm.old.ops }
    ensures operation { IsAtMostOne LEADER (word_at nvm.old) (word_at nvm.new) }
    ensures shows { (was reads : ℕ) → IsOnWay step (word_at nvm.old at) was reads
        → IsOnWay (next step) (word_at nvm.new at) (durable_after step was reads) (reads_after step value reads) }
{
    operations();
    match step {
        Step::Store => nvm.burst(at, &[value]),
        Step::Flush => nvm.flush(LEADER, line_at(at), 1),
        Step::Fence => nvm.fence(LEADER),
    }
}

impl Step {
    /// The step after this one; after the fence the word may be stored anew.
    pub fn next(self) -> Step
        ensures { result ≡ next self }
    {
        match self {
            Step::Store => Step::Flush,
            Step::Flush => Step::Fence,
            Step::Fence => Step::Store,
        }
    }

    /// How many operations there still are, with this one.
    pub fn turns(self) -> u8
        ensures { result ≡ turns_of self }
    {
        match self {
            Step::Store => 3,
            Step::Flush => 2,
            Step::Fence => 1,
        }
    }

    /// Whether it is the last of the three.
    pub fn is_last(self) -> bool
        ensures { IsTrue result ↔ (self ≡ Step.Fence) }
    {
        match self {
            Step::Fence => true,
            _ => false,
        }
    }
}
