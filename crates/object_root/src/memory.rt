//! The words of the table, as the leader stores and flushes them.

ghost use Rattle.std.specs.Prelude.{◌≡◌, ◌+◌, ◌*◌, ◌%◌, ◌<◌, ◌≤◌, ℕ, length, slice_index};
ghost use Rattle.pmem_model.specs.Words.{flushes};
ghost use Rattle.pmem_model.specs.Events.{IsBurst, IsCalm};
ghost use Rattle.pmem_operations.specs.Operations.{IsAtMostOne};
ghost use Rattle.pmem_model.specs.Memory.{SameHomes, word_at, count_up, KeepsCounts};

use pmem_model::Pmem;
use pmem_operations::laws::operations;
use sls_base::{FRAME_WORDS, LEADER, LINE_WORDS, TABLE_WORDS};

/// The cached value of a word of the table.
#[tactic(auto, using(pmem_model::specs::PlaceLaws::table_home))]
pub fn read(nvm: &Pmem, at: usize) -> u64
    requires in_table { at < TABLE_WORDS }
    ensures { result ≡ (word_at nvm.now at).cached }
{
    nvm.read(at)
}

/// Stores words of the table.
#[tactic(auto, using(pmem_model::specs::PlaceLaws::table_home))]
pub fn store(nvm: &mut Pmem, at: usize, words: &[u64])
    requires some { 0 < length words.now }
    requires most { length words.now ≤ FRAME_WORDS }
    requires in_table { at + length words.now ≤ TABLE_WORDS }
    ensures words { IsBurst (word_at nvm.old) (word_at nvm.new) at (length words.now) (slice_index words.now) }
    ensures homes { SameHomes nvm.old nvm.new }
    ensures counts { KeepsCounts nvm.old nvm.new }
    ensures operations { nvm.new.ops ≡ count_up nvm.old.ops }
    ensures operation { IsAtMostOne LEADER (word_at nvm.old) (word_at nvm.new) }
{
    operations();
    nvm.burst(at, words);
}

/// Flushes lines of the table, of which the first begins at a word, by the leader.
#[tactic(auto, using(pmem_model::specs::PlaceLaws::table_home))]
pub fn flush(nvm: &mut Pmem, at: usize, lines: usize)
    requires line { at % LINE_WORDS ≡ 0 }
    requires some { 0 < lines }
    requires in_table { at + LINE_WORDS * lines ≤ TABLE_WORDS }
    ensures words { (i : ℕ) → word_at nvm.new i ≡ flushes LEADER at (8 * lines) (word_at nvm.old) i }
    ensures calm { IsCalm (word_at nvm.old) (word_at nvm.new) }
    ensures homes { SameHomes nvm.old nvm.new }
    ensures counts { KeepsCounts nvm.old nvm.new }
    ensures operations { nvm.new.ops ≡ count_up nvm.old.ops }
    ensures operation { IsAtMostOne LEADER (word_at nvm.old) (word_at nvm.new) }
{
    operations();
    nvm.flush(LEADER, at, lines);
}
