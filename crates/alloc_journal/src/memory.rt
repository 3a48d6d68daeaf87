//! One operation on the table of the memory each, by the core that leads a checkpoint or a recovery.

ghost use Rattle.std.specs.Prelude.{◌≡◌, ◌+◌, ◌*◌, ◌%◌, ◌<◌, ◌≤◌, ℕ, IsTrue, List, [], ◌∷◌, length, slice_index};
ghost use Rattle.pmem_model.specs.Words.{bursts, flushes, fences};
ghost use Rattle.pmem_model.specs.Memory.{word_at, SameHomes, count_up, KeepsCounts};
ghost use Rattle.pmem_operations.specs.Operations.{IsAtMostOne};

use pmem_model::Pmem;
use pmem_operations::laws::operations;
use sls_base::{FRAME_WORDS, LEADER, LINE_WORDS, TABLE_WORDS};

/// Stores words behind one another.
pub fn store_words(nvm: &mut Pmem, at: usize, words: &[u64])
    requires some { 0 < length words.now }
    requires most { length words.now ≤ FRAME_WORDS }
    requires in_table { at + length words.now ≤ TABLE_WORDS }
    ensures words { (i : ℕ) → word_at nvm.new i
        ≡ bursts at (length words.now) (slice_index words.now) (word_at nvm.old) i }
    ensures homes { SameHomes nvm.old nvm.new }
    ensures counts { KeepsCounts nvm.old nvm.new }
    ensures one { nvm.new.ops ≡ count_up nvm.old.ops }
    ensures operation { IsAtMostOne LEADER (word_at nvm.old) (word_at nvm.new) }
{
    operations();
    nvm.burst(at, words);
}

/// Stores a word.
pub fn store(nvm: &mut Pmem, at: usize, word: u64)
    requires in_table { at < TABLE_WORDS }
    ensures words { (i : ℕ) → word_at nvm.new i ≡ bursts at 1 (slice_index (word ∷ [])) (word_at nvm.old) i }
    ensures homes { SameHomes nvm.old nvm.new }
    ensures counts { KeepsCounts nvm.old nvm.new }
    ensures one { nvm.new.ops ≡ count_up nvm.old.ops }
    ensures operation { IsAtMostOne LEADER (word_at nvm.old) (word_at nvm.new) }
{
    store_words(nvm, at, &[word]);
}

/// Flushes lines.
pub fn flush(nvm: &mut Pmem, at: usize, lines: usize)
    requires line { at % LINE_WORDS ≡ 0 }
    requires some { 0 < lines }
    requires in_table { at + LINE_WORDS * lines ≤ TABLE_WORDS }
    ensures words { (i : ℕ) → word_at nvm.new i ≡ flushes LEADER at (LINE_WORDS * lines) (word_at nvm.old) i }
    ensures homes { SameHomes nvm.old nvm.new }
    ensures counts { KeepsCounts nvm.old nvm.new }
    ensures one { nvm.new.ops ≡ count_up nvm.old.ops }
    ensures operation { IsAtMostOne LEADER (word_at nvm.old) (word_at nvm.new) }
{
    operations();
    nvm.flush(LEADER, at, lines);
}

/// Makes durable what this core has flushed.
pub fn fence(nvm: &mut Pmem)
    ensures words { (i : ℕ) → word_at nvm.new i ≡ fences LEADER (word_at nvm.old) i }
    ensures homes { SameHomes nvm.old nvm.new }
    ensures counts { KeepsCounts nvm.old nvm.new }
    ensures one { nvm.new.ops ≡ count_up nvm.old.ops }
    ensures operation { IsAtMostOne LEADER (word_at nvm.old) (word_at nvm.new) }
{
    operations();
    nvm.fence(LEADER);
}

/// Reads a word.
pub fn read(nvm: &Pmem, at: usize) -> u64
    requires in_table { at < TABLE_WORDS }
    ensures { result ≡ (word_at nvm.now at).cached }
{
    nvm.read(at)
}
