//! The memory by frames and lines, with every frame at home.

ghost use Rattle.std.specs.Prelude.{◌≡◌, ◌≢◌, ℕ, ◌+◌, ◌-◌, ◌*◌, ◌%◌, ◌<◌, ◌≤◌, ◌==◌, length, slice_index, if◌then◌else◌};
ghost use Rattle.pmem_model.specs.Words.{is_within, bursts, flushes, fences, writes_back, cuts};
ghost use Rattle.pmem_model.specs.Memory.{word_at, AllHome, count_up};
ghost use Rattle.sls_kernel.specs.Words.{frame_place};
ghost use Rattle.sls_kernel.specs.Counts.{SameCounts};

use pmem_model::Pmem;
use sls_base::{CoreNo, FRAME_WORDS, FRAMES, LINE_WORDS, TABLE_WORDS, WORDS};

/// The bytes of a word.
pub const WORD_BYTES: usize = 8;
/// The core that makes every checkpoint.
pub const LEADER: CoreNo = 0;

/// Where a frame begins.
pub fn begin(frame: usize) -> usize
    requires { frame < FRAMES }
    ensures { result ≡ frame_place frame }
{
    TABLE_WORDS + FRAME_WORDS * frame
}

/// The cached value of word `i` of a frame.
#[tactic(auto, using(crate::proofs::Places::places))]
pub fn read(nvm: &Pmem, frame: usize, i: usize) -> u64
    requires frame { frame < FRAMES }
    requires inside { i < FRAME_WORDS }
    requires home { AllHome nvm.now }
    ensures { result ≡ (word_at nvm.now (frame_place frame + i)).cached }
{
    nvm.read(begin(frame) + i)
}

/// The durable value of word `i` of a frame.
#[tactic(auto, using(crate::proofs::Places::places))]
pub fn durable(nvm: &Pmem, frame: usize, i: usize) -> u64
    requires frame { frame < FRAMES }
    requires inside { i < FRAME_WORDS }
    requires home { AllHome nvm.now }
    ensures { result ≡ (word_at nvm.now (frame_place frame + i)).durable }
{
    nvm.durable(begin(frame) + i)
}

/// The durable value of a word of the table.
#[tactic(auto, using(crate::proofs::Places::places))]
pub fn table_durable(nvm: &Pmem, at: usize) -> u64
    requires table { at < TABLE_WORDS }
    requires home { AllHome nvm.now }
    ensures { result ≡ (word_at nvm.now at).durable }
{
    nvm.durable(at)
}

/// Makes the cached value of a word durable.
#[tactic(auto, using(crate::proofs::Places::places))]
pub fn write_back(nvm: &mut Pmem, at: usize)
    requires range { at < WORDS }
    requires home { AllHome nvm.old }
    ensures words { (p : ℕ) → word_at nvm.new p ≡ writes_back (is_within at 1) (word_at nvm.old) p }
    ensures home { AllHome nvm.new }
    ensures commits { nvm.new.commits
        ≡ (if (word_at nvm.new 1).durable == (word_at nvm.old 1).durable
        then nvm.old.commits else count_up nvm.old.commits) }
    ensures cuts { nvm.new.cuts ≡ nvm.old.cuts }
{
    nvm.write_back(at);
}

/// Cuts the power.
#[tactic(auto, using(crate::proofs::Places::places))]
pub fn cut(nvm: &mut Pmem)
    requires home { AllHome nvm.old }
    ensures words { (p : ℕ) → word_at nvm.new p ≡ cuts (word_at nvm.old) p }
    ensures home { AllHome nvm.new }
    ensures commits { nvm.new.commits ≡ nvm.old.commits }
    ensures cuts { nvm.new.cuts ≡ count_up nvm.old.cuts }
{
    nvm.cut();
}

/// Stores words of a frame from word `i` on.
#[tactic(auto, using(crate::proofs::Places::places))]
pub fn store(nvm: &mut Pmem, frame: usize, i: usize, words: &[u64])
    requires frame { frame < FRAMES }
    requires some { 0 < length words.now }
    requires inside { i + length words.now ≤ FRAME_WORDS }
    requires home { AllHome nvm.old }
    ensures words { (p : ℕ) → word_at nvm.new p
        ≡ bursts (frame_place frame + i) (length words.now) (slice_index words.now) (word_at nvm.old) p }
    ensures home { AllHome nvm.new }
    ensures counts { SameCounts nvm.old nvm.new }
{
    nvm.burst(begin(frame) + i, words);
}

/// Stores one word of the table.
#[tactic(auto, using(crate::proofs::Places::places))]
pub fn store_word(nvm: &mut Pmem, at: usize, word: u64)
    requires table { at < TABLE_WORDS }
    requires home { AllHome nvm.old }
    ensures words { (p : ℕ) → word_at nvm.new p ≡ bursts at 1 (λ k. word) (word_at nvm.old) p }
    ensures home { AllHome nvm.new }
    ensures counts { SameCounts nvm.old nvm.new }
{
    nvm.burst(at, &[word]);
}

/// Stores the cached words of a frame into another.
#[tactic(auto, using(crate::proofs::Places::places))]
pub fn copy(nvm: &mut Pmem, from: usize, to: usize)
    requires from_frame { from < FRAMES }
    requires to_frame { to < FRAMES }
    requires other { from ≢ to }
    requires home { AllHome nvm.old }
    ensures words { (p : ℕ) → word_at nvm.new p
        ≡ bursts (frame_place to) 512 (λ k. (word_at nvm.old (frame_place from + k)).cached) (word_at nvm.old) p }
    ensures home { AllHome nvm.new }
    ensures counts { SameCounts nvm.old nvm.new }
{
    nvm.copy(from, to);
}

/// Marks the words of a frame as in flight for the leader.
#[tactic(auto, using(crate::proofs::Places::places))]
pub fn flush(nvm: &mut Pmem, frame: usize)
    requires frame { frame < FRAMES }
    requires home { AllHome nvm.old }
    ensures words { (p : ℕ) → word_at nvm.new p ≡ flushes LEADER (frame_place frame) 512 (word_at nvm.old) p }
    ensures home { AllHome nvm.new }
    ensures counts { SameCounts nvm.old nvm.new }
{
    nvm.flush(LEADER, begin(frame), FRAME_WORDS / LINE_WORDS);
}

/// Marks the words of the table's first line as in flight for the leader.
#[tactic(auto, using(crate::proofs::Places::places))]
pub fn flush_first_line(nvm: &mut Pmem)
    requires home { AllHome nvm.old }
    ensures words { (p : ℕ) → word_at nvm.new p ≡ flushes LEADER 0 8 (word_at nvm.old) p }
    ensures home { AllHome nvm.new }
    ensures counts { SameCounts nvm.old nvm.new }
{
    nvm.flush(LEADER, 0, 1);
}

/// Makes the words in flight for the leader durable.
#[tactic(auto, using(crate::proofs::Places::places))]
pub fn fence(nvm: &mut Pmem)
    requires home { AllHome nvm.old }
    ensures words { (p : ℕ) → word_at nvm.new p ≡ fences LEADER (word_at nvm.old) p }
    ensures home { AllHome nvm.new }
    ensures commits { nvm.new.commits
        ≡ (if (word_at nvm.new 1).durable == (word_at nvm.old 1).durable
        then nvm.old.commits else count_up nvm.old.commits) }
    ensures cuts { nvm.new.cuts ≡ nvm.old.cuts }
{
    nvm.fence(LEADER);
}
