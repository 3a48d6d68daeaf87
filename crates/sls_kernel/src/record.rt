//! The thread's record: 21 words that say a thread and the counts of entries put.

ghost use Rattle.std.specs.Prelude.{◌≡◌, ℕ, ◌+◌, ◌*◌, ◌/◌, ◌%◌, ◌<◌, ◌^◌, length, slice_index};
ghost use Rattle.pmem_model.specs.Memory.{word_at, AllHome};
ghost use Rattle.sls_kernel.specs.Words.{frame_place, record_word, half_of, status_word, IsStatus, IsThread};

use crate::memory;
use crate::thread::{RunThread, Status};
use pmem_model::Pmem;
use rv_core::Regs;
use sls_base::{FRAMES, OUTPUT_CHANNELS, REGISTERS};

/// The words of a record.
pub const RECORD_WORDS: usize = 21;
/// The word that says the thread's state; those before it have two halves each.
const STATUS_WORD: usize = 16;
/// The first of the words that say the counts of entries put.
pub const PUT_WORD: usize = 17;
/// The bits of a word's low half.
const LOW_HALF: u64 = 0xffff_ffff;

/// The number of the state Ready.
const READY: u8 = 0;
/// The number of the state Running.
const RUNNING: u8 = 1;
/// The number of the state Stopped.
const STOPPED: u8 = 6;

/// Half `j` of a thread: its pc, or register `j`.
fn half(thread: &RunThread, j: usize) -> u32
    requires { j < REGISTERS }
    ensures { result ≡ half_of thread.now j }
{
    if j == 0 {
        thread.regs.pc
    } else {
        thread.regs.x[j]
    }
}

/// The word that says a thread's state.
fn word_of_status(status: Status) -> u64
    ensures { result ≡ status_word status }
{
    let (number, cause, slice) = match status {
        Status::Ready => (READY, 0, 0),
        Status::Running(slice) => (RUNNING, 0, slice),
        Status::Stopped(cause) => (STOPPED, cause, 0),
    };
    u64::from_le_bytes([number, cause, slice, 0, 0, 0, 0, 0])
}

/// Word `i` of a record.
fn word(thread: &RunThread, put: &[u64; 4], i: usize) -> u64
    requires { i < RECORD_WORDS }
    ensures { result ≡ record_word thread.now (slice_index put.now) i }
{
    if i < STATUS_WORD {
        u64::from(half(thread, 2 * i)) + (u64::from(half(thread, 2 * i + 1)) << u32::BITS)
    } else if i == STATUS_WORD {
        word_of_status(thread.status)
    } else {
        put[i - PUT_WORD]
    }
}

/// Writes a record.
pub fn fill(words: &mut [u64], thread: &RunThread, put: &[u64; 4])
    requires { length words.old ≡ RECORD_WORDS }
    ensures { (i : ℕ) → i < RECORD_WORDS → slice_index words.new i ≡ record_word thread.now (slice_index put.now) i }
{
    for (i, place) in words.iter_mut().enumerate() {
        *place = word(thread, put, i);
    }
}

/// The thread's state that a word says. A word that says none gives some state.
fn status_of(word: u64) -> Status
    ensures { (status : Status) → IsStatus status → word ≡ status_word status → result ≡ status }
{
    let [number, cause, slice, _, _, _, _, _] = word.to_le_bytes();
    match number {
        READY => Status::Ready,
        RUNNING => Status::Running(slice),
        _ => Status::Stopped(cause),
    }
}

/// Half `j` of the record in a frame.
fn half_at(nvm: &Pmem, frame: usize, j: usize) -> u32
    requires frame { frame < FRAMES }
    requires inside { j < REGISTERS }
    requires home { AllHome nvm.now }
    ensures { result ≡ (word_at nvm.now (frame_place frame + j / 2)).cached / 2 ^ (32 * (j % 2)) % 2 ^ 32 }
{
    let word = memory::read(nvm, frame, j / 2);
    if j % 2 == 0 {
        (word & LOW_HALF) as u32
    } else {
        (word >> u32::BITS) as u32
    }
}

/// The halves of the record in a frame.
fn halves_at(nvm: &Pmem, frame: usize) -> [u32; REGISTERS]
    requires frame { frame < FRAMES }
    requires home { AllHome nvm.now }
    ensures { (j : ℕ) → j < REGISTERS
        → slice_index result j ≡ (word_at nvm.now (frame_place frame + j / 2)).cached / 2 ^ (32 * (j % 2)) % 2 ^ 32 }
{
    let mut halves = [0; REGISTERS];
    for (j, half) in halves.iter_mut().enumerate() {
        *half = half_at(nvm, frame, j);
    }
    halves
}

/// The counts of entries put that the record in a frame says.
fn put_at(nvm: &Pmem, frame: usize) -> [u64; OUTPUT_CHANNELS]
    requires frame { frame < FRAMES }
    requires home { AllHome nvm.now }
    ensures { (c : ℕ) → c < OUTPUT_CHANNELS
        → slice_index result c ≡ (word_at nvm.now (frame_place frame + (PUT_WORD + c))).cached }
{
    let mut put = [0; OUTPUT_CHANNELS];
    for (channel, count) in put.iter_mut().enumerate() {
        *count = memory::read(nvm, frame, PUT_WORD + channel);
    }
    put
}

/// Reads the thread and the counts of a record that stands at a frame's begin. Words that are no record give some
/// thread.
pub fn read_back(nvm: &Pmem, frame: usize) -> (RunThread, [u64; 4])
    requires frame { frame < FRAMES }
    requires home { AllHome nvm.now }
    ensures { (t : RunThread) (put : ℕ → ℕ) → IsThread t → ((c : ℕ) → c < 4 → put c < 2 ^ 64)
        → ((i : ℕ) → i < RECORD_WORDS → (word_at nvm.now (frame_place frame + i)).cached ≡ record_word t put i)
        → (result.0 ≡ t) × ((c : ℕ) → c < 4 → slice_index result.1 c ≡ put c) }
{
    let halves = halves_at(nvm, frame);
    let status = status_of(memory::read(nvm, frame, STATUS_WORD));
    let pc = halves[0];
    let mut x = halves;
    x[0] = 0;
    let thread = RunThread {
        status,
        regs: Regs { pc, x },
    };
    (thread, put_at(nvm, frame))
}
