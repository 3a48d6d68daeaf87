//! The record of a thread.

ghost use Rattle.std.specs.Prelude.{◌≡◌, ◌+◌, ◌<◌, ◌≤◌, ◌↔◌, IsTrue, ℕ, slice_index};
ghost use Rattle.sls_base.specs.declared.thread.ThreadState.{ThreadState};
ghost use Rattle.sls_base.specs.declared.thread.Thread.{Thread};
ghost use Rattle.kobj_codec.specs.declared.obj.Obj.TheVariants as objs;
ghost use Rattle.kobj_codec.specs.Objects.{IsThread, IsState};
ghost use Rattle.kobj_codec.specs.Records as records;
ghost use Rattle.kobj_codec.specs.Records.{IsRecord};

use crate::kinds::THREAD_KIND;
use crate::packing::{half_at, halves};
use pmem_layout::SLOT_WORDS;
use sls_base::{CORES, INSTRUCTION_BYTES, LOST_OBJECT, OBJECTS, REGISTERS, Thread, ThreadState};

/// Whether a thread has a record.
pub fn is_thread(thread: &Thread) -> bool
    ensures { IsTrue result ↔ IsThread thread.now }
{
    usize::from(thread.group) < OBJECTS
        && usize::from(thread.space) < OBJECTS
        && is_state(thread.state)
        && thread.pc % INSTRUCTION_BYTES == 0
        && thread.x[0] == 0
}

fn is_state(state: ThreadState) -> bool
    ensures { IsTrue result ↔ IsState state }
{
    match state {
        ThreadState::Ready => true,
        ThreadState::Running(core) => usize::from(core) < CORES,
        ThreadState::Waiting(object)
        | ThreadState::Calling(object)
        | ThreadState::Served(object)
        | ThreadState::Serving(object) => usize::from(object) < OBJECTS,
        ThreadState::Stopped(cause) => cause <= LOST_OBJECT,
    }
}

/// Word 0 of a thread's record.
pub fn thread_head(thread: &Thread) -> u64
    ensures { result ≡ records.head_word (objs.Thread thread.now) }
{
    let number = state_number(thread.state);
    let about = about(thread.state);
    u64::from_le_bytes([
        THREAD_KIND,
        thread.group,
        thread.space,
        number,
        about,
        0,
        0,
        0,
    ])
}

fn state_number(state: ThreadState) -> u8
    ensures { result ≡ records.state_number state }
{
    match state {
        ThreadState::Ready => 0,
        ThreadState::Running(_) => 1,
        ThreadState::Waiting(_) => 2,
        ThreadState::Calling(_) => 3,
        ThreadState::Served(_) => 4,
        ThreadState::Serving(_) => 5,
        ThreadState::Stopped(_) => 6,
    }
}

/// What a state names: a core, an object or a cause.
fn about(state: ThreadState) -> u8
    ensures { result ≡ records.about state }
{
    match state {
        ThreadState::Ready => 0,
        ThreadState::Running(core) => core,
        ThreadState::Waiting(object)
        | ThreadState::Calling(object)
        | ThreadState::Served(object)
        | ThreadState::Serving(object) => object,
        ThreadState::Stopped(cause) => cause,
    }
}

/// Word i + 1 of a thread's record.
pub fn thread_word(thread: &Thread, i: usize) -> u64
    requires { i + 1 < SLOT_WORDS }
    ensures { result ≡ records.word_behind (objs.Thread thread.now) i }
{
    halves(half(thread, 2 * i), half(thread, 2 * i + 1))
}

/// Half 0 is pc, and half j is register j.
fn half(thread: &Thread, j: usize) -> u32
    ensures { result ≡ records.half thread.now j }
{
    if j == 0 {
        thread.pc
    } else {
        thread.x.get(j).copied().unwrap_or(0)
    }
}

fn state_of(number: u8, about: u8) -> ThreadState
    ensures { (state : ThreadState) → number ≡ records.state_number state → about ≡ records.about state
        → result ≡ state }
{
    match number {
        0 => ThreadState::Ready,
        1 => ThreadState::Running(about),
        2 => ThreadState::Waiting(about),
        3 => ThreadState::Calling(about),
        4 => ThreadState::Served(about),
        5 => ThreadState::Serving(about),
        _ => ThreadState::Stopped(about),
    }
}

/// The thread of a record.
pub fn read_thread(words: &[u64; SLOT_WORDS]) -> Thread
    ensures { (thread : Thread) → IsThread thread → IsRecord (slice_index words.now) (objs.Thread thread)
        → result ≡ thread }
{
    let [_, group, space, number, about, _, _, _] = words[0].to_le_bytes();
    Thread {
        group,
        space,
        state: state_of(number, about),
        pc: half_at(words, 0),
        x: read_registers(words),
    }
}

/// The registers of a thread's record. Register 0 has no half.
fn read_registers(words: &[u64; SLOT_WORDS]) -> [u32; REGISTERS]
    ensures { (thread : Thread) → IsThread thread → IsRecord (slice_index words.now) (objs.Thread thread)
        → result ≡ thread.x }
{
    let mut x = [0; REGISTERS];
    for j in 1..REGISTERS {
        x[j] = half_at(words, j);
    }
    x
}
