//! One tick: an instruction or a call of the thread.

ghost use Rattle.std.specs.Prelude.{◌≡◌, ℕ, ◌+◌, ◌*◌, ◌%◌, ◌<◌, ◌≤◌, not, length, slice_index, List};
ghost use Rattle.pmem_model.specs.Memory.{word_at, AllHome};
ghost use Rattle.pmem_model.specs.Words.{Word};
ghost use Rattle.rv_core.specs.Effect.{size_of};
ghost use Rattle.sls_kernel.specs.Plain.{State, ticked, is_stopped, set_register, with_register, carried_out, instruction, sliced, number_at, refusal_number};
ghost use Rattle.sls_kernel.specs.Plain;
ghost use Rattle.sls_kernel.specs.Words.{RunsAs, Tells, IsOffPages, IsPage, running_words};
ghost use Rattle.sls_kernel.specs.Counts.{SameCounts};
ghost use Rattle.sls_kernel.specs.Steps.{Became, IsPlan, IsAligned};

use crate::calls::Refusal;
use crate::thread::{RunThread, Status};
use crate::{page, put};
use pmem_model::Pmem;
use rv_core::{Plan, extend, plan};
use rv_table::decode;
use sls_base::{CORE_SLICE, HALTED, ILLEGAL_WORD, INSTRUCTION_BYTES, NO_ACCESS};

/// The register that names a call.
const CALL: usize = 17;
/// The register that gets a call's answer.
const ANSWER: u8 = 10;

/// The number of the call that stops the thread.
const HALT: u32 = 1;
/// The number of the call that puts an entry.
const PUT: u32 = 2;

/// Does one tick, and tells whether there was a thread to run.
pub fn tick(thread: &mut RunThread, put: &mut [u64; 4], nvm: &mut Pmem, accepted: &[u64; 4]) -> bool
    requires { AllHome nvm.old }
    ensures home { AllHome nvm.new }
    ensures rest { (i : ℕ) → IsOffPages i → word_at nvm.new i ≡ word_at nvm.old i }
    ensures counts { SameCounts nvm.old nvm.new }
    ensures state { (s : State) (count : ℕ → ℕ) → Tells accepted.now count
        → RunsAs thread.old put.old (word_at nvm.old) count s
        → (result ≡ not (is_stopped s.thread.status))
        × RunsAs thread.new put.new (word_at nvm.new) count (ticked count s) }
{
    let slice = match thread.status {
        Status::Stopped(_) => return false,
        Status::Ready => CORE_SLICE,
        Status::Running(slice) => slice,
    };
    step(thread, slice, put, nvm, accepted);
    true
}

/// Obeys one instruction, with what was left of the slice before.
fn step(thread: &mut RunThread, slice: u8, put: &mut [u64; 4], nvm: &mut Pmem, accepted: &[u64; 4])
    requires { AllHome nvm.old }
    ensures home { AllHome nvm.new }
    ensures rest { (i : ℕ) → IsOffPages i → word_at nvm.new i ≡ word_at nvm.old i }
    ensures counts { SameCounts nvm.old nvm.new }
    ensures state { (s : State) (count : ℕ → ℕ) → Tells accepted.now count → slice ≤ 16
        → RunsAs thread.old put.old (word_at nvm.old) count s
        → RunsAs thread.new put.new (word_at nvm.new) count (sliced s slice (instruction count s)) }
{
    thread.status = match obey(thread, put, nvm, accepted) {
        Some(cause) => Status::Stopped(cause),
        None if slice > 1 => Status::Running(slice - 1),
        None => Status::Ready,
    };
}

/// Obeys the instruction at pc, or gives the cause that stops it.
fn obey(
    thread: &mut RunThread,
    put: &mut [u64; 4],
    nvm: &mut Pmem,
    accepted: &[u64; 4],
) -> Option<u8>
    requires { AllHome nvm.old }
    ensures home { AllHome nvm.new }
    ensures rest { (i : ℕ) → IsOffPages i → word_at nvm.new i ≡ word_at nvm.old i }
    ensures counts { SameCounts nvm.old nvm.new }
    ensures state { (s : State) (count : ℕ → ℕ) → Tells accepted.now count
        → RunsAs thread.old put.old (word_at nvm.old) count s
        → Became result thread.new put.new (word_at nvm.new) count s (instruction count s) }
{
    let pc = thread.regs.pc;
    if !page::covers(pc, INSTRUCTION_BYTES) {
        return Some(NO_ACCESS);
    }
    let Some(instr) = decode(fetch(nvm, pc)) else {
        return Some(ILLEGAL_WORD);
    };
    let effect = plan(instr, &thread.regs);
    carry_out(effect, thread, put, nvm, accepted)
}

/// The word of the instruction at pc.
fn fetch(nvm: &Pmem, pc: u32) -> u32
    requires covered { pc + 4 ≤ 4096 }
    requires home { AllHome nvm.now }
    ensures { (byte : ℕ → ℕ) → IsPage (running_words (word_at nvm.now) 4) byte → pc % 4 ≡ 0
        → result ≡ number_at byte pc 4 }
{
    page::load(
        nvm,
        pc / INSTRUCTION_BYTES * INSTRUCTION_BYTES,
        INSTRUCTION_BYTES,
    )
}

/// Does what an instruction is to do, or gives the cause that stops it.
fn carry_out(
    effect: Plan,
    thread: &mut RunThread,
    put: &mut [u64; 4],
    nvm: &mut Pmem,
    accepted: &[u64; 4],
) -> Option<u8>
    requires plan { IsPlan effect }
    requires home { AllHome nvm.old }
    ensures home { AllHome nvm.new }
    ensures rest { (i : ℕ) → IsOffPages i → word_at nvm.new i ≡ word_at nvm.old i }
    ensures counts { SameCounts nvm.old nvm.new }
    ensures state { (s : State) (count : ℕ → ℕ) → Tells accepted.now count → IsAligned effect
        → RunsAs thread.old put.old (word_at nvm.old) count s
        → Became result thread.new put.new (word_at nvm.new) count s (carried_out count s effect) }
{
    match effect {
        Plan::Set { rd, value, pc } => {
            set(thread, rd, value, pc);
            None
        }
        Plan::Load { op, rd, at } => load(thread, nvm, op, rd, at),
        Plan::Store { op, at, value } => store(thread, nvm, op, at, value),
        Plan::Call => call(thread, put, nvm, accepted),
        Plan::Stop(cause) => Some(cause),
    }
}

/// Does a call, or gives the cause that stops it.
fn call(
    thread: &mut RunThread,
    put: &mut [u64; 4],
    nvm: &mut Pmem,
    accepted: &[u64; 4],
) -> Option<u8>
    requires { AllHome nvm.old }
    ensures home { AllHome nvm.new }
    ensures rest { (i : ℕ) → IsOffPages i → word_at nvm.new i ≡ word_at nvm.old i }
    ensures counts { SameCounts nvm.old nvm.new }
    ensures state { (s : State) (count : ℕ → ℕ) → Tells accepted.now count
        → RunsAs thread.old put.old (word_at nvm.old) count s
        → Became result thread.new put.new (word_at nvm.new) count s (Plain.call count s) }
{
    let answer = match thread.regs.x[CALL] {
        HALT => return Some(HALTED),
        PUT => {
            match put::put(thread, put, nvm, accepted) {
                Ok(()) => 0,
                Err(refusal) => number_of(refusal),
            }
        }
        _ => number_of(Refusal::BadCall),
    };
    let next = thread.regs.pc.wrapping_add(INSTRUCTION_BYTES);
    set(thread, ANSWER, answer, next);
    None
}

/// A refusal as x10 gets it.
fn number_of(refusal: Refusal) -> u32
    ensures { result ≡ refusal_number refusal }
{
    match refusal {
        Refusal::BadCall => u32::MAX,
        Refusal::NoCap => u32::MAX - 1,
        Refusal::WrongKind => u32::MAX - 2,
        Refusal::BadAddress => u32::MAX - 4,
        Refusal::BadSize => u32::MAX - 5,
        Refusal::Full => u32::MAX - 11,
    }
}

/// The bytes of a load or store.
fn size(op: u8) -> u32
    ensures { result ≡ size_of op }
{
    1 << (op % 4)
}

/// Sets a register and pc; a write to the first register is lost.
fn set(thread: &mut RunThread, rd: u8, value: u32, pc: u32)
    requires { rd < 32 }
    ensures { thread.new ≡ record {
      status = thread.old.status;
      regs = record { pc = pc; x = with_register thread.old.regs.x rd value };
    } }
{
    if rd != 0 {
        thread.regs.x[rd as usize] = value;
    }
    thread.regs.pc = pc;
}

/// Does a load, or gives the cause that stops it.
fn load(thread: &mut RunThread, nvm: &Pmem, op: u8, rd: u8, at: u32) -> Option<u8>
    requires plan { IsPlan (Plan.Load op rd at) }
    requires home { AllHome nvm.now }
    ensures { (put : List ℕ) (s : State) (count : ℕ → ℕ) → RunsAs thread.old put (word_at nvm.now) count s
        → Became result thread.new put (word_at nvm.now) count s (carried_out count s (Plan.Load op rd at)) }
{
    let size = size(op);
    if !page::covers(at, size) {
        return Some(NO_ACCESS);
    }
    let next = thread.regs.pc.wrapping_add(INSTRUCTION_BYTES);
    set(thread, rd, extend(op, page::load(nvm, at, size)), next);
    None
}

/// Does a store, or gives the cause that stops it.
fn store(thread: &mut RunThread, nvm: &mut Pmem, op: u8, at: u32, value: u32) -> Option<u8>
    requires plan { IsPlan (Plan.Store op at value) }
    requires home { AllHome nvm.old }
    ensures home { AllHome nvm.new }
    ensures rest { (i : ℕ) → IsOffPages i → word_at nvm.new i ≡ word_at nvm.old i }
    ensures counts { SameCounts nvm.old nvm.new }
    ensures state { (put : List ℕ) (s : State) (count : ℕ → ℕ) → RunsAs thread.old put (word_at nvm.old) count s
        → Became result thread.new put (word_at nvm.new) count s (carried_out count s (Plan.Store op at value)) }
{
    let size = size(op);
    if !page::covers(at, size) {
        return Some(NO_ACCESS);
    }
    page::store(nvm, at, size, value);
    let next = thread.regs.pc.wrapping_add(INSTRUCTION_BYTES);
    set(thread, 0, 0, next);
    None
}
