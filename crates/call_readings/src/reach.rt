//! What the next instruction of a thread reaches in memory, told without carrying it out.

ghost use Rattle.std.specs.Prelude.{◌≡◌, ℕ, None, slice_get, option_map, length};
ghost use Rattle.rv_table.specs.Table.{IsOneOf, load_ops, store_ops};
ghost use Rattle.rv_table.specs.Decoded.{decoded};
ghost use Rattle.rv_core.specs.Ranges.{IsPlan};
ghost use Rattle.plain_model.specs.Worlds.{World};
ghost use Rattle.plain_model.specs.CallRefusals as refusals;
ghost use Rattle.plain_model.specs.CallEffects as calls;
ghost use Rattle.plain_model.specs.Instructions as plain;
ghost use Rattle.kobj_table.specs.Objects.{Rest, object_at, state_of};
ghost use Rattle.call_readings.specs.Kernel.{IsCounted, IsAttached, world_of};
ghost use Rattle.call_readings.specs.Reach.{IsReach};

use crate::devices::Devices;
use crate::named::id_named;
use crate::numbers::NumbersInUse;
use crate::refusals::refusal_of;
use crate::regions::is_covered;
use kobj_table::{Objects, Slot};
use plain_model::{Call, Span, arg};
use rv_core::{Plan, Regs, access_size, plan};
use rv_table::decode;
use sls_base::{OUTPUT_CHANNELS, ObjId, READ, Thread, WRITE};

/// What an instruction reaches beside its own bytes: nothing, the bytes that it loads, those that it stores, or those
/// that it puts as an entry on a channel.
#[derive(Clone, Copy)]
pub enum Reach {
    Nothing,
    Loads(Span),
    Stores(Span),
    Puts(Span, u8),
}

#[tactic(auto, unfolding(kobj_table::specs::Objects::state_of))]
fn reach_of_load(objects: &Objects, thread: &Thread, op: u8, at: u32) -> Reach
    requires { IsOneOf op load_ops }
    ensures { (rest : Rest) (rd : ℕ) → IsReach (state_of objects.now rest) thread.now result
        (plain.load_effect (state_of objects.now rest) thread.now op rd at) }
{
    let count = access_size(op);
    if is_covered(objects, thread.space, READ, at, count) {
        Reach::Loads(Span { at, count })
    } else {
        Reach::Nothing
    }
}

#[tactic(auto, unfolding(kobj_table::specs::Objects::state_of))]
fn reach_of_store(objects: &Objects, thread: &Thread, op: u8, at: u32) -> Reach
    requires { IsOneOf op store_ops }
    ensures { (rest : Rest) (value : ℕ) → IsReach (state_of objects.now rest) thread.now result
        (plain.store_effect (state_of objects.now rest) thread.now op at value) }
{
    let count = access_size(op);
    if is_covered(objects, thread.space, WRITE, at, count) {
        Reach::Stores(Span { at, count })
    } else {
        Reach::Nothing
    }
}

/// The channel of the output ring of a number; 0 where there is none.
fn channel_of(objects: &Objects, id: ObjId) -> u8
    ensures { (content : ℕ → ℕ → ℕ) → result ≡ calls.channel_of (object_at content objects.now id) }
{
    match objects.slot(id) {
        Some(Slot::Ring(ring)) if usize::from(ring.channel) != OUTPUT_CHANNELS => ring.channel,
        _ => 0,
    }
}

/// What a call reaches that isn't refused: a put loads its buffer, and a get stores as much of the first input as its
/// buffer has room for.
#[tactic(auto, unfolding(crate::specs::Kernel::world_of, kobj_table::specs::Objects::state_of, plain_state::specs::CallEffects::effect_of_call))]
fn reach_of_call(
    objects: &Objects,
    devices: &Devices,
    me: ObjId,
    thread: &Thread,
    call: Call,
) -> Reach
    ensures { (w : World) (rest : Rest) → IsAttached objects.now devices.now (world_of objects.now rest w)
        → refusals.refusal_of (world_of objects.now rest w) me thread.now call ≡ None
        → IsReach (world_of objects.now rest w).now thread.now result
        (calls.effect_of_call (world_of objects.now rest w) me thread.now call) }
{
    let at = arg(thread, 1);
    let count = arg(thread, 2);
    match call {
        Call::Put => Reach::Puts(
            Span { at, count },
            channel_of(objects, id_named(objects, thread, 0)),
        ),
        Call::Get => {
            let length = u32::from(devices.first_input.unwrap_or(0));
            let count = length.min(count);
            Reach::Stores(Span { at, count })
        }
        Call::Yield
        | Call::Halt
        | Call::MemNew
        | Call::Map
        | Call::Unmap
        | Call::SpaceNew
        | Call::GroupNew
        | Call::CapCopy
        | Call::CapDrop
        | Call::ThreadNew
        | Call::NoteNew
        | Call::Signal
        | Call::Wait
        | Call::ConnNew
        | Call::ConnCall
        | Call::Serve
        | Call::Checkpoint => Reach::Nothing,
    }
}

/// What the call that a thread names reaches.
fn reach_of_ecall(
    objects: &Objects,
    numbers: &NumbersInUse,
    devices: &Devices,
    me: ObjId,
    thread: &Thread,
) -> Reach
    ensures { (w : World) (rest : Rest) → IsCounted numbers.now (world_of objects.now rest w)
        → IsAttached objects.now devices.now (world_of objects.now rest w)
        → IsReach (world_of objects.now rest w).now thread.now result
        (calls.ecall (world_of objects.now rest w) me thread.now) }
{
    let Some(call) = Call::named(thread) else {
        return Reach::Nothing;
    };
    match refusal_of(objects, numbers, devices, me, thread, call) {
        Some(_) => Reach::Nothing,
        None => reach_of_call(objects, devices, me, thread, call),
    }
}

/// What a row's effect reaches.
#[tactic(auto, unfolding(crate::specs::Kernel::world_of))]
fn reach_of_plan(
    objects: &Objects,
    numbers: &NumbersInUse,
    devices: &Devices,
    me: ObjId,
    thread: &Thread,
    plan: Plan,
) -> Reach
    requires { IsPlan plan }
    ensures { (w : World) (rest : Rest) → IsCounted numbers.now (world_of objects.now rest w)
        → IsAttached objects.now devices.now (world_of objects.now rest w)
        → IsReach (world_of objects.now rest w).now thread.now result
        (plain.carried_out (world_of objects.now rest w) me thread.now plan) }
{
    match plan {
        Plan::Load { op, at, .. } => reach_of_load(objects, thread, op, at),
        Plan::Store { op, at, .. } => reach_of_store(objects, thread, op, at),
        Plan::Call => reach_of_ecall(objects, numbers, devices, me, thread),
        Plan::Set { .. } | Plan::Stop(_) => Reach::Nothing,
    }
}

/// What the instruction of a word reaches in thread `me`.
pub fn reach_of(
    objects: &Objects,
    numbers: &NumbersInUse,
    devices: &Devices,
    me: ObjId,
    thread: &Thread,
    word: u32,
) -> Reach
    ensures { (w : World) (rest : Rest) → IsCounted numbers.now (world_of objects.now rest w)
        → IsAttached objects.now devices.now (world_of objects.now rest w)
        → IsReach (world_of objects.now rest w).now thread.now result
        (plain.obeyed (world_of objects.now rest w) me thread.now (decoded word)) }
{
    let regs = Regs {
        pc: thread.pc,
        x: thread.x,
    };
    match decode(word) {
        Some(instr) => reach_of_plan(objects, numbers, devices, me, thread, plan(instr, &regs)),
        None => Reach::Nothing,
    }
}
