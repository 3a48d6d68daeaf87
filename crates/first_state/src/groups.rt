//! The groups that a machine begins with.

ghost use Rattle.std.specs.Prelude.{◌≡◌, ◌+◌, ◌<◌, ◌≤◌, All, length, map, option_map, sum_by};
ghost use Rattle.sls_base.specs.declared.limits.TheConstants.{OBJECTS};
ghost use Rattle.plain_model.specs.Initial as plain;
ghost use Rattle.plain_model.specs.Initial.{IsProgram};
ghost use Rattle.plain_model.specs.InitialParts.{channel_caps};
ghost use Rattle.kobj_table.specs.Slots.{capability_of};
ghost use Rattle.first_state.specs.Filled.{caps_of};

use arrayvec::ArrayVec;
use cap_group::{Cap, Group};
use plain_model::PROGRAMS;
use sls_base::{
    ALL_RIGHTS, FIRST_OUTPUT_RING, FIRST_PROGRAM_OBJECT, GROUP_SLOTS, INPUT_RING, ObjId, Program,
    ROOT_GROUP, has_rights,
};

/// The slots of a group, one after another.
type Slots = ArrayVec<Option<Cap>, GROUP_SLOTS>;

/// A capability with all rights.
fn all_rights(object: ObjId) -> Option<Cap>
    ensures { option_map capability_of result ≡ plain.all_rights object }
{
    Some(Cap {
        object,
        rights: ALL_RIGHTS,
    })
}

/// The capability where a bit of the program's channels is set.
fn if_set(program: &Program, bit: u8, object: ObjId) -> Option<Cap>
    requires { bit < 8 }
    ensures { option_map capability_of result ≡ plain.if_set program.now bit object }
{
    if has_rights(program.channels, 1 << bit) {
        all_rights(object)
    } else {
        None
    }
}

/// The group of these slots, with empty ones behind them.
fn group_of(slots: &Slots) -> Group
    ensures { caps_of result.slots ≡ plain.slots_with (caps_of slots.now.items) }
{
    let mut group = Group::new();
    for (slot, held) in slots.iter().enumerate() {
        group.slots[slot] = *held;
    }
    group
}

/// The capabilities that each program may have: itself, its space, its channels and the root group.
fn channel_slots(program: &Program, n: ObjId) -> Slots
    requires { n + 2 ≤ OBJECTS }
    ensures { caps_of result.items ≡ channel_caps program.now n }
{
    let mut slots = ArrayVec::new();
    slots.push(all_rights(n));
    slots.push(all_rights(n + 1));
    slots.push(if_set(program, 0, FIRST_OUTPUT_RING));
    slots.push(if_set(program, 1, FIRST_OUTPUT_RING + 1));
    slots.push(if_set(program, 2, FIRST_OUTPUT_RING + 2));
    slots.push(if_set(program, 3, FIRST_OUTPUT_RING + 3));
    slots.push(if_set(program, 4, INPUT_RING));
    slots.push(if_set(program, 5, ROOT_GROUP));
    slots
}

/// The number of objects that a program has: its group, its space, its memory objects and its threads.
pub fn program_size(program: &Program) -> ObjId
    requires { IsProgram program.now }
    ensures { result ≡ plain.program_size program.now }
{
    2 + program.regions.len() as u8 + program.threads
}

/// The group of a program that is numbered from `n` on.
pub fn program_group(program: &Program, n: ObjId) -> Group
    requires program { IsProgram program.now }
    requires room { n + plain.program_size program.now ≤ OBJECTS }
    ensures { caps_of result.slots ≡ plain.slots_with (plain.program_caps program.now n) }
{
    let mut slots = channel_slots(program, n);
    for own in 2..program_size(program) {
        slots.push(all_rights(n + own));
    }
    group_of(&slots)
}

/// The root group, which has the groups of all programs.
pub fn root_group(programs: &[Program]) -> Group
    requires count { length programs.now ≤ PROGRAMS }
    requires programs { All IsProgram programs.now }
    requires objects { FIRST_PROGRAM_OBJECT + sum_by plain.program_size programs.now ≤ OBJECTS }
    ensures { caps_of result.slots ≡ plain.slots_with (map plain.all_rights
        (plain.group_numbers programs.now FIRST_PROGRAM_OBJECT)) }
{
    let mut slots = ArrayVec::new();
    let mut n = FIRST_PROGRAM_OBJECT;
    for program in programs {
        slots.push(all_rights(n));
        n += program_size(program);
    }
    group_of(&slots)
}
