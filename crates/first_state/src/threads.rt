//! The threads that a machine begins with.

ghost use Rattle.std.specs.Prelude.{◌≡◌, ◌<◌};
ghost use Rattle.sls_base.specs.declared.limits.TheConstants.{OBJECTS};
ghost use Rattle.plain_model.specs.Initial as plain;
ghost use Rattle.plain_model.specs.Objects as objects;

use plain_model::FIRST_ARGUMENT;
use sls_base::{ObjId, Program, REGISTERS, Thread, ThreadState};

/// Thread `j` of a program that is numbered from `n` on: it begins at the entry with its first argument `j`.
#[tactic(auto, unfolding(plain_state::specs::States::zero_registers))]
pub fn program_thread(program: &Program, n: ObjId, j: u8) -> Thread
    requires { n < OBJECTS }
    ensures { objects.Thread result ≡ plain.program_thread program.now n j }
{
    let mut x = [0; REGISTERS];
    x[FIRST_ARGUMENT] = u32::from(j);
    Thread {
        group: n,
        space: n + 1,
        state: ThreadState::Ready,
        pc: program.entry,
        x,
    }
}
