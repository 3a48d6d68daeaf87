//! What becomes of the thread that did a call.

ghost use Rattle.std.specs.Prelude.{◌≡◌, ◌<◌};
ghost use Rattle.sls_base.specs.declared.limits.TheConstants.{REGISTERS};
ghost use Rattle.rv_core.specs.Effect.{with_register};
ghost use Rattle.plain_state.specs.Effects as plain;

use plain_state::{ANSWER, Goes};
use rv_core::Regs;
use sls_base::{HALTED, INSTRUCTION_BYTES, Thread, ThreadState};

/// The registers of a thread after its instruction, what becomes of it, whether it takes the input that waits first, and
/// whether it wishes for a checkpoint.
#[derive(Clone, Copy)]
pub struct Done {
    pub regs: Regs,
    pub goes: Goes,
    pub takes: bool,
    pub wishes: bool,
}

impl Done {
    ghost use Rattle.std.specs.Prelude.{◌≡◌, true};
    ghost use Rattle.kernel_calls.specs.Does.{Tells};
    ghost use Rattle.kernel_calls.specs.Callers.{goes_in};

    /// A call is answered.
    pub(crate) fn answers(thread: &Thread, answer: u32) -> Done
        ensures { Tells result (plain.answers thread.now answer) }
    {
        let mut x = thread.x;
        x[ANSWER] = answer;
        Done {
            regs: Regs {
                pc: next_pc(thread),
                x,
            },
            goes: Goes::On,
            takes: false,
            wishes: false,
        }
    }

    /// A call is answered, and the thread goes to the queue's back.
    pub(crate) fn yields(thread: &Thread) -> Done
        ensures { Tells result (record (plain.answers thread.now 0) { goes = Goes.Back }) }
    {
        Done {
            goes: Goes::Back,
            ..Done::answers(thread, 0)
        }
    }

    /// A call is answered, and takes the input that waits first.
    pub(crate) fn takes(thread: &Thread, answer: u32) -> Done
        ensures { Tells result (record (plain.answers thread.now answer) { takes = true }) }
    {
        Done {
            takes: true,
            ..Done::answers(thread, answer)
        }
    }

    /// A call is answered, and the thread wishes for a checkpoint.
    pub(crate) fn wishes(thread: &Thread) -> Done
        ensures { Tells result (record (plain.answers thread.now 0) { wishes = true }) }
    {
        Done {
            wishes: true,
            ..Done::answers(thread, 0)
        }
    }

    /// A thread stops with a cause, with its registers and its pc as they are.
    pub(crate) fn stops(thread: &Thread, cause: u8) -> Done
        ensures { Tells result (plain.stops thread.now cause) }
    {
        Done {
            regs: Regs {
                pc: thread.pc,
                x: thread.x,
            },
            goes: Goes::Stop(cause),
            takes: false,
            wishes: false,
        }
    }

    /// A thread stops by its call to halt.
    pub(crate) fn halts(thread: &Thread) -> Done
        ensures { Tells result (plain.stops thread.now HALTED) }
    {
        Done::stops(thread, HALTED)
    }

    /// A thread goes on at the next instruction, with its registers as they are.
    pub(crate) fn goes_on(thread: &Thread) -> Done
        ensures { Tells result (plain.goes_on (record { pc = plain.next_pc thread.now; x = thread.now.x })) }
    {
        Done {
            regs: Regs {
                pc: next_pc(thread),
                x: thread.x,
            },
            goes: Goes::On,
            takes: false,
            wishes: false,
        }
    }

    /// A register is set, and the thread goes on at an address.
    pub(crate) fn sets(thread: &Thread, rd: u8, value: u32, pc: u32) -> Done
        requires { rd < REGISTERS }
        ensures { Tells result (plain.goes_on (record { pc = pc; x = with_register thread.now.x rd value })) }
    {
        let mut regs = Regs { pc, x: thread.x };
        regs.set(rd, value);
        Done {
            regs,
            goes: Goes::On,
            takes: false,
            wishes: false,
        }
    }

    /// A thread has the registers and the state that a call gave it.
    pub(crate) fn of_caller(thread: &Thread) -> Done
        ensures { Tells result (record (plain.goes_on (record { pc = plain.next_pc thread.now; x = thread.now.x })) {
          goes = goes_in thread.now.state;
        }) }
    {
        let goes = match thread.state {
            ThreadState::Waiting(_)
            | ThreadState::Calling(_)
            | ThreadState::Served(_)
            | ThreadState::Serving(_) => Goes::Asleep(thread.state),
            ThreadState::Ready | ThreadState::Running(_) | ThreadState::Stopped(_) => Goes::On,
        };
        Done {
            regs: Regs {
                pc: next_pc(thread),
                x: thread.x,
            },
            goes,
            takes: false,
            wishes: false,
        }
    }
}

/// The instruction after a thread's own.
pub(crate) fn next_pc(thread: &Thread) -> u32
    ensures { result ≡ plain.next_pc thread.now }
{
    thread.pc.wrapping_add(INSTRUCTION_BYTES)
}
