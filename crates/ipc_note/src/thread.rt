//! What a call does to a thread.

ghost use Rattle.std.specs.Prelude.{◌≡◌};
ghost use Rattle.ipc_note.specs.Threads.{with_answer, with_values};

use sls_base::Thread;

/// The register that gets a call's answer.
pub const ANSWER: usize = 10;
/// The registers of the two values that a call over a connection passes on.
pub const FIRST_VALUE: usize = 11;

pub const SECOND_VALUE: usize = 12;

/// Gives a thread an answer.
pub(crate) fn answer(thread: &mut Thread, answer: u32)
    ensures { thread.new ≡ with_answer thread.old answer }
{
    thread.x[ANSWER] = answer;
}

/// Hands a thread the values of another, with the answer 0.
pub(crate) fn hand_values(thread: &mut Thread, other: &Thread)
    ensures { thread.new ≡ with_values thread.old other.now }
{
    thread.x[ANSWER] = 0;
    thread.x[FIRST_VALUE] = other.x[FIRST_VALUE];
    thread.x[SECOND_VALUE] = other.x[SECOND_VALUE];
}
