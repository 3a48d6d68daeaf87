//! Notifications.

ghost use Rattle.std.specs.Prelude.{◌≡◌, ◌≢◌, ℕ, ◌+◌, ◌-◌, ◌^◌, ◌<◌, List, [], ◌∷◌, min};
ghost use Rattle.link_lists.specs.Lists.{list_at, IsFree};
ghost use Rattle.sls_base.specs.declared.limits.TheConstants.{OBJECTS};
ghost use Rattle.ipc_note.specs.Threads.{with_answer, with_state};
ghost use Rattle.ipc_note.specs.Lists.{Appends, MovesFirst};

use crate::lists::{RUN_QUEUE, ThreadLists};
use crate::thread::answer;
use sls_base::{OBJECTS, ObjId, Thread, ThreadState};

/// The answer of a signal where nobody waits and the count is the greatest: -12.
pub const FULL: u32 = 0xffff_fff4;

/// A notification: how often it was signalled while nobody waited.
#[derive(Clone, Copy)]
pub struct Notification {
    pub count: u32,
}

/// Signals notification `id`. `waiter` is the first that waits on it; where nobody does it is any thread, and stays as
/// it is.
pub fn signal(
    note: &mut Notification,
    id: ObjId,
    links: &mut ThreadLists,
    caller: &mut Thread,
    waiter: &mut Thread,
)
    requires id { id < OBJECTS }
    requires no_queue { id ≢ RUN_QUEUE }

    // The first waiter becomes Ready with the answer 0, at the end of the run queue. The count stays.
    ensures moved { (first : ℕ) (rest : List ℕ) → list_at links.old id ≡ first ∷ rest →
        MovesFirst links.old links.new id RUN_QUEUE first }
    ensures woken { list_at links.old id ≢ [] → waiter.new ≡ with_state (with_answer waiter.old 0) ThreadState.Ready }
    ensures kept { list_at links.old id ≢ [] → note.new ≡ note.old }

    // Where nobody waits the count rises, as far as it can. No thread becomes Ready.
    ensures counted { list_at links.old id ≡ [] → note.new.count ≡ min (note.old.count + 1) (2 ^ 32 - 1) }
    ensures nobody { list_at links.old id ≡ [] → links.new ≡ links.old }
    ensures lent { list_at links.old id ≡ [] → waiter.new ≡ waiter.old }

    // The caller is refused exactly where nobody waits and the count is the greatest.
    ensures full { list_at links.old id ≡ [] → note.old.count ≡ 2 ^ 32 - 1 →
        caller.new ≡ with_answer caller.old FULL }
    ensures answered { ¬ ((list_at links.old id ≡ []) × (note.old.count ≡ 2 ^ 32 - 1)) →
        caller.new ≡ with_answer caller.old 0 }

    // Who stood in no list stands in none.
    ensures free { (thread : ℕ) → IsFree links.old thread → IsFree links.new thread }
{
    match links.pop_front(id as usize) {
        Some(first) => {
            answer(waiter, 0);
            waiter.state = ThreadState::Ready;
            links.push_back(RUN_QUEUE, first);
            answer(caller, 0);
        }
        None if note.count == u32::MAX => answer(caller, FULL),
        None => {
            note.count += 1;
            answer(caller, 0);
        }
    }
}

/// Lets thread `me` take one from the count of notification `id`, or wait on it.
pub fn wait(
    note: &mut Notification,
    id: ObjId,
    links: &mut ThreadLists,
    me: ObjId,
    caller: &mut Thread,
)
    requires id { id < OBJECTS }
    requires no_queue { id ≢ RUN_QUEUE }
    requires me { me < OBJECTS }
    requires free { IsFree links.old me }

    // One is taken from the count where it isn't 0, and the caller goes on with the answer 0.
    ensures count { note.new.count ≡ note.old.count - 1 }
    ensures answered { note.old.count ≢ 0 → caller.new ≡ with_answer caller.old 0 }
    ensures kept { note.old.count ≢ 0 → links.new ≡ links.old }

    // Where it is 0 the caller waits behind the others. Its registers stay until it is Ready again.
    ensures waits { note.old.count ≡ 0 → caller.new ≡ with_state caller.old (ThreadState.Waiting id) }
    ensures joined { note.old.count ≡ 0 → Appends links.old links.new id me }

    // Who stood in no list stands in none, but for the caller that waits.
    ensures others_free { (thread : ℕ) → IsFree links.old thread → thread ≢ me → IsFree links.new thread }
{
    if note.count == 0 {
        caller.state = ThreadState::Waiting(id);
        links.push_back(id as usize, me as usize);
    } else {
        note.count -= 1;
        answer(caller, 0);
    }
}
