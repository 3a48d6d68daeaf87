//! What the calls on notifications and connections do that aren't refused.

ghost use Rattle.std.specs.Prelude.{◌≡◌, IfOk, [], ◌∷◌, Some, false, map};
ghost use Rattle.plain_state.specs.Objects.{Notification};
ghost use Rattle.plain_state.specs.Calls as calls;
ghost use Rattle.plain_state.specs.CallRefusals as refusals;
ghost use Rattle.plain_state.specs.CallEffects as plain;
ghost use Rattle.plain_state.specs.Slow.{object_of, change_of, state_of, effect_of, StoresInPages};

use crate::calls::ANSWER;
use crate::object::Object;
use crate::object_effects::{answers_with, change};
use crate::slow_calls::arg;
use crate::slow_effect::{Change, Effect, next_pc};
use crate::state::State;
use rv_core::Regs;
use sls_base::{ObjId, Thread, ThreadState};
use std::alloc::{AllocError, Global};

/// The registers with an answer in x10 and two values in x11 and x12.
fn handed(x: [u32; 32], a: u32, b: u32) -> [u32; 32]
    ensures { result ≡ plain.handed x a b }
{
    let mut x = x;
    x[ANSWER] = 0;
    x[ANSWER + 1] = a;
    x[ANSWER + 2] = b;
    x
}

/// A thread with another state and other registers.
fn thread_with(thread: &Thread, state: ThreadState, x: [u32; 32]) -> Object
    ensures { object_of result ≡ plain.thread_with thread.now state x }
{
    Object::Thread(Thread {
        group: thread.group,
        space: thread.space,
        state,
        pc: thread.pc,
        x,
    })
}

fn is_serving(state: ThreadState, id: ObjId) -> bool
    ensures { result ≡ plain.is_serving state id }
{
    match state {
        ThreadState::Serving(connection) => connection == id,
        _ => false,
    }
}

/// One is taken from the count of a notification, which leaves this.
#[tactic(auto, unfolding(crate::specs::Slow::effect_of))]
fn takes_one(
    alloc: Global,
    thread: &Thread,
    id: ObjId,
    left: u32,
    waiters: &[ObjId],
) -> Result<Effect, AllocError>
    ensures { IfOk result (λ e. (effect_of e
        ≡ plain.answers_with thread.now 0 (plain.change id (Notification left waiters.now) ∷ [])) × StoresInPages e) }
{
    let note = Object::Notification(left, Vec::from_slice(alloc, waiters)?);
    answers_with(alloc, thread, 0, change(id, note))
}

/// A thread joins those that wait on a notification whose count is 0.
#[tactic(auto, unfolding(crate::specs::Slow::effect_of))]
fn joins(
    alloc: Global,
    thread: &Thread,
    id: ObjId,
    waiters: &[ObjId],
    me: ObjId,
) -> Result<Effect, AllocError>
    ensures { IfOk result (λ e.
        (effect_of e ≡ plain.wait_effect me thread.now id (Some (Notification 0 waiters.now))) × StoresInPages e) }
{
    let mut all = Vec::from_slice(alloc, waiters)?;
    all.push(me)?;
    let mut effect = Effect::waits(alloc, thread, ThreadState::Waiting(id));
    effect
        .changes
        .push(change(id, Object::Notification(0, all)))?;
    Ok(effect)
}

#[tactic(auto, unfolding(crate::specs::Slow::state_of, crate::specs::Slow::effect_of))]
impl State {
    /// A thread that waited, with its answer.
    fn ready_with(&self, id: ObjId, x: [u32; 32]) -> Change
        ensures { change_of result ≡ plain.ready_with (state_of self.now) id x }
    {
        change(id, thread_with(&self.thread_at(id), ThreadState::Ready, x))
    }

    /// The first that waits on a notification becomes Ready, and the others wait on.
    fn wakes_first(
        &self,
        alloc: Global,
        thread: &Thread,
        id: ObjId,
        count: u32,
        waiter: ObjId,
        rest: &[ObjId],
    ) -> Result<Effect, AllocError>
        ensures { IfOk result (λ e. (effect_of e
            ≡ plain.signal_effect (state_of self.now) thread.now id (Some (Notification count (waiter ∷ rest.now))))
            × StoresInPages e) }
    {
        let note = Object::Notification(count, Vec::from_slice(alloc, rest)?);
        let mut effect = answers_with(alloc, thread, 0, change(id, note))?;
        let mut x = self.thread_at(waiter).x;
        x[ANSWER] = 0;
        effect.changes.push(self.ready_with(waiter, x))?;
        effect.wakes.push(waiter)?;
        Ok(effect)
    }

    pub fn signal_effect(&self, alloc: Global, thread: &Thread) -> Result<Effect, AllocError>
        requires { refusals.is_full_count (calls.named (state_of self.now) thread.now 0) ≡ false }
        ensures { IfOk result (λ e. (effect_of e ≡ plain.signal_effect (state_of self.now) thread.now
            (calls.id_named (state_of self.now) thread.now 0) (calls.named (state_of self.now) thread.now 0))
            × StoresInPages e) }
    {
        let id = self.id_named(thread, 0);
        let Some(Object::Notification(count, waiters)) = self.named(thread, 0) else {
            return Ok(Effect::answers(alloc, thread, 0));
        };
        match waiters.as_slice() {
            [] => {
                let note = Object::Notification(count.wrapping_add(1), Vec::new(alloc));
                answers_with(alloc, thread, 0, change(id, note))
            }
            [waiter, rest @ ..] => self.wakes_first(alloc, thread, id, *count, *waiter, rest),
        }
    }

    pub fn wait_effect(
        &self,
        alloc: Global,
        me: ObjId,
        thread: &Thread,
    ) -> Result<Effect, AllocError>
        ensures { IfOk result (λ e. (effect_of e ≡ plain.wait_effect me thread.now
            (calls.id_named (state_of self.now) thread.now 0) (calls.named (state_of self.now) thread.now 0))
            × StoresInPages e) }
    {
        let id = self.id_named(thread, 0);
        let Some(Object::Notification(count, waiters)) = self.named(thread, 0) else {
            return Ok(Effect::answers(alloc, thread, 0));
        };
        match count.checked_sub(1) {
            Some(left) => takes_one(alloc, thread, id, left, waiters.as_slice()),
            None => joins(alloc, thread, id, waiters.as_slice(), me),
        }
    }

    pub fn call_effect(
        &self,
        alloc: Global,
        me: ObjId,
        thread: &Thread,
    ) -> Result<Effect, AllocError>
        ensures { IfOk result (λ e.
            (effect_of e ≡ plain.call_effect (state_of self.now) me thread.now
            (calls.id_named (state_of self.now) thread.now 0) (calls.named (state_of self.now) thread.now 0))
            × StoresInPages e) }
    {
        let id = self.id_named(thread, 0);
        let Some(Object::Connection(server, client, clients)) = self.named(thread, 0) else {
            return Ok(Effect::answers(alloc, thread, 0));
        };
        let server_thread = self.thread_at(*server);
        let mut clients = Vec::from_slice(alloc, clients.as_slice())?;
        if is_serving(server_thread.state, id) {
            let mut effect = Effect::waits(alloc, thread, ThreadState::Served(id));
            let connection = Object::Connection(*server, Some(me), clients);
            effect.changes.push(change(id, connection))?;
            let x = handed(server_thread.x, arg(thread, 1), arg(thread, 2));
            effect.changes.push(self.ready_with(*server, x))?;
            effect.wakes.push(*server)?;
            return Ok(effect);
        }
        clients.push(me)?;
        let mut effect = Effect::waits(alloc, thread, ThreadState::Calling(id));
        effect
            .changes
            .push(change(id, Object::Connection(*server, *client, clients)))?;
        Ok(effect)
    }

    /// The changes by which the client that was served becomes Ready with the server's values.
    fn client_done(
        &self,
        alloc: Global,
        thread: &Thread,
        client: Option<ObjId>,
    ) -> Result<(Vec<Change>, Vec<ObjId>), AllocError>
        ensures changes { IfOk result
            (λ both. map change_of both.0.items ≡ plain.client_done (state_of self.now) thread.now client) }
        ensures wakes { IfOk result (λ both. both.1.items ≡ plain.client_woken client) }
    {
        let mut changes = Vec::new(alloc);
        let mut wakes = Vec::new(alloc);
        if let Some(client) = client {
            let x = handed(self.thread_at(client).x, arg(thread, 1), arg(thread, 2));
            changes.push(self.ready_with(client, x))?;
            wakes.push(client)?;
        }
        Ok((changes, wakes))
    }

    /// The client that was served is done and no other waits: the server waits for clients.
    fn serves_none(
        &self,
        alloc: Global,
        thread: &Thread,
        id: ObjId,
        server: ObjId,
        client: Option<ObjId>,
    ) -> Result<Effect, AllocError>
        ensures { IfOk result (λ e.
            (effect_of e ≡ plain.serve_next (state_of self.now) thread.now id server client []) × StoresInPages e) }
    {
        let mut effect = Effect::waits(alloc, thread, ThreadState::Serving(id));
        let Some(client) = client else {
            return Ok(effect);
        };
        let (changes, wakes) = self.client_done(alloc, thread, Some(client))?;
        effect.changes = changes;
        effect.wakes = wakes;
        effect.changes.push(change(id, Object::Connection(server, None, Vec::new(alloc))))?;
        Ok(effect)
    }

    pub fn serve_effect(&self, alloc: Global, thread: &Thread) -> Result<Effect, AllocError>
        ensures { IfOk result (λ e.
            (effect_of e ≡ plain.serve_effect (state_of self.now) thread.now
            (calls.id_named (state_of self.now) thread.now 0) (calls.named (state_of self.now) thread.now 0))
            × StoresInPages e) }
    {
        let id = self.id_named(thread, 0);
        let Some(Object::Connection(server, client, clients)) = self.named(thread, 0) else {
            return Ok(Effect::answers(alloc, thread, 0));
        };
        let [next, rest @ ..] = clients.as_slice() else {
            return self.serves_none(alloc, thread, id, *server, *client);
        };
        let caller = self.thread_at(*next);
        let (changes, wakes) = self.client_done(alloc, thread, *client)?;
        let mut effect = Effect::goes_on(
            alloc,
            Regs {
                pc: next_pc(thread),
                x: handed(thread.x, arg(&caller, 1), arg(&caller, 2)),
            },
        );
        effect.changes = changes;
        effect.wakes = wakes;
        let rest = Vec::from_slice(alloc, rest)?;
        effect
            .changes
            .push(change(id, Object::Connection(*server, Some(*next), rest)))?;
        let served = thread_with(&caller, ThreadState::Served(id), caller.x);
        effect.changes.push(change(*next, served))?;
        Ok(effect)
    }
}
