//! Connections.

ghost use Rattle.std.specs.Prelude.{◌≡◌, ◌≢◌, ℕ, ◌<◌, ◌++◌, ◌↔◌, IsTrue, List, [], Contains, drop, slice_get, Some, None};
ghost use Rattle.std.specs.Option.{ForSome};
ghost use Rattle.link_lists.specs.Lists.{list_at, IsFree};
ghost use Rattle.sls_base.specs.declared.limits.TheConstants.{OBJECTS};
ghost use Rattle.ipc_note.specs.Threads.{with_answer, with_values, with_state};
ghost use Rattle.ipc_note.specs.Lists.{Appends};
ghost use Rattle.ipc_note.specs.Clients.{client_beside};

use crate::lists::{RUN_QUEUE, ThreadLists};
use crate::thread::{answer, hand_values};
use sls_base::{OBJECTS, ObjId, Thread, ThreadState};

/// The answer of a call by the server, and of a serve by another thread: -14.
pub const TAKEN: u32 = 0xffff_fff2;

/// A connection: its server, and the client that it serves.
#[derive(Clone, Copy)]
pub struct Connection {
    pub server: ObjId,
    pub client: Option<ObjId>,
}

/// Whether a thread waits for clients on a connection.
fn is_serving(thread: &Thread, id: ObjId) -> bool
    ensures { IsTrue result ↔ (thread.now.state ≡ ThreadState.Serving id) }
{
    match thread.state {
        ThreadState::Serving(connection) => connection == id,
        _ => false,
    }
}

/// Lets client `me` call over connection `id`. `server` is the connection's server; where that is the caller it is any
/// thread, and stays as it is.
pub fn call(
    conn: &mut Connection,
    id: ObjId,
    links: &mut ThreadLists,
    me: ObjId,
    caller: &mut Thread,
    server: &mut Thread,
)
    requires id { id < OBJECTS }
    requires no_queue { id ≢ RUN_QUEUE }
    requires me { me < OBJECTS }
    requires free { IsFree links.old me }
    requires server { server.old.state ≡ ThreadState.Serving id → conn.old.server < OBJECTS }
    requires server_free { server.old.state ≡ ThreadState.Serving id → IsFree links.old conn.old.server }

    // The server is refused. Nothing changes but its answer.
    ensures taken { conn.old.server ≡ me → caller.new ≡ with_answer caller.old TAKEN }
    ensures kept { conn.old.server ≡ me → (conn.new ≡ conn.old) × (links.new ≡ links.old) × (server.new ≡ server.old) }

    // A server that waits for clients becomes Ready with the caller's values, at the end of the run queue, and serves
    // the caller. The caller's registers stay until it is Ready again.
    ensures client { conn.old.server ≢ me → server.old.state ≡ ThreadState.Serving id →
        conn.new ≡ record conn.old { client = Some me } }
    ensures woken { conn.old.server ≢ me → server.old.state ≡ ThreadState.Serving id →
        server.new ≡ with_state (with_values server.old caller.old) ThreadState.Ready }
    ensures queued { conn.old.server ≢ me → server.old.state ≡ ThreadState.Serving id →
        Appends links.old links.new RUN_QUEUE conn.old.server }
    ensures served { conn.old.server ≢ me → server.old.state ≡ ThreadState.Serving id →
        caller.new ≡ with_state caller.old (ThreadState.Served id) }

    // Else the caller waits behind the other clients, with its registers as they are.
    ensures joined { conn.old.server ≢ me → server.old.state ≢ ThreadState.Serving id →
        Appends links.old links.new id me }
    ensures waits { conn.old.server ≢ me → server.old.state ≢ ThreadState.Serving id →
        caller.new ≡ with_state caller.old (ThreadState.Calling id) }
    ensures busy { conn.old.server ≢ me → server.old.state ≢ ThreadState.Serving id →
        (conn.new ≡ conn.old) × (server.new ≡ server.old) }

    // Who stood in no list stands in none, but for the server that becomes Ready and the caller.
    ensures others_free { (thread : ℕ) → IsFree links.old thread → thread ≢ conn.old.server → thread ≢ me →
        IsFree links.new thread }
    // A caller that is served stands in none.
    ensures caller_free { conn.old.server ≢ me → server.old.state ≡ ThreadState.Serving id → IsFree links.new me }
{
    if conn.server == me {
        answer(caller, TAKEN);
    } else if is_serving(server, id) {
        hand_values(server, caller);
        server.state = ThreadState::Ready;
        links.push_back(RUN_QUEUE, conn.server as usize);
        conn.client = Some(me);
        caller.state = ThreadState::Served(id);
    } else {
        links.push_back(id as usize, me as usize);
        caller.state = ThreadState::Calling(id);
    }
}

/// Makes the client that is served Ready with the caller's values, where it is another thread than the caller.
fn finish(
    conn: &Connection,
    links: &mut ThreadLists,
    me: ObjId,
    caller: &Thread,
    client: &mut Thread,
)
    requires client { ForSome conn.now.client (λ served. served < OBJECTS) }
    requires client_free { ForSome conn.now.client (IsFree links.old) }
    ensures queue { list_at links.new RUN_QUEUE ≡ list_at links.old RUN_QUEUE ++ client_beside conn.now.client me }
    ensures others { (i : ℕ) → i ≢ RUN_QUEUE → list_at links.new i ≡ list_at links.old i }
    ensures woken { client_beside conn.now.client me ≢ [] →
        client.new ≡ with_state (with_values client.old caller.now) ThreadState.Ready }
    ensures lent { client_beside conn.now.client me ≡ [] → client.new ≡ client.old }
    ensures free { (thread : ℕ) → IsFree links.old thread → ¬ Contains (client_beside conn.now.client me) thread →
        IsFree links.new thread }
{
    match conn.client {
        Some(served) if served != me => {
            hand_values(client, caller);
            client.state = ThreadState::Ready;
            links.push_back(RUN_QUEUE, served as usize);
        }
        _ => {}
    }
}

/// Lets the server serve the first client that waits, or wait for clients.
fn serve_next(
    conn: &mut Connection,
    id: ObjId,
    links: &mut ThreadLists,
    caller: &mut Thread,
    next: &mut Thread,
)
    requires { id < OBJECTS }
    ensures client { conn.new ≡ record conn.old { client = slice_get (list_at links.old id) 0 } }
    ensures left { list_at links.new id ≡ drop 1 (list_at links.old id) }
    ensures others { (i : ℕ) → i ≢ id → list_at links.new i ≡ list_at links.old i }
    ensures served { list_at links.old id ≢ [] → next.new ≡ with_state next.old (ThreadState.Served id) }
    ensures answered { list_at links.old id ≢ [] → caller.new ≡ with_values caller.old next.old }
    ensures serving { list_at links.old id ≡ [] → caller.new ≡ with_state caller.old (ThreadState.Serving id) }
    ensures lent { list_at links.old id ≡ [] → next.new ≡ next.old }
    ensures free { (thread : ℕ) → IsFree links.old thread → IsFree links.new thread }
{
    match links.pop_front(id as usize) {
        Some(first) => {
            conn.client = Some(first as ObjId);
            next.state = ThreadState::Served(id);
            hand_values(caller, next);
        }
        None => {
            conn.client = None;
            caller.state = ThreadState::Serving(id);
        }
    }
}

/// Lets thread `me` serve connection `id`. `client` is the client that is served, and `next` the first that waits.
/// Where there is none, or the client is the caller, it is any thread, and stays as it is.
pub fn serve(
    conn: &mut Connection,
    id: ObjId,
    links: &mut ThreadLists,
    me: ObjId,
    caller: &mut Thread,
    client: &mut Thread,
    next: &mut Thread,
)
    requires id { id < OBJECTS }
    requires no_queue { id ≢ RUN_QUEUE }
    requires client { ForSome conn.old.client (λ served. served < OBJECTS) }
    requires client_free { ForSome conn.old.client (IsFree links.old) }

    // Who isn't the server is refused. Nothing changes but its answer.
    ensures taken { conn.old.server ≢ me → caller.new ≡ with_answer caller.old TAKEN }
    ensures kept { conn.old.server ≢ me → (conn.new ≡ conn.old) × (links.new ≡ links.old) }
    ensures untouched { conn.old.server ≢ me → (client.new ≡ client.old) × (next.new ≡ next.old) }

    // The client that was served becomes Ready with the server's values, at the end of the run queue.
    ensures woken { conn.old.server ≡ me → client_beside conn.old.client me ≢ [] →
        client.new ≡ with_state (with_values client.old caller.old) ThreadState.Ready }
    ensures queue { conn.old.server ≡ me →
        list_at links.new RUN_QUEUE ≡ list_at links.old RUN_QUEUE ++ client_beside conn.old.client me }
    ensures lent { client_beside conn.old.client me ≡ [] → client.new ≡ client.old }

    // Then the first client that waits is served, and the server goes on with its values. The registers of that client
    // stay until it is Ready again.
    ensures client { conn.old.server ≡ me → conn.new ≡ record conn.old { client = slice_get (list_at links.old id) 0 } }
    ensures left { conn.old.server ≡ me → list_at links.new id ≡ drop 1 (list_at links.old id) }
    ensures served { conn.old.server ≡ me → list_at links.old id ≢ [] →
        next.new ≡ with_state next.old (ThreadState.Served id) }
    ensures answered { conn.old.server ≡ me → list_at links.old id ≢ [] → caller.new ≡ with_values caller.old next.old }

    // Where none waits, the server waits for clients, and nobody is served.
    ensures serving { conn.old.server ≡ me → list_at links.old id ≡ [] →
        caller.new ≡ with_state caller.old (ThreadState.Serving id) }
    ensures nobody { list_at links.old id ≡ [] → next.new ≡ next.old }

    ensures others { (i : ℕ) → i ≢ id → i ≢ RUN_QUEUE → list_at links.new i ≡ list_at links.old i }

    // Who stood in no list stands in none, but for the client that becomes Ready.
    ensures free { (thread : ℕ) → IsFree links.old thread → ¬ Contains (client_beside conn.old.client me) thread →
        IsFree links.new thread }
{
    if conn.server != me {
        answer(caller, TAKEN);
        return;
    }
    finish(conn, links, me, caller, client);
    serve_next(conn, id, links, caller, next);
}
