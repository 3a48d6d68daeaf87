//! Threads that wait for each other. A call is made only where the lists allow it, which a test asks at run time.

ghost use Rattle.std.specs.Prelude.{◌<◌};

use super::*;
use link_lists::Links;
use sls_base::{OBJECTS, ObjId, Thread, ThreadState};

const NOTE: ObjId = 20;

const CONNECTION: ObjId = 21;

const SERVER: ObjId = 9;

const A: ObjId = 10;

const B: ObjId = 11;

const C: ObjId = 12;

/// A thread that runs, with two values to pass on.
fn running(first: u32, second: u32) -> Thread {
    let mut x = [0; 32];
    x[FIRST_VALUE] = first;
    x[SECOND_VALUE] = second;
    Thread {
        group: 7,
        space: 8,
        state: ThreadState::Running(3),
        pc: 64,
        x,
    }
}

/// A thread in another state, with an answer and two values.
fn with(thread: Thread, state: ThreadState, values: [u32; 3]) -> Thread {
    let mut thread = thread;
    thread.state = state;
    thread.x[10] = values[0];
    thread.x[11] = values[1];
    thread.x[12] = values[2];
    thread
}

fn wait_on(note: &mut Notification, links: &mut ThreadLists, me: ObjId, caller: &mut Thread)
    requires { me < OBJECTS }
{
    if !links.is_linked(me as usize) {
        wait(note, NOTE, links, me, caller);
    }
}

fn call_over(
    conn: &mut Connection,
    links: &mut ThreadLists,
    me: ObjId,
    caller: &mut Thread,
    server: &mut Thread,
)
    requires { me < OBJECTS }
{
    conn.server = SERVER;
    if !links.is_linked(me as usize) && !links.is_linked(SERVER as usize) {
        call(conn, CONNECTION, links, me, caller, server);
    }
}

fn serve_over(
    conn: &mut Connection,
    links: &mut ThreadLists,
    me: ObjId,
    caller: &mut Thread,
    client: &mut Thread,
    next: &mut Thread,
) {
    let may_serve = match conn.client {
        Some(served) => (served as usize) < OBJECTS && !links.is_linked(served as usize),
        None => true,
    };
    if may_serve {
        serve(conn, CONNECTION, links, me, caller, client, next);
    }
}

#[test]
fn waiters_wake_in_order_without_the_one_that_left(rt: HostRuntime) {
    let mut links: ThreadLists = Links::new();
    let mut note = Notification { count: 0 };
    let [mut a, mut b, mut c, mut caller] = [running(1, 2); 4];
    wait_on(&mut note, &mut links, A, &mut a);
    wait_on(&mut note, &mut links, B, &mut b);
    wait_on(&mut note, &mut links, C, &mut c);
    assert_eq!(rt;
        b,
        with(running(1, 2), ThreadState::Waiting(NOTE), [0, 1, 2])
    );
    if links.is_linked(B as usize) {
        links.unlink(B as usize);
    }
    caller.x[ANSWER] = 5;
    signal(&mut note, NOTE, &mut links, &mut caller, &mut a);
    assert_eq!(rt; a, with(running(1, 2), ThreadState::Ready, [0, 1, 2]));
    assert_eq!(rt; links.first(NOTE as usize), Some(C as usize));
    signal(&mut note, NOTE, &mut links, &mut caller, &mut c);
    assert_eq!(rt; c.state, ThreadState::Ready);
    assert_eq!(rt; note.count, 0);
    signal(&mut note, NOTE, &mut links, &mut caller, &mut b);
    assert_eq!(rt; note.count, 1);
    assert_eq!(rt; b.state, ThreadState::Waiting(NOTE));
    assert_eq!(rt; caller, running(1, 2));
    assert_eq!(rt; links.pop_front(1), Some(A as usize));
    assert_eq!(rt; links.pop_front(1), Some(C as usize));
    assert_eq!(rt; links.pop_front(1), None);
    wait_on(&mut note, &mut links, A, &mut caller);
    assert_eq!(rt; note.count, 0);
    assert_eq!(rt; caller, running(1, 2));
}

#[test]
fn a_full_count_refuses_until_somebody_takes_one(rt: HostRuntime) {
    let mut links: ThreadLists = Links::new();
    let mut note = Notification { count: u32::MAX };
    let [mut caller, mut nobody] = [running(1, 2); 2];
    signal(&mut note, NOTE, &mut links, &mut caller, &mut nobody);
    assert_eq!(rt;
        caller,
        with(running(1, 2), ThreadState::Running(3), [0xffff_fff4, 1, 2])
    );
    assert_eq!(rt; note.count, u32::MAX);
    wait_on(&mut note, &mut links, A, &mut caller);
    assert_eq!(rt; caller, running(1, 2));
    signal(&mut note, NOTE, &mut links, &mut caller, &mut nobody);
    assert_eq!(rt; caller, running(1, 2));
    assert_eq!(rt; note.count, u32::MAX);
}

#[test]
fn only_others_call_and_only_the_server_serves(rt: HostRuntime) {
    let mut links: ThreadLists = Links::new();
    let mut conn = Connection {
        server: SERVER,
        client: None,
    };
    let [mut caller, mut other, mut next] = [running(1, 2); 3];
    let refused = with(running(1, 2), ThreadState::Running(3), [0xffff_fff2, 1, 2]);
    call_over(&mut conn, &mut links, SERVER, &mut caller, &mut other);
    assert_eq!(rt; caller, refused);
    let mut caller = running(1, 2);
    serve_over(&mut conn, &mut links, A, &mut caller, &mut other, &mut next);
    assert_eq!(rt; caller, refused);
    assert_eq!(rt; other, running(1, 2));
    assert_eq!(rt; next, running(1, 2));
    assert_eq!(rt; conn.client, None);
    assert_eq!(rt; links.first(CONNECTION as usize), None);
}

#[test]
fn a_waiting_server_gets_the_values_of_who_calls(rt: HostRuntime) {
    let mut links: ThreadLists = Links::new();
    let mut conn = Connection {
        server: SERVER,
        client: None,
    };
    let [mut server, mut a, mut any] = [running(7, 8); 3];
    serve_over(&mut conn, &mut links, SERVER, &mut server, &mut any, &mut a);
    assert_eq!(rt;
        server,
        with(running(7, 8), ThreadState::Serving(CONNECTION), [0, 7, 8])
    );
    assert_eq!(rt; a, running(7, 8));
    let mut a = running(7, 9);
    server.x[ANSWER] = 21;
    call_over(&mut conn, &mut links, A, &mut a, &mut server);
    assert_eq!(rt; server, with(running(7, 8), ThreadState::Ready, [0, 7, 9]));
    assert_eq!(rt;
        a,
        with(running(7, 9), ThreadState::Served(CONNECTION), [0, 7, 9])
    );
    assert_eq!(rt; conn.client, Some(A));
    assert_eq!(rt; links.pop_front(1), Some(SERVER as usize));
    assert_eq!(rt; links.first(CONNECTION as usize), None);
}

#[test]
fn clients_are_served_in_order_and_get_their_answers(rt: HostRuntime) {
    let mut links: ThreadLists = Links::new();
    let mut conn = Connection {
        server: SERVER,
        client: None,
    };
    let [mut server, mut any] = [running(3, 4); 2];
    let mut a = running(10, 11);
    let mut b = running(20, 21);
    call_over(&mut conn, &mut links, A, &mut a, &mut server);
    call_over(&mut conn, &mut links, B, &mut b, &mut server);
    assert_eq!(rt;
        a,
        with(
            running(10, 11),
            ThreadState::Calling(CONNECTION),
            [0, 10, 11]
        )
    );
    assert_eq!(rt; conn.client, None);
    serve_over(&mut conn, &mut links, SERVER, &mut server, &mut any, &mut a);
    assert_eq!(rt; server, running(10, 11));
    assert_eq!(rt; a.state, ThreadState::Served(CONNECTION));
    let mut server = running(5, 6);
    serve_over(&mut conn, &mut links, SERVER, &mut server, &mut a, &mut b);
    assert_eq!(rt; server, running(20, 21));
    assert_eq!(rt; a, with(running(10, 11), ThreadState::Ready, [0, 5, 6]));
    assert_eq!(rt;
        b,
        with(
            running(20, 21),
            ThreadState::Served(CONNECTION),
            [0, 20, 21]
        )
    );
    assert_eq!(rt; conn.client, Some(B));
    let mut server = running(1, 2);
    serve_over(&mut conn, &mut links, SERVER, &mut server, &mut b, &mut any);
    assert_eq!(rt;
        server,
        with(running(1, 2), ThreadState::Serving(CONNECTION), [0, 1, 2])
    );
    assert_eq!(rt; b, with(running(20, 21), ThreadState::Ready, [0, 1, 2]));
    assert_eq!(rt; any, running(3, 4));
    assert_eq!(rt; conn.client, None);
    assert_eq!(rt; links.pop_front(1), Some(A as usize));
    assert_eq!(rt; links.pop_front(1), Some(B as usize));
    assert_eq!(rt; links.pop_front(1), None);
}
