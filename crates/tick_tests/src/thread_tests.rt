//! Threads in the run queue, and those that wait for one another.

ghost use Rattle.std.specs.Prelude.{IfOk};
ghost use Rattle.kernel_calls.specs.Kernel.{IsHeld};

use crate::beside::Beside;
use crate::programs::{image_of, refused};
use sls_base::{ObjId, ThreadState};
use std::alloc::Global;
use std::process::Abort;
use std::test::Fail;

/// Whether a thread does this.
fn is_in(both: &Beside, id: ObjId, state: ThreadState) -> bool {
    both.thread(id).state == state
}

/// Each thread yields with its second instruction, and so on.
const YIELDS: &str = "
again:
    addi x17, x0, 0     # yield
    ecall
    jal x0, again
";

#[test]
fn a_thread_that_yields_goes_to_the_back(rt: HostRuntime) -> Result<(), Fail> {
    let alloc = rt.alloc();
    let image = image_of(&rt, alloc, YIELDS, 3, 1)?;
    let mut both = Beside::begin(&rt, alloc, &image, 1)?;
    assert!(rt; both.has_queue(&[10, 11, 12]));
    both.ticks(&rt, alloc, 2)?;
    assert!(rt; both.has_queue(&[11, 12, 10]));
    both.ticks(&rt, alloc, 2)?;
    assert!(rt; both.has_queue(&[12, 10, 11]));
    both.ticks(&rt, alloc, 2 + 3)?;
    assert!(rt; both.has_queue(&[11, 12, 10]));
    Ok(())
}

/// Each thread counts.
const COUNTS: &str = "
again:
    addi x5, x5, 1
    jal x0, again
";

#[test]
fn a_thread_at_its_slices_end_goes_to_the_back(rt: HostRuntime) -> Result<(), Fail> {
    let alloc = rt.alloc();
    let image = image_of(&rt, alloc, COUNTS, 3, 1)?;
    let mut both = Beside::begin(&rt, alloc, &image, 1)?;
    both.ticks(&rt, alloc, 15)?;
    assert!(rt; both.has_queue(&[11, 12]) && is_in(&both, 10, ThreadState::Running(0)));
    both.ticks(&rt, alloc, 1)?;
    assert!(rt; both.has_queue(&[11, 12, 10]) && both.thread(10).x[5] == 8);
    both.ticks(&rt, alloc, 3 * 16)?;
    assert!(rt; both.has_queue(&[11, 12, 10]) && both.thread(10).x[5] == 16);
    Ok(())
}

/// The first of four threads makes a notification, on which the others wait. It signals four times.
const WAITERS: &str = "
    bne x10, x0, wait
    addi x17, x0, 12    # note_new
    ecall
    addi x17, x0, 0     # yield
    ecall
    addi x10, x0, 13
    addi x17, x0, 13    # signal
    ecall
    addi x10, x0, 13
    addi x17, x0, 13    # signal
    ecall
    addi x10, x0, 13
    addi x17, x0, 13    # signal
    ecall
    addi x10, x0, 13
    addi x17, x0, 13    # signal
    ecall
wait:
    addi x10, x0, 13
    addi x17, x0, 14    # wait
    ecall
    addi x17, x0, 1     # halt
    ecall
";

#[test]
fn signals_wake_the_first_that_waits_and_then_count(rt: HostRuntime) -> Result<(), Fail> {
    let alloc = rt.alloc();
    let image = image_of(&rt, alloc, WAITERS, 4, 1)?;
    let mut both = Beside::begin(&rt, alloc, &image, 1)?;
    both.ticks(&rt, alloc, 5 + 3 * 4)?;
    for id in [11, 12, 13] {
        assert!(rt; is_in(&both, id, ThreadState::Waiting(14)));
    }
    both.ticks(&rt, alloc, 2 * 3)?;
    assert!(rt; both.has_queue(&[11, 12]) && is_in(&both, 13, ThreadState::Waiting(14)));
    both.ticks(&rt, alloc, 3)?;
    assert!(rt; both.has_queue(&[11, 12, 13]) && both.signals(14) == Some(0));
    both.ticks(&rt, alloc, 3)?;
    assert!(rt; both.has_queue(&[11, 12, 13]) && both.signals(14) == Some(1));
    Ok(())
}

/// The first thread signals with the last instruction of its slice of 16.
const SIGNAL_AT_SLICE_END: &str = "
    bne x10, x0, wait
    addi x17, x0, 12    # note_new
    ecall
    addi x17, x0, 0     # yield
    ecall
    addi x10, x0, 11
    addi x17, x0, 13    # signal
    addi x6, x0, 6
count:
    addi x6, x6, -1
    bne x6, x0, count
    ecall
wait:
    addi x10, x0, 11
    addi x17, x0, 14    # wait
    ecall
";

#[test]
fn who_is_woken_stands_before_who_woke_it(rt: HostRuntime) -> Result<(), Fail> {
    let alloc = rt.alloc();
    let image = image_of(&rt, alloc, SIGNAL_AT_SLICE_END, 2, 1)?;
    let mut both = Beside::begin(&rt, alloc, &image, 1)?;
    both.ticks(&rt, alloc, 5 + 4)?;
    assert!(rt; is_in(&both, 11, ThreadState::Waiting(12)));
    both.ticks(&rt, alloc, 16)?;
    assert!(rt; both.has_queue(&[11, 10]));
    Ok(())
}

/// The first thread serves a connection, which the second serves in vain, and calls.
const SERVER: &str = "
    bne x10, x0, client
    addi x17, x0, 15    # conn_new
    ecall
    addi x10, x0, 11
    addi x17, x0, 16    # call
    ecall
    addi x10, x0, 11
    addi x11, x0, 0
    addi x12, x0, 0
    addi x17, x0, 17    # serve
    ecall
    addi x10, x0, 11
    addi x11, x0, 5
    addi x12, x0, 6
    addi x17, x0, 17    # serve
    ecall
client:
    addi x10, x0, 11
    addi x11, x0, 0
    addi x12, x0, 0
    addi x17, x0, 17    # serve
    ecall
    addi x10, x0, 11
    addi x11, x0, 7
    addi x12, x0, 8
    addi x17, x0, 16    # call
    ecall
    addi x17, x0, 1     # halt
    ecall
";

/// Both after so many ticks.
fn server_after(rt: &impl Abort, alloc: Global, ticks: usize) -> Result<Beside, Fail>
    ensures { IfOk result (λ b. IsHeld b.kernel.calls b.kernel.accepted b.kernel.nvm) }
{
    let image = image_of(rt, alloc, SERVER, 2, 1)?;
    let mut both = Beside::begin(rt, alloc, &image, 1)?;
    both.ticks(rt, alloc, ticks)?;
    Ok(both)
}

#[test]
fn a_server_cannot_call_its_own_connection(rt: HostRuntime) -> Result<(), Fail> {
    let both = server_after(&rt, rt.alloc(), 3 + 3)?;
    assert!(rt; both.thread(10).x[10] == refused(14));
    Ok(())
}

#[test]
fn nobody_but_its_server_serves_a_connection(rt: HostRuntime) -> Result<(), Fail> {
    let both = server_after(&rt, rt.alloc(), 3 + 3 + 5 + 1 + 5)?;
    assert!(rt; is_in(&both, 10, ThreadState::Serving(12)));
    assert!(rt; both.thread(11).x[10] == refused(14));
    Ok(())
}

#[test]
fn a_server_that_waits_serves_a_client_at_once(rt: HostRuntime) -> Result<(), Fail> {
    let alloc = rt.alloc();
    let mut both = server_after(&rt, alloc, 3 + 3 + 5 + 1 + 5 + 5)?;
    let server = both.thread(10);
    assert!(rt; server.state == ThreadState::Ready && server.x[10] == 0);
    assert!(rt; server.x[11] == 7 && server.x[12] == 8);
    assert!(rt; is_in(&both, 11, ThreadState::Served(12)));
    both.ticks(&rt, alloc, 5)?;
    let client = both.thread(11);
    assert!(rt; client.state == ThreadState::Ready && client.x[10] == 0);
    assert!(rt; client.x[11] == 5 && client.x[12] == 6);
    Ok(())
}
