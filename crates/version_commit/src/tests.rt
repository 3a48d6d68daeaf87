//! Commits among other events, worked out by hand, and drawn ones beside a slow form.

ghost use Rattle.std.specs.Prelude.{◌↔◌, IsTrue, All};
ghost use Rattle.pmem_model.specs.Memory.{AllHome};
ghost use Rattle.version_commit.specs.Events.{IsPossible};

use super::*;
use pmem_layout::{CORES_AT, FORMAT_AT, FORMAT_WORD};
use pmem_model::Pmem;
use sls_base::{CORES, Lcg, VERSION_AT, Version, WORDS};
use std::alloc::Global;
use std::process::Abort;
use std::test::Fail;

/// Whether the event names a word and a core that there are, and stores elsewhere than in the version word.
fn is_possible(event: Event) -> bool
    ensures { IsTrue result ↔ IsPossible event }
{
    match event {
        Event::Step | Event::Cut => true,
        Event::WriteBack(at) => at < WORDS,
        Event::Flush(core, at) => (core as usize) < CORES && at < WORDS,
        Event::Fence(core) => (core as usize) < CORES,
        Event::Store(at, _) => at < WORDS && at != VERSION_AT,
    }
}

/// The committed version after one event on the way to a version. One that isn't possible does nothing.
fn version_after(committer: &mut Committer, nvm: &mut Pmem, next: Version, event: Event) -> Version
    requires { AllHome nvm.old }
    ensures { AllHome nvm.new }
{
    if is_possible(event) {
        play(committer, nvm, next, &[event]);
    }
    version(nvm)
}

/// Events on the way to version 1 of a new memory, with the version that is committed after each.
type Row<'a> = &'a [(Event, Version)];

fn compare(rt: &impl Abort, alloc: Global, number: usize, row: Row) -> Result<(), Fail> {
    let mut nvm = Pmem::new(alloc)?;
    let mut committer = Committer::new();
    for (event, committed) in row {
        assert_eq!(rt;
            version_after(&mut committer, &mut nvm, 1, *event),
            *committed,
            "row {number}"
        );
    }
    Ok(())
}

#[test]
fn the_commit_is_the_event_that_makes_the_version_word_durable(
    rt: HostRuntime,
) -> Result<(), Fail> {
    let rows: [Row; 6] = [
        // the fence of its own steps
        &[
            (Event::Step, 0),
            (Event::Step, 0),
            (Event::Step, 1),
            (Event::Cut, 1),
        ],
        // a write-back behind the store, and the other steps change nothing
        &[
            (Event::Step, 0),
            (Event::WriteBack(VERSION_AT), 1),
            (Event::Step, 1),
            (Event::Step, 1),
            (Event::Cut, 1),
        ],
        // another fence by the same core, or by a core that flushed the line
        &[(Event::Step, 0), (Event::Step, 0), (Event::Fence(0), 1)],
        &[
            (Event::Step, 0),
            (Event::Flush(3, CORES_AT), 0),
            (Event::Fence(3), 1),
        ],
        // neither a fence by another core nor the write-back of another word
        &[
            (Event::Step, 0),
            (Event::Step, 0),
            (Event::Fence(3), 0),
            (Event::WriteBack(CORES_AT), 0),
            (Event::Store(CORES_AT, 7), 0),
            (Event::Step, 1),
        ],
        // a cut before it loses all steps, and the next commit begins anew
        &[
            (Event::Step, 0),
            (Event::Step, 0),
            (Event::Cut, 0),
            (Event::Step, 0),
            (Event::Step, 0),
            (Event::Step, 1),
        ],
    ];
    for (number, row) in rows.iter().enumerate() {
        compare(&rt, rt.alloc(), number, row)?;
    }
    Ok(())
}

#[test]
fn a_step_is_one_operation_and_the_third_is_the_last(rt: HostRuntime) -> Result<(), Fail> {
    let mut nvm = Pmem::new(rt.alloc())?;
    let mut committer = Committer::new();
    let formats = [false, false, true].map(|_| committer.format_step(&mut nvm));
    assert_eq!(rt; formats, [false, false, true]);
    assert_eq!(rt; (nvm.durable(FORMAT_AT), version(&nvm)), (FORMAT_WORD, 0));
    let commits = [1, 1, 1, 2, 2, 2].map(|next| committer.commit_step(&mut nvm, next));
    assert_eq!(rt; commits, [false, false, true, false, false, true]);
    assert_eq!(rt; (version(&nvm), nvm.ops(), nvm.commits()), (2, 9, 2));
    Ok(())
}

/// The version word by itself: what it reads, what is durable, for which cores it is in flight, and the next step.
#[derive(Clone, Copy)]
struct SlowWord {
    reads: Version,
    durable: Version,
    marks: [bool; 8],
    step: usize,
}

impl SlowWord {
    fn fence(&mut self, core: usize) {
        if core < 8 && self.marks[core] {
            self.durable = self.reads;
            self.marks[core] = false;
        }
    }

    fn flush(&mut self, core: usize) {
        if core < 8 {
            self.marks[core] = true;
        }
    }

    fn happen(&mut self, next: Version, event: Event) {
        match event {
            Event::Step => {
                match self.step {
                    0 => {
                        self.reads = next;
                        self.marks = [false; 8];
                    }
                    1 => self.flush(0),
                    _ => self.fence(0),
                }
                self.step = if self.step < 2 { self.step + 1 } else { 0 };
            }
            Event::WriteBack(at) if at == VERSION_AT => self.durable = self.reads,
            Event::Flush(core, at) if at < 8 => self.flush(core as usize),
            Event::Fence(core) => self.fence(core as usize),
            Event::Cut => {
                self.reads = self.durable;
                self.marks = [false; 8];
                self.step = 0;
            }
            _ => {}
        }
    }
}

/// An event, as a drawn number tells.
fn drawn(draw: u64) -> Event {
    let core = (draw / 16 % 8) as u8;
    let at = (draw / 128 % 12) as usize;
    match draw % 16 {
        0..=6 => Event::Step,
        7 | 8 => Event::WriteBack(at),
        9 | 10 => Event::Flush(core, at),
        11..=13 => Event::Fence(core),
        14 => Event::Store(CORES_AT, draw),
        _ => Event::Cut,
    }
}

#[test]
fn drawn_events_commit_when_the_version_word_by_itself_does(rt: HostRuntime) -> Result<(), Fail> {
    let mut nvm = Pmem::new(rt.alloc())?;
    let mut committer = Committer::new();
    let mut slow = SlowWord {
        reads: 0,
        durable: 0,
        marks: [false; 8],
        step: 0,
    };
    let mut draws = Lcg { state: 12 };
    for number in 0..3000u32 {
        let event = drawn(draws.next() / 65536);
        let next = if slow.step == 0 && slow.durable < 1000 {
            slow.durable + 1
        } else {
            slow.reads
        };
        slow.happen(next, event);
        let found = version_after(&mut committer, &mut nvm, next, event);
        assert_eq!(rt; found, slow.durable, "event {number}");
    }
    assert!(rt; nvm.commits() > 100);
    Ok(())
}
