//! That a memory can be had, and examples of each event.

ghost use Rattle.pmem_model.specs.Memory.{AllHome};

use pmem_model::Pmem;
use sls_base::{CORES, CoreNo, FRAMES, LINE_WORDS, WORDS};
use std::alloc::Global;
use std::process::Abort;
use std::test::Fail;

/// The first word of frame 3.
const FRAME: usize = 19_456;

/// An event.
#[derive(Clone, Copy)]
enum Event {
    /// A burst of one word.
    Store(usize, u64),
    /// A copy of a frame into another.
    Copy(usize, usize),
    /// A flush of the line of a word.
    Flush(CoreNo, usize),
    Fence(CoreNo),
    WriteBack(usize),
    Cut,
}

/// What a word is after some events.
#[derive(Clone, Copy)]
struct Seen {
    at: usize,
    cached: u64,
    durable: u64,
}

/// What a memory is after some events.
#[derive(Clone, Copy)]
struct After<'a> {
    words: &'a [Seen],
    first_dirty: Option<usize>,
    ops: u64,
    commits: u64,
    cuts: u64,
}

/// An event happens. One that names what isn't there does nothing.
fn happen(nvm: &mut Pmem, event: &Event)
    requires { AllHome nvm.old }
    ensures { AllHome nvm.new }
{
    match event {
        Event::Store(at, value) if *at < WORDS => nvm.burst(*at, &[*value]),
        Event::Copy(from, to) if *from < FRAMES && *to < FRAMES && *from != *to => {
            nvm.copy(*from, *to);
        }
        Event::Flush(core, at) if (*core as usize) < CORES && *at < WORDS => {
            nvm.flush(*core, *at / LINE_WORDS * LINE_WORDS, 1);
        }
        Event::Fence(core) if (*core as usize) < CORES => nvm.fence(*core),
        Event::WriteBack(at) if *at < WORDS => nvm.write_back(*at),
        Event::Cut => nvm.cut(),
        _ => {}
    }
}

/// The cached and the durable value of a word.
fn values(nvm: &Pmem, at: usize) -> Option<(u64, u64)>
    requires { AllHome nvm.now }
{
    if at < WORDS {
        Some((nvm.read(at), nvm.durable(at)))
    } else {
        None
    }
}

/// Compares a new memory after some events with what it should be.
fn compare(rt: &impl Abort, alloc: Global, events: &[Event], after: &After) -> Result<(), Fail> {
    let mut nvm = Pmem::new(alloc)?;
    for event in events {
        happen(&mut nvm, event);
    }
    for word in after.words {
        assert_eq!(rt;
            values(&nvm, word.at),
            Some((word.cached, word.durable)),
            "word {}",
            word.at
        );
    }
    assert_eq!(rt; nvm.dirty_from(0), after.first_dirty);
    assert_eq!(rt; nvm.ops(), after.ops);
    assert_eq!(rt; nvm.commits(), after.commits);
    assert_eq!(rt; nvm.cuts(), after.cuts);
    Ok(())
}

#[test]
fn a_new_memory_reads_zero(rt: HostRuntime) -> Result<(), Fail> {
    let events: [Event; 0] = [];
    let words = [
        Seen {
            at: 0,
            cached: 0,
            durable: 0,
        },
        Seen {
            at: 558_591,
            cached: 0,
            durable: 0,
        },
    ];
    let after = After {
        words: &words,
        first_dirty: None,
        ops: 0,
        commits: 0,
        cuts: 0,
    };
    compare(&rt, rt.alloc(), &events, &after)
}

#[test]
fn a_burst_and_a_copy_take_marks_away(rt: HostRuntime) -> Result<(), Fail> {
    let events: [Event; 6] = [
        Event::Store(FRAME, 7),
        Event::Flush(0, FRAME),
        Event::Store(FRAME, 8),
        Event::Flush(0, 17_920),
        Event::Copy(3, 0),
        Event::Fence(0),
    ];
    let words = [
        Seen {
            at: FRAME,
            cached: 8,
            durable: 0,
        },
        Seen {
            at: 17_920,
            cached: 8,
            durable: 0,
        },
    ];
    let after = After {
        words: &words,
        first_dirty: Some(17_920),
        ops: 6,
        commits: 0,
        cuts: 0,
    };
    compare(&rt, rt.alloc(), &events, &after)
}

#[test]
fn a_fence_settles_the_marks_of_its_own_core(rt: HostRuntime) -> Result<(), Fail> {
    let events: [Event; 5] = [
        Event::Store(0, 6),
        Event::Flush(0, 0),
        Event::Store(FRAME + 1, 7),
        Event::Flush(1, FRAME),
        Event::Fence(0),
    ];
    let words = [
        Seen {
            at: 0,
            cached: 6,
            durable: 6,
        },
        Seen {
            at: FRAME + 1,
            cached: 7,
            durable: 0,
        },
    ];
    let after = After {
        words: &words,
        first_dirty: Some(FRAME + 1),
        ops: 5,
        commits: 0,
        cuts: 0,
    };
    compare(&rt, rt.alloc(), &events, &after)
}

#[test]
fn dirty_words_are_found_in_order(rt: HostRuntime) -> Result<(), Fail> {
    let events: [Event; 5] = [
        Event::Store(17_919, 1),
        Event::Store(17_920, 2),
        Event::Store(558_591, 3),
        Event::WriteBack(17_919),
        Event::WriteBack(558_591),
    ];
    let words = [
        Seen {
            at: 17_919,
            cached: 1,
            durable: 1,
        },
        Seen {
            at: 17_920,
            cached: 2,
            durable: 0,
        },
        Seen {
            at: 558_591,
            cached: 3,
            durable: 3,
        },
    ];
    let after = After {
        words: &words,
        first_dirty: Some(17_920),
        ops: 3,
        commits: 0,
        cuts: 0,
    };
    compare(&rt, rt.alloc(), &events, &after)
}

#[test]
fn each_change_of_the_durable_word_1_is_a_commit(rt: HostRuntime) -> Result<(), Fail> {
    let events: [Event; 8] = [
        Event::Store(1, 6),
        Event::Flush(2, 1),
        Event::Fence(2),
        Event::Fence(2),
        Event::Store(1, 7),
        Event::WriteBack(1),
        Event::Store(1, 8),
        Event::Cut,
    ];
    let words = [Seen {
        at: 1,
        cached: 7,
        durable: 7,
    }];
    let after = After {
        words: &words,
        first_dirty: None,
        ops: 6,
        commits: 2,
        cuts: 1,
    };
    compare(&rt, rt.alloc(), &events, &after)
}

#[test]
fn more_flushes_than_are_listed_are_fenced(rt: HostRuntime) -> Result<(), Fail> {
    let mut nvm = Pmem::new(rt.alloc())?;
    for line in 0..100usize {
        happen(&mut nvm, &Event::Store(5_000 * line, 9));
        happen(&mut nvm, &Event::Flush(7, 5_000 * line));
    }
    happen(&mut nvm, &Event::Fence(7));
    assert_eq!(rt; values(&nvm, 320_000), Some((9, 9)));
    assert_eq!(rt; nvm.dirty_from(0), None);
    Ok(())
}

/// Lends frames 3 and 4, copies the first into the second, makes the copy durable, and gives both back. It gives what
/// word 9 of the copy was, with the first dirty word and the count of the copy.
#[tactic(auto, using(pmem_model::specs::PlaceLaws::frame_home_of))]
fn copy_away(nvm: &mut Pmem) -> ((u64, u64), Option<usize>, u64)
    requires { AllHome nvm.old }
{
    let source = nvm.lend(3);
    let mut part = nvm.lend(4);
    part.copy_from(&source);
    let word = (part.read(9), part.durable(9));
    part.flush(6);
    part.fence(6);
    let seen = (word, part.dirty_from(0), part.ops());
    nvm.give_back(4, part);
    nvm.give_back(3, source);
    seen
}

#[test]
fn a_frame_away_has_the_events_of_the_memory(rt: HostRuntime) -> Result<(), Fail> {
    let mut words = vec![in rt.alloc(); 0u64; WORDS]?;
    words[FRAME + 9] = 5;
    let mut nvm = Pmem::from_words(rt.alloc(), &words)?;
    happen(&mut nvm, &Event::Store(FRAME, 6));
    let seen = copy_away(&mut nvm);
    assert_eq!(rt; (seen, nvm.ops()), (((5, 0), None, 3), 4));
    assert_eq!(rt; nvm.dirty_from(0), Some(FRAME));
    Ok(())
}
