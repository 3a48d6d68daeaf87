//! Lists of events over the counting program, with the answers worked out by hand.

ghost use Rattle.std.specs.Prelude.{IsTrue, All};
ghost use Rattle.sls_kernel.specs.Play.{IsPossible};

use crate::programs::counting;
use pmem_model::Pmem;
use sls_kernel::{Answer, Asked, Did, Event, Why, play_from_boot};
use std::alloc::Global;
use std::process::Abort;
use std::test::Fail;

/// An answer, with an entry as its number and its four bytes as a count.
#[derive(Clone, Copy, Debug, PartialEq, Eq)]
enum Told {
    Did(Did),
    Asked(Asked),
    WroteBack(Option<u64>),
    Out(u64, Option<u32>),
    Dry,
    NotUp,
    Restarted,
}

const FORMATS: Told = Told::Did(Did::Inner(Why::Format));

const RECOVERS: Told = Told::Did(Did::Inner(Why::Recover));

const LEADS: Told = Told::Did(Did::Inner(Why::Lead));

const TICKS: Told = Told::Did(Did::Retired);

/// So many events of a kind, each with this answer.
type Row = (u32, Event, Told);

/// From the boot until the first count is given to the device. Formatting is cut twice: before its format word is
/// durable, and after a write-back made it so.
const FIRST: [Row; 17] = [
    (1, Event::Accept(0), Told::NotUp),
    (16, Event::Turn, FORMATS),
    (1, Event::Ask, Told::NotUp),
    (1, Event::Cut, Told::Restarted),
    (15, Event::Turn, FORMATS),
    (1, Event::WriteBack(0), Told::WroteBack(None)),
    (1, Event::Cut, Told::Restarted),
    (4, Event::Turn, RECOVERS),
    (1, Event::Turn, Told::Did(Did::Up(0))),
    (9, Event::Turn, TICKS),
    (1, Event::Accept(0), Told::Dry),
    (1, Event::Ask, Told::Asked(Asked::Started)),
    (1, Event::Ask, Told::Asked(Asked::InFlight)),
    (15, Event::Turn, LEADS),
    (1, Event::Turn, Told::Did(Did::Committed(1))),
    (1, Event::Accept(0), Told::Out(0, Some(1))),
    (1, Event::Accept(0), Told::Dry),
];

/// What is counted before a checkpoint that is cut is counted again after it. A write-back commits the next one.
const SECOND: [Row; 22] = [
    (9, Event::Turn, TICKS),
    (1, Event::Ask, Told::Asked(Asked::Started)),
    (13, Event::Turn, LEADS),
    (1, Event::WriteBack(1), Told::WroteBack(None)),
    (1, Event::Cut, Told::Restarted),
    (1, Event::Ask, Told::NotUp),
    (2, Event::Turn, RECOVERS),
    (1, Event::Cut, Told::Restarted),
    (1, Event::Accept(0), Told::NotUp),
    (4, Event::Turn, RECOVERS),
    (1, Event::Turn, Told::Did(Did::Up(1))),
    (1, Event::Accept(0), Told::Dry),
    (9, Event::Turn, TICKS),
    (1, Event::Ask, Told::Asked(Asked::Started)),
    (14, Event::Turn, LEADS),
    (1, Event::WriteBack(1), Told::WroteBack(Some(2))),
    (1, Event::Accept(0), Told::Out(1, Some(2))),
    (1, Event::Cut, Told::Restarted),
    (4, Event::Turn, RECOVERS),
    (1, Event::Turn, Told::Did(Did::Up(2))),
    (1, Event::Accept(0), Told::Dry),
    (1, Event::Turn, TICKS),
];

fn told_of(answer: &Answer) -> Told {
    match answer {
        Answer::Did(did) => Told::Did(*did),
        Answer::Asked(asked) => Told::Asked(*asked),
        Answer::WroteBack(version) => Told::WroteBack(*version),
        Answer::Accepted(_, Some(entry)) => {
            Told::Out(entry.number, count_of(entry.bytes.as_slice()))
        }
        Answer::Accepted(_, None) => Told::Dry,
        Answer::NotUp => Told::NotUp,
        Answer::Restarted => Told::Restarted,
    }
}

/// The count that four bytes spell.
fn count_of(bytes: &[u8]) -> Option<u32> {
    match bytes {
        [a, b, c, d] => Some(u32::from_le_bytes([*a, *b, *c, *d])),
        _ => None,
    }
}

fn events_of(alloc: Global, rows: &[Row]) -> Result<Vec<Event>, Fail> {
    let mut events = Vec::new(alloc);
    for (count, event, _) in rows {
        for _ in 0..*count {
            events.push(*event)?;
        }
    }
    Ok(events)
}

/// Each answer is the one of its row, and there are no others.
fn agree(rt: &impl Abort, rows: &[Row], answers: &[Answer]) {
    let mut answers = answers.iter();
    for (row, (count, _, expected)) in rows.iter().enumerate() {
        for _ in 0..*count {
            assert_eq!(rt;
                answers.next().map(told_of),
                Some(*expected),
                "in row {row}"
            );
        }
    }
    assert!(rt; answers.next().is_none());
}

fn are_possible(events: &[Event]) -> bool
    ensures { IsTrue result → All IsPossible events.now }
{
    events.iter().all(|event| event.is_possible())
}

#[test]
fn a_list_of_events_has_the_answers_of_the_plain_machine(rt: HostRuntime) -> Result<(), Fail> {
    let image = counting(&rt, rt.alloc())?;
    let events = events_of(rt.alloc(), &FIRST)?;
    assert!(rt; are_possible(&events));
    let nvm = Pmem::new(rt.alloc())?;
    let first = play_from_boot(rt.alloc(), &image, 1, nvm, &events);
    let first = first
        .ok()
        .ok_or("there is memory for a machine and its answers")?;
    agree(&rt, &FIRST, &first.answers);

    let events = events_of(rt.alloc(), &SECOND)?;
    assert!(rt; are_possible(&events));
    let second = first.machine.play(rt.alloc(), &image, &events);
    let second = second.ok().ok_or("there is memory for more answers")?;
    agree(&rt, &SECOND, &second.answers);
    Ok(())
}
