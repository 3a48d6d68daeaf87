//! Calls by number, their refusals in order, and what each needs, of the slow form.

ghost use Rattle.std.specs.Prelude.{◌≡◌, slice_get};
ghost use Rattle.plain_state.specs.Calls as plain;
ghost use Rattle.plain_state.specs.Refusals.{refusal_number};

use crate::calls::{CALL_NUMBER, Call, FIRST_ARGUMENT, Need, Refusal};
use crate::objects::Kind;
use arrayvec::ArrayVec;
use sls_base::{GRANT, READ, Thread, WRITE};

/// The order in which refusals are tested.
pub const REFUSAL_ORDER: [Refusal; 13] = [
    Refusal::NoCap,
    Refusal::WrongKind,
    Refusal::NoRight,
    Refusal::BadAddress,
    Refusal::BadSize,
    Refusal::Overlap,
    Refusal::NoSlot,
    Refusal::NoObjects,
    Refusal::NoPages,
    Refusal::NoRegions,
    Refusal::Full,
    Refusal::Empty,
    Refusal::Taken,
];

impl Refusal {
    /// What x10 gets.
    pub fn number(self) -> u32
        ensures { result ≡ refusal_number self }
    {
        let place: u32 = match self {
            Refusal::BadCall => 1,
            Refusal::NoCap => 2,
            Refusal::WrongKind => 3,
            Refusal::NoRight => 4,
            Refusal::BadAddress => 5,
            Refusal::BadSize => 6,
            Refusal::Overlap => 7,
            Refusal::NoSlot => 8,
            Refusal::NoObjects => 9,
            Refusal::NoPages => 10,
            Refusal::NoRegions => 11,
            Refusal::Full => 12,
            Refusal::Empty => 13,
            Refusal::Taken => 14,
        };
        place.wrapping_neg()
    }
}

/// The calls in the order of their numbers.
const CALLS: [Call; 19] = [
    Call::Yield,
    Call::Halt,
    Call::Put,
    Call::Get,
    Call::MemNew,
    Call::Map,
    Call::Unmap,
    Call::SpaceNew,
    Call::GroupNew,
    Call::CapCopy,
    Call::CapDrop,
    Call::ThreadNew,
    Call::NoteNew,
    Call::Signal,
    Call::Wait,
    Call::ConnNew,
    Call::ConnCall,
    Call::Serve,
    Call::Checkpoint,
];

impl Call {
    /// The call that a thread names, if it names one.
    pub fn named(thread: &Thread) -> Option<Call>
        ensures { result ≡ plain.call_named thread.now }
    {
        numbered(&CALLS, thread.x[CALL_NUMBER])
    }
}

/// The call of a number, if there is one.
fn numbered(calls: &[Call], number: u32) -> Option<Call>
    ensures { result ≡ slice_get calls.now number }
{
    calls.get(number as usize).copied()
}

impl Default for Need {
    fn default() -> Need {
        wants(0, Kind::AnyKind, 0)
    }
}

/// The argument of a call by its place, from 0 to 5.
pub fn arg(thread: &Thread, i: u8) -> u32
    ensures { result ≡ plain.arg thread.now i }
{
    thread
        .x
        .get(usize::from(i) + FIRST_ARGUMENT)
        .copied()
        .unwrap_or(0)
}

fn wants(argument: u8, kind: Kind, rights: u32) -> Need
    ensures { result ≡ plain.need argument kind rights }
{
    Need {
        argument,
        kind,
        rights,
    }
}

/// What a call of a thread needs.
pub fn needs(thread: &Thread, call: Call) -> ArrayVec<Need, 3>
    ensures { result.items ≡ plain.needs thread.now call }
{
    let read = u32::from(READ);
    let write = u32::from(WRITE);
    let mut needs = ArrayVec::new();
    match call {
        Call::Put => needs.push(wants(0, Kind::OutputKind, write)),
        Call::Get => needs.push(wants(0, Kind::InputKind, read)),
        Call::Map => {
            needs.push(wants(0, Kind::SpaceKind, write));
            needs.push(wants(1, Kind::MemoryKind, arg(thread, 5)));
        }
        Call::Unmap => needs.push(wants(0, Kind::SpaceKind, write)),
        Call::CapCopy => {
            needs.push(wants(0, Kind::AnyKind, u32::from(GRANT)));
            needs.push(wants(0, Kind::AnyKind, arg(thread, 2)));
            needs.push(wants(1, Kind::GroupKind, write));
        }
        Call::CapDrop => needs.push(wants(0, Kind::GroupKind, write)),
        Call::ThreadNew => {
            needs.push(wants(0, Kind::GroupKind, write));
            needs.push(wants(1, Kind::SpaceKind, write));
        }
        Call::Signal => needs.push(wants(0, Kind::NotificationKind, write)),
        Call::Wait => needs.push(wants(0, Kind::NotificationKind, read)),
        Call::ConnCall => needs.push(wants(0, Kind::ConnectionKind, write)),
        Call::Serve => needs.push(wants(0, Kind::ConnectionKind, read)),
        Call::Yield
        | Call::Halt
        | Call::MemNew
        | Call::SpaceNew
        | Call::GroupNew
        | Call::NoteNew
        | Call::ConnNew
        | Call::Checkpoint => {}
    }
    needs
}
