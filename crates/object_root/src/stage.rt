//! How far the objects have come.

ghost use Rattle.std.specs.Prelude.{◌≡◌};

use crate::slot::Slot;

/// How far an object's new record has come. A slot that is named here is the one that isn't chosen.
#[derive(Clone, Copy, PartialEq, Eq, Debug)]
pub enum Stage {
    /// There is none.
    Idle,
    /// It is stored in a slot.
    Stored(Slot),
    /// It is in flight, and durable once records are fenced.
    Flushed(Slot),
    /// Its tag is stored.
    TagStored(Slot),
    /// Its tag is in flight, and durable once tags are fenced.
    TagFlushed(Slot),
}

/// What is being done to all objects.
#[derive(Clone, Copy, PartialEq, Eq, Debug)]
pub enum Phase {
    /// Tags above the version are cleared, in order, the first of them being the next.
    Clearing(usize),
    /// The tags that were cleared are in flight.
    Cleared,
    /// Records are written.
    Records,
    /// The records are fenced, and tags are stored.
    Tags,
    /// The tags are fenced.
    Tagged,
}

impl Phase {
    ghost use Rattle.object_root.specs.Steps.{fenced};

    /// The phase behind a fence of what was written.
    pub fn after_fence(self) -> Phase
        ensures { result ≡ fenced self }
    {
        match self {
            Phase::Records => Phase::Tags,
            Phase::Tags => Phase::Tagged,
            Phase::Clearing(_) | Phase::Cleared | Phase::Tagged => self,
        }
    }
}
