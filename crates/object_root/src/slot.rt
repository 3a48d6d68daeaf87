//! The slots of an object.

ghost use Rattle.std.specs.Prelude.{◌≡◌, ◌<◌};

use pmem_layout::SLOTS;

/// A slot of an object.
#[derive(Clone, Copy, PartialEq, Eq, Debug)]
pub enum Slot {
    First,
    Second,
}

impl Slot {
    ghost use Rattle.object_root.specs.Room.{number_of, other_of};

    /// Its number among the slots of its object.
    pub fn number(self) -> u8
        ensures number { result ≡ number_of self }
        ensures in_range { result < SLOTS }
    {
        match self {
            Slot::First => 0,
            Slot::Second => 1,
        }
    }

    /// The other slot of the object.
    pub fn other(self) -> Slot
        ensures { result ≡ other_of self }
    {
        match self {
            Slot::First => Slot::Second,
            Slot::Second => Slot::First,
        }
    }
}
