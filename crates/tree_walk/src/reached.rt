//! Which numbers are reached.

ghost use Rattle.std.specs.Prelude.{◌≡◌, ℕ, ◌<◌, false, slice_index_or};
ghost use Rattle.sls_base.specs.declared.limits.TheConstants.{OBJECTS};
ghost use Rattle.plain_model.specs.Sweep.{is_reached};
ghost use Rattle.kobj_table.specs.Objects.{Rest, state_of};

use crate::walk::Walk;
use kobj_table::Objects;
use sls_base::{OBJECTS, ObjId};

/// The numbers that an `ObjId` can be. Those that no object has can be named too.
pub(crate) const NUMBERS: usize = 256;

/// Which numbers are reached.
#[derive(Clone, Copy)]
pub(crate) struct Reached {
    pub(crate) is: [bool; NUMBERS],
}

impl Reached {
    ghost use Rattle.tree_walk.specs.Reached.{has, TellsReached};

    /// Whether a number is reached.
    pub(crate) fn has(&self, id: ObjId) -> bool
        ensures { result ≡ has self.now id }
    {
        self.is[usize::from(id)]
    }

    /// The numbers that the tree of capabilities reaches. Each is entered once.
    pub(crate) fn of(objects: &Objects) -> Reached
        ensures { (rest : Rest) → TellsReached result (state_of objects.now rest) }
    {
        plain_laws::laws::reached_is_least();
        let mut walk = Walk::new();
        let mut entered = 0;
        while entered < walk.found.len() {
            let id = walk.found[entered];
            walk.enter(objects, id);
            entered += 1;
        }
        walk.reached
    }
}

/// Which objects the tree of capabilities reaches, by number.
pub fn reach(objects: &Objects) -> [bool; OBJECTS]
    ensures { (rest : Rest) (i : ℕ) → i < OBJECTS
        → slice_index_or result i false ≡ is_reached (state_of objects.now rest) i }
{
    let reached = Reached::of(objects);
    let mut is = [false; OBJECTS];
    for id in 0..OBJECTS {
        is[id] = reached.is[id];
    }
    is
}
