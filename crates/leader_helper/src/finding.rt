//! What the leader takes up next.

ghost use Rattle.std.specs.Prelude.{◌≡◌, ◌<◌, ℕ, MatchOption};
ghost use Rattle.sls_base.specs.declared.limits.TheConstants.{OBJECTS as EVERY_OBJECT, PAGES as EVERY_PAGE};
ghost use Rattle.leader_helper.specs.First.{IsFirstFrom, IsNoneFrom};
ghost use Rattle.leader_helper.specs.Leads.{is_changed};
ghost use Rattle.leader_helper.specs.Turns.{is_to_flush, is_unflushed};

use crate::leader::Leader;
use page_store::{PageStage, Writes};
use sls_base::{OBJECTS, ObjId, PAGES, PageNo};
use version_rooms::Rooms;

/// The first page, from this one on, that is to be flushed.
pub(crate) fn next_stored(rooms: &Rooms, first: PageNo) -> Option<PageNo>
    ensures { MatchOption result (IsNoneFrom first EVERY_PAGE (is_to_flush rooms.now))
        (IsFirstFrom first EVERY_PAGE (is_to_flush rooms.now)) }
{
    for page in first..PAGES as PageNo {
        if was_stored_to(rooms.page_stage(page)) {
            return Some(page);
        }
    }
    None
}

/// Whether a page was stored to and not flushed since.
fn was_stored_to(stage: PageStage) -> bool
    ensures { result ≡ is_unflushed stage }
{
    match stage {
        PageStage::Writable(_, Writes::Stored) => true,
        _ => false,
    }
}

/// The first object, from this one on, that changed.
pub(crate) fn next_changed(leader: &Leader, first: ObjId) -> Option<ObjId>
    ensures { MatchOption result (IsNoneFrom first EVERY_OBJECT (is_changed leader.now))
        (IsFirstFrom first EVERY_OBJECT (is_changed leader.now)) }
{
    for id in first..OBJECTS as ObjId {
        if leader.changed[usize::from(id)] {
            return Some(id);
        }
    }
    None
}
