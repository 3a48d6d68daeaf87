//! Laws of the memory. Each of these functions does nothing: its contract is the law.

ghost use Rattle.pmem_model.specs.Laws.{StoppedBurstIsWhole, OnlyBurstsLeaveMore, CalmLeavesNoMore, BurstLeaves, CutLeaves, CutCanLeave};
ghost use Rattle.pmem_model.specs.Laws.{CalmEvents, KnownOutlivesCalm, FlushPutsInFlight, FenceSettles, CutLeavesKnown};
ghost use Rattle.pmem_model.specs.Laws.{MapsOutliveCalm, EventsKeepMaps, BurstChangesMap, BurstIsCached, CopyIsCached, FlushPutsMapInFlight};
ghost use Rattle.pmem_model.specs.Laws.{FenceSettlesMap, CutLeavesMap, CutIsClean, LessIsKnown};

/// A cut inside a burst leaves nothing that a cut after it, with chosen write-backs, can't leave.
pub fn stopped_burst()
    ensures { StoppedBurstIsWhole }
{}

/// What a cut after any write-backs may leave, and that it grows by bursts alone.
pub fn what_may_be_left()
    ensures cuts { CutLeaves }
    ensures can { CutCanLeave }
    ensures shrinks { OnlyBurstsLeaveMore }
    ensures calm { CalmLeavesNoMore }
    ensures bursts { BurstLeaves }
{}

/// What is known of a word outlives calm events, a fence settles it, and it bounds what a cut may leave.
pub fn what_is_known()
    ensures calm_events { CalmEvents }
    ensures outlives { KnownOutlivesCalm }
    ensures in_flight { FlushPutsInFlight }
    ensures settles { FenceSettles }
    ensures left { CutLeavesKnown }
{}

/// What is known of many words, by a map: what it outlives, what each event makes of it, and what a cut leaves.
pub fn maps_of_knowledge()
    ensures outlives { MapsOutliveCalm }
    ensures keeps { EventsKeepMaps }
    ensures burst { BurstChangesMap }
    ensures stored { BurstIsCached }
    ensures copied { CopyIsCached }
    ensures in_flight { FlushPutsMapInFlight }
    ensures settles { FenceSettlesMap }
    ensures left { CutLeavesMap }
    ensures clean { CutIsClean }
    ensures less { LessIsKnown }
{}
