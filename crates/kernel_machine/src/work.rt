//! What a machine is at.

use checkpoint_turns::Checkpoint;
use core_turns::Running;
use first_format::Formatting;
use kernel_calls::Calls;
use sls_base::Image;
use tree_restore::Recovery;

/// What a machine is at, with all that it needs for it. No turn takes memory: the kernel that is to run is there from
/// the start.
#[derive(Drop)]
pub enum Work {
    /// It stores the first version.
    Formats(FirstFormat),
    /// It recovers the version that is saved.
    Recovers(Restoring),
    /// Its cores run.
    Runs(Running),
    /// A checkpoint of its cores is in flight.
    Saves(Checkpoint),
    /// It goes from one to another, within a call.
    Between,
}

/// The first version is being stored, from this image.
#[derive(Drop)]
pub struct FirstFormat {
    pub image: Image,
    pub formatting: Formatting,
    pub calls: Calls,
}

/// The saved version is being recovered, behind the first formatting or behind a cut.
#[derive(Drop)]
pub struct Restoring {
    pub recovery: Recovery,
    pub calls: Calls,
    pub is_first: bool,
}
