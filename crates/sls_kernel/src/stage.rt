//! Where a machine is in formatting, in recovery or in a checkpoint. Each step is one operation on the memory.

ghost use Rattle.std.specs.Prelude.{◌≡◌, IsTrue};
ghost use Rattle.sls_kernel.specs.Stages.{step_after, format_next, checkpoint_next, resumed_of, is_save_step};

/// The pages of the state: the four rings and the program's page.
pub const STATE_PAGES: u8 = 5;

/// The parts of an area: the pages and the thread's record.
pub const PARTS: u8 = 6;

/// The steps that copy the running state into an area and make it durable.
#[derive(Clone, Copy)]
pub enum SaveStep {
    /// Copy this page.
    Copy(u8),
    /// Store the thread's record.
    Record,
    /// Flush this part.
    Flush(u8),
    Fence,
}

/// The steps of formatting: the program is stored, the state is saved into the first area, and the format word comes
/// last.
#[derive(Clone, Copy)]
pub enum FormatStep {
    Fill,
    Save(SaveStep),
    StoreWord,
    FlushWord,
    FenceWord,
}

/// The steps of a checkpoint: the state is saved into the area that isn't the committed one, and the version word comes
/// last.
#[derive(Clone, Copy)]
pub enum CheckpointStep {
    Save(SaveStep),
    StoreVersion,
    FlushVersion,
    FenceVersion,
    /// The version word became durable by a write-back before its flush.
    FlushAgain,
    /// The same, before its fence.
    FenceAgain,
}

#[derive(Clone, Copy)]
pub enum Stage {
    Format(FormatStep),
    /// Copy this page back.
    Recover(u8),
    Up,
    Checkpoint(CheckpointStep),
}

impl SaveStep {
    pub const FIRST: SaveStep = SaveStep::Copy(0);

    /// The step after this one, unless it is the last.
    pub fn after(self) -> Option<SaveStep>
        requires { IsTrue (is_save_step self) }
        ensures { result ≡ step_after self }
    {
        match self {
            SaveStep::Copy(page) if page + 1 < STATE_PAGES => Some(SaveStep::Copy(page + 1)),
            SaveStep::Copy(_) => Some(SaveStep::Record),
            SaveStep::Record => Some(SaveStep::Flush(0)),
            SaveStep::Flush(part) if part + 1 < PARTS => Some(SaveStep::Flush(part + 1)),
            SaveStep::Flush(_) => Some(SaveStep::Fence),
            SaveStep::Fence => None,
        }
    }
}

/// Where a checkpoint goes on once its version word is durable before the leader's fence.
pub fn resumed(stage: Stage) -> Option<Stage>
    ensures { result ≡ resumed_of stage }
{
    match stage {
        Stage::Checkpoint(CheckpointStep::FlushVersion) => {
            Some(Stage::Checkpoint(CheckpointStep::FlushAgain))
        }
        Stage::Checkpoint(CheckpointStep::FenceVersion) => {
            Some(Stage::Checkpoint(CheckpointStep::FenceAgain))
        }
        _ => None,
    }
}

/// What formatting does next, after saving so far.
pub fn format_after(next: Option<SaveStep>) -> Stage
    ensures { result ≡ format_next next }
{
    match next {
        Some(step) => Stage::Format(FormatStep::Save(step)),
        None => Stage::Format(FormatStep::StoreWord),
    }
}

/// What a checkpoint does next, after saving so far.
pub fn checkpoint_after(next: Option<SaveStep>) -> Stage
    ensures { result ≡ checkpoint_next next }
{
    match next {
        Some(step) => Stage::Checkpoint(CheckpointStep::Save(step)),
        None => Stage::Checkpoint(CheckpointStep::StoreVersion),
    }
}
