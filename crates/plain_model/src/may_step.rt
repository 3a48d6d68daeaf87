//! Which labels may befall a world.

ghost use Rattle.std.specs.Prelude.{◌≡◌, ◌↔◌, true};
ghost use Rattle.plain_model.specs.MayStep.{MayStep};
ghost use Rattle.plain_model.specs.SlowWorld.{world_of};

use crate::world::World;
use plain_state::Label;
use sls_base::{ENTRY_BYTES, LAST_VERSION, OUTPUT_CHANNELS};

#[tactic(auto, unfolding(crate::specs::SlowWorld::world_of, plain_state::specs::Slow::state_of))]
impl World {
    /// Whether a label may befall the world: a core that there is, a version that isn't the last, a channel that there is, an
    /// input of 1 to 56 bytes.
    pub fn may_step(&self, label: &Label) -> bool
        ensures { (result ≡ true) ↔ MayStep (world_of self.now) label.now }
    {
        match label {
            Label::Tick(core) => usize::from(*core) < self.running.cores.len(),
            Label::Commit => self.version < LAST_VERSION,
            Label::Cut => true,
            Label::Accept(channel) => usize::from(*channel) < OUTPUT_CHANNELS,
            Label::Input(bytes) => 1 <= bytes.len() && bytes.len() <= ENTRY_BYTES,
        }
    }
}
