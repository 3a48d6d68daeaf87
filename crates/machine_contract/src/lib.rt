//! What every machine of the kernel promises, and what follows for any list of events.
//!
//! `Machine` has the calls with all that each promises. `play` and `play_from_boot` put a machine through a list of
//! events, and are proved from those promises alone.
#![tactic(auto)]

mod answers;
mod bounds;
pub mod laws;
mod machine;
mod plays;

pub use answers::{Answer, Asked, BootRefused, Did, Event, LightCause, LightRefused, Off, Why};
pub use bounds::{COPY_TURNS, HOT_EPOCHS, HOT_PAGES, MOST_DUE, MOST_PREPARES, START_TURNS};
pub use machine::Machine;
pub use plays::{BootPlayBroken, PlayBroken, Played, play, play_from_boot};
