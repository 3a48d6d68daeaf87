//! A machine of one program over persistent memory, which is put through checkpoints and power cuts.
#![tactic(auto)]

mod answers;
mod area;
mod calls;
mod machine;
mod memory;
mod page;
mod play;
mod program;
mod put;
mod record;
mod ring;
mod run;
mod stage;
mod thread;

pub use answers::{Asked, BootRefused, Did, LightCause, LightRefused, Why};
pub use calls::Refusal;
pub use machine::{Machine, Off};
pub use play::{Answer, BootPlayBroken, CORE, Event, PlayBroken, Played, play_from_boot};
pub use thread::{RunThread, Status};
