//! The plain machine: whole states of the kernel's objects, and one saved copy of them.
//!
//! Its definitions are in `specs/`, from `Objects` to `Play`: those of one state are `plain_state`'s, and are passed on here.
//! `World` is its slow form.
#![tactic(auto)]

mod cost;
mod ecall;
mod image;
mod initial;
mod instruction;
mod may_step;
mod reach;
mod refusals;
mod world;

pub use image::{PROGRAM_REGIONS, PROGRAM_THREADS, PROGRAMS, is_accepted};
pub use plain_state::{
    ANSWER, ByteStore, CALL_NUMBER, Call, Capability, FIRST_ARGUMENT, Goes, Kind, Label, Need,
    Object, Occupant, Output, Page, Place, REFUSAL_ORDER, Reach, Refusal, Region, Reply, Span,
    State, Waiting, arg, covers, is_covered, needs, place_of,
};
pub use refusals::{is_bad_part, is_bad_range, is_entry_length, is_memory_size, meets};
pub use world::World;
