//! The states of the plain machine, whole, and what a call, an instruction or a tick does to one.
//!
//! The definitions are in `specs/`. `State` is their slow form; `plain_model` has the worlds that are made of states.
#![tactic(auto)]

mod calls;
mod copies;
mod effect;
mod instruction;
mod label;
mod memory;
mod object;
mod object_effects;
mod objects;
mod page;
mod reach;
mod refusals;
mod slow_calls;
mod slow_effect;
mod state;
mod store;
mod sweep;
mod tick;
mod waiting_effects;

pub use calls::{ANSWER, CALL_NUMBER, Call, FIRST_ARGUMENT, Need, Refusal};
pub use copies::copy_of_bytes;
pub use effect::{ByteStore, Goes, Output, Place};
pub use instruction::registers_with;
pub use label::{Label, Reply};
pub use memory::{covers, is_covered, place_of, places_of};
pub use object::{Object, has_page_number, includes, pages_of, regions_of, slots_of};
pub use object_effects::{change, inserted, slot_number, with_cap};
pub use objects::{Capability, Kind, Occupant, Region};
pub use page::{PAGE, Page};
pub use reach::{NO_REACH, Reach, Span};
pub use refusals::{cap_in, free_slot};
pub use slow_calls::{REFUSAL_ORDER, arg, needs};
pub use slow_effect::{Change, Effect, regs_of};
pub use state::{NUMBERS, OBJECT_END, PAGE_END, State, Waiting};
pub use sweep::Reached;
pub use tick::{Chosen, choose};
