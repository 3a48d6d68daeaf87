//! The record of the scheduler.

ghost use Rattle.std.specs.Prelude.{◌≡◌, ◌+◌, ◌<◌, ◌≤◌, ◌↔◌, IsTrue, IfSome, ℕ, Option, None, length, slice_index, slice_index_or};
ghost use Rattle.kobj_codec.specs.declared.obj.Scheduler.{Scheduler};
ghost use Rattle.kobj_codec.specs.declared.obj.Obj.TheVariants as objs;
ghost use Rattle.kobj_codec.specs.Objects.{IsScheduler, IsOccupant};
ghost use Rattle.kobj_codec.specs.Records as records;
ghost use Rattle.kobj_codec.specs.Records.{IsRecord};

use crate::kinds::SCHEDULER_KIND;
use crate::list::{is_list, list_word, read_list};
use crate::obj::Scheduler;
use pmem_layout::SLOT_WORDS;
use sls_base::{CORE_SLICE, CORES, OBJECTS, ObjId};

/// Where the run queue begins in a record.
const QUEUE_AT: usize = 1 + CORES;
/// The mark of a core that runs a thread.
const RUNNING_MARK: u8 = 0x80;

/// Whether the scheduler has a record.
pub fn is_scheduler(scheduler: &Scheduler) -> bool
    ensures { IsTrue result ↔ IsScheduler scheduler.now }
{
    let cores = usize::from(scheduler.cores);
    1 <= cores
        && cores <= CORES
        && are_running(&scheduler.running, cores)
        && is_list(scheduler.queue.as_slice())
}

/// Whether threads run on cores below a number alone.
fn are_running(running: &[Option<(ObjId, u8)>; CORES], cores: usize) -> bool
    ensures size { length running.now ≡ CORES }
    ensures running { IsTrue result ↔ (((core : ℕ) → IfSome (slice_index_or running.now core None) IsOccupant)
        × ((core : ℕ) → cores ≤ core → slice_index_or running.now core None ≡ None)) }
{
    for (core, occupant) in running.iter().enumerate() {
        if let Some(occupant) = occupant
            && !(core < cores && is_occupant(*occupant))
        {
            return false;
        }
    }
    true
}

fn is_occupant(occupant: (ObjId, u8)) -> bool
    ensures { IsTrue result ↔ IsOccupant occupant }
{
    let (thread, slice) = occupant;
    usize::from(thread) < OBJECTS && 1 <= slice && slice <= CORE_SLICE
}

/// Word 0 of the scheduler's record.
pub fn scheduler_head(scheduler: &Scheduler) -> u64
    ensures { result ≡ records.head_word (objs.Scheduler scheduler.now) }
{
    u64::from_le_bytes([SCHEDULER_KIND, scheduler.cores, 0, 0, 0, 0, 0, 0])
}

/// Word i + 1 of the scheduler's record.
pub fn scheduler_word(scheduler: &Scheduler, i: usize) -> u64
    requires { i + 1 < SLOT_WORDS }
    ensures { result ≡ records.word_behind (objs.Scheduler scheduler.now) i }
{
    match scheduler.running.get(i) {
        Some(occupant) => core_word(*occupant),
        None => list_word(scheduler.queue.as_slice(), i - CORES),
    }
}

fn core_word(occupant: Option<(ObjId, u8)>) -> u64
    ensures { result ≡ records.core_word occupant }
{
    match occupant {
        None => 0,
        Some((thread, slice)) => {
            u64::from_le_bytes([thread, slice, 0, 0, 0, 0, 0, RUNNING_MARK])
        }
    }
}

/// What a word tells of a core.
fn occupant_of(word: u64) -> Option<(ObjId, u8)>
    ensures { (occupant : Option (ℕ × ℕ)) → IfSome occupant IsOccupant → word ≡ records.core_word occupant
        → result ≡ occupant }
{
    if word == 0 {
        return None;
    }
    let [thread, slice, _, _, _, _, _, _] = word.to_le_bytes();
    Some((thread, slice))
}

/// The scheduler of a record.
pub fn read_scheduler(words: &[u64; SLOT_WORDS]) -> Scheduler
    ensures { (scheduler : Scheduler) → IsScheduler scheduler
        → IsRecord (slice_index words.now) (objs.Scheduler scheduler) → result ≡ scheduler }
{
    let [_, cores, _, _, _, _, _, _] = words[0].to_le_bytes();
    let mut running = [None; CORES];
    for core in 0..CORES {
        running[core] = occupant_of(words[core + 1]);
    }
    Scheduler {
        cores,
        running,
        queue: read_list(words, QUEUE_AT),
    }
}
