//! The areas of saved states, and the running pages.

ghost use Rattle.std.specs.Prelude.{◌≡◌, ℕ, ◌+◌, ◌*◌, ◌<◌, ◌≤◌, ◌%◌, IsTrue, length, slice_index};
ghost use Rattle.pmem_model.specs.Memory.{word_at, AllHome};
ghost use Rattle.pmem_model.specs.Events.{WordCalm};
ghost use Rattle.sls_kernel.specs.Words.{area_of, record_word, area_place, running_place};
ghost use Rattle.sls_kernel.specs.Areas.{PartsAre, IsOffArea, AreRunningWords, IsRecordOf, StoresPart};
ghost use Rattle.sls_kernel.specs.Stages.{is_save_step, save_kind, kind_after, step_after};
ghost use Rattle.sls_kernel.specs.Counts.{SameCounts};

use crate::stage::SaveStep;
use crate::thread::RunThread;
use crate::{memory, record};
use pmem_model::Pmem;
use sls_base::Version;

/// The first frame of the first area.
const FIRST_AREA: usize = 16;

/// The frames from one area to the next.
const AREA_FRAMES: usize = 8;

/// The part of an area that has the thread's record; the parts below it are the pages.
pub const RECORD_PART: u8 = 5;

/// The frame of a running page.
pub fn running_frame(page: u8) -> usize
    ensures { result ≡ 2 * page }
{
    2 * page as usize
}

/// The frame of a part of an area.
pub fn area_frame(area: usize, part: u8) -> usize
    requires { area < 2 }
    ensures { result ≡ 16 + 8 * area + part }
{
    FIRST_AREA + AREA_FRAMES * area + part as usize
}

/// The area of a version.
pub fn area_of_version(version: Version) -> usize
    ensures area { result ≡ area_of version }
    ensures range { result < 2 }
{
    if version % 2 == 0 { 0 } else { 1 }
}

/// Does one step of saving the running state into an area. `room` has the place for a record.
pub fn save(
    nvm: &mut Pmem,
    area: usize,
    step: SaveStep,
    thread: &RunThread,
    put: &[u64; 4],
    room: &mut [u64],
)
    requires range { area < 2 }
    requires step { IsTrue (is_save_step step) }
    requires home { AllHome nvm.old }
    requires room { length room.old ≡ 21 }
    ensures home { AllHome nvm.new }
    ensures rest { (i : ℕ) → IsOffArea area i → WordCalm (word_at nvm.old i) (word_at nvm.new i) }
    ensures counts { (word_at nvm.new 1).durable ≡ (word_at nvm.old 1).durable → SameCounts nvm.old nvm.new }
    ensures stores { (words : ℕ → ℕ → ℕ) → AreRunningWords words (word_at nvm.old) → IsRecordOf words thread.now put.now
        → (i : ℕ) → StoresPart area words (word_at nvm.old) (word_at nvm.new) i }
    ensures saved { (words : ℕ → ℕ → ℕ) → AreRunningWords words (word_at nvm.old) → IsRecordOf words thread.now put.now
        → PartsAre (save_kind step) (word_at nvm.old) (area_place area) words
        → PartsAre (kind_after (step_after step)) (word_at nvm.new) (area_place area) words }
{
    match step {
        SaveStep::Copy(page) => memory::copy(nvm, running_frame(page), area_frame(area, page)),
        SaveStep::Record => {
            record::fill(room, thread, put);
            memory::store(nvm, area_frame(area, RECORD_PART), 0, room);
        }
        SaveStep::Flush(part) => memory::flush(nvm, area_frame(area, part)),
        SaveStep::Fence => memory::fence(nvm),
    }
}
