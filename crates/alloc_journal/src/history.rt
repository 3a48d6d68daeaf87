//! Steps among whatever else happens to the memory.

ghost use Rattle.std.specs.Prelude.{◌≡◌, ◌≢◌, ◌<◌, ℕ, Bool, All};
ghost use Rattle.pmem_model.specs.Memory.{word_at, AllHome};
ghost use Rattle.alloc_journal.specs.Format.{NumbersStand};
ghost use Rattle.alloc_journal.specs.Shows.{NumbersShow};
ghost use Rattle.alloc_journal.specs.declared.history.Event.TheVariants as events;
ghost use Rattle.alloc_journal.specs.Events.{IsPossible, Happens, Plays};

use crate::numbers::Numbers;
use pmem_layout::line_at;
use pmem_model::Pmem;
use sls_base::{CoreNo, LAST_VERSION, ObjId, PageNo};

/// What befalls the numbers and the memory between two commits.
#[derive(Clone, Copy)]
pub enum Event {
    /// The least free object number comes into use, if there is one.
    TakeObject,
    /// The least free page number comes into use, if there is one.
    TakePage,
    FreeObject(ObjId),
    FreePage(PageNo),
    /// A step of the log of the next version, if there is one.
    Log,
    /// A step that applies the log of the committed version, where none is written.
    Apply,
    /// A step of a recovery.
    Redo,
    /// The cached value of this word becomes durable.
    WriteBack(usize),
    /// This core flushes the line of this word.
    Flush(CoreNo, usize),
    /// This core fences.
    Fence(CoreNo),
    /// Something is stored in this word, which is of another owner.
    Store(usize, u64),
    /// The power goes and comes back, and a recovery begins.
    Cut,
}

/// Lets one event happen.
#[tactic(auto, using(crate::proofs::Homes::places))]
fn happen(numbers: &mut Numbers, nvm: &mut Pmem, event: Event)
    requires possible { IsPossible event }
    requires home { AllHome nvm.old }
    ensures home { AllHome nvm.new }
    ensures happens { Happens event numbers.old (word_at nvm.old) numbers.new (word_at nvm.new) }
    ensures shows { (v : ℕ) (saved : ℕ → Bool) → NumbersShow numbers.old.work (word_at nvm.old) v saved
        → NumbersShow numbers.new.work (word_at nvm.new) v saved }
{
    match event {
        Event::TakeObject => {
            if let Some(id) = numbers.least_free_object() {
                numbers.take_object(id);
            }
        }
        Event::TakePage => {
            if let Some(page) = numbers.least_free_page() {
                numbers.take_page(page);
            }
        }
        Event::FreeObject(id) => numbers.note_free_object(id),
        Event::FreePage(page) => numbers.note_free_page(page),
        Event::Log => {
            if numbers.version() < LAST_VERSION {
                numbers.log_step(nvm);
            }
        }
        Event::Apply => {
            if !numbers.is_logged() {
                numbers.apply_step(nvm);
            }
        }
        Event::Redo => {
            numbers.redo_step(nvm);
        }
        Event::WriteBack(at) => nvm.write_back(at),
        Event::Flush(core, at) => nvm.flush(core, line_at(at), 1),
        Event::Fence(core) => nvm.fence(core),
        Event::Store(at, value) => nvm.burst(at, &[value]),
        Event::Cut => cut(numbers, nvm),
    }
}

/// The power goes and comes back at the same version.
fn cut(numbers: &mut Numbers, nvm: &mut Pmem)
    requires { AllHome nvm.old }
    ensures home { AllHome nvm.new }
    ensures happens { Happens events.Cut numbers.old (word_at nvm.old) numbers.new (word_at nvm.new) }
    ensures shows { (v : ℕ) (saved : ℕ → Bool) → NumbersShow numbers.old.work (word_at nvm.old) v saved
        → NumbersShow numbers.new.work (word_at nvm.new) v saved }
{
    let version = numbers.version();
    nvm.cut();
    *numbers = Numbers::recover(nvm, version);
}

/// Lets these events happen between two commits, in order. Whatever they are, the memory tells the same numbers at the
/// committed version as before.
pub fn play(numbers: &mut Numbers, nvm: &mut Pmem, events: &[Event])
    requires possible { All IsPossible events.now }
    requires home { AllHome nvm.old }
    ensures home { AllHome nvm.new }
    ensures plays { Plays events.now numbers.old (word_at nvm.old) numbers.new (word_at nvm.new) }
    ensures shows { (v : ℕ) (saved : ℕ → Bool) → NumbersShow numbers.old.work (word_at nvm.old) v saved
        → NumbersShow numbers.new.work (word_at nvm.new) v saved }
    ensures stands { (v : ℕ) (saved : ℕ → Bool) → NumbersShow numbers.old.work (word_at nvm.old) v saved
        → NumbersStand (λ i. (word_at nvm.new i).durable) v saved }
{
    for event in events {
        happen(numbers, nvm, *event);
    }
}
